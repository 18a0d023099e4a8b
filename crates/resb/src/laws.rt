//! The page of theorems: each law of the crates below, as a call that does nothing and whose
//! contract is the law. What a single call promises stands with that call, and the few laws that
//! the headline needs stand beside its calls, in `headline`.
ghost use Rattle.resb_grammar.specs.BundleText.{BundleText};
ghost use Rattle.resb_icu_grammar.specs.Bundle.{IcuText};
ghost use Rattle.resb_text.specs.Answer.{IsNoBundle};
ghost use Rattle.resb_text.specs.Refusal.{want_of_memory};
ghost use Rattle.resb_icu_text.specs.Answer.{IsNoIcuText};
ghost use Rattle.resb_icu_text.specs.Refusal.{want_of_memory as icu_want_of_memory};
ghost use Rattle.resb.specs.Laws.{TextIsRead, PlainIsCompiled, CompiledIsRead};
ghost use Rattle.resb.specs.Laws.{WrittenIsRead};
ghost use Rattle.resb.specs.Laws.{WrittenIsReadWithPool, WrittenOverPoolIsRead};
ghost use Rattle.resb.specs.Laws.{CompiledByIsRead};
ghost use Rattle.resb.specs.Orders.{LittleEndianIsRead, SwappedIsDenoted};

// Trees and integers.

// A table is a finite map: what is put at a key is found there and nowhere else.
pub use resb_tree::laws::tables_are_finite_maps;
// The keys of each table of a resource strictly ascend.
pub use resb_tree::laws::table_ascends;
// An integer of 28 bits is kept by its readings without and with a sign.
pub use resb_tree::laws::integers_survive;
// Two trees don't differ exactly where they are equal, and each difference is so.
pub use resb_diff::laws::{differences_are_so, equal_trees_do_not_differ};
// The old tree with the differences carried out is the new one, without any one of them it isn't,
// none is of two arrays or of two tables, and their paths ascend.
pub use resb_diff::laws::differences_make_the_new_tree;

// Texts.

// A text has at most one name, fallback flag, tree and list of keys.
pub use resb_text::laws::one_bundle_text;
// What is read to the end of the text is a bundle.
pub use resb_text::laws::read_to_the_end_is_a_bundle;
// Each bundle is read to the end of its text.
pub use resb_text::laws::a_bundle_is_read_to_the_end;
// A reading that gets stuck does so at one place, where one thing is expected.
pub use resb_text::laws::one_refusal;
// A text whose reading gets stuck is no bundle.
pub use resb_text::laws::stuck_is_no_bundle;
// No two discovered keys are equal.
pub use resb_text::laws::keys_are_distinct;
// The discovered keys hold each key of the tree.
pub use resb_text::laws::keys_are_listed;
// The tree of a bundle's text has no alias.
pub use resb_grammar::laws::bundle_texts_have_no_alias;
// What the whole reading of a text makes is one number of bytes.
pub use resb_text::laws::one_making;
// A bundle's text is read to its end, and its reading makes some number of bytes.
pub use resb_text::laws::bundles_are_made;
// Where the whole reading of a text makes no more than a limit, no part of it makes more.
pub use resb_text::laws::within_is_never_more;

// A text in ICU's own form has at most one name, fallback flag, tree and list of keys.
pub use resb_icu_grammar::laws::one_icu_text;
// No two of its discovered keys are equal.
pub use resb_icu_grammar::laws::icu_keys_are_distinct;
// They hold each key of its tree.
pub use resb_icu_grammar::laws::icu_keys_are_listed;
// A text in which a reading gets stuck is no bundle in that form.
pub use resb_icu_grammar::laws::icu_stuck_is_no_text;
// A text in which a reading gets stuck does so at one place, where one thing is expected.
pub use resb_icu_grammar::laws::one_icu_refusal;
// Where the whole reading of such a text makes no more than a limit, no part of it makes more.
pub use resb_icu_grammar::laws::icu_within_is_never_more;
// The steps of a reading lead to the end of a text exactly where it is a bundle in that form.
pub use resb_icu_grammar::laws::icu_machine_reads_the_form;
// A tree in whose way nothing stands is printed as a text of that form.
pub use resb_icu_print::laws::printed_icu_is_a_bundle;
// Nothing stands in the way of the tree of such a text.
pub use resb_icu_print::laws::an_icu_text_gives_no_cause;
// Where tables are maps, what keeps it from having one first stands where that path leads, and
// nothing does before it.
pub use resb_icu_print::laws::icu_causes_stand_where_paths_lead;
// Such a printed text has at most 270 bytes a resource, and so much for each byte and number held.
pub use resb_icu_print::laws::printed_icu_is_linear;

// A tree in whose way nothing stands is printed as a bundle text.
pub use resb_print::laws::printed_is_a_bundle;
// Nothing stands in the way of a bundle text's tree.
pub use resb_print::laws::a_bundle_gives_no_cause;
// Where tables are maps, the first cause stands where that path leads, and no cause stands before
// it; without a first cause none stands anywhere.
pub use resb_print::laws::causes_stand_where_paths_lead;
// A printed text has at most 270 bytes a resource, and so much for each byte and number held.
pub use resb_print::laws::printed_is_linear;

// Files.

// The checks of a header let through exactly the headers that pass each.
pub use resb_head::laws::header_passes;
// The checks of a file's head let through exactly the bundle files.
pub use resb_head::laws::bundle_file_passes;
// The checks of a head let through exactly the pool bundles, and exactly the files that can be read
// beside a pool bundle.
pub use resb_pool_bundle::laws::files_pass;
// A file of version 2.0 that neither is nor uses a pool bundle has beside any the refusal that it
// has alone, and its parts, of which aliases are read; and it denotes what it does where they are.
pub use resb_pool_bundle::laws::{own_files_are_the_same, own_files_denote_the_same};
// It denotes a tree where they aren't read exactly where it denotes it where they are, and its root
// leads to none of them.
pub use resb_pool_bundle::laws::own_files_denote_without_older;
// What is denoted where aliases aren't read is denoted where they are.
pub use resb_format::laws::denoted_beside_no_pool;
// There keys and texts are looked up among the file's own.
pub use resb_format::laws::own_keys_and_texts_are_looked_up;
// A word denotes at most one tree, with one count.
pub use resb_format::laws::one_tree;
// Each table of a denoted tree is a map whose keys strictly ascend.
pub use resb_format::laws::denoted_are_maps;
// A word that denotes a tree reaches no more resources than the tree has.
pub use resb_format::laws::reached_is_counted;
// It reaches each number of resources up to that.
pub use resb_format::laws::counted_is_reached;
// A word that reaches a number of resources reaches each smaller one.
pub use resb_format::laws::reaching_goes_down;
// A file whose tree isn't read is refused in one way, memory aside.
pub use resb_read::laws::one_refusal_of_a_file;
// What a reading of a file's tree goes through is one list of resources and keys.
pub use resb_read::laws::one_weight;
// A file's tree weighs no more than what is read of it, and the same where no entry is replaced.
pub use resb_read::laws::trees_weigh_no_more;
// Beside a pool bundle a file is refused in one way too, and its tree has one weight and is no
// heavier than what is read of it.
pub use resb_read::laws::{
    one_refusal_with_pool, one_weight_with_pool, trees_weigh_no_more_with_pool,
};
// Bytes are a package of at most one list of items.
pub use resb_package::laws::one_package;
// Two items of a package have two names.
pub use resb_package::laws::names_differ;
// The checks of a package let through exactly the packages.
pub use resb_package::laws::package_passes;
// A file that was swapped to the other order of bytes is swapped back to the same bytes.
pub use resb_swap::laws::swapped_back;
// A swapped file is as long as the file.
pub use resb_swap::laws::swapped_is_as_long;
// A file has one swapped file.
pub use resb_swap::laws::one_swap;
// The bytes that `little_endian` gives of a file denote what the file does in its own order.
pub use resb_swap::laws::little_endian_denotes;
// A package that was swapped to the other order of bytes is swapped back to the same bytes.
pub use resb_swap::laws::package_swapped_back;
// A package has one swapped package.
pub use resb_swap::laws::one_package_swap;
// Units of a block are well-formed exactly by their two ends and their neighbours.
pub use resb_blocks::laws::ranges_by_links;
// A place in a key has a key exactly where a character begins.
pub use resb_blocks::laws::keys_in_keys;
// A text has as many bytes of UTF-8 as its units take, one by one.
pub use resb_blocks::laws::widths_of_texts;
// Two readings of one place give one value.
pub use resb_read::laws::one_value;
// What is found for a name is the value of the last entry of that name.
pub use resb_read::laws::last_of_a_name;
// What is found inside a table, an array or a vector is what stands in its tree.
pub use resb_read::laws::found_inside_is_in_the_tree;
// Whether the keys of a table ascend is told by a test.
pub use resb_read::laws::ascend_is_told;

// Writing.

// Strings have one pool, and each text one place in it.
pub use resb_pool::laws::one_pool;
// Each text of a pool is read back where it stands.
pub use resb_pool::laws::pool_is_read;
// No records that could hold the strings take fewer 16-bit units.
pub use resb_pool::laws::records_cost_least;
// From where it begins a tree is laid out in one way.
pub use resb_layout::laws::one_layout;
// The bodies stand in laying order, without a gap but for filling bytes.
pub use resb_layout::laws::laid_in_order;
// In a file that holds what was laid out for a tree, its word denotes the tree.
pub use resb_layout::laws::laid_is_denoted;
// What was laid out has two bytes for each resource but the root.
pub use resb_layout::laws::laid_is_paid;
// No key that a compact file keeps is the end of another, each key lies in one that is kept, and no
// block of bytes that holds them all is shorter.
pub use resb_layout::key_laws::kept_keys_are_least;
// The units of a tree don't depend on where the tail begins.
pub use resb_write::laws::one_block;
// In each file without a pool bundle the bodies stand in laying order, without a gap.
pub use resb_write::laws::written_in_order;
// A written file denotes its tree: without aliases alone too, and without an empty string where it
// is compact.
pub use resb_write::laws::written_is_denoted;
// A bundle and a list of keys leave one file of each packing.
pub use resb_write::laws::one_file;
// A bundle, a list of keys and a pool bundle leave one file of each packing.
pub use resb_write::laws::one_file_with_pool;
// A file that is written over a pool bundle denotes its tree beside it.
pub use resb_write::laws::written_with_pool_is_read;
// A pool bundle that was made is read, and lends just the keys and strings that it is made of.
pub use resb_pool_maker::laws::made_pool_is_read;
// Without rules nothing is left out of a tree.
pub use resb_filter::laws::no_rules_leave_all;
// What rules leave they leave as it is.
pub use resb_filter::laws::filtered_once;
// What stands at a key afterwards is what the rules leave of what stood there.
pub use resb_filter::laws::what_is_left_at_a_key;

// Codecs: what is written is read back, and what is read is written as it stood.

// A type, by its number.
pub use resb_format::laws::type_survives;
// A descriptor, by its word.
pub use resb_format::laws::descriptor_survives;
// An order of bytes, by its number.
pub use resb_head::laws::endianness_survives;
// A family of character sets, by its number.
pub use resb_head::laws::charset_survives;
// Versions are ordered as they came.
pub use resb_head::laws::versions_ascend;
// A version, by its four bytes.
pub use resb_head::laws::version_survives;
// A header that was read, by its bytes.
pub use resb_head::laws::header_survives;
// An index, by its bytes.
pub use resb_head::laws::index_survives;

// And back again.

/// A text of a bundle, as one that `Print` gives, is read back as that bundle, memory aside.
pub fn bundle_text_is_read()
    ensures { TextIsRead BundleText IsNoBundle want_of_memory }
{}

/// A text of a bundle in ICU's form, as one that `Print` gives, is read back as that
/// bundle, memory aside.
pub fn icu_text_is_read()
    ensures { TextIsRead IcuText IsNoIcuText icu_want_of_memory }
{}

/// What was written of a tree without aliases, and without an empty string where the file is
/// compact, is read back by `from_bytes::<Resource>` as that tree, memory aside.
pub fn written_is_read()
    ensures { WrittenIsRead }
{}

/// What was written of any tree, compact or not, is read back by `File::read::<Resource>`, once
/// `File::open` has opened it, as that tree, memory aside.
pub fn written_is_read_with_pool()
    ensures { WrittenIsReadWithPool }
{}

/// What is compiled of a text of the plain form, with no option, is a written file of the text's
/// bundle.
pub fn plain_is_compiled()
    ensures { PlainIsCompiled }
{}

/// A compiled text is read back by `from_bytes::<Resource>` as the text's tree, memory aside.
pub fn compiled_is_read()
    ensures { CompiledIsRead }
{}

/// What was written over a pool bundle, compact or not, is read back by `File::read::<Resource>`
/// beside that pool bundle as its tree, memory aside.
pub fn written_over_pool_is_read()
    ensures { WrittenOverPoolIsRead }
{}

/// A text that was compiled in any way is read back by `File::read::<Resource>`, beside the way's
/// pool bundle, if it has one, as what the way's rules leave of the text's tree, memory aside.
pub fn compiled_by_is_read()
    ensures { CompiledByIsRead }
{}

/// What `File::read::<Resource>` reads of the bytes that `little_endian` gives of a file, once
/// `File::open` has opened them, is the tree that the file denotes in its own order of bytes,
/// memory aside.
pub fn little_endian_is_read()
    ensures { LittleEndianIsRead }
{}

/// What was written of any tree, compact or not, and then swapped, denotes that tree in its own
/// order of bytes.
pub fn swapped_is_denoted()
    ensures { SwappedIsDenoted }
{}
