//! The headline, on one page: reading a text, writing a bundle and reading a tree, each handed on
//! to the library's own call, with the contract that a stranger needs; and the laws that make it
//! whole. Every other promise stands with its own call, and the other laws in `laws`.
ghost use Rattle.std.specs.Prelude.{◌≡◌, ◌⊎◌, ◌<◌, ◌≤◌, ◌+◌, ◌*◌, ◌^◌, length, IfOk, IfErr};
ghost use Rattle.std.specs.Prelude.{option_map};
ghost use Rattle.resb_tree.specs.Bundle.{name_of, root_of};
ghost use Rattle.resb_tree.specs.View.{tree_of};
ghost use Rattle.resb_grammar.specs.BundleText.{BundleText};
ghost use Rattle.resb_text.specs.Answer.{Fails, IsNoBundle};
ghost use Rattle.resb_text.specs.Refusal.{want_of_memory};
ghost use Rattle.resb_format.specs.Error.{IsWantOfMemory};
ghost use Rattle.resb_write.specs.FaultOf.{fault_of};
ghost use Rattle.resb_layout.specs.TreeFaults.{RefusesWriting};
ghost use Rattle.resb_layout.specs.Written.{Written};
ghost use Rattle.resb_pool_bundle.specs.Pool.{pool_in};
ghost use Rattle.resb.specs.Headline.{DenotesWithin, DenotesNone, OneTreeOfAFile};
ghost use Rattle.resb.specs.Headline.{DenotesWithinBeside, DenotesNoneBeside};

use resb_format::{Key, ReadingError, Resource, ResourceBundle};
use resb_pool_bundle::PoolBundle;
use resb_read::File;
use resb_text::{Reader, TextParserError, Turns};
use resb_write::{BinarySerializerError, Serializer};
use std::alloc::Global;

// A text has one bundle: its name, fallback flag, tree and keys.
pub use resb_text::laws::one_bundle_text;
// No records that could hold a tree's strings take fewer 16-bit units than those of its file.
pub use resb_pool::laws::records_cost_least;
// A bundle and a list of keys leave one file of each packing.
pub use resb_write::laws::one_file;
// Beside one pool bundle a file denotes one tree, with one count of resources.
pub use resb_read::laws::one_tree_of_a_file_with_pool;
// And back again: what was written is read as the tree, what was compiled as the text's tree.
pub use crate::laws::{compiled_is_read, written_is_read, written_is_read_with_pool};

/// Reads a text: `Ok` only with the bundle that the text is by the grammar, and its keys. An error
/// is want of memory, or the place where a reading of the text gets stuck with what was expected
/// there; and then the text is no bundle.
pub fn read_text<'a>(
    alloc: Global,
    text: &'a str,
) -> Result<(ResourceBundle<'a>, Vec<Key<'a>>), TextParserError>
    ensures ok { IfOk result (λ r. BundleText text.now
        (name_of r.0) r.0.is_locale_fallback_enabled (root_of r.0) r.1.items) }
    ensures stuck { IfErr result (Fails text.now) }
    ensures no_bundle { IfErr result (λ e. (e ≡ want_of_memory) ⊎ IsNoBundle text.now) }
{
    Reader::read(alloc, text)
}

/// Reads the text that a counter holds, with the answer of `read_text`, in at most `8 n + 8` turns
/// for `n` bytes, whatever the answer.
pub fn read_text_in_turns<'a>(
    alloc: Global,
    turns: &mut Turns<'a>,
) -> Result<(ResourceBundle<'a>, Vec<Key<'a>>), TextParserError>
    requires { turns.old.count < 2 ^ 64 }
    ensures ok { IfOk result (λ r. BundleText turns.old.text
        (name_of r.0) r.0.is_locale_fallback_enabled (root_of r.0) r.1.items) }
    ensures stuck { IfErr result (Fails turns.old.text) }
    ensures no_bundle { IfErr result (λ e. (e ≡ want_of_memory) ⊎ IsNoBundle turns.old.text) }
    ensures linear { turns.new.count ≤ turns.old.count + 8 * length turns.old.text + 8 }
{
    Reader::read_counted(alloc, turns)
}

/// Writes a bundle, with its keys in the order of a list: `Ok` only with a file that denotes the
/// bundle's tree, for readers of aliases if it has any, within its own budget, with exactly the
/// records that are needed. An error is want
/// of memory, the first fault of keys or counts, or a size of 2^28 and more.
pub fn write_bundle(
    alloc: Global,
    bundle: &ResourceBundle<'_>,
    keys: &[Key<'_>],
) -> Result<Vec<u8>, BinarySerializerError>
    ensures ok { IfOk result (λ file. Written file.items (root_of bundle.now)
        bundle.now.is_locale_fallback_enabled keys.now) }
    ensures refused { IfErr result
        (λ e. RefusesWriting (root_of bundle.now) keys.now (fault_of e)) }
{
    Serializer::to_bytes(alloc, bundle, keys)
}

/// Reads the tree of a file: `Ok` only with a tree that the bytes denote, of no more resources than
/// the budget, which is half the file's bytes. An error is want of memory, or no such tree is
/// denoted.
pub fn read_tree<'a, 'm>(alloc: Global, file: &'a [u8]) -> Result<Resource<'a>, ReadingError<'m>>
    ensures ok { IfOk result (λ r. DenotesWithin file.entry.now (tree_of r)) }
    ensures refused { IfErr result (λ e. IsWantOfMemory e ⊎ DenotesNone file.entry.now) }
{
    resb_read::from_bytes::<Resource<'a>>(alloc, file)
}

/// A file denotes one tree, with one count of resources.
pub fn one_tree_of_a_file()
    ensures { OneTreeOfAFile }
{}

/// Reads the tree of a file of version 1.1 to 3.0, beside the pool bundle that is given, if one is:
/// `Ok` only with a tree that the bytes denote there, of no more resources than the budget. An
/// error is want of memory, or no such tree is denoted, as by a file that uses a pool bundle and is
/// given none or another. Aliases and strings of the older form are read
/// here alone; but for them a file of version 2.0 that has nothing to do with pool bundles is what
/// it is for `read_tree` (`laws`).
pub fn read_tree_with_pool<'a, 'm>(
    alloc: Global,
    file: &'a [u8],
    pool: Option<PoolBundle<'a>>,
) -> Result<Resource<'a>, ReadingError<'m>>
    ensures ok { IfOk result (λ r.
        DenotesWithinBeside (option_map pool_in pool.entry) file.entry.now (tree_of r)) }
    ensures refused { IfErr result (λ e. IsWantOfMemory e
        ⊎ DenotesNoneBeside (option_map pool_in pool.entry) file.entry.now) }
{
    let opened = File::open(file, pool)?;
    opened.read::<Resource<'a>>(alloc)
}
