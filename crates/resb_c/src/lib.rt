//! The library for C, whose header is `include/resb.h`: each call hands the caller's buffers on,
//! and writes its status, a length and an error where the caller wants them. What is done over the
//! bytes is in `compiling`, `warned`, `dumping`, `swapping`, `files` and `zones`, over an opened
//! file in `seen` and `within`, and why a call fails is in `fault`.
#![tactic(auto)]

ghost use Rattle.std.specs.Prelude.{◌≡◌, ◌⊎◌, ℕ, ℤ, pos, List, length, min, Result};
ghost use Rattle.std.specs.Prelude.{MatchOption};
ghost use Rattle.resb_tree.specs.Tree.{Tree, Entries, table, map_of};
ghost use Rattle.resb_layout.specs.Laid.{words};
ghost use Rattle.resb_path.specs.Finding.{Spot, tree_spot};
ghost use Rattle.resb_read.specs.declared.measuring.Measured.{Measured};
ghost use Rattle.resb_diagnostics.specs.Location.{line_at, column_at};
ghost use Rattle.resb_zoneinfo.specs.Reading.{ReadsInfo, RefusesInfo};
ghost use Rattle.resb_c.specs.AtPlaces.{found_kind};
ghost use Rattle.resb_c.specs.Calls.{Reports, Tells, integer_told, number_told};
ghost use Rattle.resb_c.specs.Compiling.{CompilesInto};
ghost use Rattle.resb_c.specs.Dumping.{DumpsInto};
ghost use Rattle.resb_c.specs.Handed as handed;
ghost use Rattle.resb_c.specs.Handed.{units_handed};
ghost use Rattle.resb_c.specs.Handed.{HandsOn, HandsPart, IsOpenedAs, TellsKeyOf};
ghost use Rattle.resb_c.specs.Measures.{MeasuresFile, ShowsSums};
ghost use Rattle.resb_c.specs.Opened.{Shows, HoldsEntries};
ghost use Rattle.resb_c.specs.Opening.{OpensFile};
ghost use Rattle.resb_c.specs.Shown.{bytes_shown, numbers_shown, signed_shown, text_shown};
ghost use Rattle.resb_c.specs.Shown.{unsigned_shown, FillsText, FindsPath, HasSize, MemberOf};
ghost use Rattle.resb_c.specs.Shown.{ValueAtKey};
ghost use Rattle.resb_c.specs.Swapping.{SwapsInto};
ghost use Rattle.resb_c.specs.Warned.{WarnsInto};
ghost use Rattle.resb_c.specs.Zones.{TellsOffset};

mod compiling;
mod dumping;
mod fault;
mod files;
mod handed;
mod measured;
mod opened;
mod opening;
mod options;
mod path;
mod report;
mod resource;
mod seen;
mod swapping;
mod there;
mod warned;
mod within;
mod zones;

use crate::compiling::compile_into;
use crate::dumping::dump_into;
use crate::files::{Input, measure_file};
use crate::handed::{hand_bytes, hand_on, status_of};
use crate::opening::open_file;
use crate::report::{length_of, report, tell};
use crate::seen::{
    bytes_seen, kind_seen, numbers_seen, signed_seen, text_into, units_seen, unsigned_seen,
};
use crate::swapping::swap_into;
use crate::warned::warn_into;
use crate::within::{find_at_path, key_seen, member_seen, value_at_key};
use crate::zones::tell_offset;
pub use fault::Fault;
pub use handed::ResbBytes;
pub use measured::ResbMeasured;
pub use opened::ResbOpened;
pub use options::ResbOptions;
pub use report::ResbError;
use resb_diagnostics::location_of;
use resb_fields::Fields;
use resb_zoneinfo::InfoFields;
pub use resource::ResbResource;
use std::alloc::Global;

/// The version of the header that this library has the calls of: its `RESB_VERSION`.
#[unsafe(no_mangle)]
pub extern "C" fn resb_version() -> u32
    ensures { result ≡ 7 }
{
    7
}

/// Compiles a bundle's text to the front of `out`, as the options say. `length` gets the file's
/// length, for `RESB_TOO_SHORT` too, else 0.
#[unsafe(no_mangle)]
pub extern "C" fn resb_compile(
    alloc: Global,
    text: &[u8],
    options: &ResbOptions<'_>,
    out: &mut [u8],
    length: &mut usize,
    error: &mut ResbError,
) -> u32
    ensures { (r : Result ℕ Fault) × CompilesInto options.now text.now out.old out.new r
        × Reports r result length.new error.new }
{
    let answer = compile_into(alloc, options, text, out);
    report(alloc, answer, length, error)
}

/// Writes the lines that tell the warnings of a text of the options' form to the front of `out`, a
/// line feed at the end of each. `length` gets their length, for `RESB_TOO_SHORT` too, else 0.
/// Lines that have more bytes than the limit are refused.
#[unsafe(no_mangle)]
pub extern "C" fn resb_warnings(
    alloc: Global,
    text: &[u8],
    options: &ResbOptions<'_>,
    out: &mut [u8],
    length: &mut usize,
    error: &mut ResbError,
) -> u32
    ensures { (r : Result ℕ Fault) × WarnsInto options.now text.now out.old out.new r
        × Reports r result length.new error.new }
{
    let answer = warn_into(alloc, options, text, out);
    report(alloc, answer, length, error)
}

/// Writes the line and the column of a place of a text, or of its end, if that comes first. Both
/// count from 1, a column by characters. The text need not be UTF-8.
#[unsafe(no_mangle)]
pub extern "C" fn resb_location(text: &[u8], place: usize, line: &mut usize, column: &mut usize)
    ensures line { line.new ≡ line_at text.now (min place (length text.now)) }
    ensures column { column.new ≡ column_at text.now (min place (length text.now)) }
{
    let location = location_of(text, place);
    *line = location.line;
    *column = location.column;
}

/// Checks a file as a whole, beside the pool bundle of these bytes, and makes no tree. None is
/// given where there are no bytes. `measured` gets what the tree adds up to, else zeros.
#[unsafe(no_mangle)]
pub extern "C" fn resb_check(
    alloc: Global,
    file: &[u8],
    pool: &[u8],
    measured: &mut ResbMeasured,
    error: &mut ResbError,
) -> u32
    ensures { (r : Result Measured Fault) × MeasuresFile pool.now file.now r
        × ShowsSums r measured.new × Tells r result error.new }
{
    let answer = measure_file(alloc, Input { file, pool });
    *measured = ResbMeasured::of(&answer);
    tell(alloc, &answer, error)
}

/// Prints a file's tree to the front of `out`, as the options say: as the text of a bundle of their
/// name, or as JSON. `length` gets the text's length, for `RESB_TOO_SHORT` too, else 0. A tree that
/// takes more bytes than the limit is refused before it is made, as are keys that do, and so is a
/// text that has more bytes.
#[unsafe(no_mangle)]
pub extern "C" fn resb_dump(
    alloc: Global,
    file: &[u8],
    options: &ResbOptions<'_>,
    out: &mut [u8],
    length: &mut usize,
    error: &mut ResbError,
) -> u32
    ensures { (r : Result ℕ Fault) × DumpsInto options.now file.now out.old out.new r
        × Reports r result length.new error.new }
{
    let answer = dump_into(alloc, file, options, out);
    report(alloc, answer, length, error)
}

/// Writes a file in the other order of bytes to the front of `out`: a little-endian file as
/// big-endian, or the other way round. `length` gets its length, which is that of the file, for
/// `RESB_TOO_SHORT` too, else 0.
#[unsafe(no_mangle)]
pub extern "C" fn resb_swap(
    alloc: Global,
    file: &[u8],
    out: &mut [u8],
    length: &mut usize,
    error: &mut ResbError,
) -> u32
    ensures { (r : Result ℕ Fault) × SwapsInto file.now out.old out.new r
        × Reports r result length.new error.new }
{
    let answer = swap_into(alloc, file, out);
    report(alloc, answer, length, error)
}

/// Tells the offset of a time zone from universal time in seconds, at a moment in seconds since
/// 1970, out of ICU's file of zones. It is 0 where it isn't told. Names of zones are ASCII.
#[unsafe(no_mangle)]
pub extern "C" fn resb_zone_offset(
    alloc: Global,
    file: &[u8],
    zone: &[u8],
    moment: i64,
    offset: &mut i64,
    error: &mut ResbError,
) -> u32
    ensures { (r : Result ℤ Fault)
        × TellsOffset
        (λ bytes i. ReadsInfo ⟦<InfoFields<'static> as Fields<'static>>⟧.reads bytes
        (i.version, i.names, i.zones, i.rules, i.regions))
        (RefusesInfo ⟦<InfoFields<'static> as Fields<'static>>⟧.counts
        ⟦<InfoFields<'static> as Fields<'static>>⟧.refuses) file.now zone.now moment r
        × (offset.new ≡ integer_told r) × Tells r result error.new }
{
    let answer = tell_offset(alloc, file, zone, moment);
    *offset = match &answer {
        Ok(told) => *told,
        Err(_) => 0,
    };
    tell(alloc, &answer, error)
}

/// Opens a file beside the pool bundle of these bytes, of which none is given where there are no
/// bytes. The file is checked as a whole, as `resb_check` does. `opened` gets its parts,
/// its root and its count, else nothing stands in it.
#[unsafe(no_mangle)]
pub extern "C" fn resb_open<'a>(
    alloc: Global,
    file: &'a [u8],
    pool: &'a [u8],
    opened: &mut ResbOpened<'a>,
    error: &mut ResbError,
) -> u32
    ensures { (r : Result ResbOpened Fault) × OpensFile pool.entry.now file.entry.now r
        × IsOpenedAs r opened.new × Tells r result error.new }
{
    let answer = open_file(alloc, Input { file, pool });
    *opened = match &answer {
        Ok(found) => *found,
        Err(_) => ResbOpened::none(),
    };
    tell(alloc, &answer, error)
}

/// Finds what stands at a path from a resource of an opened file on. `found` gets it, else the
/// number 0.
#[unsafe(no_mangle)]
pub extern "C" fn resb_find(
    alloc: Global,
    opened: &ResbOpened<'_>,
    from: ResbResource,
    path: &[u8],
    found: &mut ResbResource,
) -> u32
    ensures { (s : Spot) → Shows opened.now from s → (r : Result ResbResource Fault)
        × FindsPath opened.now path.now s r × HandsOn r result found.new }
{
    let answer = find_at_path(alloc, opened, from, path);
    hand_on(&answer, found)
}

/// Finds what has a number, from 0 on, inside a resource of an opened file: the member of an array,
/// the value of an entry of a table, as they stand in the file, or the number of a vector. `member`
/// gets it, else the number 0.
#[unsafe(no_mangle)]
pub extern "C" fn resb_member(
    opened: &ResbOpened<'_>,
    resource: ResbResource,
    number: usize,
    member: &mut ResbResource,
) -> u32
    ensures { (s : Spot) → Shows opened.now resource s → (r : Result ResbResource Fault)
        × MemberOf opened.now resource number r s × HandsOn r result member.new }
{
    let answer = member_seen(opened, resource, number);
    hand_on(&answer, member)
}

/// Finds the value that the table at a resource of an opened file has at a key. `value` gets it,
/// else the number 0.
#[unsafe(no_mangle)]
pub extern "C" fn resb_value(
    opened: &ResbOpened<'_>,
    resource: ResbResource,
    key: &[u8],
    value: &mut ResbResource,
) -> u32
    ensures { (s : Spot) → Shows opened.now resource s → (r : Result ResbResource Fault)
        × ValueAtKey opened.now key.now s r × HandsOn r result value.new }
{
    let answer = value_at_key(opened, resource, key);
    hand_on(&answer, value)
}

/// Tells the key of an entry of the table at a resource of an opened file. Entries have numbers
/// from 0 on, as they stand in the file. `key` gets the key's bytes, which lie in the file or in
/// the pool bundle, else none.
#[unsafe(no_mangle)]
pub extern "C" fn resb_key_of<'a>(
    opened: &ResbOpened<'a>,
    resource: ResbResource,
    number: usize,
    key: &mut ResbBytes<'a>,
) -> u32
    ensures { (s : Spot) → Shows opened.now resource s
        → TellsKeyOf opened.now resource number s result key.new }
{
    let answer = key_seen(opened, resource, number);
    hand_bytes(&answer, key)
}

/// Tells which kind a resource of an opened file has, and how much is in it.
#[unsafe(no_mangle)]
pub extern "C" fn resb_kind_of(
    opened: &ResbOpened<'_>,
    resource: ResbResource,
    kind: &mut u32,
    size: &mut usize,
) -> u32
    ensures told { (s : Spot) → Shows opened.now resource s
        → (result ≡ 0) × (kind.new ≡ found_kind s) × HasSize opened.now resource s size.new }
    ensures entries { (es : Entries) → Shows opened.now resource (tree_spot (table es))
        → (ts : List (List ℕ × Tree)) × HoldsEntries opened.now resource ts × (es ≡ map_of ts) }
{
    let answer = kind_seen(opened, resource);
    (*kind, *size) = match &answer {
        Ok(told) => *told,
        Err(_) => (0, 0),
    };
    status_of(&answer)
}

/// Tells the number at a resource of an opened file with its sign: an integer of 28 bits, or a
/// number of a vector. It is 0 where it isn't told.
#[unsafe(no_mangle)]
pub extern "C" fn resb_integer_of(
    opened: &ResbOpened<'_>,
    resource: ResbResource,
    value: &mut i32,
) -> u32
    ensures { (s : Spot) → Shows opened.now resource s
        → MatchOption (signed_shown s) ((result ≡ 13) × (value.new ≡ pos 0))
        (λ x. (result ≡ 0) × (value.new ≡ x)) }
{
    let answer = signed_seen(opened, resource);
    *value = match &answer {
        Ok(told) => *told,
        Err(_) => 0,
    };
    status_of(&answer)
}

/// Tells the number at a resource of an opened file as `resb_integer_of` does, without a sign.
#[unsafe(no_mangle)]
pub extern "C" fn resb_unsigned_of(
    opened: &ResbOpened<'_>,
    resource: ResbResource,
    value: &mut u32,
) -> u32
    ensures { (s : Spot) → Shows opened.now resource s
        → MatchOption (unsigned_shown s) ((result ≡ 13) × (value.new ≡ 0))
        (λ n. (result ≡ 0) × (value.new ≡ n)) }
{
    let answer = unsigned_seen(opened, resource);
    *value = match &answer {
        Ok(told) => *told,
        Err(_) => 0,
    };
    status_of(&answer)
}

/// Copies the UTF-8 text of the string at a resource of an opened file to the front of `out`.
/// `length` gets the text's length, for `RESB_TOO_SHORT` too, else 0.
#[unsafe(no_mangle)]
pub extern "C" fn resb_string_of(
    alloc: Global,
    opened: &ResbOpened<'_>,
    resource: ResbResource,
    out: &mut [u8],
    length: &mut usize,
) -> u32
    ensures told { (s : Spot) → Shows opened.now resource s → (r : Result ℕ Fault)
        × FillsText (text_shown s) out.old out.new r
        × (result ≡ handed.status_of r) × (length.new ≡ number_told r) }
    ensures kept { (result ≡ 0) ⊎ (out.new ≡ out.old) }
{
    let answer = text_into(alloc, opened, resource, out);
    *length = length_of(&answer);
    status_of(&answer)
}

/// Tells where the UTF-16 units of the string at a resource of an opened file lie, in the file or
/// in the pool bundle: two bytes for each, the lower one first. `units` gets them, else none.
#[unsafe(no_mangle)]
pub extern "C" fn resb_utf16_of<'a>(
    opened: &ResbOpened<'a>,
    resource: ResbResource,
    units: &mut ResbBytes<'a>,
) -> u32
    ensures { (s : Spot) → Shows opened.now resource s → HandsPart units_handed (text_shown s)
        result units.new }
{
    let answer = units_seen(opened, resource);
    hand_bytes(&answer, units)
}

/// Tells where the bytes of the binary at a resource of an opened file lie in the file. `bytes`
/// gets them, else none.
#[unsafe(no_mangle)]
pub extern "C" fn resb_bytes_of<'a>(
    opened: &ResbOpened<'a>,
    resource: ResbResource,
    bytes: &mut ResbBytes<'a>,
) -> u32
    ensures { (s : Spot) → Shows opened.now resource s → HandsPart (λ b. b) (bytes_shown s)
        result bytes.new }
{
    let answer = bytes_seen(opened, resource);
    hand_bytes(&answer, bytes)
}

/// Tells where the numbers of the vector at a resource of an opened file lie in the file: four
/// bytes for each, the lowest one first. `numbers` gets them, else none.
#[unsafe(no_mangle)]
pub extern "C" fn resb_vector_of<'a>(
    opened: &ResbOpened<'a>,
    resource: ResbResource,
    numbers: &mut ResbBytes<'a>,
) -> u32
    ensures { (s : Spot) → Shows opened.now resource s → HandsPart words (numbers_shown s)
        result numbers.new }
{
    let answer = numbers_seen(opened, resource);
    hand_bytes(&answer, numbers)
}
