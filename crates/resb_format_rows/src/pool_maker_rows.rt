//! Pool bundles of bundles that are added one after the other, with their bytes. Each row is what
//! the bundles have and the file's digits, in lines, up to a `;`: a row more costs no proof.
use resb_pool_maker::PoolMaker;
use resb_tree::{Key, Resource, Table};
use std::alloc::Global;
use std::borrow::CowStr;
use std::collections::BTreeMap;
use std::test::Fail;

/// Bundles, parted by ` / `, each as entries `key=text`, whose keys are listed in this order; and
/// the hex digits of their pool bundle, from the version in its header on. In the first row
/// `one two three` saves 14 units, and `x` and `three` save none, as ICU's compiler has it; the
/// second has keys alone, so that it is of version 2.0; in the third two strings lie at the end of
/// another one; in the fourth two records have as many units; in the last one record saves 10 units
/// and is kept.
const ROWS: &str = "alpha=one two three,beta=x / alpha=one two three,gamma=three =>
    0300000001040000000000000000000000000020080000000e00000016000000160000000000000003000000
    16000000fa1016e3616c70686100626574610067616d6d6100aaaaaa00006f006e0065002000740077006f00
    2000740068007200650065000000aaaa;
alpha=x,beta=y / alpha=z,gamma=x =>
    0200000001040000000000000000000000000020080000000e0000000f0000000f0000000000000003000000
    0f00000003a4ab1b616c70686100626574610067616d6d6100aaaaaa0000aaaa;
k=one two three / l=two three / m=two three =>
    0300000001040000000000000000000000000020080000000b00000013000000130000000000000003000000
    130000004285b3576b006c006d00aaaa00006f006e0065002000740077006f00200074006800720065006500
    0000aaaa;
b=0123456789,a=abcdefghij / a=abcdefghij,c=0123456789 =>
    0300000001040000000000000000000000000020080000000b00000017000000170000000000000003000000
    170000006e19cc3c620061006300aaaa00003000310032003300340035003600370038003900000061006200
    63006400650066006700680069006a000000aaaa;
k=012345678 / k=012345678 / j=0123456789 =>
    0300000001040000000000000000000000000020080000000a00000010000000100000000000000003000000
    10000000451f690c6b006a0000003000310032003300340035003600370038000000aaaa;
";

/// Rows of compact pool bundles, as ICU's `genrb` 72.1 makes them: keys lie at the ends of
/// others, of their bundle and of another one.
const COMPACT_ROWS: &str = "xab=one two three,ab=x,b=two three / yab=one two three,b=three,ab=y =>
    0300000001040000000000000000000000000020080000000b00000013000000130000000000000003000000
    13000000a216f4a1786162007961620000006f006e0065002000740077006f00200074006800720065006500
    0000aaaa;
ab=x,b=y / b=z,xab=x,xb=y =>
    0300000001040000000000000000000000000020080000000b0000000c0000000c0000000000000003000000
    0c000000f424ee5d78616200786200aa0000aaaa;
";

/// Adds the bundle of these entries.
fn add(alloc: Global, maker: &mut PoolMaker, entries: &str) -> Result<(), Fail> {
    let mut table: Table = BTreeMap::new(alloc);
    let mut keys = Vec::new(alloc);
    for entry in entries.split(',') {
        let (key, text) = entry.split_once('=').ok_or("an entry without a text")?;
        table.insert(Key::from(key), Resource::String(CowStr::Borrowed(text)))?;
        keys.push(Key::from(key))?;
    }
    maker.add(alloc, &Resource::Table(table), &keys)?;
    Ok(())
}

/// A maker to which these bundles were added.
fn maker_of(alloc: Global, bundles: &str) -> Result<PoolMaker, Fail> {
    let mut maker = PoolMaker::new(alloc);
    for entries in bundles.split(" / ") {
        add(alloc, &mut maker, entries)?;
    }
    Ok(maker)
}

/// The pool bundle of bundles.
pub(crate) fn pool_of(alloc: Global, bundles: &str) -> Result<Vec<u8>, Fail> {
    Ok(maker_of(alloc, bundles)?.finish(alloc)?)
}

/// The digits of a pool bundle, from its version on.
fn digits_of(alloc: Global, file: Vec<u8>) -> Result<String, Fail> {
    let (_, rest) = file.as_slice().split_at_checked(16).ok_or("no header")?;
    Ok(hex::encode(alloc, rest)?)
}

/// The lines without the blanks that begin them.
fn joined(alloc: Global, lines: &str) -> Result<String, Fail> {
    let mut all = String::new(alloc);
    for line in lines.split('\n') {
        all.push_str(line.trim_start())?;
    }
    Ok(all)
}

/// Whether a row's bundles have the pool bundle that it wants, which may be the compact one.
fn holds(alloc: Global, row: &str, is_compact: bool) -> Result<bool, Fail> {
    let (bundles, lines) = row.split_once(" =>\n").ok_or("a row without an answer")?;
    let wanted = joined(alloc, lines)?;
    let maker = maker_of(alloc, bundles)?;
    let file = if is_compact {
        maker.finish_compact(alloc)?
    } else {
        maker.finish(alloc)?
    };
    Ok(digits_of(alloc, file)?.as_str() == wanted.as_str())
}

#[test]
fn bundles_have_these_pools(rt: HostRuntime) -> Result<(), Fail> {
    for row in ROWS.split_terminator(";\n") {
        assert!(rt; holds(rt.alloc(), row, false)?, "{row}");
    }
    for row in COMPACT_ROWS.split_terminator(";\n") {
        assert!(rt; holds(rt.alloc(), row, true)?, "{row}");
    }
    Ok(())
}
