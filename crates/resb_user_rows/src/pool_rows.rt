//! Pool bundles of bundles that are read from texts, as trees and as drafts.
//! Which bytes a pool bundle has is a row of `resb_format_rows`.
use resb::binary::PoolMaker;
use resb::text::IcuReader;
use std::test::Fail;

/// Texts of bundles that share keys and a string.
const TEXTS: [&str; 3] = [
    "a{alpha{\"one two three\"}beta{\"x\"}}",
    "b{alpha{\"one two three\"}gamma:array{\"three\",{n:int{1}b:bin{00ff}}}}",
    "c{alpha:alias{\"b/alpha\"}delta{\"two \" \"three\"}v:intvector{1,2}}",
];

#[test]
fn drafts_give_what_trees_give(rt: HostRuntime) -> Result<(), Fail> {
    let mut of_trees = PoolMaker::new(rt.alloc());
    let mut of_drafts = PoolMaker::new(rt.alloc());
    for text in TEXTS {
        let (bundle, keys) = IcuReader::read(rt.alloc(), text)?;
        of_trees.add(rt.alloc(), bundle.root(), &keys)?;
        let (bundle, keys) = IcuReader::read_draft(rt.alloc(), text)?;
        of_drafts.add_draft(rt.alloc(), &bundle.root, &keys)?;
    }
    let wanted = of_trees.finish(rt.alloc())?;
    let found = of_drafts.finish(rt.alloc())?;
    assert!(rt; found.as_slice() == wanted.as_slice());
    Ok(())
}
