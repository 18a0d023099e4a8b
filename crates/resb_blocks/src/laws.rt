//! The laws of breaks, tails and widths, each the contract of a call that does nothing.
ghost use Rattle.resb_blocks.specs.Laws.{RangesByLinks, KeysInKeys, WidthsOfTexts};

/// Units of a block are well-formed exactly by their two ends and their neighbours.
pub fn ranges_by_links()
    ensures { RangesByLinks }
{}

/// A place in a key has a key exactly where a character begins.
pub fn keys_in_keys()
    ensures { KeysInKeys }
{}

/// A text has as many bytes of UTF-8 as its units take, one by one.
pub fn widths_of_texts()
    ensures { WidthsOfTexts }
{}
