//! The laws of written files and of their 16-bit block, each the contract of a call that does
//! nothing.
//! Their statements are in `specs/Laws.antt`.
ghost use Rattle.resb_write.specs.Laws.{OneBlock, OneFile, WrittenIsDenoted, WrittenInOrder};
ghost use Rattle.resb_write.specs.Laws.{OneFileWithPool, WrittenWithPoolIsRead};

/// The units that a tree takes in the 16-bit block don't depend on where the tail begins.
pub fn one_block()
    ensures { OneBlock }
{}

/// A bundle and a list of keys leave one file of each packing.
pub fn one_file()
    ensures { OneFile }
{}

/// A written file denotes its tree for a reader of aliases, and a tree without aliases for each
/// reader, unless the file is compact and the tree has an empty string.
pub fn written_is_denoted()
    ensures { WrittenIsDenoted }
{}

/// In a written file no byte is left between two bodies, and each filling is of bytes 0xaa.
pub fn written_in_order()
    ensures { WrittenInOrder }
{}

/// A bundle, a list of keys and a pool bundle leave one file of each packing.
pub fn one_file_with_pool()
    ensures { OneFileWithPool }
{}

/// A file that is written over a pool bundle denotes its tree beside that pool bundle.
pub fn written_with_pool_is_read()
    ensures { WrittenWithPoolIsRead }
{}
