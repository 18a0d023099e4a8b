//! The binary form, `.res`: the types of its head and descriptors, its reader, its writer, and the
//! errors of both ways. Numbers among bytes are in `bytes`; views of bytes, their casts and what
//! reads them are in `helpers`.

pub mod bytes;
pub mod helpers;

pub use resb_format::{
    BinaryDeserializerError, ErrorKind, FileBlocks, MAX_UNMARKED, ReadingError, ResDescriptor,
    ResourceReprType, is_unmarked, marker_units, string_at,
};
pub use resb_head::{
    BinHeader, BinIndex, BinReprInfo, CharsetFamily, CheckedFile, Endianness, FormatVersion,
};
pub use resb_lent::Pool;
pub use resb_pool::{Plan, PlanError, pool};
pub use resb_pool_bundle::{FileHead, PoolBundle};
pub use resb_pool_maker::{PoolMaker, PoolMakerError};
pub use resb_read::{
    Cursor, Deserialize, File, IntVectorDeserializer, KeyDeserializer, Manner, MapAccess, Measured,
    Resource16BitDeserializer, SeqAccess, SortedTable, Spot, Sums, TableView, Walk,
    determine_endianness, from_bytes, from_bytes_counted, from_words, lay_words,
};
pub use resb_swap::{
    IcuData, PackageSwapError, SwapError, data_of, little_endian, swapped, swapped_package,
    with_little_table,
};
pub use resb_write::{BinarySerializerError, Layout, Serializer};
