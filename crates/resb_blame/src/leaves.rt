//! The given types that are to blame as a whole.
//! Lists and maps are in `lists` and `maps`, records in `records`.
use crate::blames::Whole;
use resb_format::{I32View, Int28, Key, PairView, Resource, Utf16View, WordView};

impl<'de> Whole<'de> for i8 {}

impl<'de> Whole<'de> for i16 {}

impl<'de> Whole<'de> for i32 {}

impl<'de> Whole<'de> for i64 {}

impl<'de> Whole<'de> for u8 {}

impl<'de> Whole<'de> for u16 {}

impl<'de> Whole<'de> for u32 {}

impl<'de> Whole<'de> for u64 {}

impl<'de> Whole<'de> for bool {}

impl<'de> Whole<'de> for Int28 {}

impl<'de> Whole<'de> for String {}

impl<'de> Whole<'de> for &'de str {}

impl<'de> Whole<'de> for Key<'de> {}

impl<'de> Whole<'de> for &'de [u8] {}

impl<'de> Whole<'de> for Utf16View<'de> {}

impl<'de> Whole<'de> for WordView<'de> {}

impl<'de> Whole<'de> for PairView<'de> {}

impl<'de> Whole<'de> for I32View<'de> {}

/// A tree is refused as a whole.
impl<'de> Whole<'de> for Resource<'de> {}
