//! What can be asked for at a place, and the line of what is answered.
//! The places are found in `places`, and the rows are in `type_rows`.
use crate::answers::{Line, push_all, same, shown};
use resb_format::{
    BinaryDeserializerError, I32View, Int28, Key, PairView, ReadingError, Resource, Utf16View,
    WordView,
};
use resb_read::helpers::{
    i32_tuple, option_i32, option_i32_tuple, option_u32, option_utf_16, vec_utf_16,
};
use resb_read::{Cursor, Deserialize, Walk};
use std::alloc::{AllocError, Global};
use std::collections::BTreeMap;
use std::fmt::{Debug, Write};

/// What is asked for at a place.
#[derive(Clone, Copy)]
pub(crate) enum Ask {
    Bool,
    I8,
    I16,
    I32,
    I64,
    U8,
    U16,
    U32,
    U64,
    Text,
    Key,
    Bytes,
    Bits,
    OptionBool,
    TextList,
    WordList,
    TextMap,
    WordListMap,
    ByteMap,
    UnitView,
    WordView,
    NumberView,
    PairView,
    UnitViewList,
    Type,
    Skip,
    KeyMap,
    Pairs,
    UnitLists,
    Tree,
}

/// What is asked for at a place in a sweep, in the order of the lines, with the names in rows.
pub(crate) const ASKS: [(&str, Ask); 30] = [
    ("bool", Ask::Bool),
    ("i8", Ask::I8),
    ("i16", Ask::I16),
    ("i32", Ask::I32),
    ("i64", Ask::I64),
    ("u8", Ask::U8),
    ("u16", Ask::U16),
    ("u32", Ask::U32),
    ("u64", Ask::U64),
    ("text", Ask::Text),
    ("key", Ask::Key),
    ("bytes", Ask::Bytes),
    ("bits", Ask::Bits),
    ("option-bool", Ask::OptionBool),
    ("text-list", Ask::TextList),
    ("word-list", Ask::WordList),
    ("text-map", Ask::TextMap),
    ("word-list-map", Ask::WordListMap),
    ("byte-map", Ask::ByteMap),
    ("unit-view", Ask::UnitView),
    ("word-view", Ask::WordView),
    ("number-view", Ask::NumberView),
    ("pair-view", Ask::PairView),
    ("unit-view-list", Ask::UnitViewList),
    ("type", Ask::Type),
    ("skip", Ask::Skip),
    ("key-map", Ask::KeyMap),
    ("pairs", Ask::Pairs),
    ("unit-lists", Ask::UnitLists),
    ("tree", Ask::Tree),
];

/// The line of a value, or of why it is refused.
pub(crate) fn line<'m, T: Debug + Drop>(alloc: Global, read: Result<T, ReadingError<'m>>) -> Line {
    match read {
        Ok(value) => format!(in alloc; "{value:?}"),
        Err(error) => format!(in alloc; "{error}"),
    }
}

/// The line of what a call of the cursor answers.
fn called(alloc: Global, ask: Ask, at: Cursor<'_>, walk: &mut Walk) -> Line {
    match ask {
        Ask::Bool => line(alloc, at.read_bool(walk)),
        Ask::I8 => line(alloc, at.read_i8(walk)),
        Ask::I16 => line(alloc, at.read_i16(walk)),
        Ask::I32 => line(alloc, at.read_i32(walk)),
        Ask::I64 => line(alloc, at.read_i64(walk)),
        Ask::U8 => line(alloc, at.read_u8(walk)),
        Ask::U16 => line(alloc, at.read_u16(walk)),
        Ask::U32 => line(alloc, at.read_u32(walk)),
        Ask::U64 => line(alloc, at.read_u64(walk)),
        Ask::Text => line(alloc, at.read_string(alloc, walk)),
        Ask::Key => line(alloc, at.read_str(walk)),
        Ask::Bytes => line(alloc, at.read_bytes(walk)),
        Ask::Type => line(alloc, at.resource_type()),
        Ask::Skip => line(alloc, at.skip(walk)),
        Ask::Tree => tree(alloc, at.read_resource(alloc, walk), walk),
        Ask::UnitView => viewed(alloc, option_utf_16(at, walk)),
        Ask::WordView => viewed(alloc, option_u32(at, walk)),
        Ask::NumberView => viewed(alloc, option_i32(at, walk)),
        Ask::PairView => viewed(alloc, option_i32_tuple(at, walk)),
        _ => typed(alloc, ask, at, walk),
    }
}

/// The line of the value of a type.
fn typed(alloc: Global, ask: Ask, at: Cursor<'_>, walk: &mut Walk) -> Line {
    match ask {
        Ask::Bool => line(alloc, bool::deserialize(alloc, at, walk)),
        Ask::I8 => line(alloc, i8::deserialize(alloc, at, walk)),
        Ask::I16 => line(alloc, i16::deserialize(alloc, at, walk)),
        Ask::I32 => line(alloc, i32::deserialize(alloc, at, walk)),
        Ask::I64 => line(alloc, i64::deserialize(alloc, at, walk)),
        Ask::U8 => line(alloc, u8::deserialize(alloc, at, walk)),
        Ask::U16 => line(alloc, u16::deserialize(alloc, at, walk)),
        Ask::U32 => line(alloc, u32::deserialize(alloc, at, walk)),
        Ask::U64 => line(alloc, u64::deserialize(alloc, at, walk)),
        Ask::Text => line(alloc, String::deserialize(alloc, at, walk)),
        Ask::Key => line(alloc, <&str>::deserialize(alloc, at, walk)),
        Ask::Bytes => line(alloc, <&[u8]>::deserialize(alloc, at, walk)),
        Ask::Tree => tree(alloc, Resource::deserialize(alloc, at, walk), walk),
        Ask::UnitView => viewed(alloc, Utf16View::deserialize(alloc, at, walk).map(Some)),
        Ask::WordView => viewed(alloc, WordView::deserialize(alloc, at, walk).map(Some)),
        Ask::NumberView => viewed(alloc, I32View::deserialize(alloc, at, walk).map(Some)),
        Ask::PairView => viewed(alloc, PairView::deserialize(alloc, at, walk).map(Some)),
        _ => parted(alloc, ask, at, walk),
    }
}

/// The line of the value of a type that has parts, or of the answer of a helper.
fn parted(alloc: Global, ask: Ask, at: Cursor<'_>, walk: &mut Walk) -> Line {
    match ask {
        Ask::Bits => line(alloc, Int28::deserialize(alloc, at, walk).map(u32::from)),
        Ask::OptionBool => line(alloc, Option::<bool>::deserialize(alloc, at, walk)),
        Ask::TextList => line(alloc, Vec::<String>::deserialize(alloc, at, walk)),
        Ask::WordList => line(alloc, Vec::<u32>::deserialize(alloc, at, walk)),
        Ask::TextMap => line(
            alloc,
            BTreeMap::<&str, String>::deserialize(alloc, at, walk),
        ),
        Ask::WordListMap => line(
            alloc,
            BTreeMap::<&str, Vec<u32>>::deserialize(alloc, at, walk),
        ),
        Ask::ByteMap => line(alloc, BTreeMap::<String, u8>::deserialize(alloc, at, walk)),
        Ask::KeyMap => keyed(
            alloc,
            BTreeMap::<Key<'_>, String>::deserialize(alloc, at, walk),
        ),
        Ask::Pairs => viewed(alloc, i32_tuple(at, walk).map(Some)),
        Ask::UnitLists => listed(alloc, vec_utf_16(alloc, at, walk), true),
        _ => listed(alloc, vec_utf_16(alloc, at, walk), false),
    }
}

/// The line of a tree. How much of a budget a refused one leaves is not said: here it is nothing.
fn tree(
    alloc: Global,
    read: Result<Resource<'_>, BinaryDeserializerError>,
    walk: &mut Walk,
) -> Line {
    match read {
        Ok(tree) => shown(alloc, &tree),
        Err(error) => {
            *walk = Walk::new(0);
            format!(in alloc; "{error}")
        }
    }
}

/// The line of texts by their keys.
fn line_of_texts(alloc: Global, texts: &BTreeMap<Key<'_>, String>) -> Line {
    let mut line = String::new(alloc);
    for (key, text) in texts {
        push_all(&mut line, &[key.as_str(), "=", text.as_str(), ","])?;
    }
    Ok(line)
}

/// The line of texts by their keys, or of why they are refused.
fn keyed(alloc: Global, read: Result<BTreeMap<Key<'_>, String>, BinaryDeserializerError>) -> Line {
    match read {
        Ok(texts) => line_of_texts(alloc, &texts),
        Err(error) => format!(in alloc; "{error}"),
    }
}

/// What has a line of its items.
trait View: Copy {
    /// The line of the items.
    fn line(self, alloc: Global) -> Line;
}

impl View for Utf16View<'_> {
    fn line(self, alloc: Global) -> Line {
        let mut items = Vec::new(alloc);
        for number in 0..self.len() {
            items.push(self.item(number))?;
        }
        format!(in alloc; "{items:?}")
    }
}

impl View for WordView<'_> {
    fn line(self, alloc: Global) -> Line {
        let mut items = Vec::new(alloc);
        for number in 0..self.len() {
            items.push(self.item(number))?;
        }
        format!(in alloc; "{items:?}")
    }
}

impl View for I32View<'_> {
    fn line(self, alloc: Global) -> Line {
        let mut items = Vec::new(alloc);
        for number in 0..self.len() {
            items.push(self.item(number))?;
        }
        format!(in alloc; "{items:?}")
    }
}

impl View for PairView<'_> {
    fn line(self, alloc: Global) -> Line {
        let mut items = Vec::new(alloc);
        for number in 0..self.len() {
            items.push(self.item(number))?;
        }
        format!(in alloc; "{items:?}")
    }
}

/// The line of a view, or of why there is none.
fn viewed<V: View>(alloc: Global, read: Result<Option<V>, BinaryDeserializerError>) -> Line {
    match read {
        Ok(Some(view)) => view.line(alloc),
        Ok(None) => String::from_str(alloc, "no view"),
        Err(error) => format!(in alloc; "{error}"),
    }
}

/// The line of views of units: how many units each has.
fn line_of_lengths(alloc: Global, views: &[Utf16View<'_>]) -> Line {
    let mut lengths = Vec::new(alloc);
    for view in views {
        lengths.push(view.len())?;
    }
    format!(in alloc; "{lengths:?}")
}

/// Adds how many units a view has, and the units.
fn push_units(alloc: Global, line: &mut String, view: Utf16View<'_>) -> Result<(), AllocError> {
    let length = view.len();
    let units = view.line(alloc)?;
    write!(line, "{length}:{units},")
}

/// The line of views of units: how many units each has, and the units.
fn line_of_lists(alloc: Global, views: &[Utf16View<'_>]) -> Line {
    let mut line = String::new(alloc);
    for view in views {
        push_units(alloc, &mut line, *view)?;
    }
    Ok(line)
}

/// The line of views of units, or of why they are refused.
fn listed(
    alloc: Global,
    read: Result<Vec<Utf16View<'_>>, BinaryDeserializerError>,
    is_whole: bool,
) -> Line {
    match read {
        Ok(views) if is_whole => line_of_lists(alloc, &views),
        Ok(views) => line_of_lengths(alloc, &views),
        Err(error) => format!(in alloc; "{error}"),
    }
}

/// The line of what a call answers with so much of a budget, and what of it is left then.
fn line_of_call(alloc: Global, ask: Ask, at: Cursor<'_>, left: usize) -> Line {
    let mut walk = Walk::new(left);
    let said = called(alloc, ask, at, &mut walk)?;
    let left = walk.left();
    format!(in alloc; "{said}, {left} left")
}

/// The line that the call answers for the type that it reads.
fn line_of_type(alloc: Global, ask: Ask, at: Cursor<'_>, left: usize) -> Line {
    let mut walk = Walk::new(left);
    let said = typed(alloc, ask, at, &mut walk)?;
    let left = walk.left();
    format!(in alloc; "{said}, {left} left")
}

/// The line of what is asked for at a place with so much of a budget, and what of it is left after
/// it. A call of the cursor and the type that it reads answer the same.
pub(crate) fn asked(alloc: Global, ask: Ask, at: Cursor<'_>, left: usize) -> Line {
    match ask {
        Ask::Type | Ask::Skip => line_of_call(alloc, ask, at, left),
        _ => same(
            alloc,
            line_of_call(alloc, ask, at, left),
            line_of_type(alloc, ask, at, left),
        ),
    }
}
