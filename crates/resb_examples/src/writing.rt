//! Writing a tree that a program made, and one that it put together from two texts.
//! Texts that stand by themselves are written by `resb::Compile`.
use resb::binary::{BinaryDeserializerError, BinarySerializerError, Pool, Serializer, from_bytes};
use resb::bundle::{Int28, Key, NoMemory, Resource, ResourceBundle, Table};
use resb::{Compile, CompileError, TextForm, keys_of};
use std::alloc::{AllocFailed, Global};
use std::borrow::CowStr;
use std::collections::BTreeMap;
use thiserror::Error;

/// Why nothing is written.
#[derive(Debug, Drop, Error)]
pub enum WritingError {
    /// A text is no bundle, or has no file.
    #[error("{0}")]
    Compiling(#[from] CompileError),
    /// A file isn't a table of trees.
    #[error("{0}")]
    Reading(#[from] BinaryDeserializerError),
    /// The tree has no file.
    #[error("{0}")]
    Writing(#[from] BinarySerializerError),
    /// Memory was wanted.
    #[error("{0}")]
    Memory(#[from] NoMemory),
}

/// A map that can't grow hands back what was put.
impl<T: Drop> From<AllocFailed<T>> for WritingError {
    fn from(_: AllocFailed<T>) -> WritingError {
        WritingError::Memory(NoMemory)
    }
}

/// The file of `names { age:int { 7 } greeting { "hello" } }`, without a text.
pub fn greeting_file(alloc: Global) -> Result<Vec<u8>, BinarySerializerError> {
    let mut table: Table<'_> = BTreeMap::new(alloc);
    table.insert(
        Key::from("greeting"),
        Resource::String(CowStr::Borrowed("hello")),
    )?;
    table.insert(Key::from("age"), Resource::Integer(Int28::from(7u32)))?;
    let bundle = ResourceBundle::new(CowStr::Borrowed("names"), Resource::Table(table), true);
    let keys = [Key::from("age"), Key::from("greeting")];
    Serializer::to_bytes(alloc, &bundle, &keys)
}

/// The entries of two files, whose roots are tables; of an equal key those of the second.
fn both<'a>(alloc: Global, first: &'a [u8], second: &'a [u8]) -> Result<Table<'a>, WritingError> {
    let mut table: Table<'a> = from_bytes(alloc, first)?;
    let added: Table<'a> = from_bytes(alloc, second)?;
    for (key, tree) in added {
        table.insert(key, tree)?;
    }
    Ok(table)
}

/// The file of two texts, with locale fallback: the entries of both, and of an equal key those of
/// the second.
pub fn merge(alloc: Global, first: &str, second: &str) -> Result<Vec<u8>, WritingError> {
    let first_file = Compile::new(TextForm::Plain).text(alloc, first)?;
    let second_file = Compile::new(TextForm::Plain).text(alloc, second)?;
    let table = both(alloc, &first_file, &second_file)?;
    let bundle = ResourceBundle::new(CowStr::Borrowed("merged"), Resource::Table(table), true);
    let keys = keys_of(alloc, bundle.root())?;
    Ok(Serializer::to_bytes(alloc, &bundle, &keys)?)
}

/// The file of a text in ICU's form over a pool bundle, with `genrb`'s bytes. Reading the text may
/// make 10 MB.
pub fn file_over(alloc: Global, pool: &[u8], text: &str) -> Result<Vec<u8>, WritingError> {
    let pool = Pool::open(alloc, pool)?;
    let way = Compile::new(TextForm::Icu).compact().over(&pool);
    Ok(way.within(10_000_000).text(alloc, text)?)
}
