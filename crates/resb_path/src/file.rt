//! What stands in a file at a path, without a tree of it: nothing else in the file is looked at.
//! What stands in a tree is found in `tree`.
ghost use Rattle.std.specs.Prelude.{◌≡◌, ◌==◌, ◌||◌, map, option_map, MatchResult};
ghost use Rattle.resb_format.specs.Descriptor.{type_number};
ghost use Rattle.resb_format.specs.Types as types;
ghost use Rattle.resb_format.specs.declared.repr_type.ResourceReprType.TheVariants as kinds;
ghost use Rattle.resb_read.specs.Places.{place_of};
ghost use Rattle.resb_read.specs.Resources.{DenPlace};
ghost use Rattle.resb_path.specs.Finding.{Spot, found_inside};
ghost use Rattle.resb_path.specs.InFiles.{IsAt, AreFound, AnswersPath};
ghost use Rattle.resb_path.specs.InFiles.{LeadsIn, LeadsOn, LeadsOnWith};
ghost use Rattle.resb_read.specs.Files.{whole_in};

use crate::names::number_of;
use resb_format::{BinaryDeserializerError, ResourceReprType};
use resb_read::{Cursor, File};

/// Where that stands in a file to which a path of names and numbers leads from a place, if it
/// leads to anything: in a table to the last entry of a name. Where the place denotes a tree, that
/// is what stands in the tree, and nothing is refused. Elsewhere the way alone counts: it is
/// refused exactly where the type of a place that a name leads into isn't read, or what is inside
/// that place lies outside the file. Of each key on the way at most one byte more than the name has
/// is looked at.
pub fn find_from<'de>(
    root: Cursor<'de>,
    path: &[&str],
) -> Result<Option<Cursor<'de>>, BinaryDeserializerError>
    ensures leads { LeadsOn (place_of root.entry) (map (λ name. name.now) path.now) result }
    ensures tree { AnswersPath (DenPlace (place_of root.entry))
        (map (λ name. name.now) path.now) result }
{
    let mut found = root;
    for name in path {
        match step(found, name)? {
            Some(inside) => found = inside,
            None => return Ok(None),
        }
    }
    Ok(Some(found))
}

/// Where that stands in an opened file to which a path leads from its root, as `find_from` says it.
pub fn find_in<'de>(
    file: &File<'de>,
    path: &[&str],
) -> Result<Option<Cursor<'de>>, BinaryDeserializerError>
    ensures leads { LeadsOnWith (whole_in file.now) (map (λ name. name.now) path.now) result }
    ensures tree { AnswersPath (whole_in file.now).denotes (map (λ name. name.now) path.now)
        result }
{
    let (root, _) = file.root();
    find_from(root, path)
}

/// Where that stands which has a name inside what stands at a place.
fn step<'de>(at: Cursor<'de>, name: &str) -> Result<Option<Cursor<'de>>, BinaryDeserializerError>
    ensures leads { LeadsIn (place_of at.entry) name.now result }
    ensures tree { (s : Spot) → IsAt (place_of at.entry) s → MatchResult result
        (λ c. AreFound (option_map place_of c) (found_inside s name.now)) (λ e. ⊥) }
{
    // nothing stands inside a number of a vector
    if at.as_int_vector().is_some() {
        return Ok(None);
    }
    let kind = at.resource_type()?;
    if has_entries(kind) {
        return at.entry(name);
    }
    if !has_members(kind) {
        return Ok(None);
    }
    match number_of(name) {
        Some(number) => at.member(number),
        None => {
            // what can't be read is refused, whatever the name
            at.member(0)?;
            Ok(None)
        }
    }
}

/// Whether a type is one of a table.
fn has_entries(kind: ResourceReprType) -> bool
    ensures { result ≡ types.is_table (type_number kind) }
{
    matches!(
        kind,
        ResourceReprType::Table | ResourceReprType::_Table32 | ResourceReprType::Table16
    )
}

/// Whether a type is that of an array or of a vector.
fn has_members(kind: ResourceReprType) -> bool
    ensures { result
        ≡ types.is_array (type_number kind) || type_number kind == type_number kinds.IntVector }
{
    matches!(
        kind,
        ResourceReprType::Array | ResourceReprType::Array16 | ResourceReprType::IntVector
    )
}
