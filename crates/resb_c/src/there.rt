//! What stands at a spot of a file's parts: its kind, how much is in it, and the key of an entry.
//! What the caller is told is said in `report`.
ghost use Rattle.std.specs.Prelude.{◌≡◌, Some, None, IfOk, IfErr, MatchResult};
ghost use Rattle.resb_walk.specs.BlockRefusals.{Says};
ghost use Rattle.resb_format.specs.Parts.{parts_in};
ghost use Rattle.resb_walk.specs.Inner.Members.{content_of, keyed_members, leaf_tree};
ghost use Rattle.resb_walk.specs.Inner.Members.{IsWellSpelled};
ghost use Rattle.resb_c.specs.AtPlaces.{content_from, kind_number};
ghost use Rattle.resb_c.specs.AtPlaces.{leaf_size, size_in, spot_refusal, tree_kind, HasKey};
ghost use Rattle.resb_c.specs.Inner.Keys.{HasNoKeyIn};

use crate::fault::Fault;
use resb_format::{BinaryDeserializerError, FileBlocks};
use resb_read::Spot;
use resb_walk::faults::past_end;
use resb_walk::places::index_of;
use resb_walk::{Leaf, Standing, TableParts, key_at, standing_at, text_at};

/// What stands at a spot of the parts of a file. A number of a vector and a key are none.
pub(crate) fn standing_in(
    file: FileBlocks<'_>,
    at: Spot,
) -> Result<Standing<'_>, BinaryDeserializerError>
    ensures stands { let p = parts_in file.entry in let there = content_from p at in
        MatchResult result (λ s. there ≡ Some (content_of s))
        (λ e. (there ≡ None) × Says (spot_refusal p at) e) }
    ensures form { IfOk result IsWellSpelled }
{
    match at {
        Spot::Descriptor(word) => standing_at(file, word),
        Spot::Unit(unit) => {
            let text = text_at(file, index_of(file, unit))?;
            Ok(Standing::Leaf(Leaf::Text(text)))
        }
        Spot::Word(_) | Spot::Key(_) => Err(past_end()),
    }
}

/// The number of the kind of a leaf.
fn leaf_kind(leaf: Leaf<'_>) -> u32
    ensures { result ≡ tree_kind (leaf_tree leaf.entry) }
{
    match leaf {
        Leaf::Text(_) | Leaf::Empty => 1,
        Leaf::Integer(_) => 4,
        Leaf::Numbers(_) => 5,
        Leaf::Binary(_) => 6,
        Leaf::Alias(_) => 7,
    }
}

/// How many bytes a binary has, and how many numbers a vector; 0 for any other leaf.
#[tactic(auto, using(resb_format::proofs::Spelled::words_length))]
fn leaf_length(leaf: Leaf<'_>) -> usize
    ensures { result ≡ leaf_size (leaf_tree leaf.entry) }
{
    match leaf {
        Leaf::Binary(bytes) => bytes.len(),
        Leaf::Numbers(words) => words.len() / 4,
        _ => 0,
    }
}

/// The number of the kind of what stands there.
pub(crate) fn kind_of(there: Standing<'_>) -> u32
    ensures { result ≡ kind_number (content_of there.entry) }
{
    match there {
        Standing::Leaf(leaf) => leaf_kind(leaf),
        Standing::List(_) => 3,
        Standing::Table(_) => 2,
    }
}

/// How many members, entries, bytes or numbers are there.
pub(crate) fn size_of(there: Standing<'_>) -> usize
    ensures { result ≡ size_in (content_of there.entry) }
{
    match there {
        Standing::Leaf(leaf) => leaf_length(leaf),
        Standing::List(members) => members.len(),
        Standing::Table(entries) => entries.len(),
    }
}

/// The key of the entry of a number, from 0 on, of a table.
pub(crate) fn entry_key<'a>(
    file: FileBlocks<'a>,
    entries: TableParts<'a>,
    number: usize,
) -> Result<&'a str, Fault>
    ensures ok { IfOk result (λ key.
        HasKey (parts_in file.entry) number key.now (keyed_members entries.entry)) }
    ensures err { IfErr result (λ e.
        HasNoKeyIn (parts_in file.entry) number e (keyed_members entries.entry)) }
{
    if number >= entries.len() {
        return Err(Fault::NotFound);
    }
    let Some((position, _, _)) = entries.behind(number).split() else {
        unreachable!()
    };
    match key_at(file, position) {
        Ok(key) => Ok(key),
        Err(e) => Err(Fault::Reading(e)),
    }
}
