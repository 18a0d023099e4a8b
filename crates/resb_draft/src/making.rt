//! How a draft is made: a piece at a time, members before their collection.
//! In which order a table's entries are put stands in `entries`.
ghost use Rattle.std.specs.Prelude.{◌≡◌, ◌≤◌, true, [], ◌∷◌, ◌++◌, map, length};
ghost use Rattle.std.specs.Prelude.{take, drop, IfOk, OnOk, OnErr, MatchResult, get_or, List, ℕ};
ghost use Rattle.std.specs.Borrow.{Bor};
ghost use Rattle.std.specs.List.{zip};
ghost use Rattle.resb_tree.specs.Borrowing.{all_true};
ghost use Rattle.resb_tree.specs.Tree.{string, array, table, trees_of, entries_of, map_of};
ghost use Rattle.resb_tree.specs.View.{tree_of};
ghost use Rattle.resb_draft.specs.Drafts.{texts, is_leaf, nothing};
ghost use Rattle.resb_draft.specs.Drafts.{piece_meaning, pieces_stand, tree_at, is_whole};
ghost use Rattle.resb_draft.specs.Drafts.{IsMade, Keeps, EndsInEntries};
ghost use Rattle.resb_draft.specs.Inner.Entries.{keys_ascend};

use crate::draft::{Draft, Members, Piece};
use crate::entries::{ascend, in_key_order};
use resb_tree::{NoMemory, Resource};
use std::alloc::Global;

impl<'a> Draft<'a> {
    /// A draft without pieces, whose root is number 0. No other call here sets the root: who makes
    /// the tree's last piece writes its number there.
    pub fn new(alloc: Global) -> Draft<'a>
        ensures pieces { result.pieces.items ≡ [] }
        ensures members { result.members.items ≡ [] }
        ensures keys { result.keys.items ≡ [] }
        ensures root { result.root ≡ 0 }
    {
        Draft {
            pieces: Vec::new(alloc),
            members: Vec::new(alloc),
            keys: Vec::new(alloc),
            root: 0,
        }
    }

    /// Room for so many pieces and members more, so that lists of a known length don't grow step by
    /// step. What stands in the draft stays.
    pub fn reserve(&mut self, more: usize) -> Result<(), NoMemory>
        ensures members { self.new.members.items ≡ self.old.members.items }
        ensures keys { self.new.keys.items ≡ self.old.keys.items }
        ensures pieces { pieces_stand self.new ≡ pieces_stand self.old }
        ensures root { self.new.root ≡ self.old.root }
        ensures keeps { Keeps self.old self.new }
    {
        self.pieces.reserve(more)?;
        self.members.reserve(more)?;
        Ok(())
    }

    /// Puts one text behind the other pieces. Each call that puts a piece gives its number.
    pub fn push_string(&mut self, text: &'a str) -> Result<u32, NoMemory>
        ensures made { IfOk result (λ n. IsMade self.new n (string text.now)) }
        ensures members { self.new.members ≡ self.old.members }
        ensures keys { self.new.keys ≡ self.old.keys }
        ensures root { self.new.root ≡ self.old.root }
        ensures keeps { Keeps self.old self.new }
    {
        self.push(Piece::String(text))
    }

    /// One resource more, without others inside.
    pub fn push_leaf(&mut self, resource: Resource<'a>) -> Result<u32, NoMemory>
        requires { is_leaf (tree_of resource) ≡ true }
        ensures made { IfOk result (λ n. IsMade self.new n (tree_of resource.entry)) }
        ensures members { self.new.members ≡ self.old.members }
        ensures keys { self.new.keys ≡ self.old.keys }
        ensures root { self.new.root ≡ self.old.root }
        ensures keeps { Keeps self.old self.new }
    {
        if let Resource::Integer(integer) = &resource {
            return self.push(Piece::Integer(*integer));
        }
        let alloc = *self.pieces.allocator();
        self.push(Piece::Leaf(Box::new(alloc, resource)?))
    }

    /// One member more, which `end_array` puts into an array. Without memory none comes.
    pub fn push_member(&mut self, member: u32) -> Result<(), NoMemory>
        ensures members { OnOk result
            (self.new.members.items ≡ self.old.members.items ++ member ∷ []) }
        ensures refused { OnErr result (self.new.members.items ≡ self.old.members.items) }
        ensures pieces { self.new.pieces ≡ self.old.pieces }
        ensures keys { self.new.keys ≡ self.old.keys }
        ensures root { self.new.root ≡ self.old.root }
        ensures keeps { Keeps self.old self.new }
    {
        self.members.push(member)?;
        Ok(())
    }

    /// The array of the members behind the first so many.
    pub fn end_array(&mut self, first_member: usize) -> Result<u32, NoMemory>
        requires { first_member ≤ length self.old.members.items }
        ensures made { let ns = drop first_member self.old.members.items in
            all_true (map (is_whole self.old) ns) ≡ true → IfOk result
            (λ n. IsMade self.new n (array (trees_of (map (tree_at self.old) ns)))) }
        ensures members { self.new.members ≡ self.old.members }
        ensures keys { self.new.keys ≡ self.old.keys }
        ensures root { self.new.root ≡ self.old.root }
        ensures keeps { Keeps self.old self.new }
    {
        let part = Members {
            from: number(first_member)?,
            count: number(self.members.len() - first_member)?,
        };
        self.push(Piece::Array(part))
    }

    /// One entry more, which `end_table` puts into a table: its key, and the number of its value.
    /// Without memory neither comes.
    pub fn push_entry(&mut self, key: &'a str, member: u32) -> Result<(), NoMemory>
        ensures pieces { self.new.pieces ≡ self.old.pieces }
        ensures members { OnOk result
            (self.new.members.items ≡ self.old.members.items ++ member ∷ []) }
        ensures keys { OnOk result (self.new.keys.items ≡ self.old.keys.items ++ key.entry ∷ []) }
        ensures refused { OnErr result ((self.new.members.items ≡ self.old.members.items)
            × (self.new.keys.items ≡ self.old.keys.items)) }
        ensures root { self.new.root ≡ self.old.root }
        ensures keeps { Keeps self.old self.new }
    {
        self.keys.push(key)?;
        let pushed = self.push_member(member);
        if pushed.is_err() {
            self.keys.pop();
        }
        pushed
    }

    /// The table of the entries behind the first so many members and keys. A later entry of an
    /// equal key replaces the earlier one. Where keys don't ascend, the entries are taken away, and
    /// put there again in order. What was whole without these entries stays so; memory may be
    /// wanted, and the entries may then be gone.
    pub fn end_table(
        &mut self,
        alloc: Global,
        first_member: usize,
        first_key: usize,
    ) -> Result<u32, NoMemory>
        requires members { first_member ≤ length self.old.members.items }
        requires keys { first_key ≤ length self.old.keys.items }
        ensures made { (before : Draft) (ps : List (Bor (List ℕ) × ℕ))
            → EndsInEntries before first_member first_key ps self.old
            → all_true (map (λ p. is_whole before p.1) ps) ≡ true
            → IfOk result (λ n. IsMade self.new n
            (table (map_of (map (λ p. (p.0.now, tree_at before p.1)) ps)))) }
        ensures members { take first_member self.new.members.items
            ≡ take first_member self.old.members.items }
        ensures names { take first_key self.new.keys.items ≡ take first_key self.old.keys.items }
        ensures root { self.new.root ≡ self.old.root }
        ensures keeps { (before : Draft) (ps : List (Bor (List ℕ) × ℕ))
            → EndsInEntries before first_member first_key ps self.old → Keeps before self.new }
    {
        if ascend(&self.keys[first_key..]) {
            return self.end_ascending(first_member, first_key);
        }
        let entries = self.take_entries(alloc, first_member, first_key)?;
        let entries = in_key_order(alloc, entries)?;
        self.push_table(&entries)
    }

    /// The table of the entries behind the first so many members and keys, whose keys ascend.
    fn end_ascending(&mut self, first_member: usize, first_key: usize) -> Result<u32, NoMemory>
        requires members { first_member ≤ length self.old.members.items }
        requires keys { first_key ≤ length self.old.keys.items }
        ensures made { (ps : List (Bor (List ℕ) × ℕ))
            → drop first_member self.old.members.items ≡ map (λ p. p.1) ps
            → drop first_key self.old.keys.items ≡ map (λ p. p.0) ps
            → keys_ascend ps ≡ true
            → all_true (map (λ p. is_whole self.old p.1) ps) ≡ true
            → IfOk result (λ n. IsMade self.new n
            (table (entries_of (map (λ p. (p.0.now, tree_at self.old p.1)) ps)))) }
        ensures members { self.new.members ≡ self.old.members }
        ensures keys { self.new.keys ≡ self.old.keys }
        ensures root { self.new.root ≡ self.old.root }
        ensures keeps { Keeps self.old self.new }
    {
        let part = Members {
            from: number(first_member)?,
            count: number(self.members.len() - first_member)?,
        };
        let first_key = number(first_key)?;
        self.push(Piece::Table(part, first_key))
    }

    /// Takes the entries behind the first so many members and keys away.
    fn take_entries(
        &mut self,
        alloc: Global,
        first_member: usize,
        first_key: usize,
    ) -> Result<Vec<(&'a str, u32)>, NoMemory>
        requires members { first_member ≤ length self.old.members.items }
        requires keys { first_key ≤ length self.old.keys.items }
        ensures taken { (before : Draft) (ps : List (Bor (List ℕ) × ℕ))
            → EndsInEntries before first_member first_key ps self.old → IfOk result
            (λ v. (v.items ≡ ps) × (pieces_stand self.new ≡ pieces_stand before)) }
        ensures members { MatchResult result
            (λ _. self.new.members.items ≡ take first_member self.old.members.items)
            (λ _. self.new.members ≡ self.old.members) }
        ensures keys { MatchResult result
            (λ _. self.new.keys.items ≡ take first_key self.old.keys.items)
            (λ _. self.new.keys ≡ self.old.keys) }
        ensures root { self.new.root ≡ self.old.root }
        ensures keeps { (before : Draft) (ps : List (Bor (List ℕ) × ℕ))
            → EndsInEntries before first_member first_key ps self.old → Keeps before self.new }
    {
        let entries = pairs_of(
            alloc,
            &self.keys[first_key..],
            &self.members[first_member..],
        )?;
        self.members.truncate(first_member);
        self.keys.truncate(first_key);
        Ok(entries)
    }

    /// Puts these entries behind the draft's own, and makes a table of them.
    fn push_table(&mut self, entries: &[(&'a str, u32)]) -> Result<u32, NoMemory>
        requires { keys_ascend entries.now ≡ true }
        ensures made { let ps = entries.now in
            all_true (map (λ p. is_whole self.old p.1) ps) ≡ true → IfOk result
            (λ n. IsMade self.new n
            (table (entries_of (map (λ p. (p.0.now, tree_at self.old p.1)) ps)))) }
        ensures members { take (length self.old.members.items) self.new.members.items
            ≡ self.old.members.items }
        ensures names { take (length self.old.keys.items) self.new.keys.items
            ≡ self.old.keys.items }
        ensures root { self.new.root ≡ self.old.root }
        ensures keeps { Keeps self.old self.new }
    {
        let first_member = self.members.len();
        let first_key = self.keys.len();
        for entry in entries {
            self.push_entry(entry.0, entry.1)?;
        }
        self.end_ascending(first_member, first_key)
    }

    /// One piece more.
    #[inline(always)]
    fn push(&mut self, piece: Piece<'a>) -> Result<u32, NoMemory>
        ensures made { IfOk result (λ n. get_or (pieces_stand self.new) n nothing
            ≡ piece_meaning self.old.members.items (texts self.old.keys.items)
            (pieces_stand self.old) piece.entry) }
        ensures members { self.new.members ≡ self.old.members }
        ensures keys { self.new.keys ≡ self.old.keys }
        ensures root { self.new.root ≡ self.old.root }
        ensures keeps { Keeps self.old self.new }
    {
        let own_number = number(self.pieces.len())?;
        self.pieces.push(piece)?;
        Ok(own_number)
    }
}

/// The pairs of a key and the member at its place.
fn pairs_of<'a>(
    alloc: Global,
    keys: &[&'a str],
    members: &[u32],
) -> Result<Vec<(&'a str, u32)>, NoMemory>
    ensures { IfOk result (λ v. v.items ≡ zip keys.now members.now) }
{
    let pairs = keys.iter().copied().zip(members.iter().copied());
    Ok(pairs.collect(alloc)?)
}

/// A place as it is kept. A place that 32 bits don't hold is told as want of memory.
fn number(place: usize) -> Result<u32, NoMemory>
    ensures { IfOk result (λ n. n ≡ place) }
{
    if place > 0xffff_ffff {
        return Err(NoMemory);
    }
    Ok(place as u32)
}
