//! Binary forms of rules of collation, which another tool made, put into a draft: a table of which
//! something is changed inside is put anew behind the others.
//! What rules leave out of a draft is in `filtering`.
ghost use Rattle.std.specs.Prelude.{◌≡◌, ℕ, List, true, map, option_map, IfOk, OnOk};
ghost use Rattle.resb_tree.specs.Tree.{Tree};
ghost use Rattle.resb_draft.specs.Drafts.{tree_at, is_whole, draft_tree, is_ready};
ghost use Rattle.resb_draft.specs.Drafts.{IsMade, Keeps};
ghost use Rattle.resb_filter.specs.Collated.{each_inside, form_of, with_form, collated};
ghost use Rattle.resb_filter.specs.Inner.Forms.{form_in, at_root_by};
ghost use Rattle.resb_filter.specs.View.{forms_view};

use crate::filtering::{entries_of, push_table};
use indexmap::IndexMap;
use resb_draft::Draft;
use resb_tree::{NoMemory, Resource};
use std::alloc::Global;
use std::borrow::CowSlice;

/// The binary form of the rules of a type of collation.
#[derive(Clone, Copy)]
pub struct CollationForm<'a> {
    /// The type's key below `collations`.
    pub key: &'a str,
    /// The form.
    pub bytes: &'a [u8],
}

/// The form of each type.
type FormIndex<'a> = IndexMap<&'a str, &'a [u8]>;

/// The draft of a draft's tree with binary forms of rules of collation: at the root's key
/// `collations` the table of each type that is listed gets its form, under `%%CollationBin`; of a
/// type that is listed twice the first counts. Want of memory is the only refusal.
pub fn with_collation_forms<'a>(
    alloc: Global,
    draft: Draft<'a>,
    forms: &[CollationForm<'a>],
) -> Result<Draft<'a>, NoMemory>
    requires { is_ready draft ≡ true }
    ensures ready { IfOk result (λ d. is_ready d ≡ true) }
    ensures tree { IfOk result
        (λ d. draft_tree d ≡ collated (forms_view forms.now) (draft_tree draft.entry)) }
{
    let forms = form_index(alloc, forms)?;
    let mut draft = draft;
    let root = draft.root;
    draft.root = change_entries(alloc, &mut draft, &AtRoot(&forms), root)?;
    Ok(draft)
}

/// The first form that is listed for each type.
fn form_index<'a>(alloc: Global, forms: &[CollationForm<'a>]) -> Result<FormIndex<'a>, NoMemory>
    ensures { IfOk result (λ m. (key : List ℕ)
        → form_in m key ≡ form_of (forms_view forms.now) key) }
{
    let mut index = IndexMap::new(alloc);
    for at in (0..forms.len()).rev() {
        let _ = index.insert(forms[at].key, forms[at].bytes)?;
    }
    Ok(index)
}

/// What becomes of the value of each entry of a table.
trait EachEntry<'a> {
    /// The tree that becomes of one at a key.
    ghost changes: { Self → List ℕ → Tree → Tree };

    /// The number of what becomes of the value of an entry.
    fn change(
        &self,
        alloc: Global,
        draft: &mut Draft<'a>,
        key: &str,
        value: u32,
    ) -> Result<u32, NoMemory>
        requires { is_whole draft.old value ≡ true }
        ensures made { IfOk result
            (λ n. IsMade draft.new n (changes self.now key.now (tree_at draft.old value))) }
        ensures keeps { OnOk result (Keeps draft.old draft.new) };
}

/// The number of what becomes of the table of a piece. Any other piece stays.
fn change_entries<'a, C: EachEntry<'a>>(
    alloc: Global,
    draft: &mut Draft<'a>,
    change: &C,
    number: u32,
) -> Result<u32, NoMemory>
    requires { is_whole draft.old number ≡ true }
    ensures made { IfOk result (λ n. IsMade draft.new n
        (each_inside (C.changes change.now) (tree_at draft.old number))) }
    ensures keeps { OnOk result (Keeps draft.old draft.new) }
{
    let Some(entries) = entries_of(alloc, draft, number)? else {
        return Ok(number);
    };
    let mut changed = Vec::new(alloc);
    for entry in &entries {
        let value = change.change(alloc, draft, entry.0, entry.1)?;
        changed.push((entry.0, value))?;
    }
    push_table(alloc, draft, &changed)
}

/// What stands at the root's keys, with these forms.
#[derive(Clone, Copy)]
struct AtRoot<'f, 'a>(&'f FormIndex<'a>);

impl<'f, 'a> EachEntry<'a> for AtRoot<'f, 'a> {
    ghost changes = { λ c. at_root_by (form_in c.0.now) };

    fn change(
        &self,
        alloc: Global,
        draft: &mut Draft<'a>,
        key: &str,
        value: u32,
    ) -> Result<u32, NoMemory> {
        if key == "collations" {
            change_entries(alloc, draft, &OfTypes(self.0), value)
        } else {
            Ok(value)
        }
    }
}

/// The tables of the types of collation, with these forms.
#[derive(Clone, Copy)]
struct OfTypes<'f, 'a>(&'f FormIndex<'a>);

impl<'f, 'a> EachEntry<'a> for OfTypes<'f, 'a> {
    ghost changes = { λ c k. with_form (form_in c.0.now k) };

    fn change(
        &self,
        alloc: Global,
        draft: &mut Draft<'a>,
        key: &str,
        value: u32,
    ) -> Result<u32, NoMemory> {
        match form_for(self.0, key) {
            Some(form) => put_form(alloc, draft, value, form),
            None => Ok(value),
        }
    }
}

/// The form of a type.
fn form_for<'a>(forms: &FormIndex<'a>, key: &str) -> Option<&'a [u8]>
    ensures { option_map (λ b. b.now) result ≡ form_in forms.now key.now }
{
    match forms.get(key) {
        Some(bytes) => Some(*bytes),
        None => None,
    }
}

/// The number of a type's table with its form.
fn put_form<'a>(
    alloc: Global,
    draft: &mut Draft<'a>,
    number: u32,
    form: &'a [u8],
) -> Result<u32, NoMemory>
    requires { is_whole draft.old number ≡ true }
    ensures made { IfOk result (λ n. IsMade draft.new n
        (with_form (Some form.entry.now) (tree_at draft.old number))) }
    ensures keeps { OnOk result (Keeps draft.old draft.new) }
{
    let Some(mut entries) = entries_of(alloc, draft, number)? else {
        return Ok(number);
    };
    let leaf = draft.push_leaf(Resource::Binary(CowSlice::Borrowed(form)))?;
    entries.push(("%%CollationBin", leaf))?;
    push_table(alloc, draft, &entries)
}
