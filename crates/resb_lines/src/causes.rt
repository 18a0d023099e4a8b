//! What keeps a bundle from having a text of a form, and where it stands: the first of it in the
//! order of the text. No function calls itself. Which names, keys and strings are a cause is said
//! in `form`.
ghost use Rattle.std.specs.Prelude.{◌≡◌, ◌<◌, ◌^◌, ◌++◌, ◌∷◌, [], None, IfOk};
ghost use Rattle.std.specs.Prelude.{OnOk, MatchOption};
ghost use Rattle.resb_shown.specs.Shown.{text_in};
ghost use Rattle.resb_print.specs.Held.{IsHeld, HeldIn, AreBelow};
ghost use Rattle.resb_print.specs.Paths.{first_found, found_in, steps_in};
ghost use Rattle.resb_lines.specs.Causes.{found_as};
ghost use Rattle.resb_lines.specs.Inner.Looks.{looks_in, look_of, without_last, Enters, LooksOnce};

use crate::form::Form;
use crate::inside::Inside;
use crate::write::ShownBundle;
use resb_print::{Cause, PathStep};
use resb_shown::{Node, Shown};
use resb_tree::Int28;
use std::alloc::{AllocError, Global};

/// The first cause, in the text's order, that keeps a bundle from having a text of a form, with
/// the path to it, if there is one. Where the root is no table or the name is the cause, the path
/// has no steps.
pub(crate) fn find_cause<'s, F: Form, S: Shown<'s>>(
    alloc: Global,
    form: F,
    bundle: ShownBundle<'s, S>,
) -> Result<Option<(Vec<PathStep<'s>>, Cause)>, AllocError>
    ensures found { IfOk result (λ found. found_as found
        ≡ first_found F.tests bundle.entry.name.now (S.tree bundle.entry.root)) }
    ensures held { IfOk result (λ found. found ≡ None → IsHeld (S.tree bundle.entry.root)) }
{
    let Node::Table(entries) = bundle.root.node() else {
        return Ok(Some((Vec::new(alloc), form.root_cause())));
    };
    if let Some(cause) = form.name_cause(bundle.name) {
        return Ok(Some((Vec::new(alloc), cause)));
    }
    find_inside::<F, S>(alloc, form, entries)
}

/// The first cause among the entries of the root, with the path to it.
fn find_inside<'s, F: Form, S: Shown<'s>>(
    alloc: Global,
    form: F,
    entries: S::Entries,
) -> Result<Option<(Vec<PathStep<'s>>, Cause)>, AllocError>
    ensures found { IfOk result
        (λ found. found_as found ≡ found_in F.tests [] (S.entries entries) None) }
    ensures held { IfOk result (λ found. found ≡ None → HeldIn (S.entries entries)) }
{
    let mut path = Vec::new(alloc);
    let mut pending = Vec::new(alloc);
    pending.push(Inside::Entries(entries))?;
    while let Some(inside) = pending.pop() {
        if let Some(cause) = look_once::<F, S>(form, &mut pending, &mut path, inside)? {
            return Ok(Some((path, cause)));
        }
    }
    Ok(None)
}

/// Looks at the next of what is inside a collection, to which the path leads, and puts what it
/// leaves. Answers which cause it is, if it is one: then the path leads to it.
fn look_once<'s, F: Form, S: Shown<'s>>(
    form: F,
    pending: &mut Vec<Inside<S::Members, S::Entries>>,
    path: &mut Vec<PathStep<'s>>,
    inside: Inside<S::Members, S::Entries>,
) -> Result<Option<Cause>, AllocError>
    ensures { IfOk result (λ found. LooksOnce F.tests
        (looks_in S.members S.entries pending.old.items)
        (looks_in S.members S.entries pending.new.items)
        (steps_in path.old.items) (steps_in path.new.items)
        (look_of S.members S.entries inside) found) }
{
    match inside {
        Inside::Members(mut ahead, number) => {
            let Some(member) = S::next_member(&mut ahead) else {
                path.pop();
                return Ok(None);
            };
            // no memory holds so many members that they have no number
            let next = number.checked_add(1).ok_or(AllocError)?;
            path.push(PathStep::Member(number))?;
            put::<S>(pending, Inside::Members(ahead, next))?;
            enter(form, pending, path, member)
        }
        Inside::Entries(mut ahead) => {
            let Some(next) = S::next_entry(&mut ahead) else {
                path.pop();
                return Ok(None);
            };
            let (key, value) = next;
            path.push(PathStep::Key(key))?;
            if let Some(cause) = form.key_cause(key) {
                return Ok(Some(cause));
            }
            put::<S>(pending, Inside::Entries(ahead))?;
            enter(form, pending, path, value)
        }
    }
}

/// Puts what is inside a collection, to be looked at first.
fn put<'s, S: Shown<'s>>(
    pending: &mut Vec<Inside<S::Members, S::Entries>>,
    inside: Inside<S::Members, S::Entries>,
) -> Result<(), AllocError>
    ensures { OnOk result (pending.new.items ≡ pending.old.items ++ inside ∷ []) }
{
    pending.push(inside)?;
    Ok(())
}

/// Which cause a string is, if it is one. No text of it is made.
fn string_cause<'s, F: Form, S: Shown<'s>>(form: F, shown: S) -> Option<Cause>
    ensures { result ≡ F.tests.of_string (text_in (S.tree shown)) }
{
    match form.string_cause() {
        Some((character, cause)) if shown.has_ascii(character) => Some(cause),
        _ => None,
    }
}

/// Takes the last step of the path back, unless it leads to a cause.
fn step_back(path: &mut Vec<PathStep<'_>>, cause: Option<Cause>) -> Option<Cause>
    ensures same { result ≡ cause }
    ensures path { MatchOption result
        (steps_in path.new.items ≡ without_last (steps_in path.old.items))
        (λ _. steps_in path.new.items ≡ steps_in path.old.items) }
{
    let Some(cause) = cause else {
        path.pop();
        return None;
    };
    Some(cause)
}

/// Puts what is inside a resource to which the path leads, or answers which cause the resource
/// itself is, if it is one: else the last step is taken back.
fn enter<'s, F: Form, S: Shown<'s>>(
    form: F,
    pending: &mut Vec<Inside<S::Members, S::Entries>>,
    path: &mut Vec<PathStep<'s>>,
    shown: S,
) -> Result<Option<Cause>, AllocError>
    ensures { IfOk result (λ found. Enters F.tests
        (looks_in S.members S.entries pending.old.items)
        (looks_in S.members S.entries pending.new.items)
        (steps_in path.old.items) (steps_in path.new.items) (S.tree shown) found) }
{
    match shown.node() {
        Node::String => Ok(step_back(path, string_cause(form, shown))),
        Node::Alias => Ok(step_back(path, form.alias_cause())),
        Node::Array(members) => {
            put::<S>(pending, Inside::Members(members, 0))?;
            Ok(None)
        }
        Node::Table(entries) => {
            put::<S>(pending, Inside::Entries(entries))?;
            Ok(None)
        }
        Node::Binary(bytes) => {
            are_bytes(bytes);
            Ok(step_back(path, None))
        }
        Node::Integer(number) => {
            is_small(number);
            Ok(step_back(path, None))
        }
        Node::IntVector => Ok(step_back(path, None)),
    }
}

/// Bytes are below 256, as their type says.
fn are_bytes(_bytes: &[u8])
    ensures { AreBelow 256 _bytes.now }
{}

/// An integer is of 28 bits, as its type says.
fn is_small(_number: Int28)
    ensures { _number < 2 ^ 28 }
{}
