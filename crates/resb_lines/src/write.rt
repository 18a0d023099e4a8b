//! The calls that write the lines of a bundle, make a text of them, and look how long they are.
//! What is written, and in which order, is said in `text`.
ghost use Rattle.std.specs.Prelude.{◌≡◌, ◌<◌, ◌≤◌, OnOk, OnErr, IfOk, IfErr, MatchBool, length};
ghost use Rattle.std.specs.Io.KnownBytes.{Appends};
ghost use Rattle.resb_tree.specs.Bundle.{name_of, root_of};
ghost use Rattle.resb_tree.specs.View.{tree_of};
ghost use Rattle.resb_shown.specs.Sink.{AppendsPart, FailsWriting, IsLengthWithin};
ghost use Rattle.resb_lines.specs.Lines.{lines_of, IsTextWithin};

use crate::form::Form;
use crate::text::LinesText;
use resb_shown::{Node, Shown, length_within, write_blocks};
use resb_tree::{Resource, ResourceBundle};
use std::alloc::{AllocError, Global};
use std::io;
use std::io::Write;

/// A bundle that is shown: its name, its root, and whether fallback is on.
#[derive(Clone, Copy)]
pub struct ShownBundle<'s, S: Copy> {
    /// The name.
    pub name: &'s str,
    /// The root, which is a table where the bundle has lines.
    pub root: S,
    /// Whether fallback is on.
    pub is_locale_fallback_enabled: bool,
}

impl<'t, 'a> ShownBundle<'t, &'t Resource<'a>> {
    /// A bundle's tree, as it is shown.
    pub fn of(bundle: &'t ResourceBundle<'a>) -> ShownBundle<'t, &'t Resource<'a>>
        ensures name { result.name.now ≡ name_of bundle.now }
        ensures root { tree_of result.root.now ≡ root_of bundle.now }
        ensures fallback { result.is_locale_fallback_enabled
            ≡ bundle.now.is_locale_fallback_enabled }
    {
        ShownBundle {
            name: bundle.name(),
            root: bundle.root(),
            is_locale_fallback_enabled: bundle.is_locale_fallback_enabled,
        }
    }
}

impl<'s, S: Copy> ShownBundle<'s, S> {
    /// This bundle once more.
    pub(crate) fn again(&self) -> ShownBundle<'s, S>
        ensures { result ≡ self.now }
    {
        ShownBundle {
            name: self.name,
            root: self.root,
            is_locale_fallback_enabled: self.is_locale_fallback_enabled,
        }
    }
}

/// Writes the lines of a bundle in a form, in blocks, however deep it nests. These are its text of
/// the form where it has one; a root that is no table has no lines. Where the writer fails or
/// memory is wanted, a part of them from their start was written. The error is of the kind
/// `OutOfMemory`, or else some of the lines weren't written and it is one of
/// `resb_shown::write_whole`. The writer isn't flushed.
pub(crate) fn write_lines<'s, F: Form, S: Shown<'s>, W: Write>(
    alloc: Global,
    writer: &mut W,
    form: F,
    bundle: ShownBundle<'s, S>,
) -> io::Result<()>
    ensures ok { let text = lines_of F.spelling bundle.entry.name.now
        bundle.entry.is_locale_fallback_enabled (S.tree bundle.entry.root) in
        OnOk result (Appends (W.contents writer.old) (W.contents writer.new) text) }
    ensures part { let text = lines_of F.spelling bundle.entry.name.now
        bundle.entry.is_locale_fallback_enabled (S.tree bundle.entry.root) in
        OnErr result (AppendsPart (W.contents writer.old) (W.contents writer.new) text) }
    ensures cause { let text = lines_of F.spelling bundle.entry.name.now
        bundle.entry.is_locale_fallback_enabled (S.tree bundle.entry.root) in
        IfErr result (FailsWriting (W.contents writer.old) (W.contents writer.new) text) }
{
    let Node::Table(entries) = bundle.root.node() else {
        return Ok(());
    };
    let fallback = bundle.is_locale_fallback_enabled;
    let mut text: LinesText<'s, F, S, S::Members, S::Entries> = LinesText::new(
        alloc,
        form,
        bundle.name,
        fallback,
        entries,
    )?;
    write_blocks(alloc, writer, &mut text)
}

/// The lines of a bundle in a form, where they have no more bytes than a limit. They are made line
/// by line, as far as that shows.
pub(crate) fn lines_within<'s, F: Form, S: Shown<'s>>(
    alloc: Global,
    form: F,
    bundle: ShownBundle<'s, S>,
    limit: u64,
) -> Result<Option<String>, AllocError>
    ensures { let text = lines_of F.spelling bundle.entry.name.now
        bundle.entry.is_locale_fallback_enabled (S.tree bundle.entry.root) in
        IfOk result (IsTextWithin limit text) }
{
    let Node::Table(entries) = bundle.root.node() else {
        return Ok(Some(String::new(alloc)));
    };
    let fallback = bundle.is_locale_fallback_enabled;
    let text: LinesText<'s, F, S, S::Members, S::Entries> = LinesText::new(
        alloc,
        form,
        bundle.name,
        fallback,
        entries,
    )?;
    text.into_text(limit)
}

/// How many bytes the lines of a bundle in a form have, if those are no more than a limit. They are
/// made as far as that shows, a block at a time, and not kept.
pub(crate) fn lines_length_within<'s, F: Form, S: Shown<'s>>(
    alloc: Global,
    form: F,
    bundle: ShownBundle<'s, S>,
    limit: u64,
) -> Result<Option<u64>, AllocError>
    ensures { let text = lines_of F.spelling bundle.entry.name.now
        bundle.entry.is_locale_fallback_enabled (S.tree bundle.entry.root) in
        IfOk result (IsLengthWithin limit text) }
{
    let Node::Table(entries) = bundle.root.node() else {
        return Ok(Some(0));
    };
    let fallback = bundle.is_locale_fallback_enabled;
    let mut text: LinesText<'s, F, S, S::Members, S::Entries> = LinesText::new(
        alloc,
        form,
        bundle.name,
        fallback,
        entries,
    )?;
    length_within(alloc, &mut text, limit)
}
