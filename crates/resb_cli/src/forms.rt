//! The binary forms that rules of collation are given in a draft: those that a file has which ICU's
//! compiler made.
//! Which rules need one is in `collation`, and how it is put into a draft in `resb_filter`.
ghost use Rattle.std.specs.Prelude.{◌≡◌, true, IfOk};
ghost use Rattle.resb_draft.specs.Drafts.{is_ready};

use crate::collation::{BINARY, COLLATIONS, RULES, Said, rules_of, unbuilt_in};
use crate::key_order::ReadKeys;
use crate::say::refuse_memory;
use resb_draft::{Draft, DraftBundle};
use resb_filter::{CollationForm, with_collation_forms};
use resb_opened::{Found, Handle};
use resb_tree::NoMemory;
use std::alloc::{AllocError, Global};

/// Which binary forms rules of collation are given.
#[derive(Clone, Copy)]
pub(crate) enum Forms<'f> {
    /// Those of a file.
    Of(Built<'f>),
    /// Empty ones, for their keys alone.
    Empty,
}

/// A file that has binary forms of rules of collation, and its name.
#[derive(Clone, Copy)]
pub(crate) struct Built<'f> {
    pub(crate) name: &'f str,
    pub(crate) root: Handle<'f>,
}

/// The bundle of the text of a name with binary forms for the types of collation that need one, as
/// far as there are some, and its keys.
pub(crate) fn with_forms<'s>(
    rt: &HostRuntime,
    text_name: &str,
    forms: Forms<'s>,
    bundle: DraftBundle<'s>,
    mut read: ReadKeys<'s>,
) -> Result<(DraftBundle<'s>, ReadKeys<'s>), u8>
    requires { is_ready bundle.root ≡ true }
    ensures { IfOk result (λ r. is_ready r.0.root ≡ true) }
{
    let forms = forms_for(rt, text_name, forms, &bundle.root)?;
    if forms.is_empty() {
        return Ok((bundle, read));
    }
    read.list(BINARY).map_err(|_| refuse_memory(rt, text_name))?;
    let DraftBundle {
        name,
        root,
        is_locale_fallback_enabled,
    } = bundle;
    let Ok(root) = with_collation_forms(rt.alloc(), root, forms.as_slice()) else {
        return Err(refuse_memory(rt, text_name));
    };
    let bundle = DraftBundle {
        name,
        root,
        is_locale_fallback_enabled,
    };
    Ok((bundle, read))
}

/// The binary forms for the types of collation of the text of a name that need one.
fn forms_for<'f>(
    rt: &HostRuntime,
    text_name: &str,
    forms: Forms<'f>,
    draft: &Draft<'f>,
) -> Result<Vec<CollationForm<'f>>, u8> {
    let types = unbuilt_in(rt, text_name, draft)?;
    match forms {
        Forms::Of(built) => forms_in(rt, built, draft, types.as_slice()),
        Forms::Empty => {
            empty_forms(rt.alloc(), types.as_slice()).map_err(|_| refuse_memory(rt, text_name))
        }
    }
}

/// An empty form for each of these types.
fn empty_forms<'f>(alloc: Global, types: &[&'f str]) -> Result<Vec<CollationForm<'f>>, AllocError> {
    let mut forms = Vec::new(alloc);
    for key in types.iter().copied() {
        forms.push(CollationForm { key, bytes: &[] })?;
    }
    Ok(forms)
}

/// The binary forms that a file has for types of these keys, where its rules are those of a draft.
fn forms_in<'f>(
    rt: &HostRuntime,
    built: Built<'f>,
    draft: &Draft<'f>,
    types: &[&'f str],
) -> Result<Vec<CollationForm<'f>>, u8> {
    let Built { name, root } = built;
    let mut forms = Vec::new(rt.alloc());
    for key in types.iter().copied() {
        let Some(bytes) = form_in(root, key) else {
            continue;
        };
        let Ok(is_foreign) = has_other_rules(rt.alloc(), root, draft, key) else {
            return Err(refuse_memory(rt, name));
        };
        if !is_foreign && forms.push(CollationForm { key, bytes }).is_err() {
            return Err(refuse_memory(rt, name));
        }
    }
    Ok(forms)
}

/// Why a draft has no binary form for the type of a key, though a file was asked for it.
pub(crate) fn why_lacking(root: Handle<'_>, key: &str) -> Said {
    match form_in(root, key) {
        Some(_) => Said::Foreign,
        None => Said::Lacking,
    }
}

/// The binary form that a file has for the type of a key.
fn form_in<'f>(root: Handle<'f>, key: &str) -> Option<&'f [u8]> {
    match root.get(&[COLLATIONS, key, BINARY])? {
        Found::Resource(handle) => handle.bytes(),
        Found::Number(_) => None,
    }
}

/// Whether a file has other rules for the type of a key than a draft. Where it has none, as ICU's
/// compiler may leave them out, it isn't known.
fn has_other_rules(
    alloc: Global,
    root: Handle<'_>,
    draft: &Draft<'_>,
    key: &str,
) -> Result<bool, NoMemory> {
    let Some(Found::Resource(theirs)) = root.get(&[COLLATIONS, key, RULES]) else {
        return Ok(false);
    };
    let mut text = String::new(alloc);
    theirs.push_text(&mut text)?;
    Ok(rules_of(draft, key) != Some(text.as_str()))
}
