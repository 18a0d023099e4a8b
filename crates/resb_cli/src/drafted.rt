//! The files of texts in ICU's own form, by their drafts: without what rules leave out, with the
//! binary forms of rules of collation, and laid out as is asked.
//! Texts in the plain form are compiled in `compile`.
ghost use Rattle.std.specs.Prelude.{◌≡◌, true};
ghost use Rattle.resb_draft.specs.Drafts.{is_ready};

use crate::collation::{Said, first_left, has_form, refuse_form, say_unbuilt, unbuilt_in};
use crate::compile::{BundleFile, NO_FILE_NAME, Work, is_file_name};
use crate::filter::{draft_of, filtered, refuse_text, without_rules};
use crate::format_version::in_version;
use crate::forms::{Built, Forms, why_lacking, with_forms};
use crate::input::{Beside, Input};
use crate::key_order::{ReadKeys, laid_keys};
use crate::say::{complain, or_fail, refuse_memory};
use crate::streams::made;
use crate::subject::Subject;
use crate::texts::SourceText;
use resb_compile::CompileError;
use resb_draft::{Draft, DraftBundle};
use resb_pool_maker::PoolMaker;
use resb_tree::Key;
use resb_words::Collation;
use resb_write::Layout;
use std::alloc::{AllocError, Global};
use std::cell::RefCell;

/// A text and its name.
#[derive(Clone, Copy)]
struct Source<'n, 's> {
    name: &'n str,
    text: SourceText<'s>,
}

/// The file of a text in ICU's own form, with the status of what is said of its rules of collation;
/// or the status, once it is said why there is none.
pub(crate) fn drafted_file<'t>(
    rt: &HostRuntime,
    name: &str,
    text: SourceText<'t>,
    work: Work<'_, '_, '_>,
) -> Result<BundleFile<'t>, u8> {
    let (bundle, keys) = draft_of(rt, name, text, work.wanted.limit)?;
    let bundle_name = bundle.name;
    let (bytes, forms, status) = if work.wanted.file.collation == Collation::Unbuilt {
        let (bytes, status) = file_without_forms(rt, name, bundle, keys, work)?;
        (bytes, Vec::new(rt.alloc()), status)
    } else {
        let (bytes, forms) = file_with_forms(rt, Source { name, text }, bundle, keys, work)?;
        (bytes, forms, 0)
    };
    Ok(BundleFile {
        bytes,
        bundle: Some(bundle_name),
        forms,
        status,
    })
}

/// The file of a bundle whose rules of collation are compiled without binary forms, and the status
/// of what is said of them.
fn file_without_forms<'t>(
    rt: &HostRuntime,
    name: &str,
    bundle: DraftBundle<'t>,
    keys: ReadKeys<'t>,
    work: Work<'_, '_, '_>,
) -> Result<(Vec<u8>, u8), u8>
    requires { is_ready bundle.root ≡ true }
{
    let types = unbuilt_in(rt, name, &bundle.root)?;
    let bundle = filtered(rt, name, bundle, work.wanted.file.filters)?;
    let status = match first_left(&bundle.root, types.as_slice()) {
        Some(key) => say_unbuilt(rt, name, key, work.wanted),
        None => 0,
    };
    let bytes = written(rt, name, bundle, keys, work)?;
    Ok((bytes, status))
}

/// The file of a bundle whose rules of collation need binary forms, if there are such rules, and
/// the name of the file that has the forms. Each gets an empty form first: a form that rules of the
/// filter leave out isn't needed.
fn file_with_forms<'t>(
    rt: &HostRuntime,
    source: Source<'_, 't>,
    bundle: DraftBundle<'t>,
    keys: ReadKeys<'t>,
    work: Work<'_, '_, '_>,
) -> Result<(Vec<u8>, Vec<String>), u8>
    requires { is_ready bundle.root ≡ true }
{
    let name = source.name;
    let bundle_name = bundle.name;
    let types = unbuilt_in(rt, name, &bundle.root)?;
    let (bundle, keys) = with_forms(rt, name, Forms::Empty, bundle, keys)?;
    let bundle = filtered(rt, name, bundle, work.wanted.file.filters)?;
    let needed = formed_in(rt, name, &bundle.root, types.as_slice())?;
    match (needed.as_slice(), work.wanted.file.collation) {
        ([], _) => Ok((written(rt, name, bundle, keys, work)?, Vec::new(rt.alloc()))),
        (needed, Collation::From(folder)) => {
            // it is read once more
            drop(bundle);
            let path = or_fail(rt, name, forms_file(rt.alloc(), folder, bundle_name))?;
            built_file(rt, source, needed, path, work)
        }
        ([key, ..], _) => Err(refuse_form(rt, name, key, Said::Refused)),
    }
}

/// Those of some types for which the draft of a text of a name has a binary form.
fn formed_in<'k>(
    rt: &HostRuntime,
    name: &str,
    draft: &Draft<'_>,
    types: &[&'k str],
) -> Result<Vec<&'k str>, u8> {
    let mut formed = Vec::new(rt.alloc());
    for key in types.iter().copied() {
        if has_form(draft, key) && formed.push(key).is_err() {
            return Err(refuse_memory(rt, name));
        }
    }
    Ok(formed)
}

/// The name of the file in a folder that has the binary forms for the bundle of a name.
pub(crate) fn forms_file(
    alloc: Global,
    folder: &str,
    bundle: &str,
) -> Result<String, &'static str> {
    if !is_file_name(bundle) {
        return Err(NO_FILE_NAME);
    }
    made(format!(in alloc; "{folder}/{bundle}.res"))
}

/// The bytes of a text's file with the binary forms that the file of a name has for these types,
/// and the names of that file and of the pool bundle that it uses.
fn built_file(
    rt: &HostRuntime,
    source: Source<'_, '_>,
    needed: &[&str],
    path: String,
    work: Work<'_, '_, '_>,
) -> Result<(Vec<u8>, Vec<String>), u8> {
    let (file, limit) = (path.as_str(), work.wanted.limit);
    let input = Input::read(rt, file, limit)?;
    let opened = input.open(rt, file)?;
    let beside = opened.pool(rt, file, None, limit)?;
    let built = Subject::open(rt, file, opened.bytes, &beside)?.index(rt, None)?;
    let root = built.root();
    // taken apart, so that the text is lent for as long as the forms
    let Source { name, text } = source;
    let bytes = collated_file(
        rt,
        Source { name, text },
        Built { name: file, root },
        needed,
        work,
    )?;
    match forms_names(rt.alloc(), file, &beside) {
        Ok(names) => Ok((bytes, names)),
        Err(_) => Err(refuse_memory(rt, name)),
    }
}

/// The names of a file of binary forms and of its pool bundle, if that is a file of its own.
fn forms_names(alloc: Global, file: &str, beside: &Beside<'_>) -> Result<Vec<String>, AllocError> {
    let mut names = Vec::new(alloc);
    names.push(String::from_str(alloc, file)?)?;
    if let Beside::File(pool, _) = beside {
        names.push(String::from_str(alloc, pool.as_str())?)?;
    }
    Ok(names)
}

/// The bytes of a text's file with binary forms of an open file. The text is read once more: its
/// draft and the forms are lent for one time.
fn collated_file<'s>(
    rt: &HostRuntime,
    source: Source<'_, 's>,
    built: Built<'s>,
    needed: &[&str],
    work: Work<'_, '_, '_>,
) -> Result<Vec<u8>, u8> {
    let Source { name, text } = source;
    let (bundle, keys) = draft_of(rt, name, text, work.wanted.limit)?;
    let (bundle, keys) = with_forms(rt, name, Forms::Of(built), bundle, keys)?;
    let bundle = filtered(rt, name, bundle, work.wanted.file.filters)?;
    for key in needed.iter().copied() {
        if !has_form(&bundle.root, key) {
            return Err(refuse_form(rt, built.name, key, why_lacking(built.root, key)));
        }
    }
    written(rt, name, bundle, keys, work)
}

/// Adds a bundle to those of which a pool bundle is made, if one is; or the status, once it is said
/// why it isn't added.
fn add_to_pool(
    rt: &HostRuntime,
    name: &str,
    root: &Draft<'_>,
    keys: &[Key<'_>],
    maker: Option<&RefCell<PoolMaker>>,
) -> Result<(), u8>
    requires { is_ready root.now ≡ true }
{
    let Some(maker) = maker else {
        return Ok(());
    };
    let Ok(mut maker) = maker.try_borrow_mut() else {
        return Err(refuse_memory(rt, name));
    };
    match maker.add_draft(rt.alloc(), root, keys) {
        Ok(()) => Ok(()),
        Err(e) => {
            complain(rt, name, e);
            Err(1)
        }
    }
}

/// The file of a bundle, laid out as is wanted.
fn written<'t>(
    rt: &HostRuntime,
    name: &str,
    bundle: DraftBundle<'t>,
    read: ReadKeys<'t>,
    work: Work<'_, '_, '_>,
) -> Result<Vec<u8>, u8>
    requires { is_ready bundle.root ≡ true }
{
    let Work { wanted, pool, .. } = work;
    let bundle = without_rules(rt, name, bundle, wanted.file.omits_rules)?;
    let (alloc, is_compact) = (rt.alloc(), wanted.file.is_compact);
    let keys = laid_keys(alloc, &bundle.root, read, is_compact).map_err(|_| refuse_memory(
        rt, name,
    ))?;
    let keys = keys.as_slice();
    add_to_pool(rt, name, &bundle.root, keys, work.maker)?;
    let layout = if is_compact {
        Layout::compact()
    } else {
        Layout::plain()
    };
    let layout = match pool {
        Some(pool) => layout.over(pool),
        None => layout,
    };
    // what the writer refuses has no place in the text
    let file = layout
        .write_draft(alloc, bundle, keys)
        .map_err(|e| refuse_text(
            rt,
            name,
            SourceText::new("", None),
            CompileError::Writing(e),
        ))?;
    in_version(rt, name, file, wanted.file.version)
}
