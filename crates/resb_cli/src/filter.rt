//! The drafts of texts, and what rules leave of them.
//! What rules say is in `resb_filter`, and how a draft becomes a file in `drafted`.
ghost use Rattle.std.specs.Prelude.{◌≡◌, true, IfOk};
ghost use Rattle.resb_draft.specs.Drafts.{is_ready};

use crate::genrb::PARSE_ERROR;
use crate::input::bytes_of;
use crate::key_order::ReadKeys;
use crate::say::{complain, fail, refuse_memory, refuse_source};
use crate::texts::SourceText;
use resb_compile::CompileError;
use resb_draft::{Draft, DraftBundle};
use resb_filter::{RuleError, Rules};
use resb_icu_text::{IcuLimitError, IcuReader};
use resb_program::{SourceError, text_of};
use resb_words::Filters;
use std::alloc::{AllocError, Global};
use std::path::Path;

/// The rules that leave rules of collation out: those of each type below the root's `collations`,
/// and the root's `UCARules`, which are those of all languages.
const COLLATION_RULES: &str = "-/collations/*/Sequence\n-/UCARules";

/// The bundle of a text in ICU's own form, and its keys as they are read; or the status, once it is
/// said why there is none.
pub(crate) fn draft_of<'t>(
    rt: &HostRuntime,
    name: &str,
    text: SourceText<'t>,
    limit: Option<u64>,
) -> Result<(DraftBundle<'t>, ReadKeys<'t>), u8>
    ensures { IfOk result (λ r. is_ready r.0.root ≡ true) }
{
    let (bundle, keys) = match limit {
        None => IcuReader::read_draft(rt.alloc(), text.whole()).map_err(|e| refuse_text(
            rt,
            name,
            text,
            CompileError::ReadingIcu(e),
        ))?,
        Some(limit) => IcuReader::read_draft_within(rt.alloc(), text.whole(), limit).map_err(
            |e| refuse_limited(rt, name, text, limit, e),
        )?,
    };
    let read = ReadKeys {
        keys,
        root: bundle.root.root,
        has_dependencies: text.has_dependencies(),
    };
    Ok((bundle, read))
}

/// Says why a text isn't read within a limit, and gives the status of that.
fn refuse_limited(
    rt: &HostRuntime,
    name: &str,
    text: SourceText<'_>,
    limit: u64,
    e: IcuLimitError,
) -> u8 {
    match e {
        IcuLimitError::Text(e) => refuse_text(rt, name, text, CompileError::ReadingIcu(e)),
        IcuLimitError::Larger => refuse_text(rt, name, text, CompileError::Larger(limit)),
    }
}

/// The bundle of the text of a name without what the rules for it leave out, if there are some; or
/// the status, once it is said why there are none.
pub(crate) fn filtered<'t>(
    rt: &HostRuntime,
    text_name: &str,
    bundle: DraftBundle<'t>,
    filters: Option<Filters<'_>>,
) -> Result<DraftBundle<'t>, u8>
    requires { is_ready bundle.root ≡ true }
    ensures { IfOk result (λ r. is_ready r.root ≡ true) }
{
    let Some(filters) = filters else {
        return Ok(bundle);
    };
    let Ok(name) = rules_name(rt.alloc(), text_name, filters) else {
        return Err(refuse_memory(rt, text_name));
    };
    let name = name.as_str();
    let bytes = bytes_of(rt, name, None)?;
    let Ok(lines) = text_of(bytes.as_slice()) else {
        return Err(fail(rt, name, "this is no UTF-8"));
    };
    match Rules::read(rt.alloc(), lines) {
        Ok(rules) => left_by_rules(rt, text_name, bundle, &rules),
        Err(e) => Err(refuse_rules(rt, name, e)),
    }
}

/// The bundle of the text of a name without rules of collation, if these are left out.
pub(crate) fn without_rules<'t>(
    rt: &HostRuntime,
    text_name: &str,
    bundle: DraftBundle<'t>,
    omits_rules: bool,
) -> Result<DraftBundle<'t>, u8>
    requires { is_ready bundle.root ≡ true }
    ensures { IfOk result (λ r. is_ready r.root ≡ true) }
{
    if !omits_rules {
        return Ok(bundle);
    }
    match Rules::read(rt.alloc(), COLLATION_RULES) {
        Ok(rules) => left_by_rules(rt, text_name, bundle, &rules),
        // its lines are rules
        Err(_) => Err(refuse_memory(rt, text_name)),
    }
}

/// What rules leave of the bundle of the text of a name.
fn left_by_rules<'t>(
    rt: &HostRuntime,
    text_name: &str,
    bundle: DraftBundle<'t>,
    rules: &Rules<'_>,
) -> Result<DraftBundle<'t>, u8>
    requires { is_ready bundle.root ≡ true }
    ensures { IfOk result (λ r. is_ready r.root ≡ true) }
{
    let DraftBundle {
        name,
        root,
        is_locale_fallback_enabled,
    } = bundle;
    let Ok(root) = rules.filtered(rt.alloc(), root) else {
        return Err(refuse_memory(rt, text_name));
    };
    Ok(DraftBundle {
        name,
        root,
        is_locale_fallback_enabled,
    })
}

/// Says why a text is no rules, and gives the status of that.
fn refuse_rules(rt: &HostRuntime, name: &str, e: RuleError) -> u8 {
    complain(rt, name, e);
    match e {
        RuleError::OutOfMemory => 1,
        RuleError::Line(_, _) => PARSE_ERROR,
    }
}

/// Says why a text has no file, and gives the status of that.
pub(crate) fn refuse_text(
    rt: &HostRuntime,
    name: &str,
    text: SourceText<'_>,
    e: CompileError,
) -> u8 {
    refuse_source(rt, name, text, &SourceError::Refused(e))
}

/// The name of the file of a text's rules: what leads from the texts' folder to the text leads from
/// the rules' folder to it.
pub(crate) fn rules_name(
    alloc: Global,
    text: &str,
    filters: Filters<'_>,
) -> Result<String, AllocError> {
    let folder = filters.folder;
    match Path::new(text).strip_prefix(filters.source) {
        Ok(inner) => {
            let inner = inner.as_str();
            format!(in alloc; "{folder}/{inner}")
        }
        Err(_) => format!(in alloc; "{folder}/{text}"),
    }
}
