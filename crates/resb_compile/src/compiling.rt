//! From a text of either form to the bytes of its file: that form's reader, what rules leave, and
//! then the writer with the discovered keys. No tree is made in between, but a draft of one.
//! What a text and a file are, and each part of the way, is in the crates below.
ghost use Rattle.std.specs.Prelude.{◌≡◌, true, IfOk, IfErr};
ghost use Rattle.resb_draft.specs.Drafts.{is_ready, draft_tree};
ghost use Rattle.resb_layout.specs.WritingFault.{out_of_memory};
ghost use Rattle.resb_write.specs.FaultOf.{fault_of};
ghost use Rattle.resb_compile.specs.Compiling as door;
ghost use Rattle.resb_compile.specs.Compiling.{IsText, IsReadWithin, IsUnread, left_by};
ghost use Rattle.resb_compile.specs.Compiling.{IsCompiledBy, IsRefusedBy};
ghost use Rattle.resb_compile.specs.declared.compiling.TextForm.TheVariants.{Plain, Icu};

use crate::error::CompileError;
use resb_draft::DraftBundle;
use resb_filter::Rules;
use resb_icu_text::{IcuLimitError, IcuReader};
use resb_lent::Pool;
use resb_text::{LimitError, Reader};
use resb_tree::Key;
use resb_write::{BinarySerializerError, Layout};
use std::alloc::Global;

/// The form of a text.
#[derive(Clone, Copy, Debug, PartialEq, Eq)]
pub enum TextForm {
    /// The text form of the Rust crate.
    Plain,
    /// ICU's own form, which `genrb` reads. `docs/ICU_TEXTS.md` says what it is.
    Icu,
}

/// How texts are compiled: the form that they have, how their files are laid out, which rules leave
/// something out, and within which limit they are read.
#[derive(Clone, Copy)]
pub struct Compile<'p, 'f> {
    form: TextForm,
    layout: Layout<'p, 'f>,
    rules: Option<&'p Rules<'f>>,
    limit: Option<u64>,
}

/// A bundle as a draft, and the keys of the text in the order in which they first stand there.
type Read<'t> = (DraftBundle<'t>, Vec<Key<'t>>);

impl<'p, 'f> Compile<'p, 'f> {
    /// Texts of this form become plain files over no pool bundle. No rules leave anything out, and
    /// no limit is set.
    pub fn new(form: TextForm) -> Compile<'p, 'f>
        ensures { result ≡ door.new form }
    {
        Compile {
            form,
            layout: Layout::plain(),
            rules: None,
            limit: None,
        }
    }

    /// The files are compact, as those of ICU's `genrb`: `Layout::compact` says what that is.
    pub fn compact(self) -> Compile<'p, 'f>
        ensures { result ≡ door.compact self.entry }
    {
        Compile {
            layout: self.layout.compacted(),
            ..self
        }
    }

    /// The files lie over this pool bundle: `Layout::over` says what that is.
    pub fn over(self, pool: &'p Pool<'f>) -> Compile<'p, 'f>
        ensures { result ≡ door.over self.entry pool.entry }
    {
        Compile {
            layout: self.layout.over(pool),
            ..self
        }
    }

    /// The files lack what these rules leave out, as `genrb --filterDir` compiles texts.
    pub fn filtered(self, rules: &'p Rules<'f>) -> Compile<'p, 'f>
        ensures { result ≡ door.by_rules self.entry rules.entry }
    {
        Compile {
            rules: Some(rules),
            ..self
        }
    }

    /// Reading a text may make no more bytes than this limit, as `Reader::read_draft_within` and
    /// `IcuReader::read_draft_within` count them. The limit is for the reading: what the rules and
    /// the writer take beside it is not within it.
    pub fn within(self, limit: u64) -> Compile<'p, 'f>
        ensures { result ≡ door.within self.entry limit }
    {
        Compile {
            limit: Some(limit),
            ..self
        }
    }

    /// The bytes of the `.res` file of a bundle's text.
    pub fn text(&self, alloc: Global, text: &str) -> Result<Vec<u8>, CompileError>
        // The text is a bundle of the form, its reading makes no more bytes than the limit, and the
        // file, laid out as is asked, denotes what the rules leave of its tree, with its flag in
        // the index and its keys in the key block.
        ensures ok { IfOk result (λ file. IsCompiledBy self.now text.now file.items) }
        // The reader of the form refuses the text, or the writer refuses what the rules leave of
        // its tree, each for its named reason or for memory; or reading makes more than the limit.
        ensures err { IfErr result (IsRefusedBy self.now text.now) }
    {
        let (read, keys) = self.read(alloc, text)?;
        let bundle = left(alloc, read, self.rules)?;
        let file = self.layout.write_draft(alloc, bundle, keys.as_slice())?;
        Ok(file)
    }

    /// The bundle of a text of the form, within the limit, if there is one.
    fn read<'t>(&self, alloc: Global, text: &'t str) -> Result<Read<'t>, CompileError>
        ensures ok { IfOk result (λ r. IsText self.now.form text.now r.0.name.now
            r.0.is_locale_fallback_enabled (draft_tree r.0.root) r.1.items) }
        ensures within { IfOk result (λ r. IsReadWithin self.now.form self.now.limit text.now) }
        ensures ready { IfOk result (λ r. is_ready r.0.root ≡ true) }
        ensures err { IfErr result (IsUnread self.now.form self.now.limit text.now) }
    {
        match self.form {
            TextForm::Plain => read_plain(alloc, text, self.limit),
            TextForm::Icu => read_icu(alloc, text, self.limit),
        }
    }
}

/// The bundle of a text of the plain form.
fn read_plain<'t>(
    alloc: Global,
    text: &'t str,
    limit: Option<u64>,
) -> Result<Read<'t>, CompileError>
    ensures ok { IfOk result (λ r. IsText Plain text.now r.0.name.now
        r.0.is_locale_fallback_enabled (draft_tree r.0.root) r.1.items) }
    ensures within { IfOk result (λ r. IsReadWithin Plain limit text.now) }
    ensures ready { IfOk result (λ r. is_ready r.0.root ≡ true) }
    ensures err { IfErr result (IsUnread Plain limit text.now) }
{
    match limit {
        None => match Reader::read_draft(alloc, text) {
            Ok(read) => Ok(read),
            Err(e) => Err(CompileError::Reading(e)),
        },
        Some(limit) => match Reader::read_draft_within(alloc, text, limit) {
            Ok(read) => Ok(read),
            Err(LimitError::Text(e)) => Err(CompileError::Reading(e)),
            Err(LimitError::Larger) => Err(CompileError::Larger(limit)),
        },
    }
}

/// The bundle of a text of ICU's own form.
fn read_icu<'t>(alloc: Global, text: &'t str, limit: Option<u64>) -> Result<Read<'t>, CompileError>
    ensures ok { IfOk result (λ r. IsText Icu text.now r.0.name.now
        r.0.is_locale_fallback_enabled (draft_tree r.0.root) r.1.items) }
    ensures within { IfOk result (λ r. IsReadWithin Icu limit text.now) }
    ensures ready { IfOk result (λ r. is_ready r.0.root ≡ true) }
    ensures err { IfErr result (IsUnread Icu limit text.now) }
{
    match limit {
        None => match IcuReader::read_draft(alloc, text) {
            Ok(read) => Ok(read),
            Err(e) => Err(CompileError::ReadingIcu(e)),
        },
        Some(limit) => match IcuReader::read_draft_within(alloc, text, limit) {
            Ok(read) => Ok(read),
            Err(IcuLimitError::Text(e)) => Err(CompileError::ReadingIcu(e)),
            Err(IcuLimitError::Larger) => Err(CompileError::Larger(limit)),
        },
    }
}

/// A bundle without what rules leave out of it, if there are rules. Memory is the only refusal.
fn left<'t>(
    alloc: Global,
    bundle: DraftBundle<'t>,
    rules: Option<&Rules<'_>>,
) -> Result<DraftBundle<'t>, BinarySerializerError>
    requires { is_ready bundle.root ≡ true }
    ensures ready { IfOk result (λ b. is_ready b.root ≡ true) }
    ensures tree { IfOk result (λ b. draft_tree b.root
        ≡ left_by rules.entry (draft_tree bundle.entry.root)) }
    ensures flag { IfOk result (λ b. b.is_locale_fallback_enabled
        ≡ bundle.entry.is_locale_fallback_enabled) }
    ensures err { IfErr result (λ e. fault_of e ≡ out_of_memory) }
{
    let Some(rules) = rules else {
        return Ok(bundle);
    };
    let DraftBundle {
        name,
        root,
        is_locale_fallback_enabled,
    } = bundle;
    let root = rules.filtered(alloc, root)?;
    Ok(DraftBundle {
        name,
        root,
        is_locale_fallback_enabled,
    })
}
