//! The command `compile`: each text to a file of its own.
//! What a text's file is, and why it has none, is in `resb_program`.
use crate::copyright::with_notice;
use crate::depfile::{Rules, can_be_spelled};
use crate::drafted::drafted_file;
use crate::encoding::utf8_of;
use crate::filter::rules_name;
use crate::folders::{Named, TEXTS, check_folder, named_files};
use crate::genrb::{ILLEGAL_CHAR, UNREAD_POOL};
use crate::input::{Input, lending_name};
use crate::place::{Place, place_of};
use crate::progress::Progress;
use crate::save::{
    Bytes, Manner, Part, Until, cause_of_writing, save, save_until, saved, stands_there,
};
use crate::say::{complain, fail, fail_input, or_fail, refuse, refuse_memory, refuse_source};
use crate::show::{settled, status_of};
use crate::shown::Shown;
use crate::streams::{NO_MEMORY, made, read_input};
use crate::taken::Taken;
use crate::texts::{SourceText, taken_in};
use crate::trace::trace_of;
use crate::warn::{warn, warn_of_name};
use crate::words::{NO_UTF8, is_marked};
use resb_compile::{Compile, TextForm};
use resb_lent::Pool;
use resb_pool_maker::PoolMaker;
use resb_program::{SourceError, bundle_name, text_of};
use resb_swap::swapped;
use resb_words::{CompileWords, Encoding, WritingWords};
use std::alloc::{AllocError, Global};
use std::cell::RefCell;
use std::mem;
use std::path::{Path, PathBuf};

/// What is said of a name that has no spelling for `make`.
const UNSPELLED: &str = "--depfile can't say this name to make";

/// What is said of a text whose file has no name.
const NO_NAME: &str = "this has no name for a file; say one by --output";

/// What is said of a bundle whose name is none of a file.
pub(crate) const NO_FILE_NAME: &str = "the name of its bundle is no name of a file";

/// Where the bytes of a text's file go.
#[derive(Drop)]
struct Target {
    /// The name of the file.
    output: PathBuf,
    place: Place,
}

/// The file of a text.
#[derive(Drop)]
pub(crate) struct BundleFile<'t> {
    /// What it holds.
    pub(crate) bytes: Vec<u8>,
    /// The name of the text's bundle, if the text is in ICU's own form.
    pub(crate) bundle: Option<&'t str>,
    /// The names of the files from which it has binary forms of rules of collation.
    pub(crate) forms: Vec<String>,
    /// The status of what is said of the text.
    pub(crate) status: u8,
}

/// What is asked of texts, the pool bundle over which their files are written, and the one that is
/// made of them.
#[derive(Clone, Copy)]
pub(crate) struct Work<'w, 'c, 'p> {
    pub(crate) wanted: &'w CompileWords<'c>,
    pub(crate) pool: Option<&'w Pool<'p>>,
    pub(crate) maker: Option<&'w RefCell<PoolMaker>>,
}

/// What a call keeps from text to text.
#[derive(Drop)]
pub(crate) struct Call {
    pub(crate) taken: Taken,
    /// The name of the pool bundle over which files are written.
    pool: Option<String>,
    /// The rules for `make` of the files that were written.
    rules: Rules,
    /// The name of the pool bundle that was made of the texts, if one was.
    made_pool: Option<String>,
    /// Whether there are several texts.
    has_several: bool,
    /// The files that wait until all texts are read.
    waiting: Vec<Waiting>,
}

/// A file that is written beside one that it is to replace. A later text may take that one in.
#[derive(Drop)]
struct Waiting {
    /// The name of its text.
    name: String,
    part: Part,
}

impl Call {
    /// No text is compiled yet.
    pub(crate) fn new(rt: &HostRuntime) -> Call {
        Call {
            taken: Taken::new(rt),
            pool: None,
            rules: Rules::new(rt.alloc()),
            made_pool: None,
            has_several: false,
            waiting: Vec::new(rt.alloc()),
        }
    }

    /// Has a file that was made of the text of a name wait.
    fn wait(&mut self, rt: &HostRuntime, name: &str, part: Part) -> Result<(), u8> {
        let Ok(text) = String::from_str(rt.alloc(), name) else {
            part.remove(rt);
            return Err(refuse_memory(rt, name));
        };
        self.waiting
            .push(Waiting { name: text, part })
            .map_err(|_| refuse_memory(rt, name))
    }

    /// Moves the files that wait into their places, but those that would replace what was read; and
    /// gives the status of that.
    fn settle(&mut self, rt: &HostRuntime) -> u8 {
        let waiting = mem::replace(&mut self.waiting, Vec::new(rt.alloc()));
        let mut status = 0;
        for Waiting { name, part } in waiting {
            status = status.max(match self.taken.check_again(rt, part.path()) {
                Ok(()) => match part.settle(rt) {
                    Ok(()) => 0,
                    Err(e) => fail(rt, name.as_str(), cause_of_writing(&e)),
                },
                Err(conflict) => {
                    part.remove(rt);
                    complain(rt, name.as_str(), conflict);
                    2
                }
            });
        }
        status
    }

    /// Ends a call in which nothing failed: writes the rules for `make`, if they are asked for and
    /// files are written; or gives the status, once it is said why they aren't. Where something
    /// failed, the rules of the last call stay, so that `make` forgets none.
    pub(crate) fn end(mut self, rt: &HostRuntime, depfile: Option<&str>) -> Result<(), u8> {
        let Some(name) = depfile else {
            return Ok(());
        };
        let place = or_fail(rt, name, place_of(rt, name))?;
        self.taken.take_or_say(rt, name, &place)?;
        let Call {
            rules,
            made_pool,
            ..
        } = self;
        let pool = match &made_pool {
            Some(pool) => Some(pool.as_str()),
            None => None,
        };
        let rules = or_fail(rt, name, made(rules.into_text(pool)))?;
        let done = save(rt, &place, &Bytes(rules.as_bytes()));
        or_fail(rt, name, saved(&place, done))
    }

    /// Notes the name of the pool bundle that was made of the texts, for the rules.
    pub(crate) fn note_pool(&mut self, rt: &HostRuntime, name: &str) -> Result<(), u8> {
        if !can_be_spelled(name) {
            return Err(fail(rt, name, UNSPELLED));
        }
        let pool = String::from_str(rt.alloc(), name).map_err(|_| refuse_memory(rt, name))?;
        self.made_pool = Some(pool);
        Ok(())
    }

    /// Adds the rule for `make` of a file that was made of a text, of others, and of the pool.
    fn add_rule(
        &mut self,
        alloc: Global,
        file: &str,
        text: &str,
        mut others: Vec<String>,
    ) -> Result<(), AllocError> {
        if let Some(pool) = &self.pool {
            others.push(String::from_str(alloc, pool.as_str())?)?;
        }
        self.rules.add(alloc, file, text, others)
    }
}

/// Compiles each text. One that fails doesn't stop the others; the status says whether one did.
pub(crate) fn compile(rt: &HostRuntime, wanted: &CompileWords<'_>) -> u8 {
    settled(compile_all(rt, wanted))
}

/// Compiles each text, and ends the call where none failed.
fn compile_all(rt: &HostRuntime, wanted: &CompileWords<'_>) -> Result<u8, u8> {
    if let Some(folder) = wanted.folder {
        check_folder(rt, folder)?;
    }
    let mut call = Call::new(rt);
    let status = compile_into(rt, wanted, None, &mut call);
    if status == 0 && !wanted.is_check {
        call.end(rt, wanted.writing.depfile)?;
    }
    Ok(status)
}

/// Compiles each text, and adds its bundle to those of which a pool bundle is made, if one is.
pub(crate) fn compile_into<'w>(
    rt: &HostRuntime,
    wanted: &'w CompileWords<'_>,
    maker: Option<&'w RefCell<PoolMaker>>,
    call: &mut Call,
) -> u8 {
    let work = Work {
        wanted,
        pool: None,
        maker,
    };
    match wanted.file.pool {
        Some(name) => match compile_over(rt, work, name, call) {
            Ok(status) => status,
            Err(_) if is_icu_compiler(wanted) => UNREAD_POOL,
            Err(status) => status,
        },
        None => compile_texts(rt, work, call),
    }
}

/// Compiles texts over the pool bundle of a name.
fn compile_over(
    rt: &HostRuntime,
    work: Work<'_, '_, '_>,
    name: &str,
    call: &mut Call,
) -> Result<u8, u8> {
    let pool_name = lending_name(rt, name)?;
    let input = Input::read(rt, pool_name.as_str(), work.wanted.limit)?;
    call.taken
        .add_input(rt, pool_name.as_str())
        .map_err(|_| refuse_memory(rt, name))?;
    let bytes = input.open(rt, pool_name.as_str())?.bytes;
    let pool = Pool::open(rt.alloc(), bytes).map_err(|e| {
        complain(rt, pool_name.as_str(), e);
        1
    })?;
    call.pool = Some(pool_name);
    let pool = Some(&pool);
    Ok(compile_texts(rt, Work { pool, ..work }, call))
}

/// Compiles the texts that the words name, each folder's among them.
fn compile_texts(rt: &HostRuntime, work: Work<'_, '_, '_>, call: &mut Call) -> u8 {
    // the file of one text is named: that isn't one of a folder's, and ICU's compiler takes none
    let kind = if work.wanted.output.is_some() || is_icu_compiler(work.wanted) {
        None
    } else {
        Some(TEXTS)
    };
    let texts = match named_files(rt, work.wanted.texts.as_slice(), kind) {
        Ok(texts) => texts,
        Err(cause) => return fail(rt, "resb", cause),
    };
    for text in texts.iter() {
        if call.taken.add_read(rt.alloc(), text.name.as_str()).is_err() {
            return fail(rt, "resb", NO_MEMORY);
        }
    }
    call.has_several = texts.len() > 1;
    compile_each(rt, work, texts.as_slice(), call)
}

/// Compiles these texts, none of which is written over.
fn compile_each(rt: &HostRuntime, work: Work<'_, '_, '_>, texts: &[Named], call: &mut Call) -> u8 {
    let mut status = 0;
    let shown = if work.wanted.is_quiet { 0 } else { texts.len() };
    let mut progress = Progress::new(rt, shown);
    for text in texts {
        let name = text.name.as_str();
        let own = match text.fault {
            Some(cause) => fail(rt, name, cause),
            None => settled(compile_one(rt, name, work, call)),
        };
        status = if work.wanted.counts_last {
            own
        } else {
            status.max(own)
        };
        progress.one_more(rt);
    }
    progress.end(rt);
    status.max(call.settle(rt))
}

/// Compiles a text, and answers its status, or that of what kept it from being compiled. Where its
/// bundle names the file, that is known once it is compiled, and else before it is read.
fn compile_one(
    rt: &HostRuntime,
    name: &str,
    work: Work<'_, '_, '_>,
    call: &mut Call,
) -> Result<u8, u8> {
    let wanted = work.wanted;
    let known = if wanted.is_by_name {
        None
    } else {
        Some(target_of(rt, name, output_of(rt.alloc(), name, wanted))?)
    };
    let source = source_of(rt, name, wanted.encoding, wanted.limit).map_err(
        |status| status_of_unread(rt, name, status, wanted),
    )?;
    if wanted.is_verbose {
        say_processed(rt, name)?;
    }
    let read = text_in(rt, name, source.as_slice()).map_err(|status| {
        if is_icu_compiler(wanted) {
            ILLEGAL_CHAR
        } else {
            status
        }
    })?;
    let whole = if wanted.is_icu {
        taken_in(rt, name, read, &wanted.file, wanted.limit)?
    } else {
        None
    };
    let text = SourceText::new(read, whole.as_ref());
    let file = file_of(rt, name, text, work)?;
    let target = match known {
        Some(target) => target,
        None => named_target(rt, name, text, file.bundle, wanted.folder)?,
    };
    let others = match &whole {
        Some(whole) => whole.paths.as_slice(),
        None => &[],
    };
    target.put(rt, Made { name, file, others }, wanted, call)
}

/// The status of a text that isn't read. To ICU's compiler a folder is a text that it refuses.
fn status_of_unread(rt: &HostRuntime, name: &str, status: u8, wanted: &CompileWords<'_>) -> u8 {
    if is_icu_compiler(wanted) && Path::new(name).is_dir(rt) {
        1
    } else {
        status
    }
}

/// Names a text on standard output, as ICU's compiler does.
fn say_processed(rt: &HostRuntime, name: &str) -> Result<(), u8> {
    let name = Shown(name);
    let line = println!(rt; "Processing file \"{name}\"");
    match status_of(rt, line.is_ok()) {
        0 => Ok(()),
        status => Err(status),
    }
}

/// Says the groups of a text on standard output, as ICU's compiler does.
fn say_trace(rt: &HostRuntime, text: SourceText<'_>) -> Result<(), u8> {
    let Ok(trace) = trace_of(rt.alloc(), text.read().as_bytes()) else {
        return Err(refuse_memory(rt, "resb"));
    };
    let trace = trace.as_str();
    match status_of(rt, print!(rt; "{trace}").is_ok()) {
        0 => Ok(()),
        status => Err(status),
    }
}

/// Where a text's file goes, or the status, once it is said why that is nowhere.
fn target_of(
    rt: &HostRuntime,
    name: &str,
    output: Result<PathBuf, &'static str>,
) -> Result<Target, u8> {
    let output = or_fail(rt, name, output)?;
    let path = output.as_path().as_str();
    let place = or_fail(rt, path, place_of(rt, path))?;
    Ok(Target { output, place })
}

/// Where the file of a text goes that its bundle names, in the folder that was said or beside the
/// text. Where the bundle's name isn't known yet, the text is read once more.
fn named_target(
    rt: &HostRuntime,
    name: &str,
    text: SourceText<'_>,
    bundle: Option<&str>,
    folder: Option<&str>,
) -> Result<Target, u8> {
    if let Some(bundle) = bundle {
        return target_of(rt, name, named_by_bundle(rt.alloc(), name, bundle, folder));
    }
    let bundle = match bundle_name(rt.alloc(), text.whole()) {
        Ok(bundle) => bundle,
        Err(e) => return Err(refuse_source(rt, name, text, &e)),
    };
    target_of(
        rt,
        name,
        named_by_bundle(rt.alloc(), name, bundle.as_str(), folder),
    )
}

/// The file of the text of a name, and the paths of the files that the text takes in.
#[derive(Drop)]
struct Made<'n, 't> {
    name: &'n str,
    file: BundleFile<'t>,
    others: &'t [String],
}

impl Target {
    /// Puts a text's file there, and answers the status; but doesn't where a warning counts as a
    /// refusal.
    fn put(
        &self,
        rt: &HostRuntime,
        made: Made<'_, '_>,
        wanted: &CompileWords<'_>,
        call: &mut Call,
    ) -> Result<u8, u8> {
        let Made { name, file, others } = made;
        if file.status != 0 {
            complain(rt, name, "no file is written, since this has warnings");
            return Ok(file.status);
        }
        let sources = sources_of(rt, name, others, file.forms, wanted)?;
        for source in sources.iter() {
            note_source(rt, name, source.as_str(), call)?;
        }
        if !call.taken.take_for_text(rt, name, &self.place)? || wanted.is_check {
            return Ok(0);
        }
        if wanted.writing.depfile.is_some() {
            self.check_spelled(rt, name, sources.as_slice())?;
        }
        self.write(rt, name, file.bytes.as_slice(), wanted, call)?;
        if wanted.writing.depfile.is_some() {
            let output = self.output.as_path().as_str();
            call.add_rule(rt.alloc(), output, name, sources)
                .map_err(|_| refuse_memory(rt, name))?;
        }
        Ok(0)
    }

    /// Refuses a text for whose rule `make` has no spelling: of the file, of the text, or of
    /// another of which that is made.
    fn check_spelled(&self, rt: &HostRuntime, name: &str, others: &[String]) -> Result<(), u8> {
        let own = [self.output.as_path().as_str(), name];
        let others = others.iter().map(|other| other.as_str());
        match own
            .into_iter()
            .chain(others)
            .find(|name| !can_be_spelled(name))
        {
            Some(name) => Err(fail(rt, name, UNSPELLED)),
            None => Ok(()),
        }
    }

    /// Writes bytes there, or says why they aren't written and gives the status of that. What would
    /// replace a file that a later text may take in waits for that text.
    fn write(
        &self,
        rt: &HostRuntime,
        name: &str,
        bytes: &[u8],
        wanted: &CompileWords<'_>,
        call: &mut Call,
    ) -> Result<(), u8> {
        let writing = &wanted.writing;
        if writing.is_if_changed && stands_there(rt, &self.place, bytes) {
            return Ok(());
        }
        let until = until_of(writing);
        let output = self.output.as_path().as_str();
        let waits = wanted.is_icu && call.has_several;
        if let (Place::Beside(path, Some(old)), true) = (&self.place, waits) {
            let number = call.waiting.len();
            let manner = Manner { until, number };
            let part = Part::write(rt, path.as_path(), Some(old), &Bytes(bytes), manner);
            let part = or_fail(rt, output, part.map_err(|e| cause_of_writing(&e)))?;
            return call.wait(rt, name, part);
        }
        let done = save_until(rt, &self.place, &Bytes(bytes), until);
        or_fail(rt, output, saved(&self.place, done))
    }
}

/// When what is written counts as written.
pub(crate) fn until_of(writing: &WritingWords<'_>) -> Until {
    if writing.is_synced {
        Until::OnDisk
    } else {
        Until::Given
    }
}

/// Notes a file of which that of a text is made. One that this call has written is refused: the
/// text would be compiled of something else than what stood there.
fn note_source(rt: &HostRuntime, name: &str, source: &str, call: &mut Call) -> Result<(), u8> {
    match call.taken.written_for(rt, source) {
        Ok(None) => call
            .taken
            .add_read(rt.alloc(), source)
            .map_err(|_| refuse_memory(rt, name)),
        Ok(Some(other)) => {
            let (name, source, other) = (Shown(name), Shown(source), Shown(other));
            let _ = eprintln!(rt; "{name}: this reads {source}, which this call wrote for {other}");
            Err(2)
        }
        Err(_) => Err(refuse_memory(rt, name)),
    }
}

/// The names of the files beside a text of which its file is made: those that the text takes in,
/// its rules, and the files of binary forms.
fn sources_of(
    rt: &HostRuntime,
    name: &str,
    others: &[String],
    forms: Vec<String>,
    wanted: &CompileWords<'_>,
) -> Result<Vec<String>, u8> {
    let mut sources = copied(rt.alloc(), others).map_err(|_| refuse_memory(rt, name))?;
    if let Some(filters) = wanted.file.filters {
        let rules = rules_name(rt.alloc(), name, filters).map_err(|_| refuse_memory(rt, name))?;
        sources.push(rules).map_err(|_| refuse_memory(rt, name))?;
    }
    for file in forms {
        sources.push(file).map_err(|_| refuse_memory(rt, name))?;
    }
    Ok(sources)
}

/// Names in a list of their own.
fn copied(alloc: Global, names: &[String]) -> Result<Vec<String>, AllocError> {
    let mut copies = Vec::new(alloc);
    for name in names {
        copies.push(String::from_str(alloc, name.as_str())?)?;
    }
    Ok(copies)
}

/// The bytes of a text in UTF-8, of which this is the encoding where it has no mark; or the status,
/// once it is said why there are none.
pub(crate) fn source_of(
    rt: &HostRuntime,
    name: &str,
    encoding: Encoding,
    limit: Option<u64>,
) -> Result<Vec<u8>, u8> {
    let source = match read_input(rt, name, limit) {
        Ok(source) => source,
        Err(e) => return Err(fail_input(rt, name, e)),
    };
    match utf8_of(rt.alloc(), source, encoding) {
        Ok(source) => Ok(source),
        Err(cause) => {
            complain(rt, name, cause);
            Err(1)
        }
    }
}

/// The text that bytes are, or the status, once it is said where they are no UTF-8.
pub(crate) fn text_in<'s>(rt: &HostRuntime, name: &str, source: &'s [u8]) -> Result<&'s str, u8> {
    match text_of(source) {
        Ok(text) => Ok(text),
        Err(place) => Err(refuse(rt, name, source, &SourceError::NotUtf8(place))),
    }
}

/// A text's file, with its warnings said; or the status, once it is said why there is none.
fn file_of<'t>(
    rt: &HostRuntime,
    name: &str,
    text: SourceText<'t>,
    work: Work<'_, '_, '_>,
) -> Result<BundleFile<'t>, u8> {
    let mut file = file_at_once(rt, name, text, work)?;
    if work.wanted.file.is_big_endian {
        file.bytes = big_endian(rt, name, file.bytes.as_slice())?;
    }
    if work.wanted.file.has_copyright {
        let noted = with_notice(rt.alloc(), file.bytes.as_slice());
        file.bytes = noted.map_err(|_| refuse_memory(rt, name))?;
    }
    if work.wanted.is_verbose {
        say_trace(rt, text)?;
    }
    file.status = file.status.max(warned(rt, name, text, work.wanted));
    Ok(file)
}

/// The file of a name in big-endian order, or the status, once it is said why there is none.
pub(crate) fn big_endian(rt: &HostRuntime, name: &str, file: &[u8]) -> Result<Vec<u8>, u8> {
    match swapped(rt.alloc(), file) {
        Ok(bytes) => Ok(bytes),
        Err(e) => {
            complain(rt, name, e);
            Err(1)
        }
    }
}

/// A text's file, and nothing is said of warnings. A text in ICU's own form is compiled by its
/// draft.
fn file_at_once<'t>(
    rt: &HostRuntime,
    name: &str,
    text: SourceText<'t>,
    work: Work<'_, '_, '_>,
) -> Result<BundleFile<'t>, u8> {
    if work.wanted.is_icu {
        return drafted_file(rt, name, text, work);
    }
    match compiled(rt.alloc(), text.whole(), work) {
        Ok(bytes) => Ok(BundleFile {
            bytes,
            bundle: None,
            forms: Vec::new(rt.alloc()),
            status: 0,
        }),
        Err(e) => Err(refuse_source(rt, name, text, &e)),
    }
}

/// The status of a text's warnings, once they are said: also where the call is to be quiet, if they
/// refuse the text.
fn warned(rt: &HostRuntime, name: &str, text: SourceText<'_>, wanted: &CompileWords<'_>) -> u8 {
    if wanted.is_quiet && !wanted.is_strict {
        return 0;
    }
    let lacks_files = match wanted.dependencies {
        Some(folder) => text.warn_of_missing(rt, name, folder),
        None => false,
    };
    let is_misnamed = has_wanted_name(name, wanted) && warn_of_name(rt, name, text, wanted);
    if may_pass(text.whole().len(), wanted.limit) {
        complain(
            rt,
            name,
            "its warnings may take more than the limit: none is looked for",
        );
        return u8::from(wanted.is_strict);
    }
    match warn(rt, name, text, wanted.is_icu) {
        Ok(is_warned) => { u8::from((lacks_files || is_misnamed || is_warned) && wanted.is_strict) }
        Err(status) => status,
    }
}

/// Whether the words are those of ICU's compiler, which looks for the files that texts depend on.
fn is_icu_compiler(wanted: &CompileWords<'_>) -> bool {
    wanted.dependencies.is_some()
}

/// Whether a file of the text's own name may be looked for: where the words name no file, nor ask
/// for the bundle's name. ICU's compiler goes by that unasked.
fn has_wanted_name(name: &str, wanted: &CompileWords<'_>) -> bool {
    let asks_for_name = wanted.is_by_name && !is_icu_compiler(wanted);
    wanted.output.is_none() && !asks_for_name && name != "-"
}

/// Whether the warnings of a text of so many bytes may take more than a limit: they take up to
/// sixteen bytes for each.
fn may_pass(length: usize, limit: Option<u64>) -> bool {
    match limit {
        Some(limit) => (length as u64).saturating_mul(16) > limit,
        None => false,
    }
}

/// The bytes of the file of a text in the plain form, over the pool bundle, if there is one, where
/// reading the text keeps within the limit, if there is one.
fn compiled(alloc: Global, text: &str, work: Work<'_, '_, '_>) -> Result<Vec<u8>, SourceError> {
    let way = Compile::new(TextForm::Plain);
    let way = match work.pool {
        Some(pool) => way.over(pool),
        None => way,
    };
    let way = match work.wanted.limit {
        Some(limit) => way.within(limit),
        None => way,
    };
    way.text(alloc, text).map_err(SourceError::Refused)
}

/// The name of a text's file: the one that was said, or the text's with `.res`, in the folder that
/// was said or beside the text. Standard input goes to standard output.
fn output_of(
    alloc: Global,
    name: &str,
    wanted: &CompileWords<'_>,
) -> Result<PathBuf, &'static str> {
    if is_marked(name) {
        return Err(NO_UTF8);
    }
    match (wanted.output, wanted.folder) {
        (Some(output), _) => made(PathBuf::from_str(alloc, output)),
        (None, None) if name == "-" => made(PathBuf::from_str(alloc, "-")),
        (None, _) if name == "-" => Err(NO_NAME),
        (None, folder) => named_by_text(alloc, Path::new(name), folder),
    }
}

/// The name of a text's file by that of the text.
fn named_by_text(
    alloc: Global,
    text: Path<'_>,
    folder: Option<&str>,
) -> Result<PathBuf, &'static str> {
    let stem = text.file_stem().ok_or(NO_NAME)?;
    file_named(alloc, text, stem, folder)
}

/// The name of a text's file by that of its bundle.
fn named_by_bundle(
    alloc: Global,
    text: &str,
    bundle: &str,
    folder: Option<&str>,
) -> Result<PathBuf, &'static str> {
    if !is_file_name(bundle) {
        return Err(NO_FILE_NAME);
    }
    file_named(alloc, Path::new(text), bundle, folder)
}

/// Whether a bundle's name may be that of a file in a folder.
pub(crate) fn is_file_name(bundle: &str) -> bool {
    !bundle.is_empty() && !bundle.contains('/') && !bundle.contains('\0')
}

/// The name of a text's file, in the folder that was said or beside the text.
fn file_named(
    alloc: Global,
    text: Path<'_>,
    stem: &str,
    folder: Option<&str>,
) -> Result<PathBuf, &'static str> {
    let file = made(format!(in alloc; "{stem}.res"))?;
    made(match folder {
        Some(folder) => Path::new(folder).join(alloc, file.as_str()),
        None => text.with_file_name(alloc, file.as_str()),
    })
}
