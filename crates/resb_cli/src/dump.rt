//! The command `dump`: the text of a file to standard output, or of each file to a folder.
//! What is made of a file is in `show`, and how bytes come to a place in `save`.
use crate::folders::check_folder;
use crate::input::{Beside, Input, Pools};
use crate::note::Note;
use crate::place::{Place, place_of};
use crate::progress::Progress;
use crate::save::{Content, save, saved};
use crate::say::{NoText, fail, or_fail, refuse_memory};
use crate::show::{
    Showing, bundle_name, form_ending, print_as, print_content, refuse_print, say_cause, settled,
};
use crate::streams::{NO_MEMORY, made};
use crate::subject::Subject;
use crate::taken::Taken;
use crate::unread::Unread;
use resb_lines::{PrintForm, Printable, ShownBundle};
use resb_opened::Ascending;
use resb_print::PrintError;
use resb_shown::Shown;
use resb_tree::ResourceBundle;
use resb_words::DumpWords;
use std::alloc::Global;
use std::mem;
use std::path::{Path, PathBuf};

/// A file that is shown, with what is wanted of it.
#[derive(Clone, Copy)]
struct Source<'f> {
    name: &'f str,
    wanted: &'f DumpWords<'f>,
}

/// Prints a file's text, or its JSON where it has none; or writes that of each file to a folder.
/// One that fails doesn't stop the others; the status says whether one did.
pub(crate) fn dump(rt: &HostRuntime, wanted: &DumpWords<'_>) -> u8 {
    if wanted.files.iter().filter(|name| **name == "-").count() > 1 {
        return fail(rt, "resb", "standard input is read once alone");
    }
    if let Some(folder) = wanted.folder {
        if let Err(status) = check_folder(rt, folder) {
            return status;
        }
    }
    let mut taken = Taken::new(rt);
    for name in wanted.files.iter().copied().chain(wanted.pool) {
        if taken.add_input(rt, name).is_err() {
            return fail(rt, name, NO_MEMORY);
        }
    }
    dump_each(rt, wanted, &mut taken)
}

/// Shows each file, and writes over none of those that are taken.
fn dump_each(rt: &HostRuntime, wanted: &DumpWords<'_>, taken: &mut Taken) -> u8 {
    let mut status = 0;
    let mut progress = Progress::new(rt, wanted.files.len());
    let mut before = None;
    let mut pools = Pools::new(wanted.pool, wanted.limit);
    for name in wanted.files.iter().copied() {
        before = match Input::next(before, rt, name, wanted.limit) {
            Ok(input) => {
                let source = Source {
                    name,
                    wanted: &*wanted,
                };
                status = status.max(settled(source.dump(rt, &input, &mut pools, taken)));
                Some(input)
            }
            Err(e) => {
                status = status.max(Unread::say(e, rt, name));
                None
            }
        };
        progress.one_more(rt);
    }
    progress.end(rt);
    status
}

/// Notes a pool bundle that is read, if it is a file of its own.
fn note_pool(
    rt: &HostRuntime,
    name: &str,
    beside: &Beside<'_>,
    taken: &mut Taken,
) -> Result<(), u8> {
    match beside {
        Beside::File(pool, _) => {
            taken
                .add_input(rt, pool.as_str())
                .map_err(|_| refuse_memory(rt, name))
        }
        Beside::Item(_, _) | Beside::Mirrored(_, _) | Beside::Nowhere => Ok(()),
    }
}

/// What is known of a file that has no tree for want of its pool bundle, if it is one; what is
/// wrong with a pool bundle that is there is said.
fn note_of<'f>(
    rt: &HostRuntime,
    name: &str,
    file: &'f [u8],
    beside: &'f Beside<'_>,
) -> Option<Note<'f>> {
    match beside.bundle(rt, name) {
        Ok(pool) => Note::of(file, pool),
        Err(_) => Note::of(file, None),
    }
}

impl<'f> Source<'f> {
    /// Shows the file: the status, or that of what kept it from being shown. Its pool bundle is
    /// kept for the next file.
    fn dump(
        self,
        rt: &HostRuntime,
        input: &Input,
        pools: &mut Pools<'_>,
        taken: &mut Taken,
    ) -> Result<u8, u8> {
        let opened = input.open(rt, self.name)?;
        let beside = match opened.pool_among(rt, self.name, pools) {
            Err(_) if self.wanted.is_lenient && self.wanted.pool.is_none() => Beside::Nowhere,
            beside => beside?,
        };
        // lent again, for as long as its pool bundle
        let source = Source {
            name: &*self.name,
            wanted: &*self.wanted,
        };
        let done = source.dump_beside(rt, opened.bytes, &beside, taken);
        pools.keep(beside);
        done
    }

    /// Shows the file of these bytes beside its pool bundle. Its tree is made only where the keys
    /// of some table aren't seen to ascend, and where the cause is looked for that it has no text.
    fn dump_beside(
        self,
        rt: &HostRuntime,
        file: &'f [u8],
        beside: &'f Beside<'_>,
        taken: &mut Taken,
    ) -> Result<u8, u8> {
        note_pool(rt, self.name, beside, taken)?;
        if self.wanted.is_lenient
            && let Some(note) = note_of(rt, self.name, file, beside)
        {
            return self.send(rt, &note, form_ending(PrintForm::Plain), taken);
        }
        let subject = Subject::open(rt, self.name, file, beside)?;
        if let Some(status) = self.dump_opened(rt, &subject, taken)? {
            return Ok(status);
        }
        self.dump_tree(rt, &subject, taken)
    }

    /// The form that is wanted.
    fn form(self) -> PrintForm {
        if self.wanted.is_json {
            PrintForm::Json
        } else if self.wanted.is_icu {
            PrintForm::Icu
        } else {
            PrintForm::Plain
        }
    }

    /// The form that is wanted, which the file has no text of, and what is said of its JSON, which
    /// is shown in place of that or not.
    fn missing(self, has_json: bool) -> NoText {
        let instead = match (has_json, self.wanted.folder) {
            (false, _) => "",
            (true, None) => "; here is its JSON",
            (true, Some(_)) => "; its JSON is written",
        };
        NoText {
            form: self.form(),
            hint: "",
            instead,
        }
    }

    /// Shows the file without its tree, if that can be: where its tables ascend, and it has what is
    /// wanted.
    fn dump_opened(
        self,
        rt: &HostRuntime,
        subject: &Subject<'_>,
        taken: &mut Taken,
    ) -> Result<Option<u8>, u8> {
        let file = subject.index(rt, self.wanted.limit)?;
        let Some(root) = Ascending::of(file.root()) else {
            return Ok(None);
        };
        let shown = ShownBundle {
            name: bundle_name(self.name),
            root,
            is_locale_fallback_enabled: subject.source.head.has_fallback(),
        };
        let form = self.form();
        match print_as(form, self.wanted.limit).printable(rt.alloc(), &shown) {
            Ok(content) => Ok(Some(self.put(rt, &self.showing(content, form), taken)?)),
            Err(PrintError::NotPrintable(_)) => Ok(None),
            Err(e) => Err(refuse_print(rt, self.name, form, &shown, e)),
        }
    }

    /// Shows the file by its tree.
    fn dump_tree(
        self,
        rt: &HostRuntime,
        subject: &Subject<'_>,
        taken: &mut Taken,
    ) -> Result<u8, u8> {
        let bundle = subject.bundle(rt, self.wanted.limit)?;
        let done = self.dump_bundle(rt, &bundle, taken);
        let_go(bundle, self.wanted.files.len() == 1);
        done
    }

    /// Shows the file's bundle: as JSON where it has no text of the form that is wanted.
    fn dump_bundle(
        self,
        rt: &HostRuntime,
        bundle: &ResourceBundle<'_>,
        taken: &mut Taken,
    ) -> Result<u8, u8> {
        let shown = ShownBundle {
            name: bundle_name(self.name),
            root: bundle.root(),
            is_locale_fallback_enabled: bundle.is_locale_fallback_enabled,
        };
        let form = self.form();
        match print_as(form, self.wanted.limit).printable(rt.alloc(), &shown) {
            Ok(content) => self.put(rt, &self.showing(content, form), taken),
            Err(PrintError::NotPrintable(_)) => self.dump_instead(rt, bundle, taken),
            Err(e) => Err(refuse_print(rt, self.name, form, &shown, e)),
        }
    }

    /// Says why the file's bundle has no text of the form that is wanted, and shows its JSON.
    fn dump_instead(
        self,
        rt: &HostRuntime,
        bundle: &ResourceBundle<'_>,
        taken: &mut Taken,
    ) -> Result<u8, u8> {
        let (form, shown) = (PrintForm::Json, ShownBundle::of(bundle));
        let made = print_as(form, self.wanted.limit).printable(rt.alloc(), &shown);
        say_cause(rt, self.name, bundle, self.missing(made.is_ok()))?;
        match made {
            Ok(content) => self.put(rt, &self.showing(content, form), taken),
            Err(e) => Err(refuse_print(rt, self.name, form, &shown, e)),
        }
    }

    /// What is printed of a bundle.
    fn showing<'s, S: Shown<'s>>(
        self,
        content: Printable<'s, S>,
        form: PrintForm,
    ) -> Showing<'s, S> {
        Showing {
            content,
            form,
            has_mark: self.wanted.has_mark,
        }
    }

    /// Prints what is shown, or writes it to the folder.
    fn put<'s, S: Shown<'s>>(
        self,
        rt: &HostRuntime,
        showing: &Showing<'s, S>,
        taken: &mut Taken,
    ) -> Result<u8, u8> {
        self.send(rt, showing, form_ending(showing.form), taken)
    }

    /// Prints a content, or writes it to the folder, to a file with this ending.
    fn send<C: Content>(
        self,
        rt: &HostRuntime,
        content: &C,
        ending: &str,
        taken: &mut Taken,
    ) -> Result<u8, u8> {
        let name = self.name;
        let Some(folder) = self.wanted.folder else {
            return Ok(print_content(rt, name, content));
        };
        let (output, place) = target_in(rt, name, ending, folder, taken)?;
        let done = save(rt, &place, content);
        or_fail(rt, output.as_path().as_str(), saved(&place, done))?;
        Ok(0)
    }
}

/// Drops a bundle, but for the last one: the program ends then, and the system takes all memory
/// back at once.
fn let_go(bundle: ResourceBundle<'_>, is_last: bool) {
    if is_last {
        mem::forget(bundle);
    }
}

/// Where what is shown of a file goes: to a folder, under the name of the file's bundle.
fn target_in(
    rt: &HostRuntime,
    name: &str,
    ending: &str,
    folder: &str,
    taken: &mut Taken,
) -> Result<(PathBuf, Place), u8> {
    let path = or_fail(rt, name, path_in(rt.alloc(), name, ending, folder))?;
    let output = path.as_path().as_str();
    let place = or_fail(rt, output, place_of(rt, output))?;
    taken.take_or_say(rt, name, &place)?;
    Ok((path, place))
}

/// The path in a folder of what is shown of a file.
fn path_in(alloc: Global, name: &str, ending: &str, folder: &str) -> Result<PathBuf, &'static str> {
    let bundle = bundle_name(name);
    let file = made(format!(in alloc; "{bundle}{ending}"))?;
    made(Path::new(folder).join(alloc, file.as_str()))
}
