//! The command `derb`: the texts of files in ICU's own form, by the words of ICU's `derb`.
//! What is made of a file is in `dump`, and which words are taken in `resb_words`.
use crate::below::{all_below, as_names};
use crate::dump::dump;
use crate::say::fail;
use crate::streams::NO_MEMORY;
use resb_words::{DerbWords, DumpWords};
use std::path::PathBuf;

/// What is said to fail where no file does.
const NAME: &str = "derb";

/// Writes the text of each file to the folder, or prints all.
pub(crate) fn derb(rt: &HostRuntime, wanted: &DerbWords<'_>) -> u8 {
    let names = wanted.files.as_slice();
    let Ok(files) = all_below(rt.alloc(), wanted.source, names, Some(".res")) else {
        return fail(rt, NAME, NO_MEMORY);
    };
    dump_files(rt, wanted, files.as_slice())
}

/// Writes the texts of files of these paths.
fn dump_files(rt: &HostRuntime, wanted: &DerbWords<'_>, files: &[PathBuf]) -> u8 {
    let Ok(files) = as_names(rt.alloc(), files) else {
        return fail(rt, NAME, NO_MEMORY);
    };
    dump(
        rt,
        &DumpWords {
            files,
            folder: wanted.destination,
            is_json: false,
            is_icu: true,
            is_lenient: false,
            limit: None,
            pool: None,
            has_mark: wanted.has_mark,
        },
    )
}
