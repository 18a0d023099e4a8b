//! Takes a text in: goes through it from group to group.
//! What stands between groups is passed in `stretch`, what is made of them in `making`.
ghost use Rattle.std.specs.Prelude.{◌≡◌, ◌++◌, IfOk, IfErr, OnOk, map};
ghost use Rattle.resb_icu_text.specs.Lexemes.{bytes_said};
ghost use Rattle.resb_icu_files.specs.TakenIn.{IsTakenIn, FilesFail, TakesFiles, named_of};
ghost use Rattle.resb_icu_files.specs.TakenIn.{taken_by};

use crate::error::FilesError;
use crate::file::{FileNamed, TextFile};
use crate::group::Group;
use crate::making::Making;
use crate::stretch::{Passed, closer_at, pass};
use crate::taken::TakenIn;
use crate::way::Way;
use crate::writing::named;
use resb_tree::NoMemory;
use std::alloc::Global;

/// Takes a text of ICU's form in: writes the files that its groups name into it.
///
/// A group `:process(dependency){NAME}` becomes a string of the name, and before the `}` of the
/// root stands one entry more, `%%DEPENDENCY`, an array of those names; no file has to be there.
/// `:include{NAME}` becomes a string of the file's text, and `:import{NAME}` a binary of its bytes;
/// `:process(transliterator){NAME}` a string of the file's rules without comments and line ends,
/// and `:process(uca_rules){NAME}` one of its collation rules without comments and blanks.
/// All else is copied as it is, groups that aren't of this form too, so that a reader refuses them
/// where they stand. So is what stands behind the root's `}`.
///
/// Refused are the first group whose file isn't among these, or isn't UTF-8 where its text is
/// taken, or is UTF-8 and has no rules, and want of memory.
pub fn with_files(alloc: Global, text: &str, files: &[TextFile]) -> Result<TakenIn, FilesError>
    ensures ok { IfOk result (IsTakenIn files.now text.now) }
    ensures err { IfErr result (FilesFail files.now text.now) }
{
    let mut making = Making::new(alloc);
    let mut from = 0;
    let mut depth = 0;
    'groups: loop {
        let Passed {
            to,
            depth: deep,
            group,
        } = pass(alloc, text, from, depth)?;
        let Some(group) = group else {
            let closer = closer_at(text, to);
            return Ok(making.finish(alloc, text, from, closer)?);
        };
        making.copy(text, from, to)?;
        making.write(alloc, text, files, &group)?;
        from = group.last + 1;
        depth = deep;
    }
}

/// Adds the file of a group, if more than its name is taken.
fn add_file(alloc: Global, files: &mut Vec<FileNamed>, group: &Group<'_>) -> Result<(), NoMemory>
    ensures { OnOk result (map named_of files.new.items ≡ map named_of files.old.items
        ++ taken_by group.now.kind group.now.at (bytes_said group.now.name)) }
{
    match group.kind {
        Way::Dependency => Ok(()),
        Way::Include | Way::Import | Way::Rules | Way::CollationRules => {
            files.push(named(alloc, group)?)?;
            Ok(())
        }
    }
}

/// The files that a text takes in, in order of place, a name as often as it stands there: all but
/// dependencies, of which nothing but the name is taken.
pub fn files_taken(alloc: Global, text: &str) -> Result<Vec<FileNamed>, NoMemory>
    ensures { IfOk result (λ files. TakesFiles text.now 0 0 (map named_of files.items)) }
{
    let mut files = Vec::new(alloc);
    let mut from = 0;
    let mut depth = 0;
    'groups: loop {
        let Passed {
            to: _,
            depth: deep,
            group,
        } = pass(alloc, text, from, depth)?;
        let Some(group) = group else {
            return Ok(files);
        };
        add_file(alloc, &mut files, &group)?;
        from = group.last + 1;
        depth = deep;
    }
}
