//! Makes the new text of an old one: copies stretches, and writes groups anew.
//! Where these stand is said in `stretch` and `group`, what is written in `writing`.
ghost use Rattle.std.specs.Prelude.{◌≡◌, ◌≤◌, IfOk, IfErr, IfSome, OnOk, length, slice_index};
ghost use Rattle.std.specs.Prelude.{slice_range, ◌+◌, ◌<◌};
ghost use Rattle.std.specs.Str.{IsCharBoundary};
ghost use Rattle.std.specs.String.{string_bytes};
ghost use Rattle.resb_grammar.specs.Ascii as ascii;
ghost use Rattle.resb_icu_text.specs.Lexemes.{bytes_said};
ghost use Rattle.resb_icu_files.specs.Inner.Steps.{IsGroup};
ghost use Rattle.resb_icu_files.specs.Inner.Making.{output_of, IsOutput, IsWritten, WriteFails};
ghost use Rattle.resb_icu_files.specs.TakenIn as taken;
ghost use Rattle.resb_icu_files.specs.Writing as spec;

use crate::error::FilesError;
use crate::file::{FileNamed, TextFile};
use crate::group::Group;
use crate::taken::{Change, TakenIn};
use crate::way::Way;
use crate::writing::{named, written};
use resb_tree::NoMemory;
use std::alloc::Global;

/// What is made so far: the new text, what will stand in the array of dependencies, those, and what
/// was written anew.
#[derive(Drop)]
pub(crate) struct Making {
    text: String,
    listed: String,
    dependencies: Vec<FileNamed>,
    changes: Vec<Change>,
}

impl Making {
    /// Nothing is made yet.
    pub(crate) fn new(alloc: Global) -> Making
        ensures { output_of result ≡ spec.no_output }
    {
        Making {
            text: String::new(alloc),
            listed: String::new(alloc),
            dependencies: Vec::new(alloc),
            changes: Vec::new(alloc),
        }
    }

    /// Copies the text between two places.
    pub(crate) fn copy(&mut self, text: &str, from: usize, to: usize) -> Result<(), NoMemory>
        requires order { from ≤ to }
        requires begins { IsCharBoundary text.now from }
        requires ends { IsCharBoundary text.now to }
        ensures { OnOk result
            (output_of self.new ≡ spec.copied text.now from to (output_of self.old)) }
    {
        self.text.push_str(&text[from..to])?;
        Ok(())
    }

    /// Writes this in place of what stands between two places.
    fn rewrite(&mut self, from: usize, to: usize, bytes: &str) -> Result<(), NoMemory>
        ensures { OnOk result
            (output_of self.new ≡ spec.rewritten from to bytes.now (output_of self.old)) }
    {
        let new_from = self.text.len();
        self.text.push_str(bytes)?;
        let new_to = self.text.len();
        self.changes.push(Change {
            from,
            to,
            new_from,
            new_to,
        })?;
        Ok(())
    }

    /// Lists a dependency, by what stands between its braces.
    fn list(&mut self, inside: &str, file: FileNamed) -> Result<(), NoMemory>
        ensures { OnOk result (output_of self.new ≡ spec.with_dependency inside.now file.place
            (string_bytes file.name) (output_of self.old)) }
    {
        self.listed.push_str(inside)?;
        self.listed.push_str(",")?;
        self.dependencies.push(file)?;
        Ok(())
    }

    /// Writes a group anew.
    pub(crate) fn write(
        &mut self,
        alloc: Global,
        text: &str,
        files: &[TextFile],
        group: &Group<'_>,
    ) -> Result<(), FilesError>
        requires { IsGroup text.now group.now }
        ensures ok { OnOk result (IsWritten files.now text.now group.now
            (output_of self.old) (output_of self.new)) }
        ensures err { IfErr result
            (WriteFails files.now (bytes_said group.now.name) group.now.kind group.now.at) }
    {
        let inside = &text[group.brace + 1..group.last];
        let bytes = written(alloc, files, group, inside)?;
        self.rewrite(group.at, group.last + 1, bytes.as_str())?;
        if group.kind == Way::Dependency {
            self.list(inside, named(alloc, group)?)?;
        }
        Ok(())
    }

    /// Writes the entry of the dependencies at a place.
    fn write_entry(&mut self, alloc: Global, at: usize) -> Result<(), NoMemory>
        ensures { OnOk result (output_of self.new ≡ spec.rewritten at at
            (spec.entry_of (output_of self.old).listed) (output_of self.old)) }
    {
        let mut entry = String::from_str(alloc, " %%DEPENDENCY:array{")?;
        entry.push_str(self.listed.as_str())?;
        entry.push_str("}")?;
        self.rewrite(at, at, entry.as_str())
    }

    /// Copies what is left of the text, with the entry of the dependencies before the `}` that
    /// closes the root.
    fn end(
        &mut self,
        alloc: Global,
        text: &str,
        from: usize,
        closer: Option<usize>,
    ) -> Result<(), NoMemory>
        requires begins { IsCharBoundary text.now from }
        requires closer { IfSome closer
            (λ at. (from ≤ at) × (slice_index text.now at ≡ ascii.right_brace)) }
        ensures { OnOk result
            (output_of self.new ≡ taken.ended text.now from closer (output_of self.old)) }
    {
        match closer {
            Some(at) if !self.listed.is_empty() => {
                self.copy(text, from, at)?;
                self.write_entry(alloc, at)?;
                self.copy(text, at, text.len())
            }
            _ => self.copy(text, from, text.len()),
        }
    }

    /// What is made in the end.
    pub(crate) fn finish(
        self,
        alloc: Global,
        text: &str,
        from: usize,
        closer: Option<usize>,
    ) -> Result<TakenIn, NoMemory>
        requires begins { IsCharBoundary text.now from }
        requires closer { IfSome closer
            (λ at. (from ≤ at) × (slice_index text.now at ≡ ascii.right_brace)) }
        ensures { IfOk result
            (λ t. IsOutput t (taken.ended text.now from closer (output_of self))) }
    {
        let mut making = self;
        making.end(alloc, text, from, closer)?;
        let Making {
            text,
            listed: _,
            dependencies,
            changes,
        } = making;
        Ok(TakenIn {
            text,
            dependencies,
            changes,
        })
    }
}
