//! What is asked in the words of ICU's own tools, `genrb` and `derb`.
//! The words that they take are in `icu_command`.
use crate::collation::asked_collation;
use crate::encoding::Encoding;
use crate::error::WordsError;
use crate::icu_command::{IcuTool, NOT_DONE, OF_JAVA};
use crate::request::{FileWords, Request, names};
use crate::writing::{WritingWords, asked_writing};
use clap::ArgMatches;
use std::alloc::Global;
use std::path::Path;

/// What is asked of texts in ICU's own form by the words of ICU's compiler.
#[derive(Drop)]
pub struct GenrbWords<'w> {
    /// The names of the texts, below the source folder.
    pub texts: Vec<&'w str>,
    /// The folder of the texts.
    pub source: &'w str,
    /// The folder for the files.
    pub destination: &'w str,
    /// The folder for a pool bundle, if one is written.
    pub written_pool: Option<&'w str>,
    /// How the bytes of a text without a mark are read.
    pub encoding: Encoding,
    /// How each file is made.
    pub file: FileWords<'w>,
    /// How the files are written.
    pub writing: WritingWords<'w>,
    /// Whether warnings are left unsaid.
    pub is_quiet: bool,
    /// Whether a text with a warning is refused.
    pub is_strict: bool,
    /// Whether each text is named on standard output.
    pub is_verbose: bool,
    /// Whether the last text's status is the call's, and a pool bundle is written of the texts that
    /// aren't refused where that is 0.
    pub is_keeping_on: bool,
}

/// The rules by which parts are left out of the files of texts.
#[derive(Clone, Copy)]
pub struct Filters<'w> {
    /// The folder of the rules, in a file for each text that has the text's name.
    pub folder: &'w str,
    /// The folder of the texts: as a text is named below it, its rules are named below `folder`.
    pub source: &'w str,
}

/// What is asked of files by the words of ICU's `derb`.
#[derive(Drop)]
pub struct DerbWords<'w> {
    /// The names of the files, below the source folder, with or without `.res`.
    pub files: Vec<&'w str>,
    /// The folder of the files.
    pub source: &'w str,
    /// The folder for the texts; standard output if there is none.
    pub destination: Option<&'w str>,
    /// Whether a text begins with a byte order mark.
    pub has_mark: bool,
}

/// The tool of ICU's by whose name the process is called, which is the first word.
pub(crate) fn called_tool(words: &[String]) -> Option<IcuTool> {
    match words {
        [name, ..] => IcuTool::named(Path::new(name.as_str()).file_name()?),
        [] => None,
    }
}

/// Whether words, of which the first is the process's own name, are those of a tool of ICU's.
pub fn are_of_icu(words: &[String]) -> bool {
    match words {
        [_, command, ..] if IcuTool::named(command.as_str()).is_some() => true,
        _ => called_tool(words).is_some(),
    }
}

/// What is asked by the words of a tool of ICU's.
pub(crate) fn asked_of<'w>(
    alloc: Global,
    tool: IcuTool,
    matches: &ArgMatches<'w>,
) -> Result<Request<'w>, WordsError> {
    match tool {
        IcuTool::Genrb => genrb(alloc, matches),
        IcuTool::Derb => derb(alloc, matches),
    }
}

/// What is asked of texts by the words of ICU's compiler.
fn genrb<'w>(alloc: Global, matches: &ArgMatches<'w>) -> Result<Request<'w>, WordsError> {
    for word in NOT_DONE {
        if matches.contains_id(word) {
            return Err(WordsError::NotDone(word));
        }
    }
    for word in OF_JAVA {
        if matches.contains_id(word) {
            return Err(WordsError::OfJava(word));
        }
    }
    let encoding = Encoding::named(matches.get_str("encoding").unwrap_or(""));
    let encoding = encoding.ok_or(WordsError::NoEncoding)?;
    let version = match matches.get_str("formatVersion") {
        None => None,
        Some("2") => Some(2),
        Some("3") => Some(3),
        Some(_) => return Err(WordsError::NoVersion),
    };
    let source = folder(matches, "sourcedir");
    let destination = folder(matches, "destdir");
    Ok(Request::Genrb(GenrbWords {
        texts: names(alloc, matches, "FILE")?,
        source,
        destination,
        written_pool: pool(matches, "writePoolBundle", destination),
        encoding,
        file: FileWords {
            pool: pool(matches, "usePoolBundle", source),
            filters: rules_of(matches, source),
            collation: asked_collation(matches),
            omits_rules: matches.get_flag("omitCollationRules"),
            is_compact: matches.get_flag("compact"),
            is_big_endian: matches.get_flag("big-endian"),
            has_copyright: matches.get_flag("copyright"),
            version,
            takes_from: source_said(matches),
            includes_outside: matches.get_flag("include-outside"),
        },
        writing: asked_writing(matches),
        is_quiet: matches.get_flag("quiet"),
        is_strict: matches.get_flag("strict-warnings"),
        is_verbose: matches.get_flag("verbose"),
        is_keeping_on: matches.get_flag("keep-going"),
    }))
}

/// The rules for the texts of a folder, if the words name a folder of rules.
fn rules_of<'w>(matches: &ArgMatches<'w>, source: &'w str) -> Option<Filters<'w>> {
    match matches.get_str("filterDir")? {
        "" => Some(Filters {
            folder: ".",
            source,
        }),
        folder => Some(Filters { folder, source }),
    }
}

/// What is asked of files by the words of ICU's `derb`.
fn derb<'w>(alloc: Global, matches: &ArgMatches<'w>) -> Result<Request<'w>, WordsError> {
    let encoding = Encoding::named(matches.get_str("encoding").unwrap_or(""));
    if encoding != Some(Encoding::Utf8) {
        return Err(WordsError::NoUtf8);
    }
    if matches.contains_id("truncate") {
        return Err(WordsError::Truncated);
    }
    let source = folder(matches, "sourcedir");
    if source == "-" {
        return Err(WordsError::IcuData);
    }
    let destination = if matches.get_flag("to-stdout") {
        None
    } else {
        Some(folder(matches, "destdir"))
    };
    Ok(Request::Derb(DerbWords {
        files: names(alloc, matches, "FILE")?,
        source,
        destination,
        has_mark: matches.get_flag("bom"),
    }))
}

/// The folder of the texts, if the words name it.
fn source_said<'w>(matches: &ArgMatches<'w>) -> Option<&'w str> {
    match matches.get_str("sourcedir") {
        None | Some("") => None,
        Some(folder) => Some(folder),
    }
}

/// The folder that is named, or the current one.
fn folder<'w>(matches: &ArgMatches<'w>, word: &str) -> &'w str {
    match matches.get_str(word) {
        None | Some("") => ".",
        Some(folder) => folder,
    }
}

/// The folder of the pool bundle that a word asks for: the one that is named, or the usual one.
fn pool<'w>(matches: &ArgMatches<'w>, word: &str, usual: &'w str) -> Option<&'w str> {
    if !matches.contains_id(word) {
        return None;
    }
    match matches
        .get_strs(word)
        .and_then(|folders| folders.last().copied())
    {
        None | Some("") => Some(usual),
        folder => folder,
    }
}
