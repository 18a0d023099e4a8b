//! What words ask for: the command, the files, and what is wished of them.
//! The words that the program knows are in `command`, and why they may be refused in `error`.

use crate::collation::{Collation, asked_collation};
use crate::command::program;
use crate::encoding::Encoding;
use crate::error::WordsError;
use crate::icu_command::{IcuTool, tool_itself};
use crate::icu_request::{DerbWords, Filters, GenrbWords, asked_of, called_tool};
use crate::writing::{WritingWords, asked_writing};
use clap::ArgMatches;
use std::alloc::Global;

/// What the words ask for.
#[derive(Drop)]
pub enum Request<'w> {
    /// `compile`: each text to a file of its own.
    Compile(CompileWords<'w>),
    /// `check`: a line of each of these files.
    Check(CheckWords<'w>),
    /// `dump`: the texts of files.
    Dump(DumpWords<'w>),
    /// `get`: some things of a file.
    Get(GetWords<'w>),
    /// `diff`: what differs between two files.
    Diff(DiffWords<'w>),
    /// `list`: the names of the items of this package.
    List(&'w str),
    /// `extract`: one item of a package.
    Extract(ExtractWords<'w>),
    /// `swap`: a file in the other order of bytes.
    Swap(SwapWords<'w>),
    /// `genrb`: what ICU's compiler is asked in its own words.
    Genrb(GenrbWords<'w>),
    /// `derb`: what ICU's printer of files is asked in its own words.
    Derb(DerbWords<'w>),
}

/// What is asked of texts. The name `-` is standard input, and standard output.
#[derive(Drop)]
pub struct CompileWords<'w> {
    /// The names of the texts.
    pub texts: Vec<&'w str>,
    /// The name of the file of the one text.
    pub output: Option<&'w str>,
    /// The folder for the files.
    pub folder: Option<&'w str>,
    /// Whether a text's file is named by its bundle, not by the text.
    pub is_by_name: bool,
    /// Whether the texts are in ICU's own form.
    pub is_icu: bool,
    /// How the bytes of a text without a mark are read.
    pub encoding: Encoding,
    /// The most bytes that reading a text may make.
    pub limit: Option<u64>,
    /// How each file is made.
    pub file: FileWords<'w>,
    /// How each file is written.
    pub writing: WritingWords<'w>,
    /// The folder where the files should be that texts depend on, if these are looked for.
    pub dependencies: Option<&'w str>,
    /// Whether no file is written.
    pub is_check: bool,
    /// Whether warnings and progress are left unsaid.
    pub is_quiet: bool,
    /// Whether a text with a warning is refused.
    pub is_strict: bool,
    /// Whether each text is named on standard output, as ICU's compiler names it.
    pub is_verbose: bool,
    /// Whether the status is that of the last text, as ICU's compiler has it, not the greatest.
    pub counts_last: bool,
}

/// How the file of a text is made, which `compile` and `genrb` ask alike.
#[derive(Clone, Copy)]
pub struct FileWords<'w> {
    /// The pool bundle over which the file is written: its name, or that of its folder.
    pub pool: Option<&'w str>,
    /// The rules by which parts are left out of the file, if there are some.
    pub filters: Option<Filters<'w>>,
    /// What becomes of rules of collation.
    pub collation: Collation<'w>,
    /// Whether rules of collation are left out of the file.
    pub omits_rules: bool,
    /// Whether the file is laid out as ICU's compiler lays it out.
    pub is_compact: bool,
    /// Whether the file is in big-endian order.
    pub is_big_endian: bool,
    /// Whether ICU's notice of copyright stands in the file's header.
    pub has_copyright: bool,
    /// The version of the format that the file must have, 2 or 3, if one is asked for.
    pub version: Option<u8>,
    /// The folder of the files that the text takes in, if it isn't that of the text.
    pub takes_from: Option<&'w str>,
    /// Whether these may be outside of that folder.
    pub includes_outside: bool,
}

/// What is asked of files that are checked.
#[derive(Drop)]
pub struct CheckWords<'w> {
    /// The names of the files; `-` is standard input.
    pub files: Vec<&'w str>,
    /// Whether JSON is printed.
    pub is_json: bool,
    /// The name of the pool bundle of those that use one.
    pub pool: Option<&'w str>,
}

/// What is asked of files whose texts are printed, or written to a folder.
#[derive(Drop)]
pub struct DumpWords<'w> {
    /// The names of the files; `-` is standard input.
    pub files: Vec<&'w str>,
    /// The folder for the texts; standard output if there is none.
    pub folder: Option<&'w str>,
    /// Whether JSON is printed.
    pub is_json: bool,
    /// Whether the text is printed in ICU's own form.
    pub is_icu: bool,
    /// Whether what is known of a file is printed where its pool bundle isn't there.
    pub is_lenient: bool,
    /// The most bytes that the tree of a file, its keys and the output may take.
    pub limit: Option<u64>,
    /// The name of the pool bundle of the files that use one.
    pub pool: Option<&'w str>,
    /// Whether a text begins with a byte order mark.
    pub has_mark: bool,
}

/// What is asked of a file of which some things are printed.
#[derive(Drop)]
pub struct GetWords<'w> {
    /// The file's name; `-` is standard input.
    pub file: &'w str,
    /// Paths of keys and numbers of members, with a slash between two of them. One may stand first.
    pub paths: Vec<&'w str>,
    /// Whether the whole of the file is looked at first.
    pub is_checked: bool,
    /// The most bytes that the file's tree, its keys and the output may take.
    pub limit: Option<u64>,
    /// The name of the file's pool bundle, if it uses one.
    pub pool: Option<&'w str>,
}

/// What is asked of two files that are compared.
#[derive(Clone, Copy)]
pub struct DiffWords<'w> {
    /// The name of the first file; `-` is standard input.
    pub old: &'w str,
    /// The name of the second file; `-` is standard input.
    pub new: &'w str,
    /// Whether JSON is printed.
    pub is_json: bool,
    /// The most bytes that each file's tree, its keys and the output may take.
    pub limit: Option<u64>,
    /// The name of the pool bundle of the files that use one.
    pub pool: Option<&'w str>,
}

/// What is asked of a package of which one item is written.
#[derive(Clone, Copy)]
pub struct ExtractWords<'w> {
    /// The package's name; `-` is standard input.
    pub file: &'w str,
    /// The item's name, with or without the package's own before it.
    pub item: &'w str,
    /// The name of the item's file; standard output if there is none.
    pub output: Option<&'w str>,
}

/// What is asked of a file that is written in the other order of bytes.
#[derive(Clone, Copy)]
pub struct SwapWords<'w> {
    /// The file's name; `-` is standard input.
    pub file: &'w str,
    /// The name of the new file; `-` is standard output.
    pub output: &'w str,
    /// The order of the new file; the other one than the file's, if none is said.
    pub order: Option<Order>,
}

/// An order of bytes.
#[derive(Clone, Copy, PartialEq)]
pub enum Order {
    /// The lower byte of a number is the first.
    Little,
    /// The higher byte of a number is the first.
    Big,
}

/// What the words ask for, of which the first is the program's own name. Under the name of a tool
/// of ICU's, `genrb` or `derb`, the others are that tool's.
pub fn request_of<'w>(alloc: Global, words: &'w [String]) -> Result<Request<'w>, WordsError> {
    if let Some(tool) = called_tool(words) {
        let matches = tool_itself(alloc, tool)?.try_get_matches_from(words)?;
        return asked_of(alloc, tool, &matches);
    }
    let matches = program(alloc)?.try_get_matches_from(words)?;
    asked(alloc, &matches)
}

/// What is asked by the words of a command.
fn asked<'w>(alloc: Global, matches: &ArgMatches<'w>) -> Result<Request<'w>, WordsError> {
    match matches.subcommand() {
        Some(("compile", matches)) => compile(alloc, matches),
        Some(("check", matches)) => check(alloc, matches),
        Some(("dump", matches)) => dump(alloc, matches),
        Some(("diff", matches)) => diff(matches),
        Some(("list", matches)) => Ok(Request::List(word(matches, "FILE"))),
        Some(("extract", matches)) => Ok(extract(matches)),
        Some(("swap", matches)) => swap(matches),
        Some(("get", matches)) => get(alloc, matches),
        Some((command, matches)) => match IcuTool::named(command) {
            Some(tool) => asked_of(alloc, tool, matches),
            None => Err(WordsError::NoCommand),
        },
        None => Err(WordsError::NoCommand),
    }
}

/// What is asked of texts.
fn compile<'w>(alloc: Global, matches: &ArgMatches<'w>) -> Result<Request<'w>, WordsError> {
    let limit = limit(matches)?;
    let output = matches.get_str("OUT");
    let folder = folder(matches)?;
    let texts = names(alloc, matches, "FILE")?;
    if output.is_some() && texts.len() > 1 {
        return Err(WordsError::SeveralTexts);
    }
    let (is_icu, is_compact) = (matches.get_flag("ICU"), matches.get_flag("compact"));
    if is_compact && !is_icu {
        return Err(WordsError::CompactPlain);
    }
    Ok(Request::Compile(CompileWords {
        texts,
        output,
        folder,
        is_by_name: matches.get_flag("by-name"),
        is_icu,
        encoding: Encoding::Utf8,
        limit,
        file: FileWords {
            pool: matches.get_str("POOL"),
            filters: None,
            collation: asked_collation(matches),
            omits_rules: false,
            is_compact,
            is_big_endian: matches.get_flag("big-endian"),
            has_copyright: false,
            version: None,
            takes_from: None,
            includes_outside: matches.get_flag("include-outside"),
        },
        writing: asked_writing(matches),
        dependencies: None,
        is_check: matches.get_flag("check"),
        is_quiet: matches.get_flag("quiet"),
        is_strict: matches.get_flag("strict"),
        is_verbose: false,
        counts_last: false,
    }))
}

/// What is asked of files that are checked.
fn check<'w>(alloc: Global, matches: &ArgMatches<'w>) -> Result<Request<'w>, WordsError> {
    Ok(Request::Check(CheckWords {
        files: names(alloc, matches, "FILE")?,
        is_json: matches.get_flag("json"),
        pool: matches.get_str("POOL"),
    }))
}

/// What is asked of files whose texts are printed, or written to a folder.
fn dump<'w>(alloc: Global, matches: &ArgMatches<'w>) -> Result<Request<'w>, WordsError> {
    let limit = limit(matches)?;
    let folder = folder(matches)?;
    let files = names(alloc, matches, "FILE")?;
    if folder.is_none() && files.len() > 1 {
        return Err(WordsError::SeveralFiles);
    }
    Ok(Request::Dump(DumpWords {
        files,
        folder,
        is_json: matches.get_flag("json"),
        is_icu: matches.get_flag("ICU"),
        is_lenient: matches.get_flag("lenient"),
        limit,
        pool: matches.get_str("POOL"),
        has_mark: false,
    }))
}

/// What is asked of a file of which some things are printed.
fn get<'w>(alloc: Global, matches: &ArgMatches<'w>) -> Result<Request<'w>, WordsError> {
    let limit = limit(matches)?;
    Ok(Request::Get(GetWords {
        file: word(matches, "FILE"),
        paths: names(alloc, matches, "PATH")?,
        is_checked: matches.get_flag("check"),
        limit,
        pool: matches.get_str("POOL"),
    }))
}

/// What is asked of two files that are compared.
fn diff<'w>(matches: &ArgMatches<'w>) -> Result<Request<'w>, WordsError> {
    Ok(Request::Diff(DiffWords {
        old: word(matches, "OLD"),
        new: word(matches, "NEW"),
        is_json: matches.get_flag("json"),
        limit: limit(matches)?,
        pool: matches.get_str("POOL"),
    }))
}

/// What is asked of a package of which one item is written.
fn extract<'w>(matches: &ArgMatches<'w>) -> Request<'w> {
    Request::Extract(ExtractWords {
        file: word(matches, "FILE"),
        item: word(matches, "ITEM"),
        output: matches.get_str("OUT"),
    })
}

/// What is asked of a file that is written in the other order of bytes.
fn swap<'w>(matches: &ArgMatches<'w>) -> Result<Request<'w>, WordsError> {
    let order = match matches.get_str("ORDER") {
        None => None,
        Some("big") => Some(Order::Big),
        Some("little") => Some(Order::Little),
        Some(_) => return Err(WordsError::NoOrder),
    };
    Ok(Request::Swap(SwapWords {
        file: word(matches, "FILE"),
        output: word(matches, "OUT"),
        order,
    }))
}

/// The word of an argument that each command of its kind has.
fn word<'w>(matches: &ArgMatches<'w>, name: &str) -> &'w str {
    matches.get_str(name).unwrap_or("")
}

/// The words of an argument that may have several.
pub(crate) fn names<'w>(
    alloc: Global,
    matches: &ArgMatches<'w>,
    argument: &str,
) -> Result<Vec<&'w str>, WordsError> {
    let names = matches.get_strs(argument).unwrap_or(&[]);
    Ok(names.iter().copied().collect::<Vec<&str>>(alloc)?)
}

/// The folder of `--directory`, if the words say it.
fn folder<'w>(matches: &ArgMatches<'w>) -> Result<Option<&'w str>, WordsError> {
    match matches.get_str("DIR") {
        Some("") => Err(WordsError::NoFolder),
        folder => Ok(folder),
    }
}

/// The bytes of `--limit`, if the words say it.
fn limit(matches: &ArgMatches<'_>) -> Result<Option<u64>, WordsError> {
    match matches.get_str("BYTES") {
        None => Ok(None),
        Some(text) => match text.parse::<u64>() {
            Ok(limit) => Ok(Some(limit)),
            Err(_) => Err(WordsError::NoNumber),
        },
    }
}
