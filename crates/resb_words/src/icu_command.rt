//! The words of ICU's own tools, `genrb` and `derb`, as commands of the program.
//! What is read from such words is in `icu_request`.
use crate::described::{Argument, Described, FLAG, Takes, VALUE, WORDS, command_of};
use crate::writing::{BIG_ENDIAN, DEPFILE, IF_CHANGED, INCLUDE_OUTSIDE, SYNC};
use clap::Command;
use std::alloc::{AllocError, Global};

/// A tool of ICU's, by whose name the program may be called.
#[derive(Clone, Copy, PartialEq)]
pub(crate) enum IcuTool {
    /// ICU's compiler.
    Genrb,
    /// ICU's printer of compiled files.
    Derb,
}

impl IcuTool {
    /// The tool of a name, if it is one.
    pub(crate) fn named(name: &str) -> Option<IcuTool> {
        match name {
            "genrb" => Some(IcuTool::Genrb),
            "derb" => Some(IcuTool::Derb),
            _ => None,
        }
    }
}

/// The words of ICU's compiler that ask for what isn't done, without the dashes.
pub(crate) const NOT_DONE: [&str; 2] = ["write-java", "write-xliff"];

/// The words of ICU's compiler that it takes beside `--write-java` alone.
pub(crate) const OF_JAVA: [&str; 2] = ["java-package", "bundle-name"];

/// What is said of words that change nothing.
const NOT_LOOKED_AT: &str = "Is not looked at";

/// The usual folder for what is written.
const DESTINATION: Argument<'static> = Argument {
    id: "destdir",
    letter: Some('d'),
    option: Some("destdir"),
    value: Some("DIR"),
    help: "The folder for the files, else the current one",
    ..VALUE
};

/// The folder of ICU's own data.
const DATA: Argument<'static> = Argument {
    id: "icudatadir",
    letter: Some('i'),
    option: Some("icudatadir"),
    value: Some("DIR"),
    help: NOT_LOOKED_AT,
    ..VALUE
};

/// The wish for many words.
const VERBOSE: Argument<'static> = Argument {
    id: "verbose",
    letter: Some('v'),
    option: Some("verbose"),
    help: "Names each text on standard output",
    ..FLAG
};

/// The wish for help by a question mark, as all of ICU's tools take it.
const QUESTION: Argument<'static> = Argument {
    takes: Takes::Help,
    id: "question",
    letter: Some('?'),
    help: "Print help",
    ..FLAG
};

/// An option that isn't shown, and not looked at.
const IDLE: Argument<'static> = Argument {
    takes: Takes::Hidden,
    help: NOT_LOOKED_AT,
    ..VALUE
};

/// An option that may name a folder.
const FOLDER_OR_NONE: Argument<'static> = Argument {
    takes: Takes::AtMostOne,
    value: Some("DIR"),
    ..VALUE
};

/// An option that asks for what isn't done.
const REFUSED: Argument<'static> = Argument {
    takes: Takes::Hidden,
    value: Some("DIR"),
    help: "Is refused",
    ..VALUE
};

/// The folder of files from which the binary forms of rules of collation are taken.
pub(crate) const COLLATION: Argument<'static> = Argument {
    id: "collation",
    option: Some("collation"),
    value: Some("DIR"),
    help: "Takes the binary forms of collation rules from genrb's .res files in this folder",
    against: Some("noBinaryCollation"),
    ..VALUE
};

/// ICU's compiler, by its own words.
pub(crate) const GENRB: Described<'static> = Described {
    name: "genrb",
    version: Some("0.2.0"),
    about: "Compiles texts in ICU's own form, by the words of ICU's compiler",
    example: "Example: resb genrb -s curr -d out/curr root.txt de.txt",
    arguments: &[
        Argument {
            id: "FILE",
            help: "The names of texts, below the source folder",
            ..WORDS
        },
        Argument {
            id: "sourcedir",
            letter: Some('s'),
            option: Some("sourcedir"),
            value: Some("DIR"),
            help: "The folder of the texts, else the current one",
            ..VALUE
        },
        DESTINATION,
        DATA,
        Argument {
            id: "encoding",
            letter: Some('e'),
            option: Some("encoding"),
            value: Some("NAME"),
            help: "UTF-8, UTF-16, UTF-32, ISO-8859-1 or windows-1252, where a text has no mark",
            ..VALUE
        },
        Argument {
            id: "usePoolBundle",
            option: Some("usePoolBundle"),
            help: "Leaves out of the files what the pool.res there, or beside the texts, has",
            ..FOLDER_OR_NONE
        },
        Argument {
            id: "writePoolBundle",
            option: Some("writePoolBundle"),
            help: "Writes a pool.res of what the texts share, there or beside the files",
            against: Some("usePoolBundle"),
            ..FOLDER_OR_NONE
        },
        Argument {
            id: "filterDir",
            option: Some("filterDir"),
            value: Some("DIR"),
            help: "Leaves out of each file what the rules in the file of its text's name there say",
            ..VALUE
        },
        Argument {
            id: "quiet",
            letter: Some('q'),
            option: Some("quiet"),
            help: "Says no warnings",
            ..FLAG
        },
        VERBOSE,
        Argument {
            id: "strict",
            letter: Some('k'),
            option: Some("strict"),
            help: NOT_LOOKED_AT,
            ..FLAG
        },
        Argument {
            id: "copyright",
            letter: Some('c'),
            option: Some("copyright"),
            help: "Puts ICU's notice of copyright into the header of each file",
            ..FLAG
        },
        Argument {
            id: "omitCollationRules",
            letter: Some('R'),
            option: Some("omitCollationRules"),
            help: "Leaves rules of collation out of the files",
            ..FLAG
        },
        Argument {
            id: "noBinaryCollation",
            letter: Some('C'),
            option: Some("noBinaryCollation"),
            help: "Compiles rules of collation without their binary form",
            ..FLAG
        },
        COLLATION,
        Argument {
            id: "compact",
            option: Some("compact"),
            help: "Lays files out as ICU's genrb does: keys may lie at the ends of others",
            ..FLAG
        },
        BIG_ENDIAN,
        Argument {
            id: "formatVersion",
            option: Some("formatVersion"),
            value: Some("NUMBER"),
            help: "2 or 3: a file of 3 that must be 2 is refused, and one of 2 is marked as 3",
            ..VALUE
        },
        Argument {
            id: "strict-warnings",
            option: Some("strict-warnings"),
            help: "Refuses a text that has a warning: no file is written, and the status is 3",
            ..FLAG
        },
        Argument {
            id: "keep-going",
            option: Some("keep-going"),
            help: "Has the last text's status, and a pool bundle without refused texts, as genrb",
            ..FLAG
        },
        INCLUDE_OUTSIDE,
        IF_CHANGED,
        SYNC,
        DEPFILE,
        Argument {
            id: "write-java",
            letter: Some('j'),
            option: Some("write-java"),
            ..REFUSED
        },
        Argument {
            id: "write-xliff",
            letter: Some('x'),
            option: Some("write-xliff"),
            ..REFUSED
        },
        Argument {
            id: "java-package",
            option: Some("java-package"),
            ..IDLE
        },
        Argument {
            id: "bundle-name",
            letter: Some('b'),
            option: Some("bundle-name"),
            ..IDLE
        },
        Argument {
            id: "language",
            letter: Some('l'),
            option: Some("language"),
            ..IDLE
        },
        QUESTION,
    ],
};

/// ICU's printer of compiled files, by its own words.
pub(crate) const DERB: Described<'static> = Described {
    name: "derb",
    version: Some("0.2.0"),
    about: "Writes the texts of .res files in ICU's own form, by the words of ICU's derb",
    example: "Example: resb derb -s out/curr -d texts root.res de.res",
    arguments: &[
        Argument {
            id: "FILE",
            help: "The names of files, below the source folder; '.res' may be left out",
            ..WORDS
        },
        Argument {
            id: "sourcedir",
            letter: Some('s'),
            option: Some("sourcedir"),
            value: Some("DIR"),
            help: "The folder of the files, else the current one",
            ..VALUE
        },
        Argument {
            help: "The folder for the texts, else the current one",
            ..DESTINATION
        },
        Argument {
            id: "to-stdout",
            letter: Some('c'),
            option: Some("to-stdout"),
            help: "Prints the texts to standard output",
            ..FLAG
        },
        Argument {
            id: "suppressAliases",
            letter: Some('A'),
            option: Some("suppressAliases"),
            help: "Shows an alias as one, as is always done",
            ..FLAG
        },
        Argument {
            id: "truncate",
            letter: Some('t'),
            option: Some("truncate"),
            takes: Takes::AtMostOne,
            value: Some("SIZE"),
            help: "Is refused: nothing is cut",
            ..VALUE
        },
        Argument {
            id: "encoding",
            letter: Some('e'),
            option: Some("encoding"),
            value: Some("NAME"),
            help: "UTF-8",
            ..VALUE
        },
        Argument {
            id: "bom",
            option: Some("bom"),
            help: "Begins each text with a byte order mark",
            ..FLAG
        },
        DATA,
        Argument {
            help: NOT_LOOKED_AT,
            ..VERBOSE
        },
        QUESTION,
    ],
};

/// A tool's words, those of the program itself, which is called so.
pub(crate) fn tool_itself<'a>(alloc: Global, tool: IcuTool) -> Result<Command<'a>, AllocError> {
    let described = match tool {
        IcuTool::Genrb => Described {
            example: "Example: genrb -s curr -d out/curr root.txt de.txt",
            ..GENRB
        },
        IcuTool::Derb => Described {
            example: "Example: derb -s out/curr -d texts root.res de.res",
            ..DERB
        },
    };
    command_of(alloc, &described)
}
