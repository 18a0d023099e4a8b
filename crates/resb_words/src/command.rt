//! The words that the program knows: its commands, their arguments and their help.
//! What is read from words that were given is in `request`, and those of ICU's tools are in
//! `icu_command`.
use crate::described::{Argument, Described, FLAG, VALUE, WORD, WORDS, command_of};
use crate::icu_command::{COLLATION, DERB, GENRB};
use crate::writing::{BIG_ENDIAN, DEPFILE, IF_CHANGED, INCLUDE_OUTSIDE, SYNC};
use clap::Command;
use std::alloc::{AllocError, Global};

/// What a word for a file may be.
const RES_FILE: &str = "A .res file, or one inside a package; '-' is standard input";

/// What the pool bundle of files is.
const POOL_OF_FILES: &str =
    "The pool bundle of files that use one, in place of the pool.res beside each";

/// What bounds a tree.
const TREE_LIMIT: &str = "Refuses a file whose tree, keys or output take more bytes than this";

/// The pool bundle of the files.
const POOL: Argument<'static> = Argument {
    id: "POOL",
    option: Some("pool"),
    help: POOL_OF_FILES,
    ..VALUE
};

/// The most bytes that a tree, its keys and what is printed of it may take.
const LIMIT: Argument<'static> = Argument {
    id: "BYTES",
    option: Some("limit"),
    help: TREE_LIMIT,
    ..VALUE
};

/// A package.
const PACKAGE: Argument<'static> = Argument {
    id: "FILE",
    help: "A .dat file, or a library with one inside; '-' is standard input",
    ..WORD
};

/// The layout of genrb's files.
const COMPACT: Argument<'static> = Argument {
    id: "compact",
    option: Some("compact"),
    help: "Lays files of --icu out as genrb does: keys may lie at the ends of others",
    ..FLAG
};

/// The program's commands, in the order in which they are shown.
const COMMANDS: [Described<'static>; 10] = [
    COMPILE, CHECK, DUMP, GET, DIFF, LIST, EXTRACT, SWAP, GENRB, DERB,
];

/// Texts to files.
const COMPILE: Described<'static> = Described {
    name: "compile",
    version: None,
    about: "Compiles texts of bundles into .res files",
    example: "Example: resb compile root.txt de.txt -d out",
    arguments: &[
        Argument {
            id: "FILE",
            help: "Texts of bundles, or folders of .txt files; '-' is standard input",
            ..WORDS
        },
        Argument {
            id: "OUT",
            letter: Some('o'),
            option: Some("output"),
            help: "The file of the one text; '-' is standard output",
            ..VALUE
        },
        Argument {
            id: "DIR",
            letter: Some('d'),
            option: Some("directory"),
            help: "The folder for the files, in place of that of each text",
            against: Some("OUT"),
            ..VALUE
        },
        Argument {
            id: "by-name",
            option: Some("by-name"),
            help: "Names each file by the bundle's name, as genrb does, not by the text's",
            against: Some("OUT"),
            ..FLAG
        },
        Argument {
            id: "ICU",
            option: Some("icu"),
            help: "The texts are in ICU's own form, which genrb reads",
            ..FLAG
        },
        Argument {
            id: "BYTES",
            option: Some("limit"),
            help: "Refuses a text whose reading takes more bytes of memory than this",
            ..VALUE
        },
        Argument {
            id: "POOL",
            option: Some("pool"),
            help: "Leaves out what this pool bundle, or the pool.res in this folder, has",
            ..VALUE
        },
        COMPACT,
        BIG_ENDIAN,
        Argument {
            id: "noBinaryCollation",
            option: Some("no-binary-collation"),
            help: "Compiles rules of collation without the binary form that ICU needs of them",
            ..FLAG
        },
        COLLATION,
        Argument {
            id: "check",
            option: Some("check"),
            help: "Does all of it, but writes no file",
            ..FLAG
        },
        Argument {
            id: "quiet",
            option: Some("quiet"),
            help: "Says no warnings, and not how many files are done",
            ..FLAG
        },
        Argument {
            id: "strict",
            option: Some("strict"),
            help: "Refuses a text that has a warning: no file is written, and the status is 1",
            ..FLAG
        },
        INCLUDE_OUTSIDE,
        IF_CHANGED,
        SYNC,
        DEPFILE,
    ],
};

/// What is said of files.
const CHECK: Described<'static> = Described {
    name: "check",
    version: None,
    about: "Checks .res files, a line for each",
    example: "Example: resb check out/root.res icudt72l.dat/curr/de.res",
    arguments: &[
        Argument {
            id: "FILE",
            help: "Files, also inside a package, or folders of .res files; '-' is standard input",
            ..WORDS
        },
        Argument {
            id: "json",
            option: Some("json"),
            help: "Prints an object of JSON for each file, right or not",
            ..FLAG
        },
        POOL,
    ],
};

/// Files to texts.
const DUMP: Described<'static> = Described {
    name: "dump",
    version: None,
    about: "Prints the text of a .res file, or JSON where it has none",
    example: "Example: resb dump out/root.res",
    arguments: &[
        Argument {
            id: "FILE",
            help: "A .res file, or one inside a package; several with -d; '-' is standard input",
            ..WORDS
        },
        Argument {
            id: "json",
            option: Some("json"),
            help: "Prints JSON in place of a text",
            ..FLAG
        },
        Argument {
            id: "DIR",
            letter: Some('d'),
            option: Some("directory"),
            help: "The folder for the texts, a file for each, in place of standard output",
            ..VALUE
        },
        Argument {
            id: "ICU",
            option: Some("icu"),
            help: "Prints the text in ICU's own form, which genrb reads",
            against: Some("json"),
            ..FLAG
        },
        Argument {
            id: "lenient",
            option: Some("lenient"),
            help: "Prints what is known of a file whose pool bundle is not there, as comments",
            against: Some("json"),
            ..FLAG
        },
        LIMIT,
        POOL,
    ],
};

/// Some things of a file.
const GET: Described<'static> = Described {
    name: "get",
    version: None,
    about: "Prints what stands at paths in a .res file",
    example: "Example: resb get out/zones.res zones/Pole/base",
    arguments: &[
        Argument {
            id: "FILE",
            help: RES_FILE,
            ..WORD
        },
        Argument {
            id: "PATH",
            help: "Keys and numbers from 0, as zones/Pole/pairs/0; '~1' is a slash, '~0' a tilde",
            ..WORDS
        },
        Argument {
            id: "check",
            option: Some("check"),
            help: "Looks at the whole of the file first, not only along the path",
            ..FLAG
        },
        LIMIT,
        POOL,
    ],
};

/// What differs between two files.
const DIFF: Described<'static> = Described {
    name: "diff",
    version: None,
    about: "Prints what differs between the trees of two .res files",
    example: "Example: resb diff old/de.res out/de.res",
    arguments: &[
        Argument {
            id: "OLD",
            help: RES_FILE,
            ..WORD
        },
        Argument {
            id: "NEW",
            help: RES_FILE,
            ..WORD
        },
        Argument {
            id: "json",
            option: Some("json"),
            help: "Prints an object of JSON for each difference",
            ..FLAG
        },
        LIMIT,
        POOL,
    ],
};

/// The items of a package.
const LIST: Described<'static> = Described {
    name: "list",
    version: None,
    about: "Lists the items of a package of ICU's data",
    example: "Example: resb list icudt72l.dat",
    arguments: &[PACKAGE],
};

/// One item of a package.
const EXTRACT: Described<'static> = Described {
    name: "extract",
    version: None,
    about: "Writes one item of a package of ICU's data",
    example: "Example: resb extract icudt72l.dat curr/de.res -o de.res",
    arguments: &[
        PACKAGE,
        Argument {
            id: "ITEM",
            help: "The item's name, such as icudt72l/curr/de.res or curr/de.res",
            ..WORD
        },
        Argument {
            id: "OUT",
            letter: Some('o'),
            option: Some("output"),
            help: "The item's file, in place of standard output",
            ..VALUE
        },
    ],
};

/// A file in the other order of bytes.
const SWAP: Described<'static> = Described {
    name: "swap",
    version: None,
    about: "Writes a .res file, or a package of them, in the other order of bytes",
    example: "Example: resb swap out/de.res java/de.res --to big",
    arguments: &[
        Argument {
            id: "FILE",
            help: "A .res file or a package of ICU's; '-' is standard input",
            ..WORD
        },
        Argument {
            id: "OUT",
            help: "The new file; '-' is standard output",
            ..WORD
        },
        Argument {
            id: "ORDER",
            option: Some("to"),
            help: "big or little: a file that has this order already is copied",
            ..VALUE
        },
    ],
};

/// The program's words. Its usage names it `resb`, whatever its file is called.
pub(crate) fn program<'a>(alloc: Global) -> Result<Command<'a>, AllocError> {
    let mut program = Command::new(alloc, "resb")
        .bin_name("resb")?
        .version("0.2.0")
        .about("Compiles ICU resource bundles, checks them, and shows what is in them.")
        .subcommand_required(true)
        .arg_required_else_help(true);
    for described in &COMMANDS {
        program = program.subcommand(command_of(alloc, described)?)?;
    }
    Ok(program)
}
