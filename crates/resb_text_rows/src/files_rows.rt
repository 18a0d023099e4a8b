//! Texts of ICU's form that name other files, and what they are taken in as beside some.
//! What the program makes of such texts stands in `tests/sessions`.
use resb_icu_files::{TakenIn, TextFile, files_taken, may_take_files, with_files};
use std::alloc::{AllocError, Global};
use std::test::Fail;

/// The files that stand beside the texts, by their names.
const FILES: [(&str, &[u8]); 7] = [
    ("f", b"\xef\xbb\xbfa \"b\"\n"),
    ("g", b"\x01\xff"),
    ("r", b"x > \\u0062 ; # y\r\n  'z # ' ;\n"),
    ("s", b"\\ud800 half"),
    (
        "c",
        b"&\t[last \\u0061 # ]# '\r\n< '\\u0062 # \n' \
          \\U00000063 < \\- [' d]'\\' e",
    ),
    ("d", b"& a < b # c"),
    ("e", b"& a < \\b"),
];

/// Texts, each with what it is taken in as, or with the refusal.
const ROWS: &str = r#"b{x{"y"}} => b{x{"y"}}
b{x:process(dependency){"y"}} => b{x:string{"y"} %%DEPENDENCY:array{"y",}}
b{x:process(dependency) { y }/**/ } /*}*/} => b{x:string{ y }/**/ } /*}*/ %%DEPENDENCY:array{ y ,}}
b{x:include{f}} => b{x:string{"a \"b\"\u000a"}}
b{x:import {"g"} } => b{x:bin{"01ff"} }
b{x:process(transliterator){r}} => b{x:string{"x > b ;'z # ' ;"}}
b{x:process(uca_rules){c}} => b{x:string{"&[last \\u0061 # ]<'b # \u000a'c<\\-[' d]'\\'e"}}
b{x{":include{f}"}/* :import{g} */} => b{x{":include{f}"}/* :import{g} */}
b{x:include{f,}} => b{x:include{f,}}
b{t{x:process(dependency){y}}} } z => b{t{x:string{y}} %%DEPENDENCY:array{y,}} } z
b{x:include{f}} y:include{h}} => b{x:string{"a \"b\"\u000a"}} y:include{h}}
b{x:include{h}} => at byte 3: no file h
b{x:include{g}} => at byte 3: no UTF-8 in file g
b{x:process(transliterator){s}} => at byte 3: no character by \u in file s
b{x:process(uca_rules){d}} => at byte 3: no collation rules in file d
b{x:process(uca_rules){e}} => at byte 3: no collation rules in file e
b{x:process(uca_rules){h}} => at byte 3: no file h
"#;

/// Adds a file.
fn push_file(
    alloc: Global,
    files: &mut Vec<TextFile>,
    name: &str,
    bytes: &[u8],
) -> Result<(), AllocError> {
    let name = String::from_str(alloc, name)?;
    let bytes = bytes.to_vec(alloc)?;
    files.push(TextFile { name, bytes })?;
    Ok(())
}

/// The files that stand beside the texts.
fn files(alloc: Global) -> Result<Vec<TextFile>, AllocError> {
    let mut files = Vec::new(alloc);
    for (name, bytes) in FILES {
        push_file(alloc, &mut files, name, bytes)?;
    }
    Ok(files)
}

/// What a text is taken in as, or the refusal.
fn taken(alloc: Global, text: &str, files: &[TextFile]) -> Result<String, AllocError> {
    match with_files(alloc, text, files) {
        Ok(taken) => String::from_str(alloc, taken.text()),
        Err(e) => format!(in alloc; "{e}"),
    }
}

/// Whether a row's text is taken in as its answer says.
fn holds(alloc: Global, row: &str, files: &[TextFile]) -> Result<bool, AllocError> {
    match row.split_once(" => ") {
        Some((text, wanted)) => Ok(taken(alloc, text, files)?.as_str() == wanted),
        None => Ok(false),
    }
}

#[test]
fn texts_are_taken_in(rt: HostRuntime) -> Result<(), AllocError> {
    let files = files(rt.alloc())?;
    for row in ROWS.split_terminator('\n') {
        assert!(rt; holds(rt.alloc(), row, files.as_slice())?, "{row}");
    }
    Ok(())
}

/// Places in what a text is taken in as, and in the text, or behind all of it.
const PLACES: [(usize, usize); 8] = [
    (2, 2),
    (3, 3),
    (14, 3),
    (15, 13),
    (17, 14),
    (26, 37),
    (48, 37),
    (49, 37),
];

/// Whether these are the places in what a text was taken in as.
fn are_places(taken: &TakenIn) -> bool {
    for (place, wanted) in PLACES {
        if taken.place_before(place) != wanted {
            return false;
        }
    }
    true
}

/// Whether these are the places in what a text is taken in as.
fn has_places(alloc: Global, text: &str, files: &[TextFile]) -> bool {
    match with_files(alloc, text, files) {
        Ok(taken) => are_places(&taken),
        Err(_) => false,
    }
}

#[test]
fn places_are_told(rt: HostRuntime) -> Result<(), AllocError> {
    let text = "b{x:import{g}y:process(dependency){z}}";
    // b{x:bin{"01ff"}y:string{z} %%DEPENDENCY:array{z,}}
    let files = files(rt.alloc())?;
    assert!(rt; has_places(rt.alloc(), text, files.as_slice()));
    Ok(())
}

/// The names of the files that a text takes in, one behind the other.
fn names_in(alloc: Global, text: &str) -> Result<String, Fail> {
    let mut names = String::new(alloc);
    for file in files_taken(alloc, text)?.as_slice() {
        names.push_str(file.name.as_str())?;
    }
    Ok(names)
}

#[test]
fn files_are_named(rt: HostRuntime) -> Result<(), Fail> {
    let text = "b{x: import{g}y:/*/*/process(dependency){z}w:include{f}}:import{h}";
    assert!(rt; names_in(rt.alloc(), text)?.as_str() == "gf");
    assert!(rt; may_take_files(text));
    assert!(rt; !may_take_files("b{x:int{1}y:bin{}z{\":imp\"}}"));
    Ok(())
}
