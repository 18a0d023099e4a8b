//! What `resb genrb -v` prints of a text in ICU's own form: the key, the type and the line of each
//! group, as ICU's compiler does.
//! That the text is a bundle is known before, and what its strings say doesn't matter here.
use crate::names::comment_end;
use crate::repeated::key_at;
use std::alloc::{AllocError, Global};

/// What stands at a place of a text.
#[derive(Clone, Copy, PartialEq)]
enum Token {
    /// `{`.
    Open,
    /// `}`.
    Close,
    /// `:`.
    Colon,
    /// `,`.
    Comma,
    /// Strings in a row, of which the first stands here.
    Strings(usize),
    /// The text ends.
    End,
}

/// A place in a text, and its line, from 1.
#[derive(Clone, Copy)]
struct Scan<'t> {
    source: &'t [u8],
    at: usize,
    line: u64,
}

/// What a group is.
#[derive(Clone, Copy)]
enum Kind {
    Table,
    Array,
    /// Nothing lies inside, and this is said of it.
    Leaf(&'static str),
}

/// What is open round a place.
#[derive(Clone, Copy, PartialEq)]
enum Inside {
    Array,
    Table,
    /// The table of all types of collation.
    Collations,
}

/// The trace of a text, as far as it was passed.
#[derive(Drop)]
struct Trace<'t> {
    scan: Scan<'t>,
    open: Vec<Inside>,
    said: String,
}

/// The lines for the groups of a text.
pub(crate) fn trace_of(alloc: Global, source: &[u8]) -> Result<String, AllocError> {
    let scan = Scan {
        source,
        at: 0,
        line: 1,
    };
    let (open, said) = (Vec::new(alloc), String::new(alloc));
    let mut trace = Trace { scan, open, said };
    trace.begin()?;
    for _ in 0..u64::MAX {
        let Some(inside) = trace.open.last().copied() else {
            break;
        };
        trace.step(inside)?;
    }
    let Trace { said, .. } = trace;
    Ok(said)
}

impl<'t> Trace<'t> {
    /// Passes the name and the type of the bundle, and its `{`.
    fn begin(&mut self) -> Result<(), AllocError> {
        for _ in 0..u64::MAX {
            match self.scan.next() {
                (Token::Open, line) => {
                    self.say(" parsing table", None, line)?;
                    self.open.push(Inside::Table)?;
                    break;
                }
                (Token::End, _) => break,
                _ => {}
            }
        }
        Ok(())
    }

    /// Passes what stands next in an array or a table.
    fn step(&mut self, inside: Inside) -> Result<(), AllocError> {
        match (inside, self.scan.next()) {
            (_, (Token::End, _)) => self.open.clear(),
            (_, (Token::Close, _)) => {
                self.open.pop();
            }
            (Inside::Array, (Token::Open, line)) => self.group(None, false, line)?,
            (Inside::Array, (Token::Colon, line)) => self.group(None, true, line)?,
            (Inside::Table | Inside::Collations, (Token::Strings(key), _)) => {
                self.entry(inside, key)?;
            }
            _ => {}
        }
        Ok(())
    }

    /// Passes the front of an entry's group. A type of collation isn't named.
    fn entry(&mut self, inside: Inside, key: usize) -> Result<(), AllocError> {
        let (token, line) = self.scan.next();
        let is_typed = token == Token::Colon;
        if inside == Inside::Collations
            && !is_typed
            && key_at(self.scan.source, key, true) != "default"
        {
            self.open.push(Inside::Table)?;
            return Ok(());
        }
        self.group(Some(key), is_typed, line)
    }

    /// Passes the front of a group behind its first token, or all of it if nothing lies inside.
    fn group(&mut self, key: Option<usize>, is_typed: bool, line: u64) -> Result<(), AllocError> {
        self.say(" resource", key, line)?;
        let (kind, line) = if is_typed {
            self.scan.typed()
        } else {
            (self.scan.untyped(), line)
        };
        match kind {
            Kind::Table => self.table(key, line),
            Kind::Array => {
                self.open.push(Inside::Array)?;
                self.say(" array", key, line)
            }
            Kind::Leaf(said) => {
                self.scan.pass_group();
                self.say(said, key, line)
            }
        }
    }

    /// Says that a table begins.
    fn table(&mut self, key: Option<usize>, line: u64) -> Result<(), AllocError> {
        let name = match key {
            Some(key) => key_at(self.scan.source, key, true),
            None => "",
        };
        if name == "collations" || name == "CollationElements" {
            self.say(" collation elements", key, line)?;
            self.open.push(if name == "collations" {
                Inside::Collations
            } else {
                Inside::Table
            })?;
            return Ok(());
        }
        self.say(" table", key, line)?;
        self.say(" parsing table", key, line)?;
        self.open.push(Inside::Table)?;
        Ok(())
    }

    /// Says what stands at a key, if there is one, in a line.
    fn say(&mut self, what: &str, key: Option<usize>, line: u64) -> Result<(), AllocError> {
        let key = match key {
            Some(key) => key_at(self.scan.source, key, true),
            None => "(null)",
        };
        write!(self.said, "{what} {key} at line {line} \n")
    }
}

impl<'t> Scan<'t> {
    /// Passes a token, which is on this line.
    fn next(&mut self) -> (Token, u64) {
        self.pass_blanks();
        let (at, line) = (self.at, self.line);
        let token = match self.source.get(at) {
            None => return (Token::End, line),
            Some(b'{') => Token::Open,
            Some(b'}') => Token::Close,
            Some(b':') => Token::Colon,
            Some(b',') => Token::Comma,
            Some(_) => {
                self.pass_strings();
                return (Token::Strings(at), line);
            }
        };
        self.at = at.saturating_add(1);
        (token, line)
    }

    /// Passes strings in a row.
    fn pass_strings(&mut self) {
        for _ in 0..u64::MAX {
            let end = match self.source.get(self.at) {
                None | Some(b'{' | b'}' | b':' | b',') => break,
                Some(b'"') => quoted_end(self.source, self.at),
                Some(_) => unquoted_end(self.source, self.at),
            };
            self.pass(end);
            self.pass_blanks();
        }
    }

    /// Passes white characters and comments.
    fn pass_blanks(&mut self) {
        for _ in 0..u64::MAX {
            let end = match self.source.get(self.at) {
                Some(b' ' | b'\t' | b'\r' | b'\n') => self.at.saturating_add(1),
                _ => match comment_end(self.source, self.at, true) {
                    Some(end) => end,
                    None => break,
                },
            };
            self.pass(end);
        }
    }

    /// Passes all up to a place, and counts the lines that end there.
    fn pass(&mut self, end: usize) {
        if let Some(passed) = self.source.get(self.at..end) {
            for byte in passed {
                if *byte == b'\n' {
                    self.line = self.line.saturating_add(1);
                }
            }
        }
        self.at = end;
    }

    /// Passes a type and its `{`: what the group is, and the line of the `{`.
    fn typed(&mut self) -> (Kind, u64) {
        self.pass_blanks();
        let kind = kind_of(self.source.get(self.at..).unwrap_or_default());
        self.pass_strings();
        let (_, line) = self.next();
        (kind, line)
    }

    /// What a group without a type is, by its first tokens.
    fn untyped(&self) -> Kind {
        let mut ahead = *self;
        let (Token::Strings(_), _) = ahead.next() else {
            return Kind::Array;
        };
        match ahead.next() {
            (Token::Comma, _) => Kind::Array,
            (Token::Open | Token::Colon, _) => Kind::Table,
            _ => Kind::Leaf(" string"),
        }
    }

    /// Passes all up to a `}`, and that.
    fn pass_group(&mut self) {
        for _ in 0..u64::MAX {
            if let (Token::Close | Token::End, _) = self.next() {
                break;
            }
        }
    }
}

/// What a group of the type is that stands here.
fn kind_of(rest: &[u8]) -> Kind {
    let kinds: [(&[u8], Kind); 9] = [
        (b"table", Kind::Table),
        (b"array", Kind::Array),
        (b"string", Kind::Leaf(" string")),
        (b"alias", Kind::Leaf(" alias")),
        (b"bin", Kind::Leaf(" binary")),
        (b"intvector", Kind::Leaf(" vector")),
        (b"int", Kind::Leaf(" integer")),
        (b"include", Kind::Leaf(" include")),
        (b"import", Kind::Leaf(" import")),
    ];
    for (name, kind) in kinds {
        if rest.starts_with(name) {
            return kind;
        }
    }
    // `genrb` names no type for what stands for a file in another way
    Kind::Leaf("")
}

/// Behind the string in quotes that begins at a place.
fn quoted_end(source: &[u8], at: usize) -> usize {
    let mut is_escaped = false;
    for place in at.saturating_add(1)..source.len() {
        let byte = source[place];
        if !is_escaped && byte == b'"' {
            return place.saturating_add(1);
        }
        is_escaped = !is_escaped && byte == b'\\';
    }
    source.len()
}

/// Behind the string without quotes that begins at a place.
fn unquoted_end(source: &[u8], at: usize) -> usize {
    for place in at.saturating_add(1)..source.len() {
        let is_end = matches!(
            source[place],
            b' ' | b'\t' | b'\r' | b'\n' | b'"' | b'{' | b'}' | b':' | b','
        );
        if is_end || comment_end(source, place, true).is_some() {
            return place;
        }
    }
    source.len()
}
