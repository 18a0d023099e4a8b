//! The file of dependencies that a call writes for `make`: of each file that it made, what that was
//! made of. How it comes to its place is in `save`.
use std::alloc::{AllocError, Global};
use std::collections::BTreeMap;

/// Whether `make` reads a name as a name, once it is spelled for that. It has no spelling for these
/// characters: with them a line is a command, a variable, or two lines.
pub(crate) fn can_be_spelled(name: &str) -> bool {
    !name.contains(['\n', '\t', ';', '=', '|'])
}

/// The rules of a call for `make`.
#[derive(Drop)]
pub(crate) struct Rules {
    /// A rule for each file that was made.
    made: String,
    /// The texts of which those were made.
    texts: BTreeMap<String, ()>,
    /// The files of which they were made beside their texts.
    others: BTreeMap<String, ()>,
}

impl Rules {
    /// No file is made yet.
    pub(crate) fn new(alloc: Global) -> Rules {
        Rules {
            made: String::new(alloc),
            texts: BTreeMap::new(alloc),
            others: BTreeMap::new(alloc),
        }
    }

    /// Adds the rule of a file that was made of a text and of others.
    pub(crate) fn add(
        &mut self,
        alloc: Global,
        file: &str,
        text: &str,
        others: Vec<String>,
    ) -> Result<(), AllocError> {
        push_name(&mut self.made, file, true)?;
        self.made.push(':')?;
        push_source(&mut self.made, text)?;
        for other in others.iter() {
            push_source(&mut self.made, other.as_str())?;
        }
        self.made.push('\n')?;
        let text = String::from_str(alloc, text)?;
        self.texts.insert(text, ()).map_err(|_| AllocError)?;
        for other in others {
            self.others.insert(other, ()).map_err(|_| AllocError)?;
        }
        Ok(())
    }

    /// The rules; that of a pool bundle that was made of all texts, if one was; and an empty rule
    /// for each file that isn't a file's own text: `make` then asks for none of them once it is
    /// gone, and makes anew what was made of it.
    pub(crate) fn into_text(self, pool: Option<&str>) -> Result<String, AllocError> {
        let Rules {
            mut made,
            texts,
            others,
        } = self;
        if let Some(pool) = pool {
            push_name(&mut made, pool, true)?;
            made.push(':')?;
            for source in texts.keys().chain(others.keys()) {
                push_source(&mut made, source.as_str())?;
            }
            made.push('\n')?;
        }
        for other in others.keys() {
            made.push('\n')?;
            push_name(&mut made, other.as_str(), true)?;
            made.push_str(":\n")?;
        }
        Ok(made)
    }
}

/// Adds a file of which another is made. Standard input has no name for `make`.
fn push_source(rules: &mut String, source: &str) -> Result<(), AllocError> {
    if source == "-" {
        return Ok(());
    }
    rules.push_str(" \\\n  ")?;
    push_name(rules, source, false)
}

/// Adds a name as `make` reads it: with two `$` for one, and a backslash before each character that
/// would say something else, which also hides the backslashes before it. A `%` says something else
/// in the name of what is made alone.
fn push_name(rules: &mut String, name: &str, is_made: bool) -> Result<(), AllocError> {
    let mut backslashes = 0usize;
    for c in name.chars() {
        match c {
            '$' => rules.push('$')?,
            '%' if !is_made => {}
            ' ' | '#' | ':' | '%' => {
                for _ in 0..backslashes {
                    rules.push('\\')?;
                }
                rules.push('\\')?;
            }
            _ => {}
        }
        rules.push(c)?;
        backslashes = if c == '\\' {
            backslashes.saturating_add(1)
        } else {
            0
        };
    }
    Ok(())
}
