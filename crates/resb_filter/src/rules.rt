//! The rules of a text: a sign and the pieces of a path each.
//! What one line says is in `lines`, and what rules leave of a tree in `filtering`.
ghost use Rattle.std.specs.Prelude.{◌≡◌, ◌++◌, true, OnOk, IfOk, IfErr};
ghost use Rattle.resb_filter.specs.Lines.{is_right, rules_said, IsRead, Refuses, IsOfLine};
ghost use Rattle.resb_filter.specs.View.{rules_of, rules_view};

use crate::error::RuleError;
use crate::lines::{lines_in, pieces_behind, pieces_fault, signed_path};
use std::alloc::Global;

/// A rule.
#[derive(Drop)]
pub(crate) struct Rule<'r> {
    /// Whether it keeps what its path leads to, and doesn't leave it out.
    pub(crate) keeps: bool,
    /// The pieces of its path.
    pub(crate) pieces: Vec<&'r str>,
}

/// The rules of a rule file, in their order.
#[derive(Drop)]
pub struct Rules<'r> {
    pub(crate) rules: Vec<Rule<'r>>,
}

impl<'r> Rules<'r> {
    /// Reads the text of a rule file. A line that is empty or begins with `#` says nothing. Any
    /// other is `+` or `-`, and a path, which is `/` or a `/` before each of its pieces, none of
    /// them empty. `*` as a piece stands for any key. Blanks and carriage returns belong to the
    /// piece in which they stand.
    ///
    /// # Errors
    ///
    /// The first line that is no rule, with its number, or want of memory.
    pub fn read(alloc: Global, text: &'r str) -> Result<Rules<'r>, RuleError>
        ensures ok { IfOk result (λ rules. IsRead text.now (rules_of rules)) }
        ensures err { IfErr result (Refuses text.now) }
    {
        let lines = lines_in(alloc, text)?;
        let mut rules = Vec::new(alloc);
        for (at, line) in lines.iter().enumerate() {
            push_rule(alloc, &mut rules, at + 1, line)?;
        }
        Ok(Rules { rules })
    }
}

/// Puts the rule of a line behind others, if it is one.
fn push_rule<'r>(
    alloc: Global,
    rules: &mut Vec<Rule<'r>>,
    number: usize,
    line: &'r str,
) -> Result<(), RuleError>
    ensures right { OnOk result (is_right line.now ≡ true) }
    ensures rules { OnOk result
        (rules_view rules.new.items ≡ rules_view rules.old.items ++ rules_said line.now) }
    ensures err { IfErr result (IsOfLine number line.now) }
{
    let signed = match signed_path(line) {
        Ok(signed) => signed,
        Err(fault) => return Err(RuleError::Line(number, fault)),
    };
    let Some((keeps, path)) = signed else {
        return Ok(());
    };
    let pieces = pieces_behind(alloc, path)?;
    if let Some(fault) = pieces_fault(&pieces) {
        return Err(RuleError::Line(number, fault));
    }
    rules.push(Rule { keeps, pieces })?;
    Ok(())
}
