//! Rules inside a tree: what is left of each behind the keys on the way, and what they decide.
//! What is done with a tree by their verdict is in `filtering`.
ghost use Rattle.std.specs.Prelude.{◌≡◌, map, IfOk};
ghost use Rattle.resb_filter.specs.Filtered.{stands_for, rule_below, below, verdict};
ghost use Rattle.resb_filter.specs.View.{rule_left, rules_left, rules_of, option_list};

use crate::rules::Rules;
use resb_tree::NoMemory;
use std::alloc::Global;

/// A rule without the pieces that stand for the keys on the way.
#[derive(Clone, Copy)]
pub(crate) struct Remaining<'p, 'r> {
    pub(crate) keeps: bool,
    pub(crate) pieces: &'p [&'r str],
}

/// What becomes of the value of an entry.
#[derive(Clone, Copy, PartialEq, Eq)]
pub(crate) enum Verdict {
    /// The entry stays as it is.
    Whole,
    /// The entry goes.
    Out,
    /// The entry stays, and its value is filtered.
    Partly,
}

/// The rules with all their pieces.
pub(crate) fn all_rules<'p, 'r>(
    alloc: Global,
    rules: &'p Rules<'r>,
) -> Result<Vec<Remaining<'p, 'r>>, NoMemory>
    ensures { IfOk result (λ v. rules_left v.items ≡ rules_of rules.now) }
{
    let mut all = Vec::new(alloc);
    for rule in &rules.rules {
        let pieces = rule.pieces.as_slice();
        all.push(Remaining {
            keeps: rule.keeps,
            pieces,
        })?;
    }
    Ok(all)
}

/// Whether a piece stands for a key.
fn stands_for(piece: &str, key: &str) -> bool
    ensures { result ≡ stands_for piece.now key.now }
{
    piece == "*" || piece == key
}

/// What is left of a rule at a key of a table, if it is about what stands there.
fn rule_at<'p, 'r>(rule: &Remaining<'p, 'r>, key: &str) -> Option<Remaining<'p, 'r>>
    ensures { option_list result ≡ rule_below key.now (rule_left rule.now) }
{
    let Some((first, others)) = rule.pieces.split_first() else {
        return Some(*rule);
    };
    if stands_for(first, key) {
        Some(Remaining {
            keeps: rule.keeps,
            pieces: others,
        })
    } else {
        None
    }
}

/// The rules that are about what stands at a key of a table.
pub(crate) fn rules_at<'p, 'r>(
    alloc: Global,
    rules: &[Remaining<'p, 'r>],
    key: &str,
) -> Result<Vec<Remaining<'p, 'r>>, NoMemory>
    ensures { IfOk result (λ v. rules_left v.items ≡ below key.now (rules_left rules.now)) }
{
    let mut found = Vec::new(alloc);
    for rule in rules {
        if let Some(left) = rule_at(rule, key) {
            found.push(left)?;
        }
    }
    Ok(found)
}

/// What rules decide of what they are about: the last of them.
pub(crate) fn decide(rules: &[Remaining<'_, '_>]) -> Verdict
    ensures { result ≡ verdict (rules_left rules.now) }
{
    let Some((last, _)) = rules.split_last() else {
        return Verdict::Whole;
    };
    if last.pieces.is_empty() {
        if last.keeps {
            Verdict::Whole
        } else {
            Verdict::Out
        }
    } else {
        Verdict::Partly
    }
}
