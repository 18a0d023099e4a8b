//! What rules leave of a text, by how many pieces its draft has then. What these are is asked of
//! the program, by `tests/rows.py`.
ghost use Rattle.std.specs.Prelude.{◌≡◌, true};
ghost use Rattle.resb_draft.specs.Drafts.{is_ready};

use resb_draft::Draft;
use resb_filter::Rules;
use resb_icu_text::IcuReader;
use std::alloc::{AllocError, Global};
use std::test::Fail;

/// A table of tables.
const TEXT: &str = "r{a{x{\"ax\"}y{\"ay\"}z{p{\"azp\"}q{\"azq\"}}}b{x{\"bx\"}y{\"by\"}}c{\"c\"}}";

/// Rules, and how many pieces they leave of that text: all, `bx by {x y} c {b c}`, and
/// `azq {q} {z} {} c {a b c}`.
const LEFT: [(&str, usize); 3] = [("", 11), ("-/a\n", 5), ("-/*/*\n+/a/z/q", 6)];

/// How many pieces a draft's tree has.
fn count_of(alloc: Global, draft: &Draft<'_>) -> Result<usize, AllocError>
    requires { is_ready draft.now ≡ true }
{
    Ok(draft.in_laying_order(alloc)?.len())
}

/// How many pieces rules leave of the text.
fn left_by(alloc: Global, rules: &str) -> Result<usize, Fail> {
    let rules = Rules::read(alloc, rules)?;
    let (bundle, _keys) = IcuReader::read_draft(alloc, TEXT)?;
    let left = rules.filtered(alloc, bundle.root)?;
    Ok(count_of(alloc, &left)?)
}

#[test]
fn rules_leave_what_icu_leaves(rt: HostRuntime) -> Result<(), Fail> {
    for (rules, wanted) in LEFT {
        assert!(rt; left_by(rt.alloc(), rules)? == wanted, "{rules}");
    }
    Ok(())
}

/// What is wrong with rules.
fn said_of(alloc: Global, rules: &str) -> Result<String, AllocError> {
    match Rules::read(alloc, rules) {
        Ok(_) => String::from_str(alloc, "nothing"),
        Err(error) => format!(in alloc; "{error}"),
    }
}

#[test]
fn a_rule_begins_with_its_sign(rt: HostRuntime) -> Result<(), AllocError> {
    let said = said_of(rt.alloc(), "+/a\n/b")?;
    assert!(rt; said.as_str() == "line 2: a rule begins with + or -");
    Ok(())
}
