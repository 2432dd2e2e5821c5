//! The sentences of the rules.

ghost use Rattle.std.specs.Prelude.{◌≡◌, ◌++◌, OnOk};
ghost use Rattle.explain.specs.RuleSentences as spec;

use cov_ast::{Detail, Rule};
use cov_expr::{Blob, NoMemory};
use text_parts::add_number;

/// Adds the names that a refusal shows, or the number, with the words between them.
pub fn add_shown(rule: Rule, detail: &Detail, text: &mut Blob) -> Result<(), NoMemory>
    ensures { OnOk result (text.new ≡ text.old ++ spec.shown rule detail.now) }
{
    match detail {
        Detail::Nothing => Ok(()),
        Detail::One(x) => text.extend_from_slice(x.text()),
        Detail::Two(x, y) => {
            text.extend_from_slice(x.text())?;
            text.extend_from_slice(between(rule).as_bytes())?;
            text.extend_from_slice(y.text())
        }
        Detail::Three(x, y, z) => {
            text.extend_from_slice(x.text())?;
            text.extend_from_slice(between(rule).as_bytes())?;
            text.extend_from_slice(y.text())?;
            text.extend_from_slice(beyond(rule).as_bytes())?;
            text.extend_from_slice(z.text())
        }
        Detail::Number(n) => add_number(*n as usize, text),
    }
}

/// What stands in front of the first name, or of the number; all of it where nothing is shown.
pub fn sentence_front(rule: Rule) -> &'static str
    ensures { result.now ≡ spec.sentence_front rule }
{
    match rule {
        Rule::W1 => "the name ",
        Rule::W2 => "the name ",
        Rule::W3 => "the control ",
        Rule::W4 => "the variable ",
        Rule::W5 => "the invariant of this lock has the variable ",
        Rule::W6 => "this thread assumes the variable ",
        Rule::W7 => "the variable ",
        Rule::W8 => "this thread assumes the variable ",
        Rule::W9 => "the thread ",
        Rule::V1 => "the variable ",
        Rule::V2 => "the variable ",
        Rule::V3 =>
            "the expression has two occurrences of variables that aren't stable here: no assumption of the thread and no lock that it holds keeps others from writing them between the two reads",
        Rule::V4 =>
            "a type isn't over stable controls: that of the value, of a `retype`, or of a state",
        Rule::V5 => "a control is assigned here, and the variable ",
        Rule::V6 => "the thread holds the lock ",
        Rule::V7 => "the thread doesn't hold the lock ",
        Rule::V8 =>
            "the two ends of `if` hold different locks, or the end of the block of `while` holds others than its start",
        Rule::V9 => "it isn't shown that the goal of entailment ",
        Rule::V10 => "the expression is wider than 7",
        Rule::V11 => "the thread holds the lock ",
        Rule::V12 => "a predicate of the state isn't over stable variables",
        Rule::V13 => "`by` gives the number ",
        Rule::V14 => "the variable ",
        Rule::V15 => "a point of the statement has more than 64 predicates",
        Rule::V16 => "a hypothesis, a goal or a type after the statement has more than 1,000 nodes",
    }
}

/// What stands between the first name and the second.
fn between(rule: Rule) -> &'static str
    ensures { result.now ≡ spec.between rule }
{
    match rule {
        Rule::W7 => " is under this lock, but its control ",
        Rule::W8 => " but not its control ",
        Rule::W9 => " makes an assumption that the thread ",
        _ => "",
    }
}

/// What stands between the second name and the third.
fn beyond(rule: Rule) -> &'static str
    ensures { result.now ≡ spec.beyond rule }
{
    match rule {
        Rule::W9 => " doesn't guarantee, of the variable ",
        _ => "",
    }
}

/// What stands behind the last name, or the number.
pub fn sentence_end(rule: Rule) -> &'static str
    ensures { result.now ≡ spec.sentence_end rule }
{
    match rule {
        Rule::W1 => " is declared a second time",
        Rule::W2 => " isn't declared as what it is used as here, a variable or a lock",
        Rule::W3 => " of this variable isn't plain low",
        Rule::W4 => " stands a second time in the lists of locks",
        Rule::W5 => ", which isn't under the lock",
        Rule::W6 => ", which is under a lock",
        Rule::W7 => " is neither under it nor assumed by every thread",
        Rule::V1 =>
            " may not be read here: the thread guarantees `hide` of it, or a lock hides it that the thread doesn't hold",
        Rule::V2 =>
            " may not be written here: the thread guarantees `nowrite` or `hide` of it, or it is under a lock that the thread doesn't hold",
        Rule::V5 => " of the expression isn't stable",
        Rule::V6 => " already",
        Rule::V9 => " follows from its hypotheses",
        Rule::V11 => " at its end",
        Rule::V13 => ", which is that of no entailment of the statement, or is given before",
        Rule::V14 =>
            " can have no type here: it is a control, or isn't stable, or is listed before, or its `retype` stands where no control is assigned",
        Rule::W8
        | Rule::W9
        | Rule::V3
        | Rule::V4
        | Rule::V7
        | Rule::V8
        | Rule::V10
        | Rule::V12
        | Rule::V15
        | Rule::V16 => "",
    }
}
