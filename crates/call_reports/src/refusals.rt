//! The line of a refusal, by its rule and what the rule shows.

ghost use Rattle.std.specs.Prelude.{◌≡◌, ◌++◌, IfOk, OnOk, codes};
ghost use Rattle.call_reports.specs.Reports as spec;

use crate::lines::{add_between, add_name, add_number_behind};
use cov_ast::{Detail, Refusal, Rule};
use cov_expr::{Blob, List, Name, NoMemory};
use std::alloc::Global;

/// The line that says what is refused: the rule, the thread for a rule of statements, the place, and what the rule shows.
pub fn refusal_line(
    alloc: Global,
    refusal: &Refusal,
    thread: Option<Name>,
) -> Result<Blob, NoMemory>
    ensures { IfOk result (λ line. line ≡ spec.refusal_text refusal.now thread) }
{
    let mut line = List::new(alloc);
    add_refusal(refusal, thread, &mut line)?;
    line.extend_from_slice(b"\n")?;
    Ok(line)
}

/// The lines that say of the observer at which level a program is refused, and what.
pub fn refusal_lines(
    alloc: Global,
    level: Name,
    refusal: &Refusal,
    thread: Option<Name>,
) -> Result<Blob, NoMemory>
    ensures { IfOk result (λ lines. lines ≡ spec.refusal_for_text level refusal.now thread) }
{
    let mut lines = List::new(alloc);
    add_between(b"observer ", level.text(), b"\n", &mut lines)?;
    add_refusal(refusal, thread, &mut lines)?;
    lines.extend_from_slice(b"\n")?;
    Ok(lines)
}

/// The line of a refusal, and then those of what is left unproved.
pub fn refusal_open_lines(
    alloc: Global,
    refusal: &Refusal,
    thread: Option<Name>,
    unproved: &Blob,
) -> Result<Blob, NoMemory>
    ensures { IfOk result (λ lines. lines ≡ spec.refusal_open_text refusal.now thread unproved.now) }
{
    let mut lines = refusal_line(alloc, refusal, thread)?;
    lines.extend_from_slice(unproved.as_slice())?;
    Ok(lines)
}

/// Adds what is refused, without the end of the line.
pub fn add_refusal(refusal: &Refusal, thread: Option<Name>, line: &mut Blob) -> Result<(), NoMemory>
    ensures { OnOk result (line.new ≡ line.old ++ spec.refusal_words refusal.now thread) }
{
    add_rule(refusal.rule, line)?;
    add_thread(thread, line)?;
    add_number_behind(b" at ", refusal.place, line)?;
    add_detail(&refusal.detail, line)
}

/// Adds what a refusal begins with: a word, and the rule.
fn add_rule(rule: Rule, line: &mut Blob) -> Result<(), NoMemory>
    ensures { OnOk result (line.new ≡ line.old ++ (codes "refused " ++ spec.rule_text rule)) }
{
    line.extend_from_slice(b"refused ")?;
    line.extend_from_slice(rule_text(rule).as_bytes())
}

fn rule_text(rule: Rule) -> &'static str
    ensures { result.now ≡ spec.rule_text rule }
{
    match rule {
        Rule::W1 => "W1",
        Rule::W2 => "W2",
        Rule::W3 => "W3",
        Rule::W4 => "W4",
        Rule::W5 => "W5",
        Rule::W6 => "W6",
        Rule::W7 => "W7",
        Rule::W8 => "W8",
        Rule::W9 => "W9",
        Rule::V1 => "V1",
        Rule::V2 => "V2",
        Rule::V3 => "V3",
        Rule::V4 => "V4",
        Rule::V5 => "V5",
        Rule::V6 => "V6",
        Rule::V7 => "V7",
        Rule::V8 => "V8",
        Rule::V9 => "V9",
        Rule::V10 => "V10",
        Rule::V11 => "V11",
        Rule::V12 => "V12",
        Rule::V13 => "V13",
        Rule::V14 => "V14",
        Rule::V15 => "V15",
        Rule::V16 => "V16",
    }
}

fn add_thread(thread: Option<Name>, line: &mut Blob) -> Result<(), NoMemory>
    ensures { OnOk result (line.new ≡ line.old ++ spec.thread_text thread) }
{
    match thread {
        Some(name) => {
            line.extend_from_slice(b" in ")?;
            line.extend_from_slice(name.text())
        }
        None => Ok(()),
    }
}

/// Adds the names that a rule shows, or the number of an entailment.
fn add_detail(detail: &Detail, line: &mut Blob) -> Result<(), NoMemory>
    ensures { OnOk result (line.new ≡ line.old ++ spec.detail_text detail.now) }
{
    match detail {
        Detail::Nothing => Ok(()),
        Detail::One(x) => add_name(b": ", x, line),
        Detail::Two(x, y) => add_two_names(x, y, line),
        Detail::Three(x, y, z) => {
            add_two_names(x, y, line)?;
            add_name(b" ", z, line)
        }
        Detail::Number(n) => add_number_behind(b" entailment ", *n, line),
    }
}

/// Adds a colon and two names behind it.
fn add_two_names(x: &Name, y: &Name, line: &mut Blob) -> Result<(), NoMemory>
    ensures { OnOk result (line.new ≡ line.old ++ (codes ": " ++ x.now ++ codes " " ++ y.now)) }
{
    add_name(b": ", x, line)?;
    add_name(b" ", y, line)
}
