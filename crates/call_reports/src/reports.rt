//! The report of an answer.

ghost use Rattle.std.specs.Prelude.{◌≡◌, ◌++◌, IfOk, OnOk, codes};
ghost use Rattle.call_reports.specs.AnswerViews.{seen};
ghost use Rattle.call_reports.specs.Inside.{IsLine};
ghost use Rattle.call_reports.specs.Reports as spec;
ghost use Rattle.call_reports.specs.Reports.{report_of};

use crate::answers::{Answer, Totals};
use crate::differences::differ_line;
use crate::faults::malformed_line;
use crate::lines::add_between;
use crate::refusals::{refusal_line, refusal_lines, refusal_open_lines};
use cov_expr::{Blob, List, NoMemory};
use itoa::Buffer;
use std::alloc::Global;

/// The report of an answer.
pub fn report(alloc: Global, answer: Answer<'_>) -> Result<Blob, NoMemory>
    ensures { IfOk result (λ text. text ≡ report_of (seen answer.entry)) }
{
    match answer {
        Answer::Spelled(text) | Answer::Ran(text) | Answer::Refuted(text) => Ok(text),
        other => line(alloc, &other),
    }
}

/// The report of an answer that isn't its text: a line, or more that are refused.
fn line(alloc: Global, answer: &Answer<'_>) -> Result<Blob, NoMemory>
    ensures { IfOk result (λ text. IsLine (seen answer.now) text) }
{
    match answer {
        Answer::Usage => line_of(alloc, b"usage: ", b"covern COMMAND WORDS"),
        Answer::ReadFault(name) => line_of(alloc, b"read fault: ", name.as_bytes()),
        Answer::TooLong(name) => line_of(alloc, b"too long: ", name.as_bytes()),
        Answer::Malformed(name, fault) => malformed_line(alloc, name, fault),
        Answer::Refused(refusal, thread) => refusal_line(alloc, refusal, *thread),
        Answer::RefusedFor(level, refusal, thread) => refusal_lines(
            alloc, *level, refusal, *thread,
        ),
        Answer::RefusedOpen(refusal, thread, lines) => refusal_open_lines(
            alloc, refusal, *thread, lines,
        ),
        Answer::Accepted(counts) => accepted_line(alloc, counts),
        Answer::BadStarts(name) => line_of(alloc, b"bad starts: ", name.as_slice()),
        Answer::Differ(step, what) => differ_line(alloc, *step, what),
        Answer::Spelled(_) | Answer::Ran(_) | Answer::Refuted(_) => Ok(List::new(alloc)),
    }
}

/// A line of two texts.
fn line_of(alloc: Global, before: &[u8], text: &[u8]) -> Result<Blob, NoMemory>
    ensures { IfOk result (λ line. line ≡ before.now ++ text.now ++ codes "\n") }
{
    let mut line = List::new(alloc);
    add_between(before, text, b"\n", &mut line)?;
    Ok(line)
}

/// The line of a check that accepts.
fn accepted_line(alloc: Global, counts: &Totals) -> Result<Blob, NoMemory>
    ensures { IfOk result (λ line. line ≡ report_of (seen (Answer.Accepted counts.now))) }
{
    let mut line = List::new(alloc);
    add_accepted(counts, &mut line)?;
    line.extend_from_slice(b"\n")?;
    Ok(line)
}

/// Adds how much a program has that is accepted, without the end of the line.
pub fn add_accepted(counts: &Totals, line: &mut Blob) -> Result<(), NoMemory>
    ensures { OnOk result (line.new ≡ line.old ++ spec.accepted_words counts.now.threads counts.now.statements counts.now.entailments) }
{
    line.extend_from_slice(b"accepted: ")?;
    add_counted(counts.threads, b" threads, ", line)?;
    add_counted(counts.statements, b" statements, ", line)?;
    add_counted(counts.entailments, b" entailments", line)
}

/// Adds a number, and what there are so many of.
pub fn add_counted(n: u64, what: &[u8], line: &mut Blob) -> Result<(), NoMemory>
    ensures { OnOk result (line.new ≡ line.old ++ spec.counted n what.now) }
{
    let mut buffer = Buffer::new();
    line.extend_from_slice(buffer.format(n).as_bytes())?;
    line.extend_from_slice(what)
}
