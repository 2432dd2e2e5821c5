//! The explanation of a reply: where its place is, what stands there, and what is wrong.

ghost use Rattle.std.specs.Prelude.{◌≡◌, ◌++◌, OnOk, Some};
ghost use Rattle.explain.specs.Explanations as spec;
ghost use Rattle.call_reports.specs.AnswerViews.{seen};
ghost use Rattle.call_reports.specs.Reports.{report_of};

use crate::faults::add_fault_sentence;
use crate::rules::{add_shown, sentence_end, sentence_front};
use call_reports::{Answer, Fault, report};
use cov_expr::{Blob, List, NoMemory};
use std::alloc::Global;
use text_parts::{add_excerpt, add_number, halves, position};

/// Adds what is told of the bytes of a file that are answered so by `check`.
pub fn add_explanation(
    alloc: Global,
    name: &str,
    bytes: &[u8],
    answer: Answer<'_>,
    text: &mut Blob,
) -> Result<(), NoMemory>
    ensures { OnOk result (text.new ≡ text.old ++ spec.explanation name.now bytes.now (seen answer.entry)) }
{
    match place_of(&answer) {
        Some(place) => {
            let mut sentence = List::new(alloc);
            add_sentence_of(bytes, &answer, &mut sentence)?;
            add_where(name, bytes, place as usize, text)?;
            add_report(alloc, answer, text)?;
            add_excerpt(bytes, place as usize, text)?;
            text.extend_from_slice(b"  ")?;
            text.extend_from_slice(sentence.as_slice())?;
            text.extend_from_slice(b"\n")
        }
        None => add_report(alloc, answer, text),
    }
}

/// The place that an answer names.
fn place_of(answer: &Answer<'_>) -> Option<u32>
    ensures { result ≡ spec.place_of (seen answer.now) }
{
    match answer {
        Answer::Malformed(_, Fault::Text(_, at)) => Some(*at),
        Answer::Refused(refusal, _) => Some(refusal.place),
        _ => None,
    }
}

/// Adds what is wrong, in one sentence.
fn add_sentence_of(bytes: &[u8], answer: &Answer<'_>, text: &mut Blob) -> Result<(), NoMemory>
    ensures { OnOk result (text.new ≡ text.old ++ spec.sentence_of bytes.now (seen answer.now)) }
{
    match answer {
        Answer::Malformed(_, Fault::Text(kind, at)) => {
            let (_, rest) = halves(bytes, *at as usize);
            add_fault_sentence(*kind, rest, text)
        }
        Answer::Refused(refusal, _) => {
            text.extend_from_slice(sentence_front(refusal.rule).as_bytes())?;
            add_shown(refusal.rule, &refusal.detail, text)?;
            text.extend_from_slice(sentence_end(refusal.rule).as_bytes())
        }
        _ => Ok(()),
    }
}

/// Adds where a place is: the file, the line and the column.
pub fn add_where(name: &str, bytes: &[u8], place: usize, text: &mut Blob) -> Result<(), NoMemory>
    ensures { OnOk result (text.new ≡ text.old ++ spec.where_is name.now bytes.now place) }
{
    let position = position(bytes, place);
    text.extend_from_slice(name.as_bytes())?;
    text.extend_from_slice(b":")?;
    add_number(position.line, text)?;
    text.extend_from_slice(b":")?;
    add_number(position.column, text)?;
    text.extend_from_slice(b": ")
}

/// Adds the report of `check`.
pub fn add_report(alloc: Global, answer: Answer<'_>, text: &mut Blob) -> Result<(), NoMemory>
    ensures { OnOk result (text.new ≡ text.old ++ report_of (seen answer.entry)) }
{
    let line = report(alloc, answer)?;
    text.extend_from_slice(line.as_slice())
}
