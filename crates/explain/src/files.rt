//! What is told of each file, and the status of them all.

ghost use Rattle.std.specs.Prelude.{◌≡◌, ◌++◌, ◌≤◌, IfOk, OnOk, length, map, string_bytes};
ghost use Rattle.call_inputs.specs.Readings.{Reads, took};
ghost use Rattle.call_inputs.specs.Steps as step;
ghost use Rattle.call_judge.specs.Findings.{Finds};
ghost use Rattle.call_reports.specs.AnswerViews.{seen};
ghost use Rattle.call_reports.specs.Replies.{status_of};
ghost use Rattle.call_reports.specs.Reports.{report_of};
ghost use Rattle.call_reports.specs.declared.answers.Status.TheVariants as s;
ghost use Rattle.cov_expr.specs.declared.limits.TheConstants.{MOST_BYTES};
ghost use Rattle.explain.specs.FileCalls as spec;
ghost use Rattle.explain.specs.FileCalls.{TellsAll};
ghost use Rattle.explain.specs.Inside.Told.{AddsTold, IsLeft, outcome_of};
ghost use Rattle.explain.specs.Tellings.{name_front};

use crate::beside::add_beside;
use crate::explanation::{add_explanation, add_report};
use crate::manner::Manner;
use call_inputs::fetch;
use call_judge::judge::{Judged, judge_bytes};
use call_reports::{Answer, Status, Stop, status_for};
use cov_expr::{Blob, MOST_BYTES, NoMemory};
use cov_io::Shelf;
use std::alloc::Global;

/// Adds what is told of each file, and gives the first status that isn't Done.
pub fn tell_all<S: Shelf>(
    alloc: Global,
    manner: Manner,
    names: &[String],
    shelf: &mut S,
    text: &mut Blob,
) -> Result<Status, NoMemory>
    ensures { TellsAll (IsLeft (S.shelved shelf.new) (outcome_of text.new result)) manner (S.shelved shelf.old) (map string_bytes names.now) text.old s.Done }
{
    let mut status = Status::Done;
    for name in names {
        let next = tell(alloc, manner, name.as_str(), shelf, text)?;
        status = first_status(status, next);
    }
    Ok(status)
}

/// A status, or where it says that all is done, the one that comes after it.
fn first_status(status: Status, later: Status) -> Status
    ensures { result ≡ spec.first_status status later }
{
    match status {
        Status::Done => later,
        _ => status,
    }
}

/// Adds what is told of a file, and gives the status that `check` has for it.
fn tell<S: Shelf>(
    alloc: Global,
    manner: Manner,
    name: &str,
    shelf: &mut S,
    text: &mut Blob,
) -> Result<Status, NoMemory>
    ensures { Reads (λ after end. (after ≡ S.shelved shelf.new) × AddsTold manner name.now end text.old text.new result) (S.shelved shelf.old) (step.bytes name.now MOST_BYTES) }
{
    match fetch(alloc, name, MOST_BYTES, shelf) {
        Ok(bytes) => tell_bytes(alloc, manner, name, bytes.as_slice(), text),
        Err(Stop::Answer(answer)) => tell_unread(alloc, answer, text),
        Err(Stop::NoMemory) => Err(NoMemory),
    }
}

/// Adds what is told of a file that isn't read, and gives the status of that.
pub fn tell_unread(alloc: Global, answer: Answer<'_>, text: &mut Blob) -> Result<Status, NoMemory>
    ensures { IfOk result (λ status. (status ≡ status_of (seen answer.entry)) × (text.new ≡ text.old ++ report_of (seen answer.entry))) }
{
    let status = status_for(&answer);
    add_report(alloc, answer, text)?;
    Ok(status)
}

/// Adds what is told of the bytes of a file, and gives the status that `check` has for them.
fn tell_bytes(
    alloc: Global,
    manner: Manner,
    name: &str,
    bytes: &[u8],
    text: &mut Blob,
) -> Result<Status, NoMemory>
    requires { length bytes.now ≤ MOST_BYTES }
    ensures { AddsTold manner name.now (took bytes.now) text.old text.new result }
{
    let judged = judge_bytes(alloc, bytes)?;
    tell_judged(alloc, manner, name, bytes, &judged, text)
}

/// Adds what is told of the bytes of a file of which this was found, and gives the status of that.
fn tell_judged(
    alloc: Global,
    manner: Manner,
    name: &str,
    bytes: &[u8],
    judged: &Judged,
    text: &mut Blob,
) -> Result<Status, NoMemory>
    requires length { length bytes.now ≤ MOST_BYTES }
    requires found { Finds bytes.now judged.now }
    ensures { AddsTold manner name.now (took bytes.now) text.old text.new result }
{
    let answer = judged.answer(name);
    let status = status_for(&answer);
    add_name(manner.named, name, &answer, text)?;
    add_explanation(alloc, name, bytes, answer, text)?;
    add_beside(alloc, manner, name, bytes, judged, text)?;
    Ok(status)
}

/// Adds the name of a file that is accepted, where it is to be named.
fn add_name(named: bool, name: &str, answer: &Answer<'_>, text: &mut Blob) -> Result<(), NoMemory>
    ensures { OnOk result (text.new ≡ text.old ++ name_front named name.now (seen answer.now)) }
{
    if named {
        match answer {
            Answer::Accepted(_) => {
                text.extend_from_slice(name.as_bytes())?;
                text.extend_from_slice(b": ")
            }
            _ => Ok(()),
        }
    } else {
        Ok(())
    }
}
