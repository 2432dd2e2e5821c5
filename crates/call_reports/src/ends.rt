//! The end of a call: the report is made, and then written.

ghost use Rattle.std.specs.Prelude.{◌≡◌, ◌≤◌};
ghost use Rattle.cov_io.specs.Counters.{Rose};
ghost use Rattle.call_reports.specs.Ends.{Ends};
ghost use Rattle.call_reports.specs.AnswerViews.{seen};

use crate::answers::{Answer, Status, status_for};
use crate::reports::report;
use cov_io::{Sink, write_whole};
use std::alloc::Global;

/// Ends a call with an answer: makes the report, and then writes it.
pub fn end<K: Sink>(alloc: Global, answer: Answer<'_>, sink: &mut K) -> Status
    ensures ends { Ends (λ reply. reply ≡ seen answer.entry) (K.sunk sink.old) (K.sunk sink.new) result }
    ensures write_fault { result ≡ Status.WriteFault → Rose (K.sunk sink.old).faults (K.sunk sink.new).faults }
    ensures counts { (K.sunk sink.old).faults ≤ (K.sunk sink.new).faults }
{
    let status = status_for(&answer);
    let Ok(text) = report(alloc, answer) else {
        return Status::NoMemory;
    };
    match write_whole(sink, text.as_slice()) {
        Ok(()) => status,
        Err(_) => Status::WriteFault,
    }
}
