//! The line of a malformed file or word, by its fault.

ghost use Rattle.std.specs.Prelude.{◌≡◌, ◌++◌, IfOk, OnOk};
ghost use Rattle.call_reports.specs.Inside as inside;
ghost use Rattle.call_reports.specs.Replies.{malformed};
ghost use Rattle.call_reports.specs.Reports as spec;

use crate::answers::{Fault, FaultKind, Misfit};
use crate::lines::{add_between, add_number, add_number_behind};
use cov_expr::{Blob, List, NoMemory};
use std::alloc::Global;

/// The line that says what is wrong with a file.
pub fn malformed_line(alloc: Global, name: &str, fault: &Fault) -> Result<Blob, NoMemory>
    ensures { IfOk result (λ line. line ≡ spec.report_of (malformed name.now fault.now)) }
{
    let mut line = List::new(alloc);
    add_between(b"malformed ", name.as_bytes(), b": ", &mut line)?;
    add_fault(fault, &mut line)?;
    line.extend_from_slice(b"\n")?;
    Ok(line)
}

/// Adds what a fault is, and where or at which name.
fn add_fault(fault: &Fault, line: &mut Blob) -> Result<(), NoMemory>
    ensures { OnOk result (line.new ≡ line.old ++ spec.fault_text fault.now) }
{
    line.extend_from_slice(fault_word(fault).as_bytes())?;
    match fault {
        Fault::Json | Fault::NotObject | Fault::UnknownKey => Ok(()),
        Fault::NotList | Fault::TooMany | Fault::Code => Ok(()),
        Fault::Missing(name) | Fault::NotWord(name) => line.extend_from_slice(name.text()),
        Fault::Text(_, at) | Fault::Misfit(_, at) => add_number_behind(b" at ", *at, line),
        Fault::BadEntry(n) | Fault::Object(n) => add_number(*n, line),
    }
}

/// What the text of a fault begins with, up to a name or a number.
fn fault_word(fault: &Fault) -> &'static str
    ensures { result.now ≡ inside.fault_word fault.now }
{
    match fault {
        Fault::Text(kind, _) => kind_text(*kind),
        Fault::Json => "json",
        Fault::NotObject => "object",
        Fault::Missing(_) => "missing ",
        Fault::UnknownKey => "unknown",
        Fault::NotWord(_) => "word ",
        Fault::NotList => "list",
        Fault::TooMany => "many",
        Fault::BadEntry(_) => "entry ",
        Fault::Object(_) => "object at ",
        Fault::Code => "code",
        Fault::Misfit(what, _) => misfit_text(*what),
    }
}

/// What of a text doesn't fit a program is called.
fn misfit_text(what: Misfit) -> &'static str
    ensures { result.now ≡ spec.misfit_text what }
{
    match what {
        Misfit::Version => "version",
        Misfit::Declares => "declares",
        Misfit::Thread => "thread",
        Misfit::Unknown => "unknown",
        Misfit::Same => "same",
        Misfit::Marker => "marker",
    }
}

/// What a fault of a text is called.
fn kind_text(kind: FaultKind) -> &'static str
    ensures { result.now ≡ spec.kind_text kind }
{
    match kind {
        FaultKind::Byte => "byte",
        FaultKind::Number => "number",
        FaultKind::Name => "name",
        FaultKind::Token => "token",
        FaultKind::Limit => "limit",
        FaultKind::Depth => "depth",
        FaultKind::Unknown => "unknown",
    }
}
