//! `unobject`: the listing of the code of an object.

ghost use Rattle.std.specs.Prelude.{◌≡◌, ◌≤◌, IfOk, MatchResult, length};
ghost use Rattle.call_code.specs.Objects as spec;
ghost use Rattle.call_code.specs.Objects.{IsObjectCode, IsObjectFault, unobject_plan};
ghost use Rattle.call_inputs.specs.Plans.{CarriesOut};
ghost use Rattle.call_inputs.specs.Readings.{HasRead, ended};
ghost use Rattle.call_reports.specs.AnswerViews.{Stops};
ghost use Rattle.call_reports.specs.Replies.{malformed};
ghost use Rattle.cov_expr.specs.declared.limits.TheConstants.{MOST_OBJECT_BYTES};
ghost use Rattle.risc_machine.specs.Faults.{AreGood};

use crate::compile::listed;
use call_inputs::fetch;
use call_reports::{Answer, Fault, Stop};
use cov_expr::MOST_OBJECT_BYTES;
use cov_io::Shelf;
use object_code::{ObjectFault, read_object};
use risc_machine::Code;
use std::alloc::Global;

/// Lists the code of which a file is the object.
pub fn unobject<'w, S: Shelf>(
    alloc: Global,
    name: &'w str,
    shelf: &mut S,
) -> Result<Answer<'w>, Stop<'w>>
    ensures { CarriesOut (S.shelved shelf.old) (S.shelved shelf.new) (unobject_plan name.now) result }
{
    let code = read_code(alloc, name, shelf)?;
    listed(alloc, &code)
}

/// The code of which a file is the object.
fn read_code<'w, S: Shelf>(alloc: Global, name: &'w str, shelf: &mut S) -> Result<Code, Stop<'w>>
    ensures read { HasRead (S.shelved shelf.old) (S.shelved shelf.new) (spec.code name.now) (ended (λ code. code) result) }
    ensures good { IfOk result (λ code. AreGood code) }
{
    let bytes = fetch(alloc, name, MOST_OBJECT_BYTES, shelf)?;
    code_of(alloc, name, bytes.as_slice())
}

/// The code of which the bytes of a file are the object.
fn code_of<'w>(alloc: Global, name: &'w str, bytes: &[u8]) -> Result<Code, Stop<'w>>
    requires { length bytes.now ≤ MOST_OBJECT_BYTES }
    ensures read { MatchResult result (λ code. IsObjectCode bytes.now code)
        (Stops (λ reply. (fault : Fault) × IsObjectFault bytes.now fault × (reply ≡ malformed name.now fault))) }
    ensures good { IfOk result (λ code. AreGood code) }
{
    match read_object(alloc, bytes) {
        Ok(code) => Ok(code),
        Err(ObjectFault::Bad(at)) => Err(Stop::Answer(Answer::Malformed(name, Fault::Object(at)))),
        Err(ObjectFault::Code(_)) => Err(Stop::Answer(Answer::Malformed(name, Fault::Code))),
        Err(ObjectFault::NoMemory) => Err(Stop::NoMemory),
    }
}
