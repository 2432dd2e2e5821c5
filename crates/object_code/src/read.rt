//! The code of an object.

ghost use Rattle.std.specs.Prelude.{◌≡◌, ◌≤◌, [], length, Err, MatchResult, None};
ghost use Rattle.object_code.specs.Inside.Given.{Gives, Judges};
ghost use Rattle.object_code.specs.Inside.ObjectReading as spec;
ghost use Rattle.object_code.specs.Object.{HasObject, IsObjectOf};
ghost use Rattle.object_code.specs.ObjectAnswers.{IsReading, IsAnswerTo};
ghost use Rattle.cov_expr.specs.declared.limits.TheConstants.{MOST_OBJECT_BYTES};
ghost use Rattle.risc_machine.specs.Faults.{names_of, repeated};
ghost use Rattle.risc_machine.specs.declared.parts.Parts.{Parts};

use crate::fault::ObjectFault;
use crate::parts::parts_at;
use crate::repeated::first_repeated;
use crate::stop::Stop;
use risc_machine::{Code, CodeBad, Parts};
use std::alloc::Global;

/// The code of an object. It answers with the code exactly where the bytes are the object of one, unless memory runs out. The
/// memory that it takes grows with the code that is made, and not with a count that the bytes claim.
pub fn read_object(alloc: Global, bytes: &[u8]) -> Result<Code, ObjectFault>
    requires { length bytes.now ≤ MOST_OBJECT_BYTES }
    ensures reading { IsReading bytes.now result }
    ensures exact { (p : Parts) → IsObjectOf p bytes.now → IsAnswerTo p result }
{
    match read_parts(alloc, bytes) {
        Ok(parts) => code_of(alloc, parts),
        Err(Stop::Left(left)) => Err(ObjectFault::Bad((bytes.len() - left) as u32)),
        Err(Stop::NoMemory) => Err(ObjectFault::NoMemory),
    }
}

/// The parts of which the bytes are the object.
fn read_parts(alloc: Global, bytes: &[u8]) -> Result<Parts, Stop>
    ensures { Gives (λ p. p) result (spec.read_all bytes.now) }
{
    let (parts, rest) = parts_at(alloc, bytes)?;
    if rest.is_empty() {
        Ok(parts)
    } else {
        Err(Stop::Left(rest.len()))
    }
}

/// The code of parts that have an object.
fn code_of(alloc: Global, parts: Parts) -> Result<Code, ObjectFault>
    requires { HasObject parts }
    ensures { Judges parts result }
{
    test_names(alloc, &parts)?;
    match Code::with_distinct_names(parts) {
        Ok(code) => Ok(code),
        Err(rejected) => Err(ObjectFault::Code(rejected.fault)),
    }
}

/// Whether no name of parts that have an object equals an earlier one.
fn test_names(alloc: Global, parts: &Parts) -> Result<(), ObjectFault>
    requires { HasObject parts.now }
    ensures { MatchResult result (λ _. repeated [] (names_of parts.now) ≡ None) (λ fault. Judges parts.now (Err fault)) }
{
    match first_repeated(alloc, parts)? {
        None => Ok(()),
        Some(name) => Err(ObjectFault::Code(CodeBad::SameName(name))),
    }
}
