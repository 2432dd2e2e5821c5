//! What is told beside an explanation, by what is asked for.

ghost use Rattle.std.specs.Prelude.{◌≡◌, ◌≤◌, ◌++◌, ℕ, List, Option, Some, None, length, OnOk};
ghost use Rattle.call_judge.specs.Findings.{Finds, reply_to};
ghost use Rattle.cov_ast.specs.View as view;
ghost use Rattle.cov_ast.specs.WellFormed.{IsWellFormed};
ghost use Rattle.cov_expr.specs.declared.limits.TheConstants.{MOST_BYTES};
ghost use Rattle.explain.specs.Tellings.{AddsBeside, AddsCode, AddsPoints, compiled_lines};

use crate::manner::{Beside, Manner};
use crate::more::{add_more, add_stand_lines};
use call_judge::judge::Judged;
use code_lines::add_code_lines;
use compiled_code::compiled_is_code;
use cov_ast::Program;
use cov_expr::{Blob, NoMemory};
use risc_compile::parts_of;
use std::alloc::Global;
use typing_trace::add_points;

/// Adds what is told of bytes of which this was found, beside the explanation: of a refusal what it is about, and warnings, or else what is known in the program, or its code.
pub fn add_beside(
    alloc: Global,
    manner: Manner,
    name: &str,
    bytes: &[u8],
    judged: &Judged,
    text: &mut Blob,
) -> Result<(), NoMemory>
    requires length { length bytes.now ≤ MOST_BYTES }
    requires found { Finds bytes.now judged.now }
    ensures { OnOk result ((more : List ℕ) × AddsBeside manner.beside manner.first name.now bytes.now (reply_to name.now judged.now) more × (text.new ≡ text.old ++ more)) }
{
    match manner.beside {
        Beside::Remarks => add_more(alloc, manner.first, name, bytes, judged, text),
        Beside::Code => add_code(alloc, name, bytes, judged, text),
        Beside::Points => add_known(alloc, None, name, bytes, judged, text),
        Beside::PointsOf(number) => add_known(alloc, Some(number), name, bytes, judged, text),
    }
}

/// Adds what is known in the program that bytes spell of which this was found, in front of the statements of a line, or of all; of malformed ones what could stand at
/// the place of a token.
fn add_known(
    alloc: Global,
    number: Option<usize>,
    name: &str,
    bytes: &[u8],
    judged: &Judged,
    text: &mut Blob,
) -> Result<(), NoMemory>
    requires length { length bytes.now ≤ MOST_BYTES }
    requires found { Finds bytes.now judged.now }
    ensures { OnOk result ((more : List ℕ) × AddsPoints bytes.now number (reply_to name.now judged.now) more × (text.new ≡ text.old ++ more)) }
{
    match judged {
        Judged::Malformed(fault) => add_stand_lines(alloc, bytes, fault, text),
        Judged::Unnamed(_) => Ok(()),
        Judged::Refused(_, program) => add_points(alloc, program, bytes, number, text),
        Judged::Accepted(_, program) => add_points(alloc, program, bytes, number, text),
    }
}

/// Adds the code of the program that bytes spell of which this was found, where it is accepted, and else what is told beside the explanation, of a refusal the
/// first alone.
fn add_code(
    alloc: Global,
    name: &str,
    bytes: &[u8],
    judged: &Judged,
    text: &mut Blob,
) -> Result<(), NoMemory>
    requires length { length bytes.now ≤ MOST_BYTES }
    requires found { Finds bytes.now judged.now }
    ensures { OnOk result ((more : List ℕ) × AddsCode name.now bytes.now (reply_to name.now judged.now) more × (text.new ≡ text.old ++ more)) }
{
    match judged {
        Judged::Malformed(_) => add_more(alloc, true, name, bytes, judged, text),
        Judged::Unnamed(_) => add_more(alloc, true, name, bytes, judged, text),
        Judged::Refused(_, _) => add_more(alloc, true, name, bytes, judged, text),
        Judged::Accepted(_, program) => add_compiled(alloc, program, bytes, text),
    }
}

/// Adds the code of a program whose text these bytes are.
fn add_compiled(
    alloc: Global,
    program: &Program,
    bytes: &[u8],
    text: &mut Blob,
) -> Result<(), NoMemory>
    requires { IsWellFormed (view.program program.now) }
    ensures { OnOk result (text.new ≡ text.old ++ compiled_lines (view.program program.now) bytes.now) }
{
    let parts = parts_of(alloc, program)?;
    compiled_is_code();
    add_code_lines(program, &parts, bytes, text)
}
