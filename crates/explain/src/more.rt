//! What is told beside an explanation.

ghost use Rattle.std.specs.Prelude.{◌≡◌, ◌≤◌, ◌++◌, ℕ, List, length, OnOk};
ghost use Rattle.call_inputs.specs.Programs.{SpellsProgram};
ghost use Rattle.call_judge.specs.Findings.{Finds, reply_to};
ghost use Rattle.cov_ast.specs.Syntax.{Parsed};
ghost use Rattle.cov_ast.specs.View as view;
ghost use Rattle.cov_ast.specs.WellFormed.{IsWellFormed};
ghost use Rattle.cov_expr.specs.declared.limits.TheConstants.{MOST_BYTES};
ghost use Rattle.explain.specs.Tellings as spec;
ghost use Rattle.explain.specs.Tellings.{Adds, stand_lines};
ghost use Rattle.explain.specs.WarningSentences.{warning_lines};
ghost use Rattle.explain.specs.HiddenText.{text_warnings};

use crate::braces::add_brace_line;
use crate::line::add_expected;
use crate::others::add_some;
use crate::unassumed::add_unassumed_line;
use crate::unread::add_unread_line;
use crate::warnings::{add_text_warnings, add_warnings};
use call_inputs::parse_text;
use call_judge::judge::Judged;
use call_reports::{Fault, FaultKind};
use cov_ast::{Program, Refusal};
use cov_expr::{Blob, NoMemory};
use entail_refused::{add_asked, other_refusals};
use nearest_name::add_nearest;
use refusal_names::add_names;
use std::alloc::Global;

/// Adds what is told of bytes of which this was found, beside the explanation: of malformed ones what could stand at the place of a token,
/// of refused ones what the refusal is about and what is warned of in the bytes, of accepted ones what is warned of.
pub fn add_more(
    alloc: Global,
    first: bool,
    name: &str,
    bytes: &[u8],
    judged: &Judged,
    text: &mut Blob,
) -> Result<(), NoMemory>
    requires length { length bytes.now ≤ MOST_BYTES }
    requires found { Finds bytes.now judged.now }
    ensures { OnOk result ((more : List ℕ) × Adds first name.now bytes.now (reply_to name.now judged.now) more × (text.new ≡ text.old ++ more)) }
{
    match judged {
        Judged::Malformed(fault) => add_stand_lines(alloc, bytes, fault, text),
        Judged::Unnamed(refusal) => add_unnamed(alloc, name, bytes, refusal, text),
        Judged::Refused(refusal, program) => {
            add_refused(alloc, first, name, bytes, refusal, program, text)
        }
        Judged::Accepted(_, program) => add_warnings(alloc, name, bytes, program, text),
    }
}

/// Adds what is told of a text whose names aren't in order, beside the explanation: of a name that isn't declared the nearest declared one, and what is
/// warned of in the bytes.
pub fn add_unnamed(
    alloc: Global,
    name: &str,
    bytes: &[u8],
    refusal: &Refusal,
    text: &mut Blob,
) -> Result<(), NoMemory>
    requires { length bytes.now ≤ MOST_BYTES }
    ensures { (p : Parsed) → SpellsProgram bytes.now p
        → OnOk result (text.new ≡ text.old ++ (spec.unnamed_asked p refusal.now ++ warning_lines name.now bytes.now (text_warnings bytes.now))) }
{
    add_nearest_declared(alloc, bytes, refusal, text)?;
    add_text_warnings(alloc, name, bytes, text)
}

/// Adds the nearest declared name, of a name that isn't declared. The text is read again, since of one that is refused so no more than the refusal is kept.
fn add_nearest_declared(
    alloc: Global,
    bytes: &[u8],
    refusal: &Refusal,
    text: &mut Blob,
) -> Result<(), NoMemory>
    requires { length bytes.now ≤ MOST_BYTES }
    ensures { (p : Parsed) → SpellsProgram bytes.now p → OnOk result (text.new ≡ text.old ++ spec.unnamed_asked p refusal.now) }
{
    match parse_text(alloc, bytes) {
        Ok(parsed) => add_nearest(alloc, &parsed, refusal, text),
        Err(_) => Err(NoMemory),
    }
}

/// Adds what a refusal of a program is about, without others behind it where the first alone is to be told, and what is warned of in the bytes of its text.
pub fn add_refused(
    alloc: Global,
    first: bool,
    name: &str,
    bytes: &[u8],
    refusal: &Refusal,
    program: &Program,
    text: &mut Blob,
) -> Result<(), NoMemory>
    requires length { length bytes.now ≤ MOST_BYTES }
    requires formed { IsWellFormed (view.program program.now) }
    ensures { OnOk result (text.new ≡ text.old
        ++ (spec.refusal_lines first name.now (view.program program.now) bytes.now refusal.now ++ warning_lines name.now bytes.now (text_warnings bytes.now))) }
{
    add_refusal_lines(alloc, first, name, bytes, refusal, program, text)?;
    add_text_warnings(alloc, name, bytes, text)
}

/// Adds what a refusal of a program is about: of W8, W9, V1 to V5, V8, V12 and V14 to V16 names; then what is told of its thread; and of V9 the
/// entailment, and of V9 and V13 others of the thread.
#[tactic(auto, unfolding(crate::specs::OtherTellings::told_with_others))]
fn add_refusal_lines(
    alloc: Global,
    first: bool,
    name: &str,
    bytes: &[u8],
    refusal: &Refusal,
    program: &Program,
    text: &mut Blob,
) -> Result<(), NoMemory>
    requires { IsWellFormed (view.program program.now) }
    ensures { OnOk result (text.new ≡ text.old ++ spec.refusal_lines first name.now (view.program program.now) bytes.now refusal.now) }
{
    add_names(alloc, program, bytes, refusal, text)?;
    add_thread_lines(alloc, program, refusal.thread, text)?;
    if first {
        return add_asked(alloc, program, bytes, refusal, text);
    }
    let others = other_refusals(alloc, program, refusal)?;
    add_some(
        alloc,
        name,
        bytes,
        refusal,
        others.as_slice(),
        program,
        text,
    )
}

/// Adds what the thread of a refusal doesn't assume though every other guarantees it, and what it stores to and no statement reads.
fn add_thread_lines(
    alloc: Global,
    program: &Program,
    thread: Option<u32>,
    text: &mut Blob,
) -> Result<(), NoMemory>
    requires { IsWellFormed (view.program program.now) }
    ensures { OnOk result (text.new ≡ text.old ++ spec.thread_lines (view.program program.now) thread) }
{
    add_unassumed_line(alloc, program, thread, text)?;
    add_unread_line(alloc, program, thread, text)
}

/// Adds what could stand at the place of a fault, if that is a token with which no program goes on, and in front of it which brace is open there.
pub fn add_stand_lines(
    alloc: Global,
    bytes: &[u8],
    fault: &Fault,
    text: &mut Blob,
) -> Result<(), NoMemory>
    requires { length bytes.now ≤ MOST_BYTES }
    ensures { OnOk result (text.new ≡ text.old ++ stand_lines bytes.now fault.now) }
{
    match fault {
        Fault::Text(FaultKind::Token, at) => add_stand_lines_at(alloc, bytes, *at, text),
        _ => Ok(()),
    }
}

/// Adds which brace is open at a place, and what could stand there.
#[tactic(auto, unfolding(crate::specs::Tellings::stand_lines_at))]
fn add_stand_lines_at(alloc: Global, bytes: &[u8], at: u32, text: &mut Blob) -> Result<(), NoMemory>
    requires { length bytes.now ≤ MOST_BYTES }
    ensures { OnOk result (text.new ≡ text.old ++ spec.stand_lines_at bytes.now at) }
{
    add_brace_line(alloc, bytes, at, text)?;
    add_expected(alloc, bytes, at, text)
}
