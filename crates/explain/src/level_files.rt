//! What is told of a program and of levels for it: how their files are read.

ghost use Rattle.std.specs.Prelude.{◌≡◌, ◌++◌, ◌≤◌, IfOk, OnOk, Some, length};
ghost use Rattle.call_inputs.specs.Programs.{SpellsProgram};
ghost use Rattle.call_inputs.specs.Readings.{Reads, took};
ghost use Rattle.call_inputs.specs.Steps as step;
ghost use Rattle.call_reports.specs.declared.answers.Status.TheVariants as s;
ghost use Rattle.call_verdicts.specs.Levels.{level_fault_shown};
ghost use Rattle.cov_ast.specs.Ready.{IsReady};
ghost use Rattle.cov_ast.specs.View as view;
ghost use Rattle.cov_expr.specs.declared.limits.TheConstants.{MOST_BYTES};
ghost use Rattle.explain.specs.FileCalls.{FollowsOver, FollowsProgram, TellsLevels};
ghost use Rattle.explain.specs.Inside.Told.{AddsOver, IsLeft, outcome_of};
ghost use Rattle.explain.specs.LevelTellings as spec;

use crate::explanation::{add_explanation, add_report, add_where};
use crate::files::tell_unread;
use crate::more::add_stand_lines;
use crate::observers::tell_text;
use crate::words::word_run;
use call_inputs::{fetch, parse_text, text_fault};
use call_reports::{Answer, Fault, FaultKind, Misfit, Status, Stop};
use cov_ast::Parsed;
use cov_expr::{Blob, MOST_BYTES, NoMemory};
use cov_io::Shelf;
use level_text::{LevelFault, read_levels};
use nearest_name::add_nearest_variable;
use std::alloc::Global;
use text_parts::{add_excerpt, halves};

/// Adds what is told of a program and of levels for it, and gives the status that `levels` has for them.
pub fn tell_levels<S: Shelf>(
    alloc: Global,
    name: &str,
    over: &str,
    shelf: &mut S,
    text: &mut Blob,
) -> Result<Status, NoMemory>
    ensures { TellsLevels (IsLeft (S.shelved shelf.new) (outcome_of text.new result)) name.now over.now text.old (S.shelved shelf.old) }
{
    match fetch(alloc, name, MOST_BYTES, shelf) {
        Ok(bytes) => tell_program(alloc, name, over, bytes.as_slice(), shelf, text),
        Err(Stop::Answer(answer)) => tell_unread(alloc, answer, text),
        Err(Stop::NoMemory) => Err(NoMemory),
    }
}

/// Adds what is told of the bytes of a program and of levels for it.
fn tell_program<S: Shelf>(
    alloc: Global,
    name: &str,
    over: &str,
    bytes: &[u8],
    shelf: &mut S,
    text: &mut Blob,
) -> Result<Status, NoMemory>
    requires { length bytes.now ≤ MOST_BYTES }
    ensures { FollowsProgram (IsLeft (S.shelved shelf.new) (outcome_of text.new result)) name.now over.now text.old (S.shelved shelf.old) (took bytes.now) }
{
    match parse_text(alloc, bytes) {
        Ok(parsed) => tell_over(alloc, name, over, bytes, parsed, shelf, text),
        Err(Some(fault)) => tell_malformed(alloc, name, bytes, fault, text),
        Err(None) => Err(NoMemory),
    }
}

/// Adds what is told of bytes that spell no program.
pub fn tell_malformed(
    alloc: Global,
    name: &str,
    bytes: &[u8],
    fault: Fault,
    text: &mut Blob,
) -> Result<Status, NoMemory>
    requires { length bytes.now ≤ MOST_BYTES }
    ensures { IfOk result (λ status. (status ≡ s.Malformed) × (text.new ≡ text.old ++ spec.malformed_lines name.now bytes.now fault)) }
{
    add_explanation(alloc, name, bytes, Answer::Malformed(name, fault), text)?;
    add_stand_lines(alloc, bytes, &fault, text)?;
    Ok(Status::Malformed)
}

/// Adds what is told of levels for the program that bytes spell.
fn tell_over<S: Shelf>(
    alloc: Global,
    name: &str,
    over: &str,
    bytes: &[u8],
    parsed: Parsed,
    shelf: &mut S,
    text: &mut Blob,
) -> Result<Status, NoMemory>
    requires short { length bytes.now ≤ MOST_BYTES }
    requires spelled { SpellsProgram bytes.now (view.parsed parsed) }
    requires ready { IsReady (view.parsed parsed) }
    ensures { Reads (λ after end. FollowsOver (IsLeft (S.shelved shelf.new) (outcome_of text.new result)) name.now bytes.now (view.parsed parsed) over.now text.old after end)
        (S.shelved shelf.old) (step.bytes over.now MOST_BYTES) }
{
    match fetch(alloc, over, MOST_BYTES, shelf) {
        Ok(given) => tell_given(alloc, name, over, bytes, parsed, given.as_slice(), text),
        Err(Stop::Answer(answer)) => tell_unread(alloc, answer, text),
        Err(Stop::NoMemory) => Err(NoMemory),
    }
}

/// Adds what is told of the bytes of a text of levels, for the program that bytes spell.
fn tell_given(
    alloc: Global,
    name: &str,
    over: &str,
    bytes: &[u8],
    parsed: Parsed,
    given: &[u8],
    text: &mut Blob,
) -> Result<Status, NoMemory>
    requires short { length bytes.now ≤ MOST_BYTES }
    requires brief { length given.now ≤ MOST_BYTES }
    requires spelled { SpellsProgram bytes.now (view.parsed parsed) }
    requires ready { IsReady (view.parsed parsed) }
    ensures { AddsOver name.now bytes.now (view.parsed parsed) over.now (took given.now) text.old text.new result }
{
    match read_levels(alloc, given, &parsed) {
        Ok(l) => tell_text(alloc, name, bytes, parsed, &l, text),
        Err(fault) => tell_fault(alloc, &parsed, over, given, level_fault(fault), text),
    }
}

/// A fault of a text of levels, as reports show it; want of memory is none.
fn level_fault(fault: LevelFault) -> Option<Fault>
    ensures { result ≡ level_fault_shown fault }
{
    match fault {
        LevelFault::Text(fault) => text_fault(fault),
        LevelFault::Many(at) => Some(Fault::Text(FaultKind::Limit, at)),
        LevelFault::Same(at) => Some(Fault::Misfit(Misfit::Same, at)),
        LevelFault::Unknown(at) => Some(Fault::Misfit(Misfit::Unknown, at)),
        LevelFault::Plain(at) => Some(Fault::Misfit(Misfit::Marker, at)),
        LevelFault::NoMemory => None,
    }
}

/// Adds what is told of bytes that give no levels for a text; where they have no fault, memory ran out.
fn tell_fault(
    alloc: Global,
    p: &Parsed,
    over: &str,
    given: &[u8],
    fault: Option<Fault>,
    text: &mut Blob,
) -> Result<Status, NoMemory>
    ensures { IfOk result (λ status. (found : Fault) × (fault ≡ Some found) × (status ≡ s.Malformed) × (text.new ≡ text.old ++ spec.fault_lines over.now given.now (view.parsed p.now) found)) }
{
    match fault {
        Some(fault) => {
            let fault_place = match &fault {
                Fault::Text(_, at) | Fault::Misfit(_, at) => Some(*at),
                _ => None,
            };
            match fault_place {
                Some(place) => {
                    add_where(over, given, place as usize, text)?;
                    add_report(alloc, Answer::Malformed(over, fault), text)?;
                    add_excerpt(given, place as usize, text)?;
                }
                None => add_report(alloc, Answer::Malformed(over, fault), text)?,
            }
            add_misfit_lines(alloc, p, given, &fault, text)?;
            Ok(Status::Malformed)
        }
        None => Err(NoMemory),
    }
}

/// Adds what a fault beyond the grammar and the limits is, and of a name that isn't known the nearest one of a variable.
fn add_misfit_lines(
    alloc: Global,
    p: &Parsed,
    bytes: &[u8],
    fault: &Fault,
    text: &mut Blob,
) -> Result<(), NoMemory>
    ensures { OnOk result (text.new ≡ text.old ++ spec.misfit_lines (view.parsed p.now) bytes.now fault.now) }
{
    match fault {
        Fault::Misfit(what, at) => {
            let misfit_sentence = match *what {
                Misfit::Unknown => {
                    "  no level that is declared in front of it, or no variable of the program, has the name that is used as such here\n"
                }
                Misfit::Same =>
                    "  a level is declared, or a variable is listed, a second time here\n",
                Misfit::Marker =>
                    "  a level has the name of a variable that is more than a marker\n",
                Misfit::Version | Misfit::Declares | Misfit::Thread => "",
            };
            text.extend_from_slice(misfit_sentence.as_bytes())?;
            let (_, rest) = halves(bytes, *at as usize);
            match *what {
                Misfit::Unknown => add_nearest_variable(alloc, p, word_run(rest), text),
                Misfit::Version
                | Misfit::Declares
                | Misfit::Thread
                | Misfit::Same
                | Misfit::Marker => { Ok(()) }
            }
        }
        _ => Ok(()),
    }
}
