//! What is told of a program that is shown to an observer at each of some levels.

ghost use Rattle.std.specs.Prelude.{◌≡◌, ◌<◌, ◌≤◌, ◌++◌, IfOk, OnOk, length, map};
ghost use Rattle.call_inputs.specs.Programs.{SpellsProgram};
ghost use Rattle.call_judge.specs.Check as check;
ghost use Rattle.call_reports.specs.declared.answers.Status.TheVariants as s;
ghost use Rattle.call_verdicts.specs.Levels.{levels_words};
ghost use Rattle.cov_ast.specs.Ready.{IsReady};
ghost use Rattle.cov_ast.specs.Syntax as syntax;
ghost use Rattle.cov_ast.specs.View as view;
ghost use Rattle.cov_ast.specs.WellFormed.{IsWellFormed};
ghost use Rattle.cov_expr.specs.declared.limits.TheConstants.{MOST_BYTES};
ghost use Rattle.explain.specs.Inside.Told.{IsToldBy, IsToldFor};
ghost use Rattle.explain.specs.LevelTellings as spec;
ghost use Rattle.level_text.specs.Lattice.{AreLevels};
ghost use Rattle.level_text.specs.Views as level_view;
ghost use Rattle.levels.specs.Accepted.{first_refused};
ghost use Rattle.levels.specs.Projection as projection;
ghost use Rattle.typing_law.specs.Verdicts.{counts};

use crate::explanation::add_explanation;
use crate::more::{add_refused, add_unnamed};
use crate::warnings::add_warnings;
use call_judge::check::thread_name;
use call_reports::{Answer, Status, Totals, add_counted};
use cov_ast::{CheckFault, NumberSet, Parsed, Program, Refusal, VarDecl};
use cov_expr::{Blob, Name, NoMemory};
use level_text::Levels;
use levels::{LevelRefusal, check_levels, level_rows, mark, shown, shown_is_well_formed};
use policy_class::resolve;
use std::alloc::Global;
use text_parts::add_number;
use typing_law::Count;

/// Adds what is told of bytes that spell a text for which levels were read, and gives the status that `levels` has for them.
pub fn tell_text(
    alloc: Global,
    name: &str,
    bytes: &[u8],
    parsed: Parsed,
    l: &Levels,
    text: &mut Blob,
) -> Result<Status, NoMemory>
    requires short { length bytes.now ≤ MOST_BYTES }
    requires spelled { SpellsProgram bytes.now (view.parsed parsed) }
    requires ready { IsReady (view.parsed parsed) }
    requires levels { AreLevels (length parsed.vars) (level_view.levels l.now) }
    ensures { IfOk result (λ status. IsToldFor name.now bytes.now (record { program = view.parsed parsed; levels = level_view.levels l.now }) text.old text.new status) }
{
    match resolve(alloc, parsed) {
        Ok(program) => tell_named(alloc, name, bytes, &program, l, text),
        Err(CheckFault::Refused(refusal)) => tell_unnamed(alloc, name, bytes, refusal, text),
        Err(CheckFault::NoMemory) => Err(NoMemory),
    }
}

/// Adds what is told of a text of which a name isn't in order.
pub fn tell_unnamed(
    alloc: Global,
    name: &str,
    bytes: &[u8],
    refusal: Refusal,
    text: &mut Blob,
) -> Result<Status, NoMemory>
    requires { length bytes.now ≤ MOST_BYTES }
    ensures { (p : syntax.Parsed) → SpellsProgram bytes.now p
        → IfOk result (λ status. (status ≡ s.Refused) × (text.new ≡ text.old ++ spec.unnamed_lines name.now bytes.now p refusal)) }
{
    add_explanation(alloc, name, bytes, Answer::Refused(refusal, None), text)?;
    add_unnamed(alloc, name, bytes, &refusal, text)?;
    Ok(Status::Refused)
}

/// Adds what is told of a program whose names are in order.
fn tell_named(
    alloc: Global,
    name: &str,
    bytes: &[u8],
    program: &Program,
    l: &Levels,
    text: &mut Blob,
) -> Result<Status, NoMemory>
    requires short { length bytes.now ≤ MOST_BYTES }
    requires formed { IsWellFormed (view.program program.now) }
    requires levels { AreLevels (length program.now.vars) (level_view.levels l.now) }
    ensures { IfOk result (λ status. IsToldBy name.now bytes.now (level_view.levels l.now) (view.program program.now)
        (first_refused (level_view.levels l.now) (view.program program.now)) text.old text.new status) }
{
    match check_levels(alloc, program, l) {
        Ok(count) => {
            add_accepted(alloc, name, bytes, program, l, count, text)?;
            Ok(Status::Done)
        }
        Err(LevelRefusal::Refused(observer, refusal)) => {
            add_observer(alloc, name, bytes, program, l, observer, &refusal, text)?;
            Ok(Status::Refused)
        }
        Err(LevelRefusal::NoMemory) => Err(NoMemory),
    }
}

/// Adds what is told of a program that is accepted for every observer, of whom each is shown so much.
fn add_accepted(
    alloc: Global,
    name: &str,
    bytes: &[u8],
    program: &Program,
    l: &Levels,
    count: Count,
    text: &mut Blob,
) -> Result<(), NoMemory>
    requires short { length bytes.now ≤ MOST_BYTES }
    requires counted { count ≡ counts (projection.projected (level_view.levels l.now) 0 (view.program program.now)) }
    ensures { OnOk result (text.new ≡ text.old ++ spec.accepted_lines name.now bytes.now (level_view.levels l.now) (view.program program.now)) }
{
    let totals = totals_for(program, l, count);
    add_levels_line(l.names.len(), &totals, text)?;
    add_warnings(alloc, name, bytes, program, text)
}

/// How much an observer is shown.
fn totals_for(program: &Program, l: &Levels, count: Count) -> Totals
    requires { count ≡ counts (projection.projected (level_view.levels l.now) 0 (view.program program.now)) }
    ensures { result ≡ check.totals (projection.projected (level_view.levels l.now) 0 (view.program program.now)) }
{
    Totals {
        threads: program.threads.len() as u64,
        statements: count.statements,
        entailments: count.entailments,
    }
}

/// Adds the line of `levels` for so many observers, of whom each is shown so much.
fn add_levels_line(observers: usize, totals: &Totals, text: &mut Blob) -> Result<(), NoMemory>
    ensures { OnOk result (text.new ≡ text.old ++ levels_words observers totals.now) }
{
    text.extend_from_slice(b"levels: ")?;
    add_counted(observers as u64, b" observers, ", text)?;
    add_counted(totals.threads, b" threads, ", text)?;
    add_counted(totals.statements, b" statements, ", text)?;
    add_counted(totals.entailments, b" entailments\n", text)
}

/// Adds what is told of a program for the observer at a level, for whom it is refused.
fn add_observer(
    alloc: Global,
    name: &str,
    bytes: &[u8],
    program: &Program,
    l: &Levels,
    observer: u32,
    refusal: &Refusal,
    text: &mut Blob,
) -> Result<(), NoMemory>
    requires short { length bytes.now ≤ MOST_BYTES }
    requires formed { IsWellFormed (view.program program.now) }
    requires levels { AreLevels (length program.now.vars) (level_view.levels l.now) }
    requires inside { observer < length l.now.names }
    ensures { OnOk result (text.new ≡ text.old
        ++ spec.observer_lines name.now bytes.now (level_view.levels l.now) (view.program program.now) observer refusal.now) }
{
    add_observer_line(l.names.as_slice()[observer as usize], text)?;
    let rows = level_rows(alloc, l)?;
    let seen = &rows.as_slice()[observer as usize];
    add_marks(seen, l.names.as_slice(), program.vars.as_slice(), text)?;
    add_shown(alloc, name, bytes, program, l, seen, refusal, text)
}

/// Adds which observer it is.
fn add_observer_line(level: Name, text: &mut Blob) -> Result<(), NoMemory>
    ensures { OnOk result (text.new ≡ text.old ++ spec.observer_line level) }
{
    text.extend_from_slice(b"observer ")?;
    text.extend_from_slice(level.text())?;
    text.extend_from_slice(b"\n")
}

/// Adds what stands for each marker, for an observer who sees these of the levels with these names.
fn add_marks(
    seen: &NumberSet,
    names: &[Name],
    vars: &[VarDecl],
    text: &mut Blob,
) -> Result<(), NoMemory>
    ensures { OnOk result (text.new ≡ text.old ++ spec.mark_lines seen.now names.now (map view.var vars.now)) }
{
    for var in vars {
        let number = mark(seen, names, var);
        match number {
            Some(number) => add_stands(var.name, number, text)?,
            None => {}
        }
    }
    Ok(())
}

/// Adds that a number stands for a name.
fn add_stands(name: Name, number: u32, text: &mut Blob) -> Result<(), NoMemory>
    ensures { OnOk result (text.new ≡ text.old ++ spec.stands_text name number) }
{
    text.extend_from_slice(b"  ")?;
    text.extend_from_slice(name.text())?;
    text.extend_from_slice(b" stands for ")?;
    add_number(number as usize, text)?;
    text.extend_from_slice(b" in annotations here\n")
}

/// Adds what is told of a refusal of what an observer is shown who sees these levels.
fn add_shown(
    alloc: Global,
    name: &str,
    bytes: &[u8],
    program: &Program,
    l: &Levels,
    seen: &NumberSet,
    refusal: &Refusal,
    text: &mut Blob,
) -> Result<(), NoMemory>
    requires short { length bytes.now ≤ MOST_BYTES }
    requires formed { IsWellFormed (view.program program.now) }
    requires levels { AreLevels (length program.now.vars) (level_view.levels l.now) }
    ensures { OnOk result (text.new ≡ text.old
        ++ spec.refused_lines name.now bytes.now (projection.shown seen.now (level_view.levels l.now) (view.program program.now)) refusal.now) }
{
    let made = shown(alloc, seen, l, program)?;
    shown_is_well_formed();
    add_refused_lines(alloc, name, bytes, &made, refusal, text)
}

/// Adds what is told of a refusal of a program.
#[tactic(auto, unfolding(crate::specs::LevelTellings::refused_lines))]
pub fn add_refused_lines(
    alloc: Global,
    name: &str,
    bytes: &[u8],
    program: &Program,
    refusal: &Refusal,
    text: &mut Blob,
) -> Result<(), NoMemory>
    requires short { length bytes.now ≤ MOST_BYTES }
    requires formed { IsWellFormed (view.program program.now) }
    ensures { OnOk result (text.new ≡ text.old ++ spec.refused_lines name.now bytes.now (view.program program.now) refusal.now) }
{
    let thread = thread_name(program.threads.as_slice(), refusal.thread);
    add_explanation(alloc, name, bytes, Answer::Refused(*refusal, thread), text)?;
    add_refused(alloc, false, name, bytes, refusal, program, text)
}
