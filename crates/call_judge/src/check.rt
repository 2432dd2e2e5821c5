//! `check`: the verdict on what a file spells, and the steps to it that other commands share.

ghost use Rattle.std.specs.Prelude.{◌≡◌, IfOk, MatchResult, None, map};
ghost use Rattle.call_inputs.specs.Plans.{CarriesOut};
ghost use Rattle.call_judge.specs.Check.{Judges, accepted_with, check_plan, name_in, name_rejection, totals};
ghost use Rattle.call_judge.specs.Inside.{IsNamed, IsProgramRejected, IsRejected, IsUnnamed};
ghost use Rattle.call_reports.specs.AnswerViews.{Gets, Stops, seen};
ghost use Rattle.cov_ast.specs.Plain.{plain};
ghost use Rattle.cov_ast.specs.Ready.{IsReady};
ghost use Rattle.cov_ast.specs.View as view;
ghost use Rattle.cov_ast.specs.WellFormed.{IsWellFormed};
ghost use Rattle.flow_model.specs.Secure.{IsSecure};
ghost use Rattle.typing_law.specs.Accepted.{IsAccepted};

use call_inputs::read_program;
use call_reports::{Answer, Stop, Totals};
use cov_ast::{CheckFault, Parsed, Program, ThreadDecl};
use cov_expr::Name;
use cov_io::Shelf;
use policy_class::resolve;
use std::alloc::Global;
use verify::{Verdict, check_program};

/// Checks the program of a file.
pub fn check<'w, S: Shelf>(
    alloc: Global,
    name: &'w str,
    shelf: &mut S,
) -> Result<Answer<'w>, Stop<'w>>
    ensures { CarriesOut (S.shelved shelf.old) (S.shelved shelf.new) (check_plan name.now) result }
{
    let parsed = read_program(alloc, name, shelf)?;
    judge(alloc, parsed)
}

/// Judges what a text spells.
fn judge<'w>(alloc: Global, parsed: Parsed) -> Result<Answer<'w>, Stop<'w>>
    requires { IsReady (view.parsed parsed) }
    ensures { Gets (Judges (view.parsed parsed)) result }
{
    let program = named(alloc, parsed)?;
    judge_program(alloc, &program)
}

/// Judges a program whose names are in order.
fn judge_program<'w>(alloc: Global, program: &Program) -> Result<Answer<'w>, Stop<'w>>
    requires { IsWellFormed (view.program program.now) }
    ensures { MatchResult result
        (λ answer. IsAccepted (view.program program.now) × (seen answer ≡ accepted_with (totals (view.program program.now))))
        (Stops (IsProgramRejected (view.program program.now))) }
{
    let verdict = verdict_on(alloc, program)?;
    Ok(Answer::Accepted(totals_of(&verdict)))
}

/// The program that a text stands for, if its names are in order. A name that is refused is that of no thread.
pub fn named<'w>(alloc: Global, parsed: Parsed) -> Result<Program, Stop<'w>>
    requires { IsReady (view.parsed parsed) }
    ensures named { MatchResult result (λ program. IsNamed (view.parsed parsed) (view.program program)) (Stops (IsRejected (view.parsed parsed))) }
    ensures unnamed { MatchResult result (λ _. name_rejection (view.parsed parsed) ≡ None) (Stops (IsUnnamed (view.parsed parsed))) }
{
    match resolve(alloc, parsed) {
        Ok(program) => Ok(program),
        Err(CheckFault::Refused(refusal)) => Err(Stop::Answer(Answer::Refused(refusal, None))),
        Err(CheckFault::NoMemory) => Err(Stop::NoMemory),
    }
}

/// The verdict on a program, if it is accepted.
pub fn verdict_on<'p, 'w>(alloc: Global, program: &'p Program) -> Result<Verdict<'p>, Stop<'w>>
    requires { IsWellFormed (view.program program.now) }
    ensures verdict { MatchResult result
        (λ verdict. (verdict.program.now ≡ program.now) × IsAccepted (view.program program.now))
        (Stops (IsProgramRejected (view.program program.now))) }
    ensures secure { IfOk result (λ _. IsSecure (plain (view.program program.now))) }
{
    match check_program(alloc, program) {
        Ok(verdict) => Ok(verdict),
        Err(CheckFault::Refused(refusal)) => {
            let thread = thread_name(program.threads.as_slice(), refusal.thread);
            Err(Stop::Answer(Answer::Refused(refusal, thread)))
        }
        Err(CheckFault::NoMemory) => Err(Stop::NoMemory),
    }
}

/// How much an accepted program has.
pub fn totals_of(verdict: &Verdict<'_>) -> Totals
    ensures { result ≡ totals (view.program verdict.now.program.now) }
{
    let count = verdict.count();
    Totals {
        threads: u64::from(verdict.threads()),
        statements: count.statements,
        entailments: count.entailments,
    }
}

/// The name of a thread, by its number.
pub fn thread_name(threads: &[ThreadDecl], thread: Option<u32>) -> Option<Name>
    ensures { result ≡ name_in (map view.thread threads.now) thread }
{
    let thread = threads.get(thread? as usize)?;
    Some(thread.name)
}
