//! `run`: one run of a program whose declarations are in order, from a start under a schedule.

ghost use Rattle.std.specs.Prelude.{◌≡◌, IfOk, MatchResult};
ghost use Rattle.replay_inputs.specs.InputViews.{IsRunInput, IsRunOf, run_input};
ghost use Rattle.call_inputs.specs.Plans.{CarriesOut};
ghost use Rattle.call_inputs.specs.Rejections.{UnlessRejected};
ghost use Rattle.call_reports.specs.AnswerViews.{Gets, Stops};
ghost use Rattle.call_run.specs.Inside.{IsDeclared, IsRefusal};
ghost use Rattle.call_run.specs.Runs.{Runs, declared_obligations, declared_rejection, report_on_run, run_plan};
ghost use Rattle.cov_ast.specs.Obligations.{Decides};
ghost use Rattle.cov_ast.specs.Ready.{IsReady};
ghost use Rattle.cov_ast.specs.View as view;
ghost use Rattle.cov_ast.specs.WellFormed.{IsWellFormed};
ghost use Rattle.policy_class.specs.Resolved.{resolved, without_value};

use call_reports::{Answer, Stop};
use cov_ast::{CheckFault, Parsed, Program};
use cov_expr::{Blob, List, NoMemory};
use cov_io::Shelf;
use policy_class::resolve;
use replay_inputs::{RunInput, read_run};
use replay_reports::run_report;
use schedule_replay::run as replay;
use source_machine::Source;
use std::alloc::Global;
use verify::check_declared;

/// Runs the program of a file from a start under a schedule.
pub fn run<'w, S: Shelf>(
    alloc: Global,
    program: &'w str,
    start: &'w str,
    schedule: &'w str,
    shelf: &mut S,
) -> Result<Answer<'w>, Stop<'w>>
    ensures { CarriesOut (S.shelved shelf.old) (S.shelved shelf.new) (run_plan program.now start.now schedule.now) result }
{
    let input = read_run(alloc, program, start, schedule, shelf)?;
    run_on(alloc, input)
}

/// Runs what was read.
fn run_on<'w>(alloc: Global, input: RunInput) -> Result<Answer<'w>, Stop<'w>>
    requires { IsRunInput input }
    ensures { Gets (UnlessRejected (declared_rejection (view.parsed input.parsed)) (Runs (run_input input))) result }
{
    let RunInput {
        parsed,
        memory,
        entries,
    } = input;
    let program = declared(alloc, parsed)?;
    Ok(Answer::Ran(ran(alloc, &program, memory, entries.as_slice())?))
}

/// The program that a text stands for, if its declarations are in order.
pub(crate) fn declared<'w>(alloc: Global, parsed: Parsed) -> Result<Program, Stop<'w>>
    requires { IsReady (view.parsed parsed) }
    ensures { MatchResult result (λ program. IsDeclared (view.parsed parsed) (view.program program)) (Stops (IsRefusal (view.parsed parsed))) }
{
    match declared_program(alloc, parsed) {
        Ok(program) => Ok(program),
        Err(CheckFault::Refused(refusal)) => Err(Stop::Answer(Answer::Refused(refusal, None))),
        Err(CheckFault::NoMemory) => Err(Stop::NoMemory),
    }
}

fn declared_program(alloc: Global, parsed: Parsed) -> Result<Program, CheckFault>
    requires { IsReady (view.parsed parsed) }
    ensures declared { Decides (declared_obligations (view.parsed parsed)) (without_value result) }
    ensures program { IfOk result (λ program. view.program program ≡ resolved (view.parsed parsed)) }
    ensures formed { IfOk result (λ program. IsWellFormed (view.program program)) }
{
    let program = resolve(alloc, parsed)?;
    check_declared(alloc, &program)?;
    Ok(program)
}

/// The report on a run.
fn ran(
    alloc: Global,
    program: &Program,
    memory: List<u32>,
    schedule: &[u32],
) -> Result<Blob, NoMemory>
    requires formed { IsWellFormed (view.program program.now) }
    requires run { IsRunOf program.now memory schedule.now }
    ensures { IfOk result (λ text. text ≡ report_on_run (view.program program.now) memory schedule.now) }
{
    let mut source = Source::start(alloc, program, memory, schedule.len())?;
    let stayed = replay(&mut source, schedule);
    run_report(alloc, program, &source, schedule.len() as u32, stayed)
}
