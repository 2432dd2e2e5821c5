//! `run-until`: one run of a program up to the first step after which an expression holds.

ghost use Rattle.std.specs.Prelude.{◌≡◌, ◌↔◌, ◌+◌, ◌≤◌, IfOk, IsTrue, length};
ghost use Rattle.replay_inputs.specs.InputViews.{IsRunInput, IsRunOf, run_input};
ghost use Rattle.call_inputs.specs.Plans.{CarriesOut};
ghost use Rattle.call_inputs.specs.Rejections.{UnlessRejected};
ghost use Rattle.call_reports.specs.AnswerViews.{Gets};
ghost use Rattle.call_reports.specs.Replies as replies;
ghost use Rattle.call_run.specs.Inside.{IsStopped, until_plan};
ghost use Rattle.call_run.specs.Runs.{RunsTo, RunsUntil, declared_rejection, run_until_plan};
ghost use Rattle.cov_ast.specs.View as view;
ghost use Rattle.cov_ast.specs.WellFormed.{IsWellFormed};
ghost use Rattle.cov_expr.specs.Entailment.{Holds};
ghost use Rattle.cov_expr.specs.View.{term};
ghost use Rattle.cov_expr.specs.Words.{HasVarsBelow, IsMemory, IsSchedule};
ghost use Rattle.cov_expr.specs.declared.limits.TheConstants.{MOST_ENTRIES, MOST_EXPRESSION_BYTES};
ghost use Rattle.cov_io.specs.Shelves.{Shelved};
ghost use Rattle.source_machine.specs.SourceMachine.{run_of};

use crate::run::declared;
use call_reports::{Answer, Stop};
use cov_ast::Program;
use cov_expr::{Blob, Expr, List, NoMemory, copy, eval};
use cov_io::Shelf;
use replay_inputs::{RunInput, read_expression, read_run};
use replay_reports::stop_report;
use schedule_replay::{Until, run_until as replay_until};
use source_machine::Source;
use std::alloc::Global;
use watch::Watch;

/// Runs the program of a file from a start under a schedule, until an expression holds.
pub fn run_until<'w, S: Shelf>(
    alloc: Global,
    program: &'w str,
    start: &'w str,
    schedule: &'w str,
    expression: &'w str,
    shelf: &mut S,
) -> Result<Answer<'w>, Stop<'w>>
    requires { length expression.now ≤ MOST_EXPRESSION_BYTES }
    ensures { CarriesOut (S.shelved shelf.old) (S.shelved shelf.new)
        (run_until_plan program.now start.now schedule.now expression.now) result }
{
    let input = read_run(alloc, program, start, schedule, shelf)?;
    run_spelled(alloc, input, expression)
}

/// Reads the expression, and runs what was read. All files are read before, whatever the shelf is.
fn run_spelled<'w>(alloc: Global, input: RunInput, word: &str) -> Result<Answer<'w>, Stop<'w>>
    requires fits { IsRunInput input }
    requires short { length word.now ≤ MOST_EXPRESSION_BYTES }
    ensures { (shelf : Shelved) → CarriesOut shelf shelf (until_plan (run_input input) word.now) result }
{
    let expr = read_expression(alloc, word, &input.parsed)?;
    run_on(alloc, input, expr)
}

/// Runs what was read.
fn run_on<'w>(alloc: Global, input: RunInput, expr: Expr) -> Result<Answer<'w>, Stop<'w>>
    requires fits { IsRunInput input }
    requires below { HasVarsBelow (term expr) (length input.parsed.vars) }
    ensures { Gets (UnlessRejected (declared_rejection (view.parsed input.parsed))
        (RunsUntil (record { run = run_input input; expression = term expr }))) result }
{
    let RunInput {
        parsed,
        memory,
        entries,
    } = input;
    let program = declared(alloc, parsed)?;
    Ok(Answer::Ran(ran(alloc, &program, memory, entries.as_slice(), expr)?))
}

/// The report on a run.
fn ran(
    alloc: Global,
    program: &Program,
    memory: List<u32>,
    schedule: &[u32],
    expr: Expr,
) -> Result<Blob, NoMemory>
    requires formed { IsWellFormed (view.program program.now) }
    requires run { IsRunOf program.now memory schedule.now }
    requires below { HasVarsBelow (term expr) (length program.now.vars) }
    ensures { IfOk result (λ text. RunsTo (view.program program.now) memory schedule.now (term expr) (replies.ran text)) }
{
    let mut source = Source::start(alloc, program, memory, schedule.len())?;
    let stop = stop_run(
        alloc,
        &mut source,
        schedule,
        expr,
        program.vars.len() as u32,
    )?;
    stop_report(alloc, program, &source, &stop)
}

/// Runs a machine of so many variables until an expression holds. The test that the watch asks is made here, over a copy of the
/// expression.
fn stop_run(
    alloc: Global,
    source: &mut Source<'_>,
    schedule: &[u32],
    expr: Expr,
    words: u32,
) -> Result<Until, NoMemory>
    requires threads { IsSchedule (length (source.old).program.threads) schedule.now }
    requires entries { length schedule.now ≤ MOST_ENTRIES }
    requires room { length (run_of source.old).outputs + length schedule.now ≤ (source.old).room }
    requires words { words ≡ length (source.old).program.vars }
    requires below { HasVarsBelow (term expr) words }
    ensures stops { IfOk result (λ stop. IsStopped (term expr) source.old source.new schedule.now stop) }
{
    let kept = copy(alloc, &expr)?;
    let test = move |memory: &[u32]| -> bool
        requires { HasVarsBelow (term kept) (length memory.now) }
        ensures { IsTrue result ↔ Holds (term kept) memory.now }
    { eval(&kept, memory) != 0 };
    let watch = Watch::new(Box::new(alloc, test)?, expr, words);
    Ok(replay_until(source, schedule, &watch))
}
