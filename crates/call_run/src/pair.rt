//! `pair`: two runs of a program from two starts under one schedule, side by side.

ghost use Rattle.std.specs.Prelude.{◌≡◌, ◌≤◌, IfOk, length};
ghost use Rattle.replay_inputs.specs.InputViews.{IsPairInput, IsRunOf, pair_input};
ghost use Rattle.call_inputs.specs.Plans.{CarriesOut};
ghost use Rattle.call_inputs.specs.Rejections.{UnlessRejected};
ghost use Rattle.call_judge.specs.Starts.{unfit_by, unfit_starts};
ghost use Rattle.call_reports.specs.AnswerViews.{Gets, seen};
ghost use Rattle.call_reports.specs.Differences as names;
ghost use Rattle.call_reports.specs.Replies as replies;
ghost use Rattle.replay_reports.specs.RunReports as reports;
ghost use Rattle.call_run.specs.Pairs.{Pairs, RunsFit, pair_plan};
ghost use Rattle.call_run.specs.Runs.{declared_rejection};
ghost use Rattle.cov_ast.specs.Plain.{plain};
ghost use Rattle.cov_ast.specs.View as view;
ghost use Rattle.cov_ast.specs.WellFormed.{IsWellFormed};
ghost use Rattle.cov_expr.specs.declared.limits.TheConstants.{MOST_THREADS};
ghost use Rattle.flow_model.specs.FirstDifference.{first_bad_start};
ghost use Rattle.source_machine.specs.SourceMachine.{run_of};

use crate::run::declared;
use call_reports::{Answer, Stop, bad_name, differ_text};
use cov_ast::Program;
use cov_expr::{List, NoMemory};
use cov_io::Shelf;
use flow_model::starts;
use replay_inputs::{PairInput, read_pair};
use replay_reports::pair_report;
use schedule_replay::{Found, pair as replay_pair};
use source_machine::Source;
use std::alloc::Global;

/// Runs the program of a file from two starts under a schedule, side by side.
pub fn pair<'w, S: Shelf>(
    alloc: Global,
    program: &'w str,
    first: &'w str,
    second: &'w str,
    schedule: &'w str,
    shelf: &mut S,
) -> Result<Answer<'w>, Stop<'w>>
    ensures { CarriesOut (S.shelved shelf.old) (S.shelved shelf.new)
        (pair_plan program.now first.now second.now schedule.now) result }
{
    let input = read_pair(alloc, program, first, second, schedule, shelf)?;
    pair_on(alloc, input)
}

/// Runs what was read.
fn pair_on<'w>(alloc: Global, input: PairInput) -> Result<Answer<'w>, Stop<'w>>
    requires { IsPairInput input }
    ensures { let p = view.parsed input.parsed in
        Gets (UnlessRejected (declared_rejection p) (UnlessRejected (unfit_starts p input.left input.right) (Pairs (pair_input input)))) result }
{
    let PairInput {
        parsed,
        left,
        right,
        entries,
    } = input;
    let program = declared(alloc, parsed)?;
    let answer = run_both(alloc, &program, left, right, entries.as_slice())?;
    Ok(answer)
}

/// What is answered to two runs of a program, if their starts are fit.
fn run_both<'w>(
    alloc: Global,
    program: &Program,
    left: List<u32>,
    right: List<u32>,
    schedule: &[u32],
) -> Result<Answer<'w>, NoMemory>
    requires formed { IsWellFormed (view.program program.now) }
    requires left { IsRunOf program.now left schedule.now }
    requires right { IsRunOf program.now right schedule.now }
    ensures { let p = view.program program.now in IfOk result (λ answer.
        UnlessRejected (unfit_by p (first_bad_start (plain p) left right)) (RunsFit p left right schedule.now) (seen answer)) }
{
    match starts(program, left.as_slice(), right.as_slice()) {
        Some(found) => Ok(Answer::BadStarts(bad_name(alloc, program, &found)?)),
        None => run_fit(alloc, program, left, right, schedule),
    }
}

/// What is answered to two runs, whatever their starts are.
fn run_fit<'w>(
    alloc: Global,
    program: &Program,
    left: List<u32>,
    right: List<u32>,
    schedule: &[u32],
) -> Result<Answer<'w>, NoMemory>
    requires formed { IsWellFormed (view.program program.now) }
    requires left { IsRunOf program.now left schedule.now }
    requires right { IsRunOf program.now right schedule.now }
    ensures { IfOk result (λ answer. RunsFit (view.program program.now) left right schedule.now (seen answer)) }
{
    let mut first = Source::start(alloc, program, left, schedule.len())?;
    let mut second = Source::start(alloc, program, right, schedule.len())?;
    match replay_pair(program, &mut first, &mut second, schedule) {
        Some(found) => told_apart(alloc, program, &found),
        None => told_together(alloc, program, &first, &second, schedule.len() as u32),
    }
}

/// What is answered to two runs that differ.
fn told_apart<'w>(alloc: Global, program: &Program, found: &Found) -> Result<Answer<'w>, NoMemory>
    ensures { IfOk result (λ answer. seen answer ≡ replies.differ found.now.step (names.differ_text (view.program program.now) found.now.differ)) }
{
    let what = differ_text(alloc, program, &found.differ)?;
    Ok(Answer::Differ(found.step, what))
}

/// What is answered to two runs that agree after each of so many steps.
fn told_together<'w, 'p>(
    alloc: Global,
    program: &'p Program,
    first: &Source<'p>,
    second: &Source<'p>,
    steps: u32,
) -> Result<Answer<'w>, NoMemory>
    requires first { (first.now).program ≡ program.now }
    requires second { (second.now).program ≡ program.now }
    requires few { length program.now.threads ≤ MOST_THREADS }
    ensures { IfOk result (λ answer. seen answer ≡ replies.ran (reports.pair_report (view.program program.now) steps (run_of first.now) (run_of second.now))) }
{
    let report = pair_report(alloc, program, first, second, steps)?;
    Ok(Answer::Ran(report))
}
