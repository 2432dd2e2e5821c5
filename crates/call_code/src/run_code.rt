//! `run-code`: one run of the code of an accepted program, from a start under a schedule.

ghost use Rattle.std.specs.Prelude.{◌≡◌, IfOk};
ghost use Rattle.call_code.specs.CodeRuns.{RunsCode, report_on_code, run_code_plan};
ghost use Rattle.call_code.specs.Inside.{IsAcceptedCode};
ghost use Rattle.replay_inputs.specs.InputViews.{IsRunInput, IsRunOf, run_input};
ghost use Rattle.call_inputs.specs.Plans.{CarriesOut};
ghost use Rattle.call_inputs.specs.Rejections.{UnlessRejected};
ghost use Rattle.call_judge.specs.Check.{rejection};
ghost use Rattle.call_reports.specs.AnswerViews.{Gets};
ghost use Rattle.call_reports.specs.Replies as replies;
ghost use Rattle.cov_ast.specs.View as view;

use crate::codes::{Coded, coded_text, start};
use call_reports::{Answer, Stop};
use cov_expr::{Blob, List, NoMemory};
use cov_io::Shelf;
use replay_inputs::{RunInput, read_run};
use replay_reports::code_report;
use schedule_replay::run_code as replay;
use std::alloc::Global;

/// Runs the code of the program of a file from a start under a schedule.
pub fn run_code<'w, S: Shelf>(
    alloc: Global,
    program: &'w str,
    start: &'w str,
    schedule: &'w str,
    shelf: &mut S,
) -> Result<Answer<'w>, Stop<'w>>
    ensures { CarriesOut (S.shelved shelf.old) (S.shelved shelf.new) (run_code_plan program.now start.now schedule.now) result }
{
    let input = read_run(alloc, program, start, schedule, shelf)?;
    run_taken(alloc, input)
}

/// Runs the code of what was taken.
fn run_taken<'w>(alloc: Global, input: RunInput) -> Result<Answer<'w>, Stop<'w>>
    requires { IsRunInput input }
    ensures { Gets (UnlessRejected (rejection (view.parsed input.parsed)) (RunsCode (run_input input))) result }
{
    let RunInput {
        parsed,
        memory,
        entries,
    } = input;
    let coded = coded_text(alloc, parsed)?;
    run_coded(alloc, &coded, memory, entries.as_slice())
}

/// Runs code.
fn run_coded<'w>(
    alloc: Global,
    coded: &Coded,
    memory: List<u32>,
    schedule: &[u32],
) -> Result<Answer<'w>, Stop<'w>>
    requires coded { IsAcceptedCode coded.now }
    requires run { IsRunOf coded.now.program memory schedule.now }
    ensures { Gets (λ reply. reply ≡ replies.ran (report_on_code (view.program coded.now.program) coded.now.code memory schedule.now)) result }
{
    let report = ran(alloc, coded, memory, schedule)?;
    Ok(Answer::Ran(report))
}

/// The report on a run of code.
fn ran(alloc: Global, coded: &Coded, memory: List<u32>, schedule: &[u32]) -> Result<Blob, NoMemory>
    requires coded { IsAcceptedCode coded.now }
    requires run { IsRunOf coded.now.program memory schedule.now }
    ensures { IfOk result (λ text. text ≡ report_on_code (view.program coded.now.program) coded.now.code memory schedule.now) }
{
    let mut risc = start(alloc, &coded.code, memory, schedule.len())?;
    let stayed = replay(&mut risc, schedule);
    code_report(alloc, &coded.program, &risc, schedule.len() as u32, stayed)
}
