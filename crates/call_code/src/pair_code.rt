//! `pair-code`: two runs of the code of an accepted program from two starts under one schedule, side by side.

ghost use Rattle.std.specs.Prelude.{IfOk};
ghost use Rattle.call_code.specs.CodeRuns.{CodeRunsTogether, PairsCode, pair_code_plan};
ghost use Rattle.call_code.specs.Inside.{IsAcceptedCode};
ghost use Rattle.replay_inputs.specs.InputViews.{IsPairInput, IsRunOf, pair_input};
ghost use Rattle.call_inputs.specs.Plans.{CarriesOut};
ghost use Rattle.call_inputs.specs.Rejections.{UnlessRejected};
ghost use Rattle.call_judge.specs.Check.{rejection};
ghost use Rattle.call_judge.specs.Starts.{unfit_by, unfit_starts};
ghost use Rattle.call_reports.specs.AnswerViews.{Gets};
ghost use Rattle.call_reports.specs.Replies as replies;
ghost use Rattle.cov_ast.specs.Plain.{plain};
ghost use Rattle.cov_ast.specs.View as view;
ghost use Rattle.flow_model.specs.Agreement.{AreFitStarts};
ghost use Rattle.flow_model.specs.FirstDifference.{first_bad_start};

use crate::codes::{Coded, check_starts, coded_text, start};
use call_reports::{Answer, Stop};
use cov_expr::{Blob, List, NoMemory};
use cov_io::Shelf;
use replay_inputs::{PairInput, read_pair};
use replay_reports::code_pair_report;
use schedule_replay::pair_code as replay_pair;
use std::alloc::Global;

/// Runs the code of the program of a file from two starts under a schedule, side by side.
pub fn pair_code<'w, S: Shelf>(
    alloc: Global,
    program: &'w str,
    first: &'w str,
    second: &'w str,
    schedule: &'w str,
    shelf: &mut S,
) -> Result<Answer<'w>, Stop<'w>>
    ensures { CarriesOut (S.shelved shelf.old) (S.shelved shelf.new)
        (pair_code_plan program.now first.now second.now schedule.now) result }
{
    let input = read_pair(alloc, program, first, second, schedule, shelf)?;
    pair_taken(alloc, input)
}

/// Runs the code of what was taken, twice.
fn pair_taken<'w>(alloc: Global, input: PairInput) -> Result<Answer<'w>, Stop<'w>>
    requires { IsPairInput input }
    ensures { let p = view.parsed input.parsed in
        Gets (UnlessRejected (rejection p) (UnlessRejected (unfit_starts p input.left input.right) (PairsCode (pair_input input)))) result }
{
    let PairInput {
        parsed,
        left,
        right,
        entries,
    } = input;
    let coded = coded_text(alloc, parsed)?;
    pair_coded(alloc, &coded, left, right, entries.as_slice())
}

/// Runs code from two starts, if they are fit.
fn pair_coded<'w>(
    alloc: Global,
    coded: &Coded,
    left: List<u32>,
    right: List<u32>,
    schedule: &[u32],
) -> Result<Answer<'w>, Stop<'w>>
    requires coded { IsAcceptedCode coded.now }
    requires left { IsRunOf coded.now.program left schedule.now }
    requires right { IsRunOf coded.now.program right schedule.now }
    ensures { let p = view.program coded.now.program in
        Gets (UnlessRejected (unfit_by p (first_bad_start (plain p) left right)) (CodeRunsTogether p coded.now.code left right schedule.now)) result }
{
    check_starts(alloc, &coded.program, left.as_slice(), right.as_slice())?;
    let report = run_both(alloc, coded, left, right, schedule)?;
    Ok(Answer::Ran(report))
}

/// The report on two runs of secure code from fit starts, which agree.
fn run_both(
    alloc: Global,
    coded: &Coded,
    left: List<u32>,
    right: List<u32>,
    schedule: &[u32],
) -> Result<Blob, NoMemory>
    requires coded { IsAcceptedCode coded.now }
    requires left { IsRunOf coded.now.program left schedule.now }
    requires right { IsRunOf coded.now.program right schedule.now }
    requires fit { AreFitStarts (plain (view.program coded.now.program)) left right }
    ensures { IfOk result (λ text. CodeRunsTogether (view.program coded.now.program) coded.now.code left right schedule.now (replies.ran text)) }
{
    let mut first = start(alloc, &coded.code, left, schedule.len())?;
    let mut second = start(alloc, &coded.code, right, schedule.len())?;
    let apart = replay_pair(&coded.program, &mut first, &mut second, schedule);
    prove!(apart.is_none());
    code_pair_report(
        alloc,
        &coded.program,
        &first,
        &second,
        schedule.len() as u32,
    )
}
