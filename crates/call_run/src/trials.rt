//! `refute`: numbered trials of a program, up to the first whose two runs don't agree.

ghost use Rattle.std.specs.Prelude.{◌≡◌, ◌≤◌, IfOk, length};
ghost use Rattle.call_inputs.specs.Plans.{CarriesOut};
ghost use Rattle.call_inputs.specs.Rejections.{UnlessRejected};
ghost use Rattle.call_reports.specs.AnswerViews.{Gets, seen};
ghost use Rattle.call_run.specs.Refutes.{Refutes, RefutesWith, refute_plan, reply_to_trials, report_on_trial};
ghost use Rattle.call_run.specs.Runs.{declared_rejection};
ghost use Rattle.cov_ast.specs.Plain.{plain};
ghost use Rattle.cov_ast.specs.Ready.{IsReady};
ghost use Rattle.cov_ast.specs.View as view;
ghost use Rattle.cov_ast.specs.WellFormed.{IsWellFormed};
ghost use Rattle.cov_expr.specs.declared.limits.TheConstants.{MOST_TRIALS};
ghost use Rattle.refute.specs.Trials.{IsFirstTrial, fit_among, last_of, schedule};
ghost use Rattle.watch.specs.TrialWords as words;

use crate::run::declared;
use call_inputs::read_program;
use call_reports::{Answer, Stop};
use cov_ast::{Parsed, Program};
use cov_expr::{Blob, NoMemory};
use cov_io::Shelf;
use refute::{Trial, Trials, refute as first_apart};
use replay_reports::{apart_report, none_report};
use schedule_replay::Found;
use std::alloc::Global;
use watch::{Maker, raw_word};

/// Runs so many trials of the program of a file, up to the first whose two runs don't agree.
pub fn refute<'w, S: Shelf>(
    alloc: Global,
    name: &'w str,
    trials: u32,
    shelf: &mut S,
) -> Result<Answer<'w>, Stop<'w>>
    requires { trials ≤ MOST_TRIALS }
    ensures { CarriesOut (S.shelved shelf.old) (S.shelved shelf.new) (refute_plan name.now trials) result }
{
    let parsed = read_program(alloc, name, shelf)?;
    refute_text(alloc, parsed, trials)
}

/// Runs trials of what a text spells.
fn refute_text<'w>(alloc: Global, parsed: Parsed, trials: u32) -> Result<Answer<'w>, Stop<'w>>
    requires ready { IsReady (view.parsed parsed) }
    requires few { trials ≤ MOST_TRIALS }
    ensures { let p = view.parsed parsed in Gets (UnlessRejected (declared_rejection p) (Refutes trials p)) result }
{
    let program = declared(alloc, parsed)?;
    let answer = try_program(alloc, &program, trials)?;
    Ok(answer)
}

/// What is answered to so many trials of a program. The function that makes their words is made here.
fn try_program<'w>(alloc: Global, program: &Program, trials: u32) -> Result<Answer<'w>, NoMemory>
    requires formed { IsWellFormed (view.program program.now) }
    requires few { trials ≤ MOST_TRIALS }
    ensures { IfOk result (λ answer. RefutesWith (view.program program.now) trials (seen answer)) }
{
    let make = |trial: u32, side: u32, x: u32| -> u32
        requires { words.IsTrialWord trial side x }
        ensures { result ≡ words.raw_word trial side x }
    { raw_word(trial, side, x) };
    let maker = Maker::new(Box::new(alloc, make)?);
    let shown = first_apart(alloc, program, trials, &maker)?;
    told(alloc, program, trials, &shown, &maker)
}

/// What is answered to so many trials that show this.
fn told<'w>(
    alloc: Global,
    program: &Program,
    trials: u32,
    shown: &Trials,
    maker: &Maker,
) -> Result<Answer<'w>, NoMemory>
    requires formed { IsWellFormed (view.program program.now) }
    requires few { trials ≤ MOST_TRIALS }
    requires first { IsFirstTrial (plain (view.program program.now)) trials shown.now.found }
    requires fit { shown.now.fit ≡ fit_among (plain (view.program program.now)) (last_of trials shown.now.found) }
    ensures { IfOk result (λ answer. seen answer ≡ reply_to_trials (view.program program.now) trials shown.now.found) }
{
    match shown.found {
        Some((number, found)) => {
            let report = trial_report(alloc, program, number, &found, maker)?;
            Ok(Answer::Refuted(report))
        }
        None => {
            let report = none_report(alloc, trials, shown.fit)?;
            Ok(Answer::Ran(report))
        }
    }
}

/// The report on the trial with a number, whose two runs don't agree.
fn trial_report(
    alloc: Global,
    program: &Program,
    number: u32,
    found: &Found,
    maker: &Maker,
) -> Result<Blob, NoMemory>
    requires formed { IsWellFormed (view.program program.now) }
    requires first { 1 ≤ number }
    requires last { number ≤ MOST_TRIALS }
    requires step { found.now.step ≤ length (schedule (plain (view.program program.now)) number) }
    ensures { IfOk result (λ text. text ≡ report_on_trial (view.program program.now) number found.now) }
{
    let trial = Trial::new(alloc, program, number, maker)?;
    let entries = &trial.entries.as_slice()[..found.step as usize];
    apart_report(
        alloc,
        program,
        number,
        found,
        trial.left.as_slice(),
        trial.right.as_slice(),
        entries,
    )
}
