//! Trials one after another, up to the first whose two runs don't agree.

ghost use Rattle.std.specs.Prelude.{◌≡◌, ◌≤◌, length, IfOk, MatchOption};
ghost use Rattle.cov_expr.specs.declared.limits.TheConstants.{MOST_TRIALS};
ghost use Rattle.cov_expr.specs.Words.{IsSchedule};
ghost use Rattle.cov_ast.specs.Plain.{plain};
ghost use Rattle.cov_ast.specs.View as view;
ghost use Rattle.cov_ast.specs.WellFormed.{IsWellFormed};
ghost use Rattle.flow_model.specs.Source.{begin};
ghost use Rattle.schedule_replay.specs.Replays.{AgreeThroughout, IsFirstStepApart};
ghost use Rattle.refute.specs.Inside.{Shows};
ghost use Rattle.refute.specs.Trials.{IsFirstTrial, fit_among, last_of};

use crate::inputs::{first_memory, schedule, second_memory};
use cov_ast::Program;
use cov_expr::{List, NoMemory};
use flow_model::starts;
use schedule_replay::{Found, pair};
use source_machine::Source;
use std::alloc::Global;
use watch::Maker;

/// What trials show.
#[derive(Clone, Copy, PartialEq, Eq)]
pub struct Trials {
    /// How many of those that were looked at are fit to start from.
    pub fit: u32,
    /// The number of the first whose two runs don't agree after some step, with that step and what they differ in there.
    pub found: Option<(u32, Found)>,
}

/// What one trial shows.
#[derive(Clone, Copy)]
enum Outcome {
    /// Its memories aren't fit to start from.
    Unfit,
    /// Its two runs agree after each step.
    Agrees,
    /// They don't agree after this step.
    Apart(Found),
}

/// Looks at trials from 1 to `n`, up to the first whose two runs don't agree after some step. A trial that isn't fit is passed over,
/// and not run. It takes the memory of one trial at a time: two memories, a schedule, and two machines that run.
pub fn refute(alloc: Global, p: &Program, n: u32, m: &Maker) -> Result<Trials, NoMemory>
    requires formed { IsWellFormed (view.program p.now) }
    requires few { n ≤ MOST_TRIALS }
    ensures found { IfOk result (λ trials. IsFirstTrial (plain (view.program p.now)) n trials.found) }
    ensures fit { IfOk result (λ trials. trials.fit ≡ fit_among (plain (view.program p.now)) (last_of n trials.found)) }
{
    let mut fit = 0;
    for before in 0..n {
        let i = before + 1;
        match try_out(alloc, p, i, m)? {
            Outcome::Unfit => {}
            Outcome::Agrees => fit += 1,
            Outcome::Apart(found) => {
                return Ok(Trials {
                    fit: fit + 1,
                    found: Some((i, found)),
                });
            }
        }
    }
    Ok(Trials { fit, found: None })
}

/// Runs a trial, if it is fit.
fn try_out(alloc: Global, p: &Program, i: u32, m: &Maker) -> Result<Outcome, NoMemory>
    requires formed { IsWellFormed (view.program p.now) }
    requires first { 1 ≤ i }
    requires last { i ≤ MOST_TRIALS }
    ensures { IfOk result (Shows (plain (view.program p.now)) i) }
{
    let left = first_memory(alloc, p, i, m)?;
    let right = second_memory(alloc, p, i, left.as_slice(), m)?;
    if starts(p, left.as_slice(), right.as_slice()).is_some() {
        return Ok(Outcome::Unfit);
    }
    let entries = schedule(alloc, p, i)?;
    match run_both(alloc, p, left, right, entries.as_slice())? {
        Some(found) => Ok(Outcome::Apart(found)),
        None => Ok(Outcome::Agrees),
    }
}

/// Runs a schedule from two memories, until the two runs don't agree after a step.
fn run_both(
    alloc: Global,
    p: &Program,
    left: List<u32>,
    right: List<u32>,
    entries: &[u32],
) -> Result<Option<Found>, NoMemory>
    requires formed { IsWellFormed (view.program p.now) }
    requires left { length left ≡ length p.now.vars }
    requires right { length right ≡ length p.now.vars }
    requires threads { IsSchedule (length p.now.threads) entries.now }
    requires few { length entries.now ≤ 200 }
    ensures { IfOk result (λ found. MatchOption found (AgreeThroughout (plain (view.program p.now)) (begin (plain (view.program p.now)) left) (begin (plain (view.program p.now)) right) entries.now)
        (λ f. IsFirstStepApart (plain (view.program p.now)) (begin (plain (view.program p.now)) left) (begin (plain (view.program p.now)) right) entries.now f)) }
{
    let mut first = Source::start(alloc, p, left, entries.len())?;
    let mut second = Source::start(alloc, p, right, entries.len())?;
    Ok(pair(p, &mut first, &mut second, entries))
}
