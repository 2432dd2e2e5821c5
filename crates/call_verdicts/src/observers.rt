//! `levels`: the verdict on what the observer at each of some levels is shown of a program.

ghost use Rattle.std.specs.Prelude.{◌≡◌, ◌≤◌, IfOk, MatchResult, None, length};
ghost use Rattle.call_inputs.specs.Plans.{CarriesOut};
ghost use Rattle.call_inputs.specs.Readings.{HasRead, ended};
ghost use Rattle.call_reports.specs.AnswerViews.{Gets, Stops};
ghost use Rattle.call_reports.specs.Replies.{malformed};
ghost use Rattle.call_verdicts.specs.Inside.{IsRefusedFor, JudgesForAll};
ghost use Rattle.call_verdicts.specs.Levels as spec;
ghost use Rattle.call_verdicts.specs.Levels.{IsShownLevelFault, levels_plan};
ghost use Rattle.cov_ast.specs.Ready.{IsReady};
ghost use Rattle.cov_ast.specs.View as view;
ghost use Rattle.cov_ast.specs.WellFormed.{IsWellFormed};
ghost use Rattle.cov_expr.specs.declared.limits.TheConstants.{MOST_BYTES};
ghost use Rattle.level_text.specs.Lattice.{AreLevels};
ghost use Rattle.level_text.specs.LevelReads.{GivesLevels};
ghost use Rattle.level_text.specs.Views as level_view;
ghost use Rattle.levels.specs.Accepted.{first_refused};
ghost use Rattle.levels.specs.Projection.{projected};
ghost use Rattle.typing_law.specs.Verdicts.{counts};

use crate::observers_reports::levels_line;
use call_inputs::{fetch, read_program, text_fault, unread};
use call_judge::check::{named, thread_name};
use call_reports::{Answer, Fault, FaultKind, Misfit, Stop, Totals};
use cov_ast::{Parsed, Program};
use cov_expr::MOST_BYTES;
use cov_io::Shelf;
use level_text::{LevelFault, Levels, read_levels};
use levels::{LevelRefusal, check_levels};
use std::alloc::Global;
use typing_law::Count;

/// Judges what the observer at each level of a file is shown of the program of another file.
pub fn levels<'w, S: Shelf>(
    alloc: Global,
    name: &'w str,
    over: &'w str,
    shelf: &mut S,
) -> Result<Answer<'w>, Stop<'w>>
    ensures { CarriesOut (S.shelved shelf.old) (S.shelved shelf.new) (levels_plan name.now over.now) result }
{
    let parsed = read_program(alloc, name, shelf)?;
    let l = fetch_levels(alloc, over, &parsed, shelf)?;
    judge_shown(alloc, parsed, &l)
}

/// The levels that a file gives for a program.
fn fetch_levels<'w, S: Shelf>(
    alloc: Global,
    name: &'w str,
    parsed: &Parsed,
    shelf: &mut S,
) -> Result<Levels, Stop<'w>>
    requires { IsReady (view.parsed parsed.now) }
    ensures read { HasRead (S.shelved shelf.old) (S.shelved shelf.new) (spec.levels_of (view.parsed parsed.now) name.now) (ended level_view.levels result) }
    ensures levels { IfOk result (λ l. AreLevels (length parsed.now.vars) (level_view.levels l)) }
{
    let bytes = fetch(alloc, name, MOST_BYTES, shelf)?;
    given_levels(alloc, name, parsed, bytes.as_slice())
}

/// The levels that a text gives for a program; the text has this name in reports.
fn given_levels<'w>(
    alloc: Global,
    name: &'w str,
    parsed: &Parsed,
    bytes: &[u8],
) -> Result<Levels, Stop<'w>>
    requires short { length bytes.now ≤ MOST_BYTES }
    requires ready { IsReady (view.parsed parsed.now) }
    ensures read { MatchResult result (λ l. GivesLevels bytes.now (view.parsed parsed.now) (level_view.levels l))
        (Stops (λ reply. (fault : Fault) × IsShownLevelFault (view.parsed parsed.now) bytes.now fault × (reply ≡ malformed name.now fault))) }
    ensures levels { IfOk result (λ l. AreLevels (length parsed.now.vars) (level_view.levels l)) }
{
    match read_levels(alloc, bytes, parsed) {
        Ok(l) => Ok(l),
        Err(fault) => Err(unread(name, level_fault(fault))),
    }
}

/// A fault of a text of levels, as reports show it; want of memory is none.
fn level_fault(fault: LevelFault) -> Option<Fault>
    ensures { result ≡ spec.level_fault_shown fault }
{
    match fault {
        LevelFault::Text(fault) => text_fault(fault),
        LevelFault::Many(at) => Some(Fault::Text(FaultKind::Limit, at)),
        LevelFault::Same(at) => Some(Fault::Misfit(Misfit::Same, at)),
        LevelFault::Unknown(at) => Some(Fault::Misfit(Misfit::Unknown, at)),
        LevelFault::Plain(at) => Some(Fault::Misfit(Misfit::Marker, at)),
        LevelFault::NoMemory => None,
    }
}

/// Judges the program that a text spells, for the observer at each level.
fn judge_shown<'w>(alloc: Global, parsed: Parsed, l: &Levels) -> Result<Answer<'w>, Stop<'w>>
    requires ready { IsReady (view.parsed parsed) }
    requires levels { AreLevels (length parsed.vars) (level_view.levels l.now) }
    ensures { Gets (JudgesForAll (record { program = view.parsed parsed; levels = level_view.levels l.now })) result }
{
    let program = named(alloc, parsed)?;
    let count = count_for_all(alloc, &program, l)?;
    let line = levels_line(
        alloc,
        l.names.len(),
        &Totals {
            threads: program.threads.len() as u64,
            statements: count.statements,
            entailments: count.entailments,
        },
    )?;
    Ok(Answer::Ran(line))
}

/// How much a program has that is accepted for every level.
fn count_for_all<'w>(alloc: Global, p: &Program, l: &Levels) -> Result<Count, Stop<'w>>
    requires formed { IsWellFormed (view.program p.now) }
    requires levels { AreLevels (length p.now.vars) (level_view.levels l.now) }
    ensures { MatchResult result
        (λ count. (first_refused (level_view.levels l.now) (view.program p.now) ≡ None)
        × (count ≡ counts (projected (level_view.levels l.now) 0 (view.program p.now))))
        (Stops (IsRefusedFor (level_view.levels l.now) (view.program p.now))) }
{
    match check_levels(alloc, p, l) {
        Ok(count) => Ok(count),
        Err(LevelRefusal::Refused(observer, refusal)) => {
            let level = l.names.as_slice()[observer as usize];
            let thread = thread_name(p.threads.as_slice(), refusal.thread);
            Err(Stop::Answer(Answer::RefusedFor(level, refusal, thread)))
        }
        Err(LevelRefusal::NoMemory) => Err(Stop::NoMemory),
    }
}
