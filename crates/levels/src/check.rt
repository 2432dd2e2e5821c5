//! The check of a program for the observers at all levels.

ghost use Rattle.std.specs.Prelude.{◌≡◌, ◌<◌, length, get_or, [], IfOk, MatchResult, Err, ℕ};
ghost use Rattle.cov_ast.specs.Obligations.{Decides};
ghost use Rattle.cov_ast.specs.View as view;
ghost use Rattle.cov_ast.specs.WellFormed.{IsWellFormed};
ghost use Rattle.levels.specs.Accepted.{DecidesForAll, IsSecureForAll};
ghost use Rattle.levels.specs.Inside.Refused.{as_refusal};
ghost use Rattle.level_text.specs.Lattice.{AreLevels};
ghost use Rattle.levels.specs.Order.{rows_of};
ghost use Rattle.levels.specs.Projection as spec;
ghost use Rattle.level_text.specs.Views as level_view;
ghost use Rattle.typing_law.specs.Accepted.{IsAccepted, program_obligations};
ghost use Rattle.typing_law.specs.Verdicts.{counts};

use crate::alike::is_shown_before;
use crate::laws::{accepted_are_secure, shown_is_well_formed};
use crate::programs::shown;
use crate::refusal::LevelRefusal;
use crate::rows::level_rows;
use cov_ast::{CheckFault, NumberSet, Program};
use cov_expr::NoMemory;
use level_text::Levels;
use std::alloc::Global;
use typing_law::Count;
use verify::check_program;

/// Checks what the observer at each level is shown. Unless memory runs out, `Ok` comes exactly where all of it is accepted, and then all of it is
/// secure; else the first level is refused for which it isn't, with the first obligation that doesn't hold.
///
/// One observer's program is in memory at a time.
pub fn check_levels(alloc: Global, p: &Program, l: &Levels) -> Result<Count, LevelRefusal>
    requires formed { IsWellFormed (view.program p.now) }
    requires levels { AreLevels (length p.now.vars) (level_view.levels l.now) }
    ensures answer { DecidesForAll (level_view.levels l.now) (view.program p.now) result }
    ensures secure { IfOk result (λ _. IsSecureForAll (level_view.levels l.now) (view.program p.now)) }
{
    match level_rows(alloc, l) {
        Ok(rows) => {
            accepted_are_secure();
            check_each(alloc, p, l, rows.as_slice())
        }
        Err(NoMemory) => Err(LevelRefusal::NoMemory),
    }
}

/// Checks what each observer is shown, in turn, but for those that are shown what one before them was.
fn check_each(
    alloc: Global,
    p: &Program,
    l: &Levels,
    rows: &[NumberSet],
) -> Result<Count, LevelRefusal>
    requires formed { IsWellFormed (view.program p.now) }
    requires levels { AreLevels (length p.now.vars) (level_view.levels l.now) }
    requires rows { rows.now ≡ rows_of (level_view.levels l.now) }
    ensures { DecidesForAll (level_view.levels l.now) (view.program p.now) result }
{
    let mut count = Count {
        statements: 0,
        entailments: 0,
    };
    for observer in 0..rows.len() {
        if is_shown_before(p, l, rows, observer) {
            continue;
        }
        match check_shown(alloc, p, l, &rows[observer]) {
            Ok(counted) => count = counted,
            Err(fault) => return Err(refused_for(observer as u32, fault)),
        }
    }
    Ok(count)
}

/// The refusal of what the observer at a level is shown.
fn refused_for(observer: u32, fault: CheckFault) -> LevelRefusal
    ensures { result ≡ as_refusal observer fault }
{
    match fault {
        CheckFault::Refused(refusal) => LevelRefusal::Refused(observer, refusal),
        CheckFault::NoMemory => LevelRefusal::NoMemory,
    }
}

/// Checks what an observer is shown who sees these levels.
fn check_shown(
    alloc: Global,
    p: &Program,
    l: &Levels,
    seen: &NumberSet,
) -> Result<Count, CheckFault>
    requires formed { IsWellFormed (view.program p.now) }
    requires levels { AreLevels (length p.now.vars) (level_view.levels l.now) }
    ensures { MatchResult result
        (λ count. IsAccepted (spec.shown seen.now (level_view.levels l.now) (view.program p.now))
        × (count ≡ counts (spec.shown seen.now (level_view.levels l.now) (view.program p.now))))
        (λ fault. Decides (program_obligations (spec.shown seen.now (level_view.levels l.now) (view.program p.now))) (Err fault)) }
{
    let made = shown(alloc, seen, l, p)?;
    shown_is_well_formed();
    match check_program(alloc, &made) {
        Ok(verdict) => Ok(verdict.count()),
        Err(fault) => Err(fault),
    }
}
