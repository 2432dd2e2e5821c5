//! The variables that are stable and those that are hidden, by the locks that are held.

ghost use Rattle.std.specs.Prelude.{◌≡◌, ◌<◌, ℕ, List, Bool, IfOk, length, map};
ghost use Rattle.cov_ast.specs.Plain.{plain};
ghost use Rattle.cov_ast.specs.View as view;
ghost use Rattle.cov_ast.specs.WellFormed.{IsWellFormed};
ghost use Rattle.mode_state.specs.Sets.{modes_at};
ghost use Rattle.statement_paths.specs.Paths.{step};
ghost use Rattle.statement_paths.specs.VariableSets as spec;

use crate::walk::modes_along;
use crate::way::Step;
use cov_ast::{NumberSet, Program};
use cov_expr::{List, NoMemory};
use mode_state::ModeState;
use std::alloc::Global;

/// The variables that no other thread writes while a thread holds some locks.
pub fn stable_set(alloc: Global, p: &Program, modes: &ModeState) -> Result<NumberSet, NoMemory>
    requires { IsWellFormed (view.program p.now) }
    ensures { IfOk result (λ made. (t : ℕ) (held : List Bool) → modes.now ≡ modes_at (plain (view.program p.now)) t held
        → made ≡ spec.stable (plain (view.program p.now)) t held) }
{
    let mut marks = List::new(alloc);
    for x in 0..p.vars.len() as u32 {
        marks.push(modes.stable(x))?;
    }
    Ok(NumberSet::from_marks(marks))
}

/// The variables that no other thread reads or writes while a thread holds some locks.
pub fn hidden_set(alloc: Global, p: &Program, modes: &ModeState) -> Result<NumberSet, NoMemory>
    requires { IsWellFormed (view.program p.now) }
    ensures { IfOk result (λ made. (t : ℕ) (held : List Bool) → modes.now ≡ modes_at (plain (view.program p.now)) t held
        → made ≡ spec.hidden (plain (view.program p.now)) t held) }
{
    let mut marks = List::new(alloc);
    for x in 0..p.vars.len() as u32 {
        marks.push(modes.hidden(x))?;
    }
    Ok(NumberSet::from_marks(marks))
}

/// The variables that no other thread writes while a thread is at the end of steps from the start of its text.
pub fn stable_after_steps(
    alloc: Global,
    p: &Program,
    t: u32,
    steps: &[Step<'_>],
) -> Result<NumberSet, NoMemory>
    requires formed { IsWellFormed (view.program p.now) }
    requires thread { t < length p.now.threads }
    ensures { IfOk result (λ made. made ≡ spec.stable_after_steps (plain (view.program p.now)) t (map step steps.now)) }
{
    let modes = modes_along(alloc, p, t, steps)?;
    stable_set(alloc, p, &modes)
}

/// The variables that no other thread reads or writes while a thread is at the end of steps from the start of its text.
pub fn hidden_after_steps(
    alloc: Global,
    p: &Program,
    t: u32,
    steps: &[Step<'_>],
) -> Result<NumberSet, NoMemory>
    requires formed { IsWellFormed (view.program p.now) }
    requires thread { t < length p.now.threads }
    ensures { IfOk result (λ made. made ≡ spec.hidden_after_steps (plain (view.program p.now)) t (map step steps.now)) }
{
    let modes = modes_along(alloc, p, t, steps)?;
    hidden_set(alloc, p, &modes)
}
