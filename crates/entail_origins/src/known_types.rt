//! What is known of the variables at a point.

ghost use Rattle.std.specs.Prelude.{◌≡◌, ◌<◌, IfOk, length, map};
ghost use Rattle.cov_ast.specs.Plain.{plain};
ghost use Rattle.cov_ast.specs.View as view;
ghost use Rattle.cov_ast.specs.WellFormed.{IsWellFormed};
ghost use Rattle.statement_paths.specs.Paths as paths;
ghost use Rattle.entail_origins.specs.KnownTypes as spec;

use cov_ast::{NumberSet, Program};
use cov_expr::NoMemory;
use mode_state::Mask;
use statement_paths::{Step, hidden_set, modes_along, stable_set};
use std::alloc::Global;
use typing_state::control_set;

/// What is known of the variables at a point: which are controls, which no other thread writes, and which none reads either.
#[derive(Drop)]
pub struct Known {
    pub controls: Mask,
    pub stable: NumberSet,
    pub hidden: NumberSet,
}

/// What is known of the variables behind steps from the start of a thread.
pub fn known_after_steps(
    alloc: Global,
    p: &Program,
    t: u32,
    steps: &[Step<'_>],
) -> Result<Known, NoMemory>
    requires formed { IsWellFormed (view.program p.now) }
    requires thread { t < length p.now.threads }
    ensures { IfOk result (λ made. made ≡ spec.known_after_steps (plain (view.program p.now)) t (map paths.step steps.now)) }
{
    let modes = modes_along(alloc, p, t, steps)?;
    Ok(Known {
        controls: control_set(p),
        stable: stable_set(alloc, p, &modes)?,
        hidden: hidden_set(alloc, p, &modes)?,
    })
}
