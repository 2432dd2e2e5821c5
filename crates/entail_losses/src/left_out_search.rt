//! The walk from a point back to the start.

ghost use Rattle.std.specs.Prelude.{◌≡◌, IfOk, map};
ghost use Rattle.cov_expr.specs.View.{term};
ghost use Rattle.cov_ast.specs.Plain.{plain};
ghost use Rattle.cov_ast.specs.View as view;
ghost use Rattle.statement_paths.specs.Paths as paths;
ghost use Rattle.entail_losses.specs.LeftOut as spec;

use crate::left_out_found::{LeftOut, add_of_step};
use crate::left_out_states::states_from;
use crate::left_out_touched::keep_untouched;
use cov_ast::{NumberSet, Program};
use cov_expr::{Expr, List, NoMemory};
use statement_paths::Step;
use std::alloc::Global;

/// What was left out on the way to a point with some hypotheses, where some variables are stable. Each step is looked at once.
pub fn left_out(
    alloc: Global,
    p: &Program,
    hypotheses: &[Expr],
    stable: &NumberSet,
    steps: &[Step<'_>],
) -> Result<List<LeftOut>, NoMemory>
    ensures { IfOk result (λ made. map spec.seen made ≡ spec.left_out (plain (view.program p.now)) (map term hypotheses.now) stable.now (map paths.step steps.now)) }
{
    let mut kept = stable.copy(alloc)?;
    let mut states = None;
    let mut found = List::new(alloc);
    for i in (0..steps.len()).rev() {
        add_of_step(alloc, p, hypotheses, &kept, &steps[i], states, &mut found)?;
        keep_untouched(p, true, &steps[i], &mut kept);
        states = states_from(&steps[i], states);
    }
    Ok(found)
}
