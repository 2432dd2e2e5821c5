//! The walk from a point back to the start, for what stores forgot.

ghost use Rattle.std.specs.Prelude.{◌≡◌, IfOk, map};
ghost use Rattle.cov_expr.specs.View.{term};
ghost use Rattle.cov_ast.specs.Plain.{plain};
ghost use Rattle.cov_ast.specs.View as view;
ghost use Rattle.entail_losses.specs.Forgotten as spec;
ghost use Rattle.entail_losses.specs.LeftOut as left;
ghost use Rattle.statement_paths.specs.Paths as paths;

use crate::forgotten_found::{ForgottenPart, add_forgotten_of_step};
use crate::left_out_found::LeftOut;
use crate::left_out_states::first_state;
use crate::left_out_touched::keep_untouched;
use cov_ast::{NumberSet, Program};
use cov_expr::{Expr, List, NoMemory};
use statement_paths::Step;
use std::alloc::Global;

/// What stores forgot on the way to a point with some hypotheses, where some variables are stable. Each step is looked at once.
pub fn forgotten_parts(
    alloc: Global,
    p: &Program,
    hypotheses: &[Expr],
    left_out: &[LeftOut],
    stable: &NumberSet,
    steps: &[Step<'_>],
) -> Result<List<ForgottenPart>, NoMemory>
    ensures { IfOk result (λ made. map spec.seen made ≡ spec.forgotten_parts (map term hypotheses.now) (map left.seen left_out.now) (plain (view.program p.now)) stable.now (map paths.step steps.now)) }
{
    let mut steady = stable.copy(alloc)?;
    let mut kept = stable.copy(alloc)?;
    let mut state = None;
    let mut found = List::new(alloc);
    for i in (0..steps.len()).rev() {
        let step = &steps[i];
        add_forgotten_of_step(
            alloc, p, hypotheses, left_out, &steady, &kept, step, state, &mut found,
        )?;
        keep_untouched(p, false, step, &mut steady);
        keep_untouched(p, true, step, &mut kept);
        state = first_state(step, state);
    }
    Ok(found)
}
