//! What the steps of a block still give at its end.

ghost use Rattle.std.specs.Prelude.{◌≡◌, IfOk, OnOk, map};
ghost use Rattle.cov_expr.specs.Trees.{has_term};
ghost use Rattle.cov_expr.specs.View.{term};
ghost use Rattle.cov_ast.specs.Plain.{plain};
ghost use Rattle.cov_ast.specs.View as view;
ghost use Rattle.entail_losses.specs.Joined as spec;
ghost use Rattle.entail_origins.specs.GivenViews.{given};
ghost use Rattle.statement_paths.specs.Paths as paths;

use crate::left_out_found::{gives_nothing, is_over};
use crate::left_out_states::first_state;
use crate::left_out_touched::keep_untouched;
use cov_ast::{NumberSet, Program};
use cov_expr::{Expr, List, NoMemory, same};
use entail_origins::{Given, Origin, add_given};
use statement_paths::Step;
use std::alloc::Global;

/// How many predicates of a block count at most, the last ones.
pub const MOST_GIVEN: usize = 64;

/// A predicate, with what gives it.
#[derive(Drop)]
pub struct StillGiven {
    pub term: Expr,
    pub origin: Origin,
}

/// What steps still give, from the last one back, where some variables are kept behind them. Each step is looked at once.
pub fn still_given(
    alloc: Global,
    p: &Program,
    kept: &NumberSet,
    steps: &[Step<'_>],
) -> Result<List<StillGiven>, NoMemory>
    ensures { IfOk result (λ made. map spec.seen made ≡ spec.still_given (plain (view.program p.now)) kept.now (map paths.step steps.now)) }
{
    let mut left = kept.copy(alloc)?;
    let mut state = None;
    let mut found = List::new(alloc);
    for i in (0..steps.len()).rev() {
        let step = &steps[i];
        add_of_step(alloc, p, &left, step, state.is_some(), &mut found)?;
        keep_untouched(p, true, step, &mut left);
        state = first_state(step, state);
    }
    Ok(found)
}

/// Adds what a step still gives, where no state comes behind it.
fn add_of_step<'p>(
    alloc: Global,
    p: &'p Program,
    kept: &NumberSet,
    step: &Step<'p>,
    is_behind_a_state: bool,
    found: &mut List<StillGiven>,
) -> Result<(), NoMemory>
    ensures { OnOk result (map spec.seen found.new ≡ spec.with_still_of_step (plain (view.program p.now)) kept.now (paths.step step.now) is_behind_a_state (map spec.seen found.old)) }
{
    if is_behind_a_state {
        return Ok(());
    }
    let mut all = List::new(alloc);
    add_given(p, step, &mut all)?;
    add_each(alloc, kept, step.place(), all.as_slice(), found)
}

/// Adds what is given still of what the step at a place gives.
fn add_each(
    alloc: Global,
    kept: &NumberSet,
    at: u32,
    all: &[Given<'_>],
    found: &mut List<StillGiven>,
) -> Result<(), NoMemory>
    ensures { OnOk result (map spec.seen found.new ≡ spec.with_still_given kept.now at (map given all.now) (map spec.seen found.old)) }
{
    for one in all {
        let term = one.term.made(alloc)?;
        let source = one.source;
        if found.len() < MOST_GIVEN && !gives_nothing(source, &term) && is_over(kept, &term) {
            let origin = Origin { source, at };
            found.push(StillGiven { term, origin })?;
        }
    }
    Ok(())
}

/// Whether a predicate is one of those that are given.
pub fn is_given_too(given: &[StillGiven], e: &Expr) -> bool
    ensures { result ≡ has_term (map (λ g. g.term) (map spec.seen given.now)) (term e.now) }
{
    for one in given {
        if same(&one.term, e) {
            return true;
        }
    }
    false
}
