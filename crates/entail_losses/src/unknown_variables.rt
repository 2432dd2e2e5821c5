//! The variables of a goal of which nothing is known.

ghost use Rattle.std.specs.Prelude.{◌≡◌, IfOk, OnOk, map};
ghost use Rattle.cov_expr.specs.View.{term};
ghost use Rattle.entail_losses.specs.About as about;
ghost use Rattle.entail_losses.specs.Unknowns as spec;

use cov_expr::{Expr, List, NoMemory, mentions, vars};
use std::alloc::Global;

/// Of how many variables is told at most.
pub const MOST_TOLD: usize = 4;

/// The first variables of a goal that no hypothesis mentions, each once, by first occurrence. It takes time in proportion to the square of the goal, and to the hypotheses for each variable.
pub fn unknown_variables(alloc: Global, hyps: &[Expr], goal: &Expr) -> Result<List<u32>, NoMemory>
    ensures { IfOk result (λ made. made ≡ spec.unknowns (map term hyps.now) (term goal.now)) }
{
    let all = vars(alloc, goal)?;
    let mut found = List::new(alloc);
    add_unknown(hyps, all.as_slice(), &mut found)?;
    Ok(found)
}

/// Adds those of some variables that no hypothesis mentions, as long as there are few.
fn add_unknown(hyps: &[Expr], all: &[u32], found: &mut List<u32>) -> Result<(), NoMemory>
    ensures { OnOk result (found.new ≡ spec.with_unknowns (map term hyps.now) found.old all.now) }
{
    for x in all {
        add_if_unknown(hyps, *x, found)?;
    }
    Ok(())
}

/// Adds a variable, if no hypothesis mentions it and there are few.
fn add_if_unknown(hyps: &[Expr], x: u32, found: &mut List<u32>) -> Result<(), NoMemory>
    ensures { OnOk result (found.new ≡ spec.with_unknown (map term hyps.now) found.old x) }
{
    if found.len() < MOST_TOLD && !is_mentioned(hyps, x) {
        found.push(x)
    } else {
        Ok(())
    }
}

/// Whether one of some predicates mentions a variable.
pub fn is_mentioned(preds: &[Expr], x: u32) -> bool
    ensures { result ≡ about.is_mentioned (map term preds.now) x }
{
    for e in preds {
        if mentions(e, x) {
            return true;
        }
    }
    false
}
