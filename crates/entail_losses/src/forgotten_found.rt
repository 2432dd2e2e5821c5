//! What stores forgot.

ghost use Rattle.std.specs.Prelude.{◌≡◌, OnOk, map};
ghost use Rattle.cov_expr.specs.Trees.{has_term};
ghost use Rattle.cov_expr.specs.View.{term};
ghost use Rattle.cov_ast.specs.Plain.{plain};
ghost use Rattle.cov_ast.specs.View as view;
ghost use Rattle.entail_losses.specs.Forgotten as spec;
ghost use Rattle.entail_origins.specs.GivenViews.{given};
ghost use Rattle.entail_losses.specs.LeftOut as left;
ghost use Rattle.entail_origins.specs.Origins.{given_by};
ghost use Rattle.statement_paths.specs.Paths as paths;

use crate::left_out_found::{LeftOut, MOST_FOUND, is_found, is_known, is_over};
use crate::left_out_states::StateAt;
use cov_ast::{NumberSet, Program};
use cov_expr::{Expr, List, NoMemory, Op, closed, copy, same};
use entail_origins::{Given, Origin, add_given};
use statement_paths::Step;
use std::alloc::Global;

/// A part of a predicate that a store forgot, with what gives the whole, and the first state behind that, if there is one.
#[derive(Drop)]
pub struct ForgottenPart {
    pub part: Expr,
    pub origin: Origin,
    pub state: Option<StateAt>,
}

/// Adds the parts that a store forgot of what a step gives. `steady` are the variables that were stable since, `kept` those of them to which
/// nothing was stored since, and `state` is the first state since.
pub fn add_forgotten_of_step<'p>(
    alloc: Global,
    p: &'p Program,
    hypotheses: &[Expr],
    left_out: &[LeftOut],
    steady: &NumberSet,
    kept: &NumberSet,
    step: &Step<'p>,
    state: Option<StateAt>,
    found: &mut List<ForgottenPart>,
) -> Result<(), NoMemory>
    ensures { OnOk result (map spec.seen found.new ≡ spec.with_wholes (map term hypotheses.now) (map left.seen left_out.now) steady.now kept.now (paths.place_of (paths.step step.now)) state (given_by (plain (view.program p.now)) (paths.step step.now)) (map spec.seen found.old)) }
{
    let mut all = List::new(alloc);
    add_given(p, step, &mut all)?;
    let at = step.place();
    add_of_each(
        alloc,
        hypotheses,
        left_out,
        steady,
        kept,
        at,
        state,
        all.as_slice(),
        found,
    )
}

/// The same of some predicates that the step at a place gives.
fn add_of_each(
    alloc: Global,
    hypotheses: &[Expr],
    left_out: &[LeftOut],
    steady: &NumberSet,
    kept: &NumberSet,
    at: u32,
    state: Option<StateAt>,
    all: &[Given<'_>],
    found: &mut List<ForgottenPart>,
) -> Result<(), NoMemory>
    ensures { OnOk result (map spec.seen found.new ≡ spec.with_wholes (map term hypotheses.now) (map left.seen left_out.now) steady.now kept.now at state (map given all.now) (map spec.seen found.old)) }
{
    for one in all {
        let whole = one.term.made(alloc)?;
        let source = one.source;
        if is_over(steady, &whole) && !is_over(kept, &whole) && !is_known(hypotheses, &whole) {
            let origin = Origin { source, at };
            add_parts(
                alloc, hypotheses, left_out, kept, origin, state, &whole, found,
            )?;
        }
    }
    Ok(())
}

/// Adds the parts of a predicate that a store forgot.
fn add_parts(
    alloc: Global,
    hypotheses: &[Expr],
    left_out: &[LeftOut],
    kept: &NumberSet,
    origin: Origin,
    state: Option<StateAt>,
    e: &Expr,
    found: &mut List<ForgottenPart>,
) -> Result<(), NoMemory>
    ensures { OnOk result (map spec.seen found.new ≡ spec.with_parts (map term hypotheses.now) (map left.seen left_out.now) kept.now origin state (term e.now) (map spec.seen found.old)) }
{
    match e {
        Expr::Bin(Op::Both, a, b) => {
            add_parts(alloc, hypotheses, left_out, kept, origin, state, a, found)?;
            add_parts(alloc, hypotheses, left_out, kept, origin, state, b, found)
        }
        Expr::Const(_) | Expr::Var(_) | Expr::Not(_) | Expr::Bin(..) => {
            if found.len() < MOST_FOUND
                && !closed(e)
                && is_over(kept, e)
                && !is_known(hypotheses, e)
                && !is_found(left_out, e)
                && !is_found_part(found.as_slice(), e)
            {
                let part = copy(alloc, e)?;
                found.push(ForgottenPart {
                    part,
                    origin,
                    state,
                })?;
            }
            Ok(())
        }
    }
}

/// Whether a part was found already.
fn is_found_part(found: &[ForgottenPart], e: &Expr) -> bool
    ensures { result ≡ has_term (map (λ f. f.part) (map spec.seen found.now)) (term e.now) }
{
    for one in found {
        if same(&one.part, e) {
            return true;
        }
    }
    false
}
