//! Entailments that are seen to hold without a walk over the predicates of a point. Each is one that `auto` proves.

ghost use Rattle.std.specs.Prelude.{◌≡◌, ◌++◌, List, IfOk, true};
ghost use Rattle.cov_expr.specs.Term.{Term};
ghost use Rattle.cov_expr.specs.Trees.{has_term};
ghost use Rattle.cov_expr.specs.View.{term};
ghost use Rattle.entail_cert.specs.Valid.{is_all_known, is_plain};
ghost use Rattle.entail_cert.specs.HeldTerms.{held_term};
ghost use Rattle.typing_rules.specs.Listed.{entailment_of};
ghost use Rattle.typing_rules.specs.Inside.Seen.{Shows};

use crate::asked::Entailment;
use cov_expr::{Expr, NoMemory, Op, same};
use std::alloc::Global;
use typing_state::Point;

/// Whether an entailment is seen to hold: its goal is a number that isn't 0 or what comes beside the predicates, or a
/// predicate is false, or the goal or each of its conjuncts is known. One that isn't seen to hold may hold. The predicate
/// at the place `next` is looked at first, which is then the place behind the last one that was found.
#[tactic(auto, using(crate::proofs::SeenLaws::plain_rules))]
pub fn is_seen(
    alloc: Global,
    point: &Point,
    entailment: &Entailment<'_>,
    next: &mut usize,
) -> Result<bool, NoMemory>
    ensures { IfOk result (λ seen. Shows point.now seen (λ preds. is_plain (entailment_of preds entailment.now).hyps (entailment_of preds entailment.now).goal)) }
{
    let goal = entailment.goal.expr();
    if is_number_set(goal) {
        return Ok(true);
    }
    if point.has_false_pred() {
        return Ok(true);
    }
    if is_more(entailment) {
        return Ok(true);
    }
    is_known(alloc, point, goal, next)
}

/// Whether an expression is a number that isn't 0.
fn is_number_set(e: &Expr) -> bool
    ensures { (hyps : List Term) → result ≡ true → is_all_known hyps (term e.now) ≡ true }
{
    match e {
        Expr::Const(k) => *k != 0,
        Expr::Var(_) | Expr::Not(_) | Expr::Bin(..) => false,
    }
}

/// Whether the goal of an entailment is what comes beside the predicates.
fn is_more(entailment: &Entailment<'_>) -> bool
    ensures { (preds : List Term) → result ≡ true → has_term (entailment_of preds entailment.now).hyps (held_term entailment.now.goal) ≡ true }
{
    match &entailment.more {
        Some(more) => same(more.expr(), entailment.goal.expr()),
        None => false,
    }
}

/// Whether a goal is a predicate, or a conjunction of which each conjunct is known.
#[tactic(auto, using(crate::proofs::SeenLaws::seen_rules))]
fn is_known(alloc: Global, point: &Point, goal: &Expr, next: &mut usize) -> Result<bool, NoMemory>
    ensures { (more : List Term) → IfOk result (λ known. Shows point.now known (λ preds. is_all_known (preds ++ more) (term goal.now))) }
{
    if is_one_known(alloc, point, goal, next)? {
        return Ok(true);
    }
    match goal {
        Expr::Bin(Op::Both, a, b) => {
            Ok(is_each_known(alloc, point, a, next)? && is_each_known(alloc, point, b, next)?)
        }
        Expr::Const(_) | Expr::Var(_) | Expr::Not(_) | Expr::Bin(..) => Ok(false),
    }
}

/// Whether each conjunct of a goal is a number that isn't 0 or a predicate.
#[tactic(auto, using(crate::proofs::SeenLaws::seen_rules))]
fn is_each_known(
    alloc: Global,
    point: &Point,
    goal: &Expr,
    next: &mut usize,
) -> Result<bool, NoMemory>
    ensures { (more : List Term) → IfOk result (λ known. Shows point.now known (λ preds. is_all_known (preds ++ more) (term goal.now))) }
{
    match goal {
        Expr::Bin(Op::Both, a, b) => {
            Ok(is_each_known(alloc, point, a, next)? && is_each_known(alloc, point, b, next)?)
        }
        Expr::Const(_) | Expr::Var(_) | Expr::Not(_) | Expr::Bin(..) => {
            is_one_known(alloc, point, goal, next)
        }
    }
}

/// Whether an expression is a number that isn't 0 or a predicate.
#[tactic(auto, using(crate::proofs::SeenLaws::seen_rules))]
fn is_one_known(alloc: Global, point: &Point, e: &Expr, next: &mut usize) -> Result<bool, NoMemory>
    ensures { (more : List Term) → IfOk result (λ known. Shows point.now known (λ preds. is_all_known (preds ++ more) (term e.now))) }
{
    Ok(is_number_set(e) || find_pred(alloc, point, e, next)?)
}

/// Whether an expression is a predicate: the one at a place, or another that is found by its key. The place is then that
/// behind it.
fn find_pred(alloc: Global, point: &Point, e: &Expr, next: &mut usize) -> Result<bool, NoMemory>
    ensures { IfOk result (λ found. Shows point.now found (λ preds. has_term preds (term e.now))) }
{
    if is_pred_at(point, *next, e) {
        *next = next.wrapping_add(1);
        return Ok(true);
    }
    match point.pred_index(alloc, e)? {
        Some(place) => {
            *next = place.wrapping_add(1);
            Ok(true)
        }
        None => Ok(false),
    }
}

/// Whether an expression is the predicate at a place.
fn is_pred_at(point: &Point, place: usize, e: &Expr) -> bool
    ensures { Shows point.now result (λ preds. has_term preds (term e.now)) }
{
    match point.preds().as_slice().get(place) {
        Some(pred) => same(pred, e),
        None => false,
    }
}
