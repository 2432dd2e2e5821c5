//! Conditions of leaves.

ghost use Rattle.std.specs.Prelude.{◌≡◌, IfOk, map, ◌||◌, false, true};
ghost use Rattle.std.specs.List.{list_any};
ghost use Rattle.cov_expr.specs.declared.expr.Op.TheVariants.{Eq};
ghost use Rattle.cov_expr.specs.Trees as tree;
ghost use Rattle.cov_expr.specs.View.{term};
ghost use Rattle.entail_range.specs.Range.{lent};
ghost use Rattle.entail_cert.specs.Valid as spec;

use cov_expr::{Expr, NoMemory, Op, closed, eval, has_conjunct, same};
use entail_cert::operands;
use entail_range::range_valid_indexed;
use entail_ring::ring_equal;
use std::alloc::Global;

/// Whether an expression is closed and holds.
fn is_true(e: &Expr) -> bool
    ensures { result ≡ spec.is_true (term e.now) }
{
    closed(e) && eval(e, &[]) != 0
}

/// Whether an expression is closed and doesn't hold.
fn is_false(e: &Expr) -> bool
    ensures { result ≡ spec.is_false (term e.now) }
{
    closed(e) && eval(e, &[]) == 0
}

/// Whether some hypothesis is closed and doesn't hold.
pub fn has_false(hyps: &[&Expr]) -> bool
    ensures { result ≡ list_any spec.is_false (map lent hyps.now) }
{
    for h in hyps {
        if is_false(h) {
            return true;
        }
    }
    false
}

/// Whether an expression is a conjunct of a hypothesis.
pub fn knows(hyps: &[&Expr], e: &Expr) -> bool
    ensures { result ≡ spec.is_known (map lent hyps.now) (term e.now) }
{
    for h in hyps {
        if has_conjunct(h, e) {
            return true;
        }
    }
    false
}

/// Whether each conjunct of a goal is closed and holds, or is a conjunct of one of the hypotheses.
#[tactic(auto, using(entail_cert::proofs::Conjuncts::known_both))]
fn knows_each(hyps: &[&Expr], goal: &Expr) -> bool
    ensures { result ≡ spec.is_all_known (map lent hyps.now) (term goal.now) }
{
    match goal {
        Expr::Bin(Op::Both, a, b) => knows_each(hyps, a) && knows_each(hyps, b),
        Expr::Const(_) | Expr::Var(_) | Expr::Not(_) | Expr::Bin(..) => is_true(goal)
            || knows(hyps, goal),
    }
}

/// Whether a hypothesis is closed and doesn't hold, or the goal is known.
pub fn is_plain(hyps: &[&Expr], goal: &Expr) -> bool
    ensures { result ≡ spec.is_plain (map lent hyps.now) (term goal.now) }
{
    has_false(hyps) || knows_each(hyps, goal)
}

/// Whether an expression is an equation of equal sides.
pub fn is_reflexive(e: &Expr) -> bool
    ensures { result ≡ spec.is_reflexive (spec.operands Eq (term e.now)) }
{
    match operands(Op::Eq, e) {
        Some((a, b)) => same(a, b),
        None => false,
    }
}

/// Whether a goal is an equation whose sides are one polynomial.
pub fn is_ring(alloc: Global, goal: &Expr) -> Result<bool, NoMemory>
    ensures { IfOk result (λ holds. holds ≡ spec.is_ring (term goal.now)) }
{
    match operands(Op::Eq, goal) {
        Some((a, b)) => ring_equal(alloc, a, b),
        None => Ok(false),
    }
}

/// Whether a goal follows from the bounds that hypotheses give. Where it is large, they are looked up in an index.
pub fn is_range(alloc: Global, hyps: &[&Expr], goal: &Expr) -> Result<bool, NoMemory>
    ensures { IfOk result (λ holds. holds ≡ spec.is_range (map lent hyps.now) (term goal.now)) }
{
    range_valid_indexed(alloc, &[], hyps, goal)
}
