//! Whether hypotheses more may make a leaf valid where none is without them.

ghost use Rattle.std.specs.Prelude.{◌≡◌, ◌||◌, map};
ghost use Rattle.std.specs.List.{list_any};
ghost use Rattle.cov_expr.specs.View.{term};
ghost use Rattle.entail_range.specs.Range.{lent};
ghost use Rattle.cert_search.specs.Inside.Relevance as spec;

use crate::conditions::{has_false, knows};
use cov_expr::{Expr, Op, same};

/// Whether hypotheses at the end of all may make a leaf valid.
pub fn matters(all: &[&Expr], more: &[&Expr], goal: &Expr) -> bool
    ensures { result ≡ spec.matters (map lent all.now) (map lent more.now) (term goal.now) }
{
    has_false(more)
        || touches(more, goal)
        || is_compared(goal) && has_bound(more)
        || is_opposed(all, more)
}

/// Whether some hypothesis has a conjunct of the goal.
#[tactic(auto, using(crate::proofs::Irrelevant::touches_both))]
pub fn touches(more: &[&Expr], goal: &Expr) -> bool
    ensures { result ≡ spec.touches (map lent more.now) (term goal.now) }
{
    match goal {
        Expr::Bin(Op::Both, a, b) => touches(more, a) || touches(more, b),
        Expr::Const(_) | Expr::Var(_) | Expr::Not(_) | Expr::Bin(..) => knows(more, goal),
    }
}

/// Whether bounds may give a goal: it is one of the four comparisons.
pub fn is_compared(goal: &Expr) -> bool
    ensures { result ≡ spec.is_compared (term goal.now) }
{
    match goal {
        Expr::Bin(Op::Eq | Op::Ne | Op::Lt | Op::Le, _, _) => true,
        Expr::Const(_) | Expr::Var(_) | Expr::Not(_) | Expr::Bin(..) => false,
    }
}

/// Whether some hypothesis may bound an expression.
pub fn has_bound(more: &[&Expr]) -> bool
    ensures { result ≡ list_any spec.is_bound (map lent more.now) }
{
    for h in more {
        if is_bound(h) {
            return true;
        }
    }
    false
}

/// Whether a hypothesis may bound an expression: it is a `==`, `<` or `<=` with a number on a side.
pub fn is_bound(h: &Expr) -> bool
    ensures { result ≡ spec.is_bound (term h.now) }
{
    match h {
        Expr::Bin(Op::Eq | Op::Lt | Op::Le, a, b) => is_number(a) || is_number(b),
        Expr::Const(_) | Expr::Var(_) | Expr::Not(_) | Expr::Bin(..) => false,
    }
}

/// Whether an expression is a number.
pub fn is_number(e: &Expr) -> bool
    ensures { result ≡ spec.is_number (term e.now) }
{
    match e {
        Expr::Const(_) => true,
        Expr::Var(_) | Expr::Not(_) | Expr::Bin(..) => false,
    }
}

/// Whether a hypothesis at the end of all and another deny each other.
fn is_opposed(all: &[&Expr], more: &[&Expr]) -> bool
    ensures { result ≡ spec.is_opposed (map lent all.now) (map lent more.now) }
{
    for e in more {
        if opposes(all, e) {
            return true;
        }
    }
    false
}

/// Whether one of these and an expression deny each other.
fn opposes(all: &[&Expr], e: &Expr) -> bool
    ensures { result ≡ list_any (spec.are_opposite (term e.now)) (map lent all.now) }
{
    for h in all {
        if denies(e, h) || denies(h, e) {
            return true;
        }
    }
    false
}

/// Whether an expression is the negation of another.
pub fn denies(e: &Expr, f: &Expr) -> bool
    ensures { result ≡ spec.denies (term e.now) (term f.now) }
{
    match e {
        Expr::Not(a) => same(a, f),
        Expr::Const(_) | Expr::Var(_) | Expr::Bin(..) => false,
    }
}
