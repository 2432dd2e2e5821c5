//! What is to be known of a hypothesis that a replacement in another makes, while it isn't built: `h` with `e` in the place of each `x`.

ghost use Rattle.std.specs.Prelude.{◌≡◌, ◌==◌, ◌||◌, [], ◌∷◌, ◌++◌, map, false};
ghost use Rattle.std.specs.List.{list_any};
ghost use Rattle.cov_expr.specs.declared.expr.TheConstants.{HOLE};
ghost use Rattle.cov_expr.specs.Trees as tree;
ghost use Rattle.cov_expr.specs.View.{term};
ghost use Rattle.entail_range.specs.Range.{lent};
ghost use Rattle.cert_search.specs.Inside.Replaced.{replaced};
ghost use Rattle.cert_search.specs.Inside.Relevance.{interact};
ghost use Rattle.cert_search.specs.Inside.Relevance as relevance;

use crate::relevance::{denies, has_bound, is_bound, is_compared, is_number, touches};
use cov_expr::{Expr, HOLE, Op, closed, has_conjunct, same};
use entail_cert::negated;

/// Whether a variable is replaced.
fn is_replaced(x: u32, y: u32) -> bool
    ensures { result ≡ (y == x || y == HOLE) }
{
    y == x || y == HOLE
}

/// Whether what is made equals an expression.
#[tactic(auto, using(crate::proofs::Replacements::replaced_rules))]
fn same_replaced(h: &Expr, x: u32, e: &Expr, f: &Expr) -> bool
    ensures { result ≡ tree.same (replaced (term h.now) x (term e.now)) (term f.now) }
{
    match h {
        Expr::Const(_) => same(h, f),
        Expr::Var(y) => {
            if is_replaced(x, *y) {
                same(e, f)
            } else {
                same(h, f)
            }
        }
        Expr::Not(a) => match f {
            Expr::Not(c) => same_replaced(a, x, e, c),
            Expr::Const(_) | Expr::Var(_) | Expr::Bin(..) => false,
        },
        Expr::Bin(op, a, b) => match f {
            Expr::Bin(o, c, d) => *op == *o
                && same_replaced(a, x, e, c)
                && same_replaced(b, x, e, d),
            Expr::Const(_) | Expr::Var(_) | Expr::Not(_) => false,
        },
    }
}

/// Whether there is no variable in it.
#[tactic(auto, using(crate::proofs::Replacements::replaced_rules))]
fn closed_replaced(h: &Expr, x: u32, e: &Expr) -> bool
    ensures { result ≡ tree.is_closed (replaced (term h.now) x (term e.now)) }
{
    match h {
        Expr::Const(_) => true,
        Expr::Var(y) => is_replaced(x, *y) && closed(e),
        Expr::Not(a) => closed_replaced(a, x, e),
        Expr::Bin(_, a, b) => closed_replaced(a, x, e) && closed_replaced(b, x, e),
    }
}

/// Whether an expression is one of its conjuncts.
#[tactic(auto, using(crate::proofs::Replacements::conjunct_rules))]
fn has_conjunct_replaced(h: &Expr, x: u32, e: &Expr, c: &Expr) -> bool
    ensures { result ≡ tree.has_conjunct (replaced (term h.now) x (term e.now)) (term c.now) }
{
    match h {
        Expr::Bin(Op::Both, a, b) => has_conjunct_replaced(a, x, e, c)
            || has_conjunct_replaced(b, x, e, c),
        Expr::Var(y) => {
            if is_replaced(x, *y) {
                has_conjunct(e, c)
            } else {
                same(h, c)
            }
        }
        Expr::Const(_) | Expr::Not(_) | Expr::Bin(..) => same_replaced(h, x, e, c),
    }
}

/// Whether some conjunct of it is one of the goal.
#[tactic(auto, using(crate::proofs::Replacements::touches_rules))]
fn touches_replaced(h: &Expr, x: u32, e: &Expr, goal: &Expr) -> bool
    ensures { result ≡ relevance.touches (replaced (term h.now) x (term e.now) ∷ []) (term goal.now) }
{
    match goal {
        Expr::Bin(Op::Both, a, b) => touches_replaced(h, x, e, a) || touches_replaced(h, x, e, b),
        Expr::Const(_) | Expr::Var(_) | Expr::Not(_) | Expr::Bin(..) => has_conjunct_replaced(
            h, x, e, goal,
        ),
    }
}

/// Whether it is a number.
#[tactic(auto, using(crate::proofs::Replacements::replaced_rules))]
fn is_number_replaced(h: &Expr, x: u32, e: &Expr) -> bool
    ensures { result ≡ relevance.is_number (replaced (term h.now) x (term e.now)) }
{
    match h {
        Expr::Const(_) => true,
        Expr::Var(y) => is_replaced(x, *y) && is_number(e),
        Expr::Not(_) | Expr::Bin(..) => false,
    }
}

/// Whether it may bound an expression.
#[tactic(auto, using(crate::proofs::Replacements::replaced_rules))]
fn is_bound_replaced(h: &Expr, x: u32, e: &Expr) -> bool
    ensures { result ≡ relevance.is_bound (replaced (term h.now) x (term e.now)) }
{
    match h {
        Expr::Bin(Op::Eq | Op::Lt | Op::Le, a, b) => is_number_replaced(a, x, e)
            || is_number_replaced(b, x, e),
        Expr::Var(y) => is_replaced(x, *y) && is_bound(e),
        Expr::Const(_) | Expr::Not(_) | Expr::Bin(..) => false,
    }
}

/// Whether it is the negation of an expression.
#[tactic(auto, using(crate::proofs::Replacements::replaced_rules))]
fn denies_replaced(h: &Expr, x: u32, e: &Expr, f: &Expr) -> bool
    ensures { result ≡ relevance.denies (replaced (term h.now) x (term e.now)) (term f.now) }
{
    match h {
        Expr::Not(a) => same_replaced(a, x, e, f),
        Expr::Var(y) => is_replaced(x, *y) && denies(e, f),
        Expr::Const(_) | Expr::Bin(..) => false,
    }
}

/// Whether an expression is the negation of it.
#[tactic(auto, using(crate::proofs::Replacements::denied_rules))]
fn is_denied(f: &Expr, h: &Expr, x: u32, e: &Expr) -> bool
    ensures { result ≡ relevance.denies (term f.now) (replaced (term h.now) x (term e.now)) }
{
    match negated(f) {
        Some(a) => same_replaced(h, x, e, a),
        None => false,
    }
}

/// Whether one of these and what is made deny each other.
fn opposes_replaced(hyps: &[&Expr], h: &Expr, x: u32, e: &Expr) -> bool
    ensures { result ≡ list_any (relevance.are_opposite (replaced (term h.now) x (term e.now))) (map lent hyps.now) }
{
    for f in hyps {
        if denies_replaced(h, x, e, f) || is_denied(f, h, x, e) {
            return true;
        }
    }
    false
}

/// Whether what is made may make a leaf valid, as a hypothesis more. It isn't built.
#[tactic(auto, using(crate::proofs::Replacements::replaced_irrelevant))]
pub fn may_matter(hyps: &[&Expr], h: &Expr, x: u32, e: &Expr, goal: &Expr) -> bool
    ensures { result ≡ false →
        relevance.matters (map lent hyps.now ++ replaced (term h.now) x (term e.now) ∷ []) (replaced (term h.now) x (term e.now) ∷ []) (term goal.now) ≡ false }
{
    closed_replaced(h, x, e)
        || touches_replaced(h, x, e, goal)
        || is_compared(goal) && is_bound_replaced(h, x, e)
        || opposes_replaced(hyps, h, x, e)
}

/// Whether what is made has to do with other hypotheses, as to a goal. It isn't built.
#[tactic(auto, using(crate::proofs::Pairs::replaced_apart))]
pub fn may_interact(more: &[&Expr], h: &Expr, x: u32, e: &Expr, goal: &Expr) -> bool
    ensures { result ≡ false → interact (map lent more.now) (replaced (term h.now) x (term e.now) ∷ []) (term goal.now) ≡ false }
{
    touches(more, goal) && touches_replaced(h, x, e, goal)
        || is_compared(goal) && has_bound(more) && is_bound_replaced(h, x, e)
        || opposes_replaced(more, h, x, e)
}
