//! Whether a goal is known of the hypotheses, conjunct by conjunct.

ghost use Rattle.std.specs.Prelude.{◌≡◌, ◌++◌, ◌||◌, map};
ghost use Rattle.std.specs.List.{list_any};
ghost use Rattle.cov_expr.specs.View.{term};
ghost use Rattle.entail_cert.specs.HeldTerms.{held_term};
ghost use Rattle.entail_cert.specs.Valid.{is_all_known, is_known};
ghost use Rattle.entail_cert.specs.Valid as spec;

use crate::held::Held;
use crate::parts::{is_false, is_true};
use cov_expr::{Expr, Op, has_conjunct, has_same};

/// Whether some expression is closed and doesn't hold.
pub fn has_false(es: &[Expr]) -> bool
    ensures { result ≡ list_any spec.is_false (map term es.now) }
{
    for e in es {
        if is_false(e) {
            return true;
        }
    }
    false
}

/// Whether some hypothesis is closed and doesn't hold.
pub fn has_false_fact(facts: &[Held<'_>]) -> bool
    ensures { result ≡ list_any spec.is_false (map held_term facts.now) }
{
    for f in facts {
        if is_false(f.expr()) {
            return true;
        }
    }
    false
}

/// Whether an expression is a conjunct of a hypothesis.
fn knows(hyps: &[Expr], e: &Expr) -> bool
    ensures { result ≡ is_known (map term hyps.now) (term e.now) }
{
    for h in hyps {
        if has_conjunct(h, e) {
            return true;
        }
    }
    false
}

/// Whether an expression is a conjunct of a hypothesis that a walk has added.
fn knows_fact(facts: &[Held<'_>], e: &Expr) -> bool
    ensures { result ≡ is_known (map held_term facts.now) (term e.now) }
{
    for f in facts {
        if has_conjunct(f.expr(), e) {
            return true;
        }
    }
    false
}

/// Whether each conjunct of a goal is closed and holds, or is a conjunct of one of the hypotheses, which are given in two parts.
#[tactic(auto, using(crate::proofs::Conjuncts::known_rules))]
pub fn knows_each(goal: &Expr, first: &[Expr], more: &[Held<'_>]) -> bool
    ensures { result ≡ is_all_known (map term first.now ++ map held_term more.now) (term goal.now) }
{
    match goal {
        Expr::Bin(Op::Both, a, b) => {
            has_same(first, goal) || (knows_each(a, first, more) && knows_each(b, first, more))
        }
        Expr::Const(_) | Expr::Var(_) | Expr::Not(_) | Expr::Bin(..) => knows_one(
            goal, first, more,
        ),
    }
}

/// Whether an expression is closed and holds, or is a conjunct of one of the hypotheses.
#[tactic(auto, using(crate::proofs::Conjuncts::known_append))]
fn knows_one(e: &Expr, first: &[Expr], more: &[Held<'_>]) -> bool
    ensures { result ≡ (spec.is_true (term e.now) || is_known (map term first.now ++ map held_term more.now) (term e.now)) }
{
    is_true(e) || knows(first, e) || knows_fact(more, e)
}
