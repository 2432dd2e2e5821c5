//! What the conditions of certificates see in an expression: its operands, what it negates, its value where it is closed.

ghost use Rattle.std.specs.Prelude.{◌≡◌, IfOk, false, option_map, true};
ghost use Rattle.cov_expr.specs.declared.expr.TheConstants.{HOLE};
ghost use Rattle.cov_expr.specs.Term.{neg};
ghost use Rattle.cov_expr.specs.Trees as tree;
ghost use Rattle.cov_expr.specs.View.{term};
ghost use Rattle.cov_expr.specs.declared.expr.Op.TheVariants.{Eq};
ghost use Rattle.entail_cert.specs.Valid.{filled, is_false, is_reflexive, is_true, negated, operands};
ghost use Rattle.entail_cert.specs.Valid as spec;

use cov_expr::{Expr, HOLE, Op, closed, eval, same};

/// Whether an expression is closed and holds.
pub fn is_true(e: &Expr) -> bool
    ensures { result ≡ is_true (term e.now) }
{
    is_closed(e) && eval(e, &[]) != 0
}

/// Whether an expression is closed and doesn't hold.
pub fn is_false(e: &Expr) -> bool
    ensures { result ≡ is_false (term e.now) }
{
    is_closed(e) && eval(e, &[]) == 0
}

/// Whether there is no variable. Most expressions have one at the head, which is seen first.
fn is_closed(e: &Expr) -> bool
    ensures { result ≡ tree.is_closed (term e.now) }
{
    !begins_with_variable(e) && closed(e)
}

/// Whether an expression is a variable, or an operator with a variable for its first operand.
fn begins_with_variable(e: &Expr) -> bool
    ensures { result ≡ true → tree.is_closed (term e.now) ≡ false }
{
    match e {
        Expr::Var(_) => true,
        Expr::Const(_) => false,
        Expr::Not(a) | Expr::Bin(_, a, _) => is_variable(a),
    }
}

fn is_variable(e: &Expr) -> bool
    ensures { result ≡ true → tree.is_closed (term e.now) ≡ false }
{
    match e {
        Expr::Var(_) => true,
        Expr::Const(_) | Expr::Not(_) | Expr::Bin(..) => false,
    }
}

/// The operands, where the expression has this operator.
pub fn operands(op: Op, e: &Expr) -> Option<(&Expr, &Expr)>
    ensures { option_map (λ p. (term p.0.now, term p.1.now)) result ≡ operands op (term e.now) }
{
    match e {
        Expr::Bin(o, a, b) if *o == op => Some((a, b)),
        Expr::Const(_) | Expr::Var(_) | Expr::Not(_) | Expr::Bin(..) => None,
    }
}

/// What an expression negates, where it is a negation.
pub fn negated(e: &Expr) -> Option<&Expr>
    ensures { option_map (λ a. term a.now) result ≡ negated (term e.now) }
{
    match e {
        Expr::Not(a) => Some(a),
        Expr::Const(_) | Expr::Var(_) | Expr::Bin(..) => None,
    }
}

/// Whether an expression is a template with a part in the place of each hole. Nothing is built.
pub fn is_filled(template: &Expr, part: &Expr, e: &Expr) -> bool
    ensures { result ≡ tree.same (filled (term template.now) (term part.now)) (term e.now) }
{
    match template {
        Expr::Var(x) if *x == HOLE => same(part, e),
        Expr::Const(_) | Expr::Var(_) => same(template, e),
        Expr::Not(t) => match e {
            Expr::Not(a) => is_filled(t, part, a),
            Expr::Const(_) | Expr::Var(_) | Expr::Bin(..) => false,
        },
        Expr::Bin(op, t, u) => match e {
            Expr::Bin(o, a, b) => *op == *o && is_filled(t, part, a) && is_filled(u, part, b),
            Expr::Const(_) | Expr::Var(_) | Expr::Not(_) => false,
        },
    }
}

/// Whether an expression is the negation of another.
pub fn is_negation_of(e: &Expr, f: &Expr) -> bool
    ensures { result ≡ tree.same (term e.now) (neg (term f.now)) }
{
    match e {
        Expr::Not(a) => same(a, f),
        Expr::Const(_) | Expr::Var(_) | Expr::Bin(..) => false,
    }
}

/// Whether an expression is an equation of equal sides.
pub fn is_reflexive(e: &Expr) -> bool
    ensures { result ≡ is_reflexive (spec.operands Eq (term e.now)) }
{
    match operands(Op::Eq, e) {
        Some((a, b)) => same(a, b),
        None => false,
    }
}
