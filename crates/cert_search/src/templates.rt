//! Equations `x == e`, and templates.

ghost use Rattle.std.specs.Prelude.{◌≡◌, IfOk, Some, None, option_map};
ghost use Rattle.cov_expr.specs.declared.expr.TheConstants.{HOLE};
ghost use Rattle.cov_expr.specs.Trees as tree;
ghost use Rattle.cov_expr.specs.View.{term};
ghost use Rattle.entail_cert.specs.Valid as valid;
ghost use Rattle.cert_search.specs.Classes as class;
ghost use Rattle.cert_search.specs.Searching as spec;

use cov_expr::{
    Expr, HOLE, MOST_HEIGHT, MOST_NODES, NoMemory, Op, height_at_most, nodes_at_most, same, subst,
};
use entail_cert::operands;
use std::alloc::Global;

/// The variable and the other side, where a hypothesis is an equation whose left side is a variable.
pub fn definition(h: &Expr) -> Option<(u32, &Expr)>
    ensures { option_map (λ p. (p.0, term p.1.now)) result ≡ class.definition_in (Some (term h.now)) }
{
    match operands(Op::Eq, h) {
        Some((Expr::Var(x), e)) => Some((*x, e)),
        Some((Expr::Const(_) | Expr::Not(_) | Expr::Bin(..), _)) | None => None,
    }
}

/// Whether an expression is within the limits of one in a text.
pub fn is_within(e: &Expr) -> bool
    ensures { result ≡ class.is_within (term e.now) }
{
    nodes_at_most(e, MOST_NODES) && height_at_most(e, MOST_HEIGHT)
}

/// An expression as a template, with a hole in the place of each occurrence of a variable.
pub fn opened(alloc: Global, e: &Expr, x: u32) -> Result<Expr, NoMemory>
    ensures { IfOk result (λ made. term made ≡ class.opened (term e.now) x) }
{
    subst(alloc, e, x, &Expr::Var(HOLE))
}

/// A template with an expression in the place of each hole.
pub fn filled(alloc: Global, t: &Expr, e: &Expr) -> Result<Expr, NoMemory>
    ensures { IfOk result (λ made. term made ≡ valid.filled (term t.now) (term e.now)) }
{
    subst(alloc, t, HOLE, e)
}

/// Whether an expression is a template with a part in the place of each hole. Nothing is built.
pub fn is_filled(template: &Expr, part: &Expr, e: &Expr) -> bool
    ensures { result ≡ tree.same (valid.filled (term template.now) (term part.now)) (term e.now) }
{
    match template {
        Expr::Var(x) if *x == HOLE => same(part, e),
        Expr::Const(_) | Expr::Var(_) => same(template, e),
        Expr::Not(t) => match e {
            Expr::Not(a) => is_filled(t, part, a),
            Expr::Const(_) | Expr::Var(_) | Expr::Bin(..) => false,
        },
        Expr::Bin(op, t, u) => match e {
            Expr::Bin(o, a, b) => *op == *o && is_filled(t, part, a) && is_filled(u, part, b),
            Expr::Const(_) | Expr::Var(_) | Expr::Not(_) => false,
        },
    }
}

/// Whether a template is within the limits, and has the whole again where the variable is put into its holes.
pub fn is_sound_template(t: &Expr, x: u32, whole: &Expr) -> bool
    ensures { result ≡ spec.is_sound_template (term t.now) x (term whole.now) }
{
    is_within(t) && is_filled(t, &Expr::Var(x), whole)
}
