//! Whether a certificate is within the limits of those of a text.

ghost use Rattle.std.specs.Prelude.{◌≡◌, ◌+◌, false, min, map};
ghost use Rattle.std.specs.List.{list_any, list_all};
ghost use Rattle.cov_expr.specs.declared.limits.TheConstants.{MOST_CERT_NODES, MOST_HEIGHT};
ghost use Rattle.cov_expr.specs.Trees as tree;
ghost use Rattle.cov_expr.specs.View.{term};
ghost use Rattle.cov_ast.specs.View as view;
ghost use Rattle.entail_search.specs.Within as spec;

use cov_ast::Cert;
use cov_expr::{
    Expr, HOLE, MOST_CERT_NODES, MOST_HEIGHT, MOST_NODES, height_at_most, mentions, nodes_at_most,
};

/// One node above the most that a certificate may have.
const CERT_NODES: u32 = MOST_CERT_NODES + 1;

/// One above the greatest height of a certificate.
const CERT_HEIGHT: u32 = MOST_HEIGHT + 1;

/// The nodes of a certificate, or one above the most.
pub fn cert_nodes(cert: &Cert) -> u32
    ensures { result ≡ min (spec.cert_nodes (view.cert cert.now)) (MOST_CERT_NODES + 1) }
{
    match cert {
        Cert::Auto | Cert::Calc | Cert::Refl | Cert::Ring | Cert::Range => 1,
        Cert::Hyp(_) | Cert::Clash(_) | Cert::Absurd(_, _) => 1,
        Cert::And(c, d) | Cert::Cases(_, c, d) | Cert::Split(_, c, d) | Cert::Have(_, c, d) => {
            (1 + cert_nodes(c) + cert_nodes(d)).min(CERT_NODES)
        }
        Cert::Left(c)
        | Cert::Right(c)
        | Cert::Unpack(_, c)
        | Cert::Not(c)
        | Cert::Contra(c)
        | Cert::Fwd(_, _, c)
        | Cert::Rev(_, _, c)
        | Cert::Axiom(_, _, c) => (1 + cert_nodes(c)).min(CERT_NODES),
    }
}

/// The height of a certificate, or one above the most.
pub fn cert_height(cert: &Cert) -> u32
    ensures { result ≡ min (spec.cert_height (view.cert cert.now)) (MOST_HEIGHT + 1) }
{
    match cert {
        Cert::Auto | Cert::Calc | Cert::Refl | Cert::Ring | Cert::Range => 1,
        Cert::Hyp(_) | Cert::Clash(_) | Cert::Absurd(_, _) => 1,
        Cert::And(c, d) | Cert::Cases(_, c, d) | Cert::Split(_, c, d) | Cert::Have(_, c, d) => {
            (1 + cert_height(c).max(cert_height(d))).min(CERT_HEIGHT)
        }
        Cert::Left(c)
        | Cert::Right(c)
        | Cert::Unpack(_, c)
        | Cert::Not(c)
        | Cert::Contra(c)
        | Cert::Fwd(_, _, c)
        | Cert::Rev(_, _, c)
        | Cert::Axiom(_, _, c) => (1 + cert_height(c)).min(CERT_HEIGHT),
    }
}

/// Whether one of these mentions a variable.
fn any_mentions(hyps: &[Expr], x: u32) -> bool
    ensures { result ≡ list_any (λ h. tree.mentions h x) (map term hyps.now) }
{
    for h in hyps {
        if mentions(h, x) {
            return true;
        }
    }
    false
}

/// Whether a hypothesis or the goal mentions each variable of an expression, but for holes, where they may be.
fn is_known(hyps: &[Expr], goal: &Expr, hole: bool, e: &Expr) -> bool
    ensures { result ≡ spec.is_known (map term hyps.now) (term goal.now) hole (term e.now) }
{
    match e {
        Expr::Const(k) => {
            let _number = *k;
            true
        }
        Expr::Var(x) => (hole && *x == HOLE) || mentions(goal, *x) || any_mentions(hyps, *x),
        Expr::Not(a) => is_known(hyps, goal, hole, a),
        Expr::Bin(_, a, b) => is_known(hyps, goal, hole, a) && is_known(hyps, goal, hole, b),
    }
}

/// Whether that is so, and an expression is within the limits.
fn is_fit(hyps: &[Expr], goal: &Expr, hole: bool, e: &Expr) -> bool
    ensures { result ≡ spec.is_fit (map term hyps.now) (term goal.now) hole (term e.now) }
{
    nodes_at_most(e, MOST_NODES) && height_at_most(e, MOST_HEIGHT) && is_known(hyps, goal, hole, e)
}

/// Whether each of these expressions is fit.
fn are_fit(hyps: &[Expr], goal: &Expr, es: &[Expr]) -> bool
    ensures { result ≡ list_all (spec.is_fit (map term hyps.now) (term goal.now) false) (map term es.now) }
{
    for e in es {
        if !is_fit(hyps, goal, false, e) {
            return false;
        }
    }
    true
}

/// Whether each expression of a certificate is.
pub fn has_fit_expressions(hyps: &[Expr], goal: &Expr, cert: &Cert) -> bool
    ensures { result ≡ spec.has_fit_expressions (map term hyps.now) (term goal.now) (view.cert cert.now) }
{
    match cert {
        Cert::Auto | Cert::Calc | Cert::Refl | Cert::Ring | Cert::Range => true,
        Cert::Hyp(_) | Cert::Clash(_) | Cert::Absurd(_, _) => true,
        Cert::And(c, d) | Cert::Cases(_, c, d) => {
            has_fit_expressions(hyps, goal, c) && has_fit_expressions(hyps, goal, d)
        }
        Cert::Split(e, c, d) | Cert::Have(e, c, d) => {
            is_fit(hyps, goal, false, e)
                && has_fit_expressions(hyps, goal, c)
                && has_fit_expressions(hyps, goal, d)
        }
        Cert::Left(c) | Cert::Right(c) | Cert::Unpack(_, c) | Cert::Not(c) | Cert::Contra(c) =>
            has_fit_expressions(hyps, goal, c),
        Cert::Fwd(_, t, c) | Cert::Rev(_, t, c) => {
            is_fit(hyps, goal, true, t) && has_fit_expressions(hyps, goal, c)
        }
        Cert::Axiom(_, es, c) => {
            are_fit(hyps, goal, es.as_slice()) && has_fit_expressions(hyps, goal, c)
        }
    }
}
