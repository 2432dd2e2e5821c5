//! Expressions as callers get them, without places.

ghost use Rattle.std.specs.Prelude.{◌≡◌, map, option_map, IfOk};
ghost use Rattle.cov_expr.specs.View.{term};
ghost use Rattle.cov_text.specs.GivenTrees as spec;
ghost use Rattle.cov_read.specs.CertViews as certs;

use crate::turned::turned;
use cov_expr::{Expr, List, NoMemory};
use cov_read::Whole;
use std::alloc::Global;

/// An expression without its place.
pub fn expr_of(e: Whole) -> Expr
    ensures { term result ≡ spec.expr_of (certs.whole e) }
{
    let Whole { at: _, expr } = e;
    expr.into_expr()
}

/// Expressions without their places.
pub fn exprs_of(alloc: Global, es: List<Whole>) -> Result<List<Expr>, NoMemory>
    ensures { IfOk result (λ made. map term made ≡ map spec.expr_of (map certs.whole es)) }
{
    let mut rest = turned(es);
    let mut made = List::with_capacity(alloc, rest.len())?;
    while let Some(e) = rest.pop() {
        made.push(expr_of(e))?;
    }
    Ok(made)
}

/// An expression without its place, if there is one.
pub fn option_of(e: Option<Whole>) -> Option<Expr>
    ensures { option_map term result ≡ option_map spec.expr_of (option_map certs.whole e) }
{
    match e {
        Some(e) => Some(expr_of(e)),
        None => None,
    }
}
