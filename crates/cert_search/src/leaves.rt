//! Leaves: certificates of one node.

ghost use Rattle.std.specs.Prelude.{◌≡◌, ◌<◌, ◌≤◌, IfOk, map, option_map, take, length, None};
ghost use Rattle.cov_expr.specs.View.{term};
ghost use Rattle.cov_ast.specs.Syntax as by;
ghost use Rattle.cov_ast.specs.View as view;
ghost use Rattle.entail_range.specs.Range.{lent};
ghost use Rattle.entail_cert.specs.Valid as valid;
ghost use Rattle.cert_search.specs.Searching as spec;

use crate::conditions::{is_plain, is_range, is_reflexive, is_ring};
use crate::nodes::number_at;
use crate::relevance::matters;
use cov_ast::Cert;
use cov_expr::{Expr, NoMemory, same};
use entail_cert::negated;
use std::alloc::Global;

/// The first leaf that is valid.
pub fn leaf(alloc: Global, hyps: &[&Expr], goal: &Expr) -> Result<Option<Cert>, NoMemory>
    ensures { IfOk result (λ found. option_map view.cert found ≡ spec.leaf (map lent hyps.now) (term goal.now)) }
{
    if is_plain(hyps, goal) {
        return Ok(Some(Cert::Auto));
    }
    if is_reflexive(goal) {
        return Ok(Some(Cert::Refl));
    }
    if is_range(alloc, hyps, goal)? {
        return Ok(Some(Cert::Range));
    }
    if is_ring(alloc, goal)? {
        return Ok(Some(Cert::Ring));
    }
    contradiction(hyps)
}

/// The same, where no leaf is valid for the first so many hypotheses, if they are any. The others are looked at first: mostly they don't
/// matter.
pub fn leaf_after(
    alloc: Global,
    hyps: &[&Expr],
    tried: usize,
    goal: &Expr,
) -> Result<Option<Cert>, NoMemory>
    requires within { tried ≤ length hyps.now }
    requires none { 0 < tried → spec.leaf (take tried (map lent hyps.now)) (term goal.now) ≡ None }
    ensures { IfOk result (λ found. option_map view.cert found ≡ spec.leaf (map lent hyps.now) (term goal.now)) }
{
    if tried == 0 {
        return leaf(alloc, hyps, goal);
    }
    let more = &hyps[tried..];
    if matters(hyps, more, goal) {
        return leaf(alloc, hyps, goal);
    }
    Ok(None)
}

/// The first hypothesis that denies another.
fn contradiction(hyps: &[&Expr]) -> Result<Option<Cert>, NoMemory>
    ensures { IfOk result (λ found. option_map view.cert found ≡ spec.contradiction (map lent hyps.now) 1 (map lent hyps.now)) }
{
    for (j, h) in hyps.iter().enumerate() {
        if let Some(i) = denied_by(hyps, h)? {
            let n = number_at(j)?;
            return Ok(Some(Cert::Absurd(i, n)));
        }
    }
    Ok(None)
}

/// The number of a hypothesis that an expression denies.
fn denied_by(hyps: &[&Expr], h: &Expr) -> Result<Option<u32>, NoMemory>
    ensures { IfOk result (λ found. found ≡ spec.denied_by (map lent hyps.now) (valid.negated (term h.now))) }
{
    match negated(h) {
        Some(a) => number_of(hyps, a),
        None => Ok(None),
    }
}

/// The number of the first hypothesis that is equal.
fn number_of(hyps: &[&Expr], e: &Expr) -> Result<Option<u32>, NoMemory>
    ensures { IfOk result (λ found. found ≡ spec.number_of (map lent hyps.now) 1 (term e.now)) }
{
    for (i, h) in hyps.iter().enumerate() {
        if same(h, e) {
            let n = number_at(i)?;
            return Ok(Some(n));
        }
    }
    Ok(None)
}
