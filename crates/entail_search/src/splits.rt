//! Disjunctions among the hypotheses, taken apart.

ghost use Rattle.std.specs.Prelude.{◌≡◌, ◌+◌, ◌++◌, ◌∷◌, [], length, IfOk, map, option_map};
ghost use Rattle.cov_expr.specs.declared.expr.Op.TheVariants.{Either};
ghost use Rattle.cov_expr.specs.View.{term};
ghost use Rattle.cov_ast.specs.View as view;
ghost use Rattle.entail_range.specs.Range.{lent};
ghost use Rattle.entail_cert.specs.Valid as valid;
ghost use Rattle.entail_search.specs.Deeper as spec;

use crate::chains::{MOST_LINKS, chains};
use crate::closing::{shown, with_one};
use crate::nodes;
use crate::nodes::{child, number_at, number_of};
use crate::readings::gathered;
use cov_ast::Cert;
use cov_expr::{Expr, NoMemory, Op, boxed, copy};
use entail_cert::{negated, operands};
use std::alloc::Global;

/// Disjunctions that are nested in a disjunction, at most, where one is taken apart.
pub const MOST_PARTS: u32 = 4;

/// Disjunctions that are tried at one place, at most.
pub const MOST_TRIED: u32 = 4;

/// Disjunctions that are taken apart one inside the other, at most.
pub const MOST_SPLITS: u32 = 2;

/// A certificate by the facts of hypotheses.
fn by_readings(alloc: Global, hyps: &[&Expr], goal: &Expr) -> Result<Option<Cert>, NoMemory>
    ensures { IfOk result (λ found. option_map view.cert found ≡ spec.by_readings (map lent hyps.now) (term goal.now)) }
{
    let n = number_of(hyps)?;
    let links = gathered(alloc, n, hyps)?;
    let facts = chains(alloc, n, hyps, links.as_slice(), MOST_LINKS)?;
    shown(alloc, hyps, facts.as_slice(), goal)
}

/// A certificate of a negation, by what follows from what it negates.
fn by_denial(alloc: Global, hyps: &[&Expr], goal: &Expr) -> Result<Option<Cert>, NoMemory>
    ensures { IfOk result (λ found. option_map view.cert found ≡ spec.by_denial (map lent hyps.now) (valid.negated (term goal.now))) }
{
    let Some(e) = negated(goal) else {
        return Ok(None);
    };
    let more = with_one(alloc, &*hyps, &*e)?;
    let Some(c) = by_readings(alloc, more.as_slice(), &Expr::Const(0))? else {
        return Ok(None);
    };
    let part = child(alloc, c)?;
    let made = Cert::Not(part);
    Ok(Some(made))
}

/// `a || b`, by `b` where `a` doesn't hold.
fn where_fails(alloc: Global, hyps: &[&Expr], a: &Expr, b: &Expr) -> Result<Option<Cert>, NoMemory>
    ensures { IfOk result (λ found. option_map view.cert found ≡ spec.where_fails (map lent hyps.now) (term a.now) (term b.now)) }
{
    let inside = copy(alloc, a)?;
    let denied = Expr::Not(boxed(alloc, inside)?);
    let more = with_one(alloc, &*hyps, &denied)?;
    let Some(c) = by_readings(alloc, more.as_slice(), b)? else {
        return Ok(None);
    };
    let first = nodes::left(alloc, Cert::Auto)?;
    let second = nodes::right(alloc, c)?;
    let made = nodes::split(alloc, a, first, second)?;
    Ok(Some(made))
}

/// A certificate without a case.
fn at_once(alloc: Global, hyps: &[&Expr], goal: &Expr) -> Result<Option<Cert>, NoMemory>
    ensures { IfOk result (λ found. option_map view.cert found ≡ spec.at_once (map lent hyps.now) (term goal.now)) }
{
    if let Some(found) = by_readings(alloc, hyps, goal)? {
        return Ok(Some(found));
    }
    if let Some(found) = by_denial(alloc, hyps, goal)? {
        return Ok(Some(found));
    }
    let Some((a, b)) = operands(Op::Either, goal) else {
        return Ok(None);
    };
    match negated(a) {
        Some(x) => {
            let more = with_one(alloc, &*hyps, &*x)?;
            let Some(c) = by_readings(alloc, more.as_slice(), b)? else {
                return Ok(None);
            };
            let first = nodes::right(alloc, c)?;
            let second = nodes::left(alloc, Cert::Auto)?;
            let made = nodes::split(alloc, x, first, second)?;
            Ok(Some(made))
        }
        None => where_fails(alloc, hyps, a, b),
    }
}

/// A certificate with so many disjunctions taken apart one inside the other, at most.
#[cycle(splits)]
#[tactic(auto, using(crate::proofs::Steps::splits_less))]
pub fn by_splits(
    alloc: Global,
    hyps: &[&Expr],
    goal: &Expr,
    depth: u32,
) -> Result<Option<Cert>, NoMemory>
    ensures { IfOk result (λ found. option_map view.cert found ≡ spec.by_splits depth (map lent hyps.now) (term goal.now)) }
{
    if let Some(found) = at_once(alloc, hyps, goal)? {
        return Ok(Some(found));
    }
    if depth == 0 {
        return Ok(None);
    }
    by_disjunctions(alloc, hyps, goal, depth - 1)
}

/// By the first disjunction that does, among some of the hypotheses.
#[cycle(splits)]
fn by_disjunctions(
    alloc: Global,
    hyps: &[&Expr],
    goal: &Expr,
    below: u32,
) -> Result<Option<Cert>, NoMemory>
    ensures { IfOk result (λ found. option_map view.cert found ≡
        spec.by_disjunctions (spec.by_splits below) (term goal.now) (map lent hyps.now) MOST_TRIED 1 (map lent hyps.now)) }
{
    let mut left = MOST_TRIED;
    for (i, h) in hyps.iter().enumerate() {
        if left == 0 {
            return Ok(None);
        }
        if is_disjunction(h) {
            let n = number_at(i)?;
            if let Some(found) = in_parts(alloc, hyps, goal, below, MOST_PARTS, n, h)? {
                return Ok(Some(found));
            }
            left = left - 1;
        }
    }
    Ok(None)
}

fn is_disjunction(e: &Expr) -> bool
    ensures { result ≡ spec.is_there (valid.operands Either (term e.now)) }
{
    match operands(Op::Either, e) {
        Some(_) => true,
        None => false,
    }
}

/// The goal in each part of a hypothesis of a number that is a disjunction, and in each part of a part.
#[cycle(splits)]
#[tactic(auto, using(crate::proofs::Steps::parts_less))]
fn in_parts(
    alloc: Global,
    hyps: &[&Expr],
    goal: &Expr,
    below: u32,
    left: u32,
    n: u32,
    e: &Expr,
) -> Result<Option<Cert>, NoMemory>
    ensures { IfOk result (λ found. option_map view.cert found ≡
        spec.in_parts (spec.by_splits below) (term goal.now) left (map lent hyps.now) n (term e.now)) }
{
    if left == 0 {
        return by_splits(alloc, hyps, goal, below);
    }
    let Some((a, b)) = operands(Op::Either, e) else {
        return by_splits(alloc, hyps, goal, below);
    };
    let Some(c) = in_part(alloc, hyps, goal, below, left - 1, a)? else {
        return Ok(None);
    };
    let Some(d) = in_part(alloc, hyps, goal, below, left - 1, b)? else {
        return Ok(None);
    };
    let made = nodes::cases(alloc, n, c, d)?;
    Ok(Some(made))
}

/// The same of a part, which is a hypothesis more.
#[cycle(splits)]
fn in_part(
    alloc: Global,
    hyps: &[&Expr],
    goal: &Expr,
    below: u32,
    left: u32,
    e: &Expr,
) -> Result<Option<Cert>, NoMemory>
    ensures { IfOk result (λ found. option_map view.cert found ≡
        spec.in_parts (spec.by_splits below) (term goal.now) left (map lent hyps.now ++ term e.now ∷ []) (length hyps.now + 1) (term e.now)) }
{
    let n = number_at(hyps.len())?;
    let more = with_one(alloc, &*hyps, &*e)?;
    in_parts(alloc, more.as_slice(), goal, below, left, n, e)
}
