//! The search of a depth: that of one less, and then each step at the root with a search of one less for its children.

ghost use Rattle.std.specs.Prelude.{◌≡◌, ◌<◌, ◌≤◌, [], ◌∷◌, ◌++◌, suc, false, true, IfOk, map, option_map, take, length, None, Some};
ghost use Rattle.cov_expr.specs.declared.expr.Op.TheVariants.{Both, Either};
ghost use Rattle.cov_expr.specs.View.{term};
ghost use Rattle.cov_ast.specs.View as view;
ghost use Rattle.entail_range.specs.Range.{lent};
ghost use Rattle.entail_cert.specs.Axioms.{numbered};
ghost use Rattle.entail_cert.specs.Valid as valid;
ghost use Rattle.cert_search.specs.Classes as class;
ghost use Rattle.cert_search.specs.Searching as spec;

use crate::leaves::leaf_after;
use crate::nodes;
use crate::replaced::{may_interact, may_matter};
use crate::templates::{definition, filled, is_sound_template, is_within, opened};
use cov_ast::Cert;
use cov_expr::{Expr, List, NoMemory, Op, mentions};
use entail_cert::operands;
use std::alloc::Global;

/// The hypotheses and one more.
fn with_one<'a>(alloc: Global, hyps: &[&'a Expr], e: &'a Expr) -> Result<List<&'a Expr>, NoMemory>
    ensures { IfOk result (λ made. map lent made ≡ map lent hyps.now ++ term e.now ∷ []) }
{
    let mut made = List::with_capacity(alloc, hyps.len().saturating_add(1))?;
    made.extend_from_slice(hyps)?;
    made.push(e)?;
    Ok(made)
}

/// The hypotheses and two more.
fn with_two<'a>(
    alloc: Global,
    hyps: &[&'a Expr],
    e: &'a Expr,
    f: &'a Expr,
) -> Result<List<&'a Expr>, NoMemory>
    ensures { IfOk result (λ made. map lent made ≡ map lent hyps.now ++ term e.now ∷ term f.now ∷ []) }
{
    let mut made = List::with_capacity(alloc, hyps.len().saturating_add(2))?;
    made.extend_from_slice(hyps)?;
    made.push(e)?;
    made.push(f)?;
    Ok(made)
}

/// The certificate that a search of a depth comes to, if there is one. For the first so many hypotheses it comes to none, where `tried` isn't 0: then
/// only what the others have to do with is looked at.
#[cycle(search)]
#[tactic(auto, using(crate::proofs::Steps::search_less))]
pub fn search(
    alloc: Global,
    hyps: &[&Expr],
    tried: usize,
    goal: &Expr,
    depth: u32,
) -> Result<Option<Cert>, NoMemory>
    requires within { tried ≤ length hyps.now }
    requires none { 0 < tried → spec.search depth (take tried (map lent hyps.now)) (term goal.now) ≡ None }
    ensures { IfOk result (λ found. option_map view.cert found ≡ spec.search depth (map lent hyps.now) (term goal.now)) }
{
    if depth == 0 {
        return leaf_after(alloc, hyps, tried, goal);
    }
    if let Some(found) = search(alloc, hyps, tried, goal, depth - 1)? {
        return Ok(Some(found));
    }
    step(alloc, hyps, tried, goal, depth - 1)
}

/// The same with one more hypothesis.
#[cycle(search)]
fn search_with(
    alloc: Global,
    hyps: &[&Expr],
    e: &Expr,
    goal: &Expr,
    depth: u32,
) -> Result<Option<Cert>, NoMemory>
    requires { spec.search depth (map lent hyps.now) (term goal.now) ≡ None }
    ensures { IfOk result (λ found. option_map view.cert found ≡ spec.search depth (map lent hyps.now ++ term e.now ∷ []) (term goal.now)) }
{
    let more = with_one(alloc, &*hyps, &*e)?;
    search(alloc, more.as_slice(), hyps.len(), goal, depth)
}

/// One step, with searches of a depth below it.
#[cycle(search)]
fn step(
    alloc: Global,
    hyps: &[&Expr],
    tried: usize,
    goal: &Expr,
    below: u32,
) -> Result<Option<Cert>, NoMemory>
    requires none { spec.search below (map lent hyps.now) (term goal.now) ≡ None }
    requires within { tried ≤ length hyps.now }
    requires known { 0 < tried → spec.search (suc below) (take tried (map lent hyps.now)) (term goal.now) ≡ None }
    ensures { IfOk result (λ found. option_map view.cert found ≡ spec.step (spec.search below) (map lent hyps.now) (term goal.now)) }
{
    if let Some(found) = by_both(alloc, hyps, goal, below)? {
        return Ok(Some(found));
    }
    if let Some(found) = by_either(alloc, hyps, goal, below)? {
        return Ok(Some(found));
    }
    if let Some(found) = by_hypotheses(alloc, hyps, goal, below)? {
        return Ok(Some(found));
    }
    by_lemmas(alloc, hyps, tried, goal, below)
}

/// Where the goal is a conjunction, both parts.
#[cycle(search)]
fn by_both(alloc: Global, hyps: &[&Expr], goal: &Expr, below: u32) -> Result<Option<Cert>, NoMemory>
    requires { spec.search below (map lent hyps.now) (term goal.now) ≡ None }
    ensures { IfOk result (λ found. option_map view.cert found ≡
        spec.by_both (spec.search below) (map lent hyps.now) (term goal.now) (valid.operands Both (term goal.now))) }
{
    let Some((a, b)) = operands(Op::Both, goal) else {
        return Ok(None);
    };
    let Some(c) = search(alloc, hyps, 0, a, below)? else {
        return Ok(None);
    };
    let d = search(alloc, hyps, 0, b, below)?;
    nodes::both(alloc, c, d)
}

/// Where the goal is a disjunction, one of its parts.
#[cycle(search)]
fn by_either(
    alloc: Global,
    hyps: &[&Expr],
    goal: &Expr,
    below: u32,
) -> Result<Option<Cert>, NoMemory>
    requires { spec.search below (map lent hyps.now) (term goal.now) ≡ None }
    ensures { IfOk result (λ found. option_map view.cert found ≡
        spec.by_either (spec.search below) (map lent hyps.now) (term goal.now) (valid.operands Either (term goal.now))) }
{
    let Some((a, b)) = operands(Op::Either, goal) else {
        return Ok(None);
    };
    if let Some(c) = search(alloc, hyps, 0, a, below)? {
        let made = nodes::left(alloc, c)?;
        return Ok(Some(made));
    }
    if let Some(c) = search(alloc, hyps, 0, b, below)? {
        let made = nodes::right(alloc, c)?;
        return Ok(Some(made));
    }
    Ok(None)
}

/// A hypothesis taken apart, or a replacement in the goal by it, of each in turn.
#[cycle(search)]
fn by_hypotheses(
    alloc: Global,
    hyps: &[&Expr],
    goal: &Expr,
    below: u32,
) -> Result<Option<Cert>, NoMemory>
    requires { spec.search below (map lent hyps.now) (term goal.now) ≡ None }
    ensures { IfOk result (λ found. option_map view.cert found ≡
        spec.by_hypotheses (spec.search below) (map lent hyps.now) (term goal.now) 1 (map lent hyps.now)) }
{
    for (i, h) in hyps.iter().enumerate() {
        let n = nodes::number_at(i)?;
        if let Some(found) = by_hypothesis(alloc, hyps, goal, below, n, h)? {
            return Ok(Some(found));
        }
    }
    Ok(None)
}

/// The same by one hypothesis.
#[cycle(search)]
fn by_hypothesis(
    alloc: Global,
    hyps: &[&Expr],
    goal: &Expr,
    below: u32,
    n: u32,
    h: &Expr,
) -> Result<Option<Cert>, NoMemory>
    requires { spec.search below (map lent hyps.now) (term goal.now) ≡ None }
    ensures { IfOk result (λ found. option_map view.cert found ≡
        spec.by_hypothesis (spec.search below) (map lent hyps.now) (term goal.now) n (term h.now)) }
{
    if let Some(found) = by_parts(alloc, hyps, goal, below, n, h)? {
        return Ok(Some(found));
    }
    if let Some(found) = by_cases(alloc, hyps, goal, below, n, h)? {
        return Ok(Some(found));
    }
    by_replacement(alloc, hyps, goal, below, n, h)
}

/// Both parts of a conjunction as hypotheses.
#[cycle(search)]
fn by_parts(
    alloc: Global,
    hyps: &[&Expr],
    goal: &Expr,
    below: u32,
    n: u32,
    h: &Expr,
) -> Result<Option<Cert>, NoMemory>
    requires { spec.search below (map lent hyps.now) (term goal.now) ≡ None }
    ensures { IfOk result (λ found. option_map view.cert found ≡
        spec.by_parts (spec.search below) (map lent hyps.now) (term goal.now) n (valid.operands Both (term h.now))) }
{
    let Some((a, b)) = operands(Op::Both, h) else {
        return Ok(None);
    };
    let more = with_two(alloc, &*hyps, &*a, &*b)?;
    let Some(c) = search(alloc, more.as_slice(), hyps.len(), goal, below)? else {
        return Ok(None);
    };
    let made = nodes::unpacked(alloc, n, c)?;
    Ok(Some(made))
}

/// Each part of a disjunction as a hypothesis.
#[cycle(search)]
fn by_cases(
    alloc: Global,
    hyps: &[&Expr],
    goal: &Expr,
    below: u32,
    n: u32,
    h: &Expr,
) -> Result<Option<Cert>, NoMemory>
    requires { spec.search below (map lent hyps.now) (term goal.now) ≡ None }
    ensures { IfOk result (λ found. option_map view.cert found ≡
        spec.by_cases (spec.search below) (map lent hyps.now) (term goal.now) n (valid.operands Either (term h.now))) }
{
    let Some((a, b)) = operands(Op::Either, h) else {
        return Ok(None);
    };
    let Some(c) = search_with(alloc, hyps, a, goal, below)? else {
        return Ok(None);
    };
    let d = search_with(alloc, hyps, b, goal, below)?;
    nodes::cases(alloc, n, c, d)
}

/// A replacement in the goal by an equation.
#[cycle(search)]
fn by_replacement(
    alloc: Global,
    hyps: &[&Expr],
    goal: &Expr,
    below: u32,
    n: u32,
    h: &Expr,
) -> Result<Option<Cert>, NoMemory>
    requires { spec.search below (map lent hyps.now) (term goal.now) ≡ None }
    ensures { IfOk result (λ found. option_map view.cert found ≡
        spec.by_replacement (spec.search below) (map lent hyps.now) (term goal.now) n (class.definition_in (Some (term h.now)))) }
{
    let Some((x, e)) = definition(h) else {
        return Ok(None);
    };
    if !mentions(goal, x) {
        return Ok(None);
    }
    let t = opened(alloc, goal, x)?;
    if !is_sound_template(&t, x, goal) {
        return Ok(None);
    }
    let next = filled(alloc, &t, e)?;
    let Some(c) = search(alloc, hyps, 0, &next, below)? else {
        return Ok(None);
    };
    let made = nodes::forward(alloc, n, t, c)?;
    Ok(Some(made))
}

/// A replacement in a hypothesis, by each that is an equation in turn.
#[cycle(search)]
fn by_lemmas(
    alloc: Global,
    hyps: &[&Expr],
    tried: usize,
    goal: &Expr,
    below: u32,
) -> Result<Option<Cert>, NoMemory>
    requires none { spec.search below (map lent hyps.now) (term goal.now) ≡ None }
    requires within { tried ≤ length hyps.now }
    requires known { 0 < tried → spec.search (suc below) (take tried (map lent hyps.now)) (term goal.now) ≡ None }
    ensures { IfOk result (λ found. option_map view.cert found ≡
        spec.by_lemmas (spec.search below) (map lent hyps.now) (term goal.now) 1 (map lent hyps.now)) }
{
    for (i, h) in hyps.iter().enumerate() {
        let n = nodes::number_at(i)?;
        if let Some(found) = by_one(alloc, hyps, tried, goal, below, n, h)? {
            return Ok(Some(found));
        }
    }
    Ok(None)
}

/// A replacement in a hypothesis by this one, where it is an equation.
#[cycle(search)]
fn by_one(
    alloc: Global,
    hyps: &[&Expr],
    tried: usize,
    goal: &Expr,
    below: u32,
    i: u32,
    h: &Expr,
) -> Result<Option<Cert>, NoMemory>
    requires none { spec.search below (map lent hyps.now) (term goal.now) ≡ None }
    requires within { tried ≤ length hyps.now }
    requires known { 0 < tried → spec.search (suc below) (take tried (map lent hyps.now)) (term goal.now) ≡ None }
    requires there { numbered (map lent hyps.now) i ≡ Some (term h.now) }
    ensures { IfOk result (λ found. option_map view.cert found ≡
        spec.by_one (spec.search below) (map lent hyps.now) (term goal.now) i (class.definition_in (Some (term h.now)))) }
{
    match definition(h) {
        Some((x, e)) => by_equation(alloc, hyps, tried, goal, below, i, x, e),
        None => Ok(None),
    }
}

/// A replacement in each hypothesis in turn, by the equation of a number.
#[cycle(search)]
fn by_equation(
    alloc: Global,
    hyps: &[&Expr],
    tried: usize,
    goal: &Expr,
    below: u32,
    i: u32,
    x: u32,
    e: &Expr,
) -> Result<Option<Cert>, NoMemory>
    requires none { spec.search below (map lent hyps.now) (term goal.now) ≡ None }
    requires within { tried ≤ length hyps.now }
    requires known { 0 < tried → spec.search (suc below) (take tried (map lent hyps.now)) (term goal.now) ≡ None }
    requires equation { class.definition_in (numbered (map lent hyps.now) i) ≡ Some (x, term e.now) }
    ensures { IfOk result (λ found. option_map view.cert found ≡
        spec.by_equation (spec.search below) (map lent hyps.now) (term goal.now) i x (term e.now) 1 (map lent hyps.now)) }
{
    for (k, h) in hyps.iter().enumerate() {
        let j = nodes::number_at(k)?;
        if let Some(found) = by_lemma(alloc, hyps, tried, goal, below, i, x, e, j, h)? {
            return Ok(Some(found));
        }
    }
    Ok(None)
}

/// Whether both hypotheses are among the first so many, and what a replacement makes of them has nothing to do with the others. Then no leaf is valid
/// with it.
fn is_apart(
    hyps: &[&Expr],
    tried: usize,
    i: u32,
    x: u32,
    e: &Expr,
    j: u32,
    h: &Expr,
    goal: &Expr,
) -> bool
    requires none { spec.leaf (map lent hyps.now) (term goal.now) ≡ None }
    requires within { tried ≤ length hyps.now }
    requires known { 0 < tried → spec.search 1 (take tried (map lent hyps.now)) (term goal.now) ≡ None }
    requires equation { class.definition_in (numbered (map lent hyps.now) i) ≡ Some (x, term e.now) }
    requires there { numbered (map lent hyps.now) j ≡ Some (term h.now) }
    ensures { result ≡ true → spec.by_lemma (spec.search 0) (map lent hyps.now) (term goal.now) i x (term e.now) j (term h.now) ≡ None }
{
    if are_old(tried, i, j) {
        let more = &hyps[tried..];
        !may_interact(more, h, x, e, goal)
    } else {
        false
    }
}

/// Whether both numbers are those of hypotheses among the first so many.
fn are_old(tried: usize, i: u32, j: u32) -> bool
    ensures { result ≡ true → (0 < tried) × ((i ≤ tried) × (j ≤ tried)) }
{
    0 < tried && i as usize <= tried && j as usize <= tried
}

/// A replacement of a variable in one hypothesis, of number j, by the equation of number i. Nothing is built where it can be seen before that no
/// certificate comes of it.
#[cycle(search)]
#[tactic(auto, using(crate::proofs::Pairs::lemma_at, crate::proofs::Replacements::lemma_irrelevant_at))]
fn by_lemma(
    alloc: Global,
    hyps: &[&Expr],
    tried: usize,
    goal: &Expr,
    below: u32,
    i: u32,
    x: u32,
    e: &Expr,
    j: u32,
    h: &Expr,
) -> Result<Option<Cert>, NoMemory>
    requires none { spec.search below (map lent hyps.now) (term goal.now) ≡ None }
    requires within { tried ≤ length hyps.now }
    requires known { 0 < tried → spec.search (suc below) (take tried (map lent hyps.now)) (term goal.now) ≡ None }
    requires equation { class.definition_in (numbered (map lent hyps.now) i) ≡ Some (x, term e.now) }
    requires there { numbered (map lent hyps.now) j ≡ Some (term h.now) }
    ensures { IfOk result (λ found. option_map view.cert found ≡
        spec.by_lemma (spec.search below) (map lent hyps.now) (term goal.now) i x (term e.now) j (term h.now)) }
{
    if i == j {
        return Ok(None);
    }
    if below == 0 && is_apart(hyps, tried, i, x, e, j, h, goal) {
        return Ok(None);
    }
    if !mentions(h, x) {
        return Ok(None);
    }
    if below == 0 && !may_matter(hyps, h, x, e, goal) {
        return Ok(None);
    }
    let t = opened(alloc, h, x)?;
    if !is_sound_template(&t, x, h) {
        return Ok(None);
    }
    let made = filled(alloc, &t, e)?;
    if !is_within(&made) {
        return Ok(None);
    }
    let Some(c) = search_with(alloc, hyps, &made, goal, below)? else {
        return Ok(None);
    };
    let node = nodes::lemma(alloc, made, i, t, j, c)?;
    Ok(Some(node))
}
