//! How a goal follows from the facts of hypotheses.

ghost use Rattle.std.specs.Prelude.{◌≡◌, ◌+◌, ◌≤◌, ◌++◌, ◌∷◌, [], Some, IfOk, map, option_map, length};
ghost use Rattle.cov_expr.specs.Trees as tree;
ghost use Rattle.cov_expr.specs.View.{term};
ghost use Rattle.cov_ast.specs.Syntax as by;
ghost use Rattle.cov_ast.specs.View as view;
ghost use Rattle.entail_range.specs.Range.{lent};
ghost use Rattle.cert_search.specs.Searching as searching;
ghost use Rattle.entail_search.specs.Closing as spec;
ghost use Rattle.entail_search.specs.Facts as facts;
ghost use Rattle.entail_search.specs.View.{fact};

use crate::chains::{comparison, linked};
use crate::facts::{Fact, order};
use crate::nodes;
use crate::nodes::{MOST_NUMBERED, number_of};
use cert_search::find_lent;
use cov_ast::Cert;
use cov_expr::{Expr, List, NoMemory, Op, copy, same};
use std::alloc::Global;
use tree_copies::copy_cert;

/// The hypotheses and one more.
pub fn with_one<'a>(
    alloc: Global,
    hyps: &[&'a Expr],
    e: &'a Expr,
) -> Result<List<&'a Expr>, NoMemory>
    ensures { IfOk result (λ made. map lent made ≡ map lent hyps.now ++ term e.now ∷ []) }
{
    let mut made = List::with_capacity(alloc, hyps.len().saturating_add(1))?;
    made.extend_from_slice(hyps)?;
    made.push(e)?;
    Ok(made)
}

/// A certificate of one node, with one hypothesis more.
fn leaf_with(alloc: Global, hyps: &[&Expr], e: &Expr, goal: &Expr) -> Result<Option<Cert>, NoMemory>
    ensures { IfOk result (λ found. option_map view.cert found ≡ searching.search 0 (map lent hyps.now ++ term e.now ∷ []) (term goal.now)) }
{
    let more = with_one(alloc, &*hyps, &*e)?;
    find_lent(alloc, more.as_slice(), goal, 0)
}

/// What follows where a fact is a hypothesis more.
fn have_fact(alloc: Global, f: &Fact, c: Cert) -> Result<Cert, NoMemory>
    ensures { IfOk result (λ made. view.cert made ≡ by.have (fact f.now).says (fact f.now).shown (view.cert c)) }
{
    let says = copy(alloc, &f.says)?;
    let why = copy_cert(alloc, &f.shown)?;
    nodes::have(alloc, says, why, c)
}

/// A goal that a fact says.
fn stated(alloc: Global, f: &Fact, goal: &Expr) -> Result<Option<Cert>, NoMemory>
    ensures { IfOk result (λ found. option_map view.cert found ≡ spec.stated (fact f.now) (term goal.now)) }
{
    if same(&f.says, goal) {
        let made = copy_cert(alloc, &f.shown)?;
        Ok(Some(made))
    } else {
        Ok(None)
    }
}

/// A goal `a <= c` by a fact `a < c`.
fn weaker(alloc: Global, n: u32, f: &Fact, goal: &Expr) -> Result<Option<Cert>, NoMemory>
    requires { n ≤ MOST_NUMBERED }
    ensures { IfOk result (λ found. option_map view.cert found ≡
        spec.weaker n (fact f.now) (facts.order_of (fact f.now).says) (facts.order_of (term goal.now))) }
{
    let Some((strict, a, c)) = order(&f.says) else {
        return Ok(None);
    };
    let Some((also, b, d)) = order(goal) else {
        return Ok(None);
    };
    if strict && !also && same(a, b) && same(c, d) {
        let last = nodes::by_premise(alloc, n + 1, n + 2)?;
        let step = nodes::axiom_of_two(alloc, 9, a, c, last)?;
        let made = have_fact(alloc, f, step)?;
        Ok(Some(made))
    } else {
        Ok(None)
    }
}

/// A goal by a leaf that a fact makes valid.
fn with_leaf(alloc: Global, hyps: &[&Expr], f: &Fact, goal: &Expr) -> Result<Option<Cert>, NoMemory>
    ensures { IfOk result (λ found. option_map view.cert found ≡ spec.with_leaf (map lent hyps.now) (fact f.now) (term goal.now)) }
{
    let Some(c) = leaf_with(alloc, hyps, &f.says, goal)? else {
        return Ok(None);
    };
    let made = have_fact(alloc, f, c)?;
    Ok(Some(made))
}

/// Any goal, where a fact leaves no value to this.
fn refuted_at(alloc: Global, hyps: &[&Expr], f: &Fact, a: &Expr) -> Result<Option<Cert>, NoMemory>
    ensures { IfOk result (λ found. option_map view.cert found ≡ spec.refuted_at (map lent hyps.now) (fact f.now) (term a.now)) }
{
    let n = number_of(hyps)?;
    let goal = nodes::pair(alloc, Op::Lt, a, a)?;
    let Some(c) = leaf_with(alloc, hyps, &f.says, &goal)? else {
        return Ok(None);
    };
    let step = nodes::axiom_of_one(alloc, 7, a, Cert::Absurd(n + 2, n + 3))?;
    let says = nodes::pair(alloc, Op::Lt, a, a)?;
    let rest = nodes::have(alloc, says, c, step)?;
    let made = have_fact(alloc, f, rest)?;
    Ok(Some(made))
}

/// Any goal, where a fact leaves no value to one of its sides.
fn refuted(alloc: Global, hyps: &[&Expr], f: &Fact) -> Result<Option<Cert>, NoMemory>
    ensures { IfOk result (λ found. option_map view.cert found ≡
        spec.refuted (map lent hyps.now) (fact f.now) (facts.order_of (fact f.now).says)) }
{
    let Some((_, a, b)) = order(&f.says) else {
        return Ok(None);
    };
    if let Some(found) = refuted_at(alloc, hyps, f, a)? {
        return Ok(Some(found));
    }
    refuted_at(alloc, hyps, f, b)
}

/// A comparison that a leaf makes valid, as a fact.
fn leaf_fact(
    alloc: Global,
    hyps: &[&Expr],
    strict: bool,
    a: &Expr,
    b: &Expr,
) -> Result<Option<Fact>, NoMemory>
    ensures { IfOk result (λ made. option_map fact made ≡ spec.leaf_fact (map lent hyps.now) strict (term a.now) (term b.now)) }
{
    let says = nodes::pair(alloc, comparison(strict), a, b)?;
    let Some(shown) = find_lent(alloc, hyps, &says, 0)? else {
        return Ok(None);
    };
    Ok(Some(Fact { says, shown }))
}

/// A goal that a fact says, or says more strictly.
fn says_goal(alloc: Global, n: u32, goal: &Expr, f: &Fact) -> Result<Option<Cert>, NoMemory>
    requires { n ≤ MOST_NUMBERED }
    ensures { IfOk result (λ found. option_map view.cert found ≡ spec.says_goal n (term goal.now) (fact f.now)) }
{
    if let Some(found) = stated(alloc, f, goal)? {
        return Ok(Some(found));
    }
    weaker(alloc, n, f, goal)
}

/// A goal by a fact that compares `a` and `b`, where it begins so, and by a leaf that compares `b` and `c`.
fn to_end(
    alloc: Global,
    hyps: &[&Expr],
    goal: &Expr,
    f: &Fact,
    first: bool,
    strict: bool,
    a: &Expr,
    b: &Expr,
    c: &Expr,
    low: &Expr,
) -> Result<Option<Cert>, NoMemory>
    ensures { IfOk result (λ found. option_map view.cert found ≡ searching.only_where (tree.same (term a.now) (term low.now))
        (spec.to_end (length hyps.now) (term goal.now) (fact f.now) (first, term a.now, term b.now) strict (term c.now)
        (spec.leaf_fact (map lent hyps.now) strict (term b.now) (term c.now)))) }
{
    if !same(a, low) {
        return Ok(None);
    }
    let n = number_of(hyps)?;
    let Some(g) = leaf_fact(alloc, hyps, strict, b, c)? else {
        return Ok(None);
    };
    let made = linked(alloc, n, f, &g, first, strict, a, b, c)?;
    says_goal(alloc, n, goal, &made)
}

/// A goal by a leaf that compares `a` and `b`, and by a fact that compares `b` and `c`, where it ends so.
fn from_start(
    alloc: Global,
    hyps: &[&Expr],
    goal: &Expr,
    f: &Fact,
    strict: bool,
    second: bool,
    a: &Expr,
    b: &Expr,
    c: &Expr,
    high: &Expr,
) -> Result<Option<Cert>, NoMemory>
    ensures { IfOk result (λ found. option_map view.cert found ≡ searching.only_where (tree.same (term c.now) (term high.now))
        (spec.from_start (length hyps.now) (term goal.now) (fact f.now) (second, term b.now, term c.now) strict (term a.now)
        (spec.leaf_fact (map lent hyps.now) strict (term a.now) (term b.now)))) }
{
    if !same(c, high) {
        return Ok(None);
    }
    let n = number_of(hyps)?;
    let Some(g) = leaf_fact(alloc, hyps, strict, a, b)? else {
        return Ok(None);
    };
    let made = linked(alloc, n, &g, f, strict, second, a, b, c)?;
    says_goal(alloc, n, goal, &made)
}

/// A goal by a fact that begins or ends as it does, and by a leaf.
fn by_ends(alloc: Global, hyps: &[&Expr], goal: &Expr, f: &Fact) -> Result<Option<Cert>, NoMemory>
    ensures { IfOk result (λ found. option_map view.cert found ≡
        spec.by_ends (map lent hyps.now) (term goal.now) (fact f.now) (facts.order_of (fact f.now).says) (facts.order_of (term goal.now))) }
{
    let Some((first, a, b)) = order(&f.says) else {
        return Ok(None);
    };
    let Some((second, d, c)) = order(goal) else {
        return Ok(None);
    };
    let strict = second && !first;
    if let Some(found) = to_end(alloc, hyps, goal, f, first, strict, a, b, c, d)? {
        return Ok(Some(found));
    }
    from_start(alloc, hyps, goal, f, strict, first, d, a, b, c)
}

/// A goal by a fact.
fn by_fact(alloc: Global, hyps: &[&Expr], goal: &Expr, f: &Fact) -> Result<Option<Cert>, NoMemory>
    ensures { IfOk result (λ found. option_map view.cert found ≡ spec.by_fact (map lent hyps.now) (term goal.now) (fact f.now)) }
{
    if let Some(found) = stated(alloc, f, goal)? {
        return Ok(Some(found));
    }
    if let Some(found) = with_leaf(alloc, hyps, f, goal)? {
        return Ok(Some(found));
    }
    let n = number_of(hyps)?;
    if let Some(found) = weaker(alloc, n, f, goal)? {
        return Ok(Some(found));
    }
    if let Some(found) = by_ends(alloc, hyps, goal, f)? {
        return Ok(Some(found));
    }
    refuted(alloc, hyps, f)
}

/// A goal by a search of depth 1, or by a fact.
fn closed(
    alloc: Global,
    hyps: &[&Expr],
    facts: &[Fact],
    goal: &Expr,
) -> Result<Option<Cert>, NoMemory>
    ensures { IfOk result (λ found. option_map view.cert found ≡ spec.closed (map lent hyps.now) (map fact facts.now) (term goal.now)) }
{
    if let Some(found) = find_lent(alloc, hyps, goal, 1)? {
        return Ok(Some(found));
    }
    for f in facts {
        if let Some(found) = by_fact(alloc, hyps, goal, f)? {
            return Ok(Some(found));
        }
    }
    Ok(None)
}

/// The same, or both parts of a conjunction, or one of a disjunction.
pub fn shown(
    alloc: Global,
    hyps: &[&Expr],
    facts: &[Fact],
    goal: &Expr,
) -> Result<Option<Cert>, NoMemory>
    ensures { IfOk result (λ found. option_map view.cert found ≡ spec.shown (map lent hyps.now) (map fact facts.now) (term goal.now)) }
{
    if let Some(found) = closed(alloc, hyps, facts, goal)? {
        return Ok(Some(found));
    }
    match goal {
        Expr::Bin(Op::Both, a, b) => {
            let Some(c) = shown(alloc, hyps, facts, a)? else {
                return Ok(None);
            };
            let Some(d) = shown(alloc, hyps, facts, b)? else {
                return Ok(None);
            };
            let made = nodes::both(alloc, c, d)?;
            Ok(Some(made))
        }
        Expr::Bin(Op::Either, a, b) => {
            if let Some(c) = shown(alloc, hyps, facts, a)? {
                let made = nodes::left(alloc, c)?;
                return Ok(Some(made));
            }
            let Some(c) = shown(alloc, hyps, facts, b)? else {
                return Ok(None);
            };
            let made = nodes::right(alloc, c)?;
            Ok(Some(made))
        }
        Expr::Const(_) | Expr::Var(_) | Expr::Not(_) | Expr::Bin(..) => Ok(None),
    }
}
