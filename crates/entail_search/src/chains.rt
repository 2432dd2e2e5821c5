//! Chains: facts of order that follow from others by transitivity.

ghost use Rattle.std.specs.Prelude.{◌≡◌, ◌+◌, ◌≤◌, ◌||◌, [], ◌∷◌, true, false, OnOk, IfOk, map};
ghost use Rattle.cov_expr.specs.declared.expr.Op.TheVariants.{Lt, Both};
ghost use Rattle.cov_expr.specs.View.{term};
ghost use Rattle.cov_ast.specs.Syntax as by;
ghost use Rattle.cov_ast.specs.View as view;
ghost use Rattle.entail_range.specs.Range.{lent};
ghost use Rattle.entail_search.specs.Chains as spec;
ghost use Rattle.entail_search.specs.Facts.{by_premise, is_new};
ghost use Rattle.entail_search.specs.View.{fact};

use crate::facts::{Fact, is_new, order};
use crate::nodes;
use crate::nodes::{MOST_NUMBERED, both, is_auto};
use crate::readings::gathered;
use cov_ast::Cert;
use cov_expr::{Expr, HOLE, List, NoMemory, Op, same};
use std::alloc::Global;
use tree_copies::copy_cert;

/// Links more than one that a chain has, at most.
pub const MOST_LINKS: u32 = 7;

/// `a < c` by `a <= b` and `b < c`, or by `a < b` and `b <= c`, with a certificate for where the two of `<=` are equal.
fn by_less_or_equal(
    alloc: Global,
    i: u32,
    m: u32,
    a: &Expr,
    b: &Expr,
    c: &Expr,
    equal: Cert,
) -> Result<Cert, NoMemory>
    requires { m ≤ MOST_NUMBERED + 5 }
    ensures { IfOk result (λ made. view.cert made ≡ spec.by_less_or_equal i m (term a.now) (term b.now) (term c.now) (view.cert equal)) }
{
    let less = {
        let first = nodes::pair(alloc, Op::Lt, a, b)?;
        let second = nodes::pair(alloc, Op::Lt, b, c)?;
        let premise = nodes::joined(alloc, Op::Both, first, second)?;
        let last = nodes::by_premise(alloc, m + 3, m + 4)?;
        let step = nodes::axiom_of_three(alloc, 8, a, b, c, last)?;
        nodes::have(alloc, premise, Cert::Auto, step)?
    };
    let first = nodes::cases(alloc, m + 1, Cert::Absurd(i, m + 2), less)?;
    nodes::cases(alloc, m, first, equal)
}

/// `a <= c` by `a <= b` and `b <= c`, or `a < c` by `a < b` and `b < c`: by the axiom of a number.
fn joining_like(
    alloc: Global,
    n: u32,
    k: u32,
    a: &Expr,
    b: &Expr,
    c: &Expr,
) -> Result<Cert, NoMemory>
    requires { n ≤ MOST_NUMBERED }
    ensures { IfOk result (λ made. view.cert made ≡
        by.instance k (term a.now ∷ term b.now ∷ term c.now ∷ []) (by_premise (n + 1) (n + 2))) }
{
    let last = nodes::by_premise(alloc, n + 1, n + 2)?;
    nodes::axiom_of_three(alloc, k, a, b, c, last)
}

/// `a` and `c` compared, where the hypothesis behind the first n has `a` and `b`, and `b` and `c`, each strictly or not.
fn joining(
    alloc: Global,
    n: u32,
    first: bool,
    second: bool,
    a: &Expr,
    b: &Expr,
    c: &Expr,
) -> Result<Cert, NoMemory>
    requires { n ≤ MOST_NUMBERED }
    ensures { IfOk result (λ made. view.cert made ≡ spec.joining n first second (term a.now) (term b.now) (term c.now)) }
{
    match (first, second) {
        (false, false) => joining_like(alloc, n, 12, a, b, c),
        (true, true) => joining_like(alloc, n, 8, a, b, c),
        (false, true) => {
            let template = nodes::pair(alloc, Op::Lt, &Expr::Var(HOLE), c)?;
            let equal = nodes::forward(alloc, n + 5, template)?;
            let rest = by_less_or_equal(alloc, n + 2, n + 4, a, b, c, equal)?;
            let step = nodes::axiom_of_two(alloc, 10, a, b, rest)?;
            nodes::unpacked(alloc, n + 1, step)
        }
        (true, false) => {
            let template = nodes::pair(alloc, Op::Lt, a, &Expr::Var(HOLE))?;
            let equal = nodes::backward(alloc, n + 5, template, Cert::Auto)?;
            let rest = by_less_or_equal(alloc, n + 3, n + 4, a, b, c, equal)?;
            let step = nodes::axiom_of_two(alloc, 10, b, c, rest)?;
            nodes::unpacked(alloc, n + 1, step)
        }
    }
}

/// The operator of a comparison.
pub fn comparison(strict: bool) -> Op
    ensures { result ≡ spec.comparison strict }
{
    if strict { Op::Lt } else { Op::Le }
}

/// Two facts as one, by their sides and by what follows.
pub fn linked(
    alloc: Global,
    n: u32,
    f: &Fact,
    g: &Fact,
    first: bool,
    second: bool,
    a: &Expr,
    b: &Expr,
    c: &Expr,
) -> Result<Fact, NoMemory>
    requires { n ≤ MOST_NUMBERED }
    ensures { IfOk result (λ made. fact made ≡
        spec.linked n (fact f.now) (fact g.now) (first, term a.now, term b.now) (second, term b.now, term c.now)) }
{
    let step = joining(alloc, n, first, second, a, b, c)?;
    let shown = {
        let premise = nodes::pair(alloc, Op::Both, &f.says, &g.says)?;
        let first = copy_cert(alloc, &f.shown)?;
        let second = copy_cert(alloc, &g.shown)?;
        let why = if is_auto(&first) && is_auto(&second) {
            Cert::Auto
        } else {
            both(alloc, first, second)?
        };
        nodes::have(alloc, premise, why, step)?
    };
    let says = nodes::pair(alloc, comparison(first || second), a, c)?;
    Ok(Fact { says, shown })
}

/// Adds a fact continued by each of the links.
fn continue_one(
    alloc: Global,
    n: u32,
    f: &Fact,
    links: &[Fact],
    facts: &mut List<Fact>,
) -> Result<(), NoMemory>
    requires { n ≤ MOST_NUMBERED }
    ensures { OnOk result (map fact facts.new ≡ spec.continued n (fact f.now) (map fact links.now) (map fact facts.old)) }
{
    for g in links {
        let Some((first, a, b)) = order(&f.says) else {
            continue;
        };
        let Some((second, d, c)) = order(&g.says) else {
            continue;
        };
        if !same(b, d) {
            continue;
        }
        let says = nodes::pair(alloc, comparison(first || second), a, c)?;
        if is_new(facts.as_slice(), &says) {
            let made = linked(alloc, n, f, g, first, second, a, b, c)?;
            facts.push(made)?;
        }
    }
    Ok(())
}

/// Adds each of these continued by each of the links.
fn continue_each(
    alloc: Global,
    n: u32,
    links: &[Fact],
    these: &[Fact],
    facts: &mut List<Fact>,
) -> Result<(), NoMemory>
    requires { n ≤ MOST_NUMBERED }
    ensures { OnOk result (map fact facts.new ≡ spec.continued_each n (map fact links.now) (map fact these.now) (map fact facts.old)) }
{
    for f in these {
        continue_one(alloc, n, f, links, facts)?;
    }
    Ok(())
}

/// The facts of hypotheses, and those that chains of them give, of so many links more than one at most.
pub fn chains(
    alloc: Global,
    n: u32,
    hyps: &[&Expr],
    links: &[Fact],
    left: u32,
) -> Result<List<Fact>, NoMemory>
    requires { n ≤ MOST_NUMBERED }
    ensures { IfOk result (λ made. map fact made ≡ spec.chains n (map lent hyps.now) (map fact links.now) left) }
{
    if left == 0 {
        return gathered(alloc, n, hyps);
    }
    let shorter = chains(alloc, n, hyps, links, left - 1)?;
    let mut facts = gathered(alloc, n, hyps)?;
    continue_each(alloc, n, links, shorter.as_slice(), &mut facts)?;
    Ok(facts)
}
