//! The facts of order that hypotheses give.

ghost use Rattle.std.specs.Prelude.{◌≡◌, ◌+◌, ◌≤◌, [], ◌∷◌, Some, OnOk, IfOk, map, option_map};
ghost use Rattle.cov_expr.specs.declared.expr.Op.TheVariants.{Eq, Ne, Lt, Le};
ghost use Rattle.cov_expr.specs.Term as tree;
ghost use Rattle.cov_expr.specs.View.{term};
ghost use Rattle.cov_ast.specs.Syntax as by;
ghost use Rattle.cov_ast.specs.View as view;
ghost use Rattle.entail_range.specs.Range.{lent};
ghost use Rattle.entail_search.specs.Facts.{by_premise};
ghost use Rattle.entail_search.specs.Readings as spec;
ghost use Rattle.entail_search.specs.View.{fact};

use crate::facts::{Fact, add_any};
use crate::nodes;
use crate::nodes::MOST_NUMBERED;
use cov_ast::Cert;
use cov_expr::{Expr, HOLE, List, NoMemory, Op, boxed};
use entail_cert::operands;
use std::alloc::Global;

/// `q` by an axiom `!p || q` of two letters, where hypothesis i is `p`, and the axiom becomes hypothesis m, the last.
fn by_axiom(alloc: Global, k: u32, i: u32, m: u32, a: &Expr, b: &Expr) -> Result<Cert, NoMemory>
    requires { m ≤ MOST_NUMBERED + 20 }
    ensures { IfOk result (λ made. view.cert made ≡ by.instance k (term a.now ∷ term b.now ∷ []) (by_premise i m)) }
{
    let last = nodes::by_premise(alloc, i, m)?;
    nodes::axiom_of_two(alloc, k, a, b, last)
}

/// Anything, of `!(a <= b)` and what gives `a <= b` by the axiom of a number.
fn against(alloc: Global, n: u32, k: u32, a: &Expr, b: &Expr) -> Result<Cert, NoMemory>
    requires { n ≤ MOST_NUMBERED }
    ensures { IfOk result (λ made. view.cert made ≡ spec.against n k (term a.now) (term b.now)) }
{
    let step = nodes::cases(
        alloc,
        n + 5,
        Cert::Absurd(n + 4, n + 6),
        Cert::Absurd(n + 6, n + 1),
    )?;
    nodes::axiom_of_two(alloc, k, a, b, step)
}

/// A comparison of copies, which follows from a comparison that is a conjunct of a hypothesis, by a certificate behind it.
fn derived(alloc: Global, e: Expr, says: Expr, c: Cert) -> Result<Option<Fact>, NoMemory>
    ensures { IfOk result (λ made. option_map fact made ≡ Some (spec.derived (term e) (term says) (view.cert c))) }
{
    let shown = nodes::have(alloc, e, Cert::Auto, c)?;
    Ok(Some(Fact { says, shown }))
}

fn is_zero(e: &Expr) -> bool
    ensures { result ≡ spec.is_zero (term e.now) }
{
    match e {
        Expr::Const(k) => *k == 0,
        Expr::Var(_) | Expr::Not(_) | Expr::Bin(..) => false,
    }
}

/// `0 < a`, of `a != b` where `b` is 0.
fn positive_of_other(alloc: Global, n: u32, a: &Expr, b: &Expr) -> Result<Option<Fact>, NoMemory>
    requires { n ≤ MOST_NUMBERED }
    ensures { IfOk result (λ made. option_map fact made ≡ spec.fact_of_comparison n Ne (term a.now) (term b.now)) }
{
    if !is_zero(b) {
        return Ok(None);
    }
    let last = nodes::cases(
        alloc,
        n + 4,
        Cert::Absurd(n + 3, n + 5),
        Cert::Absurd(n + 1, n + 5),
    )?;
    let first = nodes::axiom_of_two(alloc, 4, a, &Expr::Const(0), last)?;
    let step = nodes::cases(alloc, n + 2, first, Cert::Auto)?;
    let why = nodes::axiom_of_one(alloc, 22, a, step)?;
    let given = nodes::pair(alloc, Op::Ne, a, b)?;
    derived(
        alloc,
        given,
        nodes::pair(alloc, Op::Lt, &Expr::Const(0), a)?,
        why,
    )
}

/// The fact that a comparison gives.
fn fact_of_comparison(
    alloc: Global,
    n: u32,
    op: Op,
    a: &Expr,
    b: &Expr,
) -> Result<Option<Fact>, NoMemory>
    requires { n ≤ MOST_NUMBERED }
    ensures { IfOk result (λ made. option_map fact made ≡ spec.fact_of_comparison n op (term a.now) (term b.now)) }
{
    match op {
        Op::Lt | Op::Le => {
            let says = nodes::pair(alloc, op, a, b)?;
            Ok(Some(Fact {
                says,
                shown: Cert::Auto,
            }))
        }
        Op::Eq => {
            let why = by_axiom(alloc, 11, n + 1, n + 2, a, b)?;
            let given = nodes::pair(alloc, Op::Eq, a, b)?;
            derived(alloc, given, nodes::pair(alloc, Op::Le, a, b)?, why)
        }
        Op::Ne => positive_of_other(alloc, n, a, b),
        Op::Add | Op::Sub | Op::Mul | Op::And | Op::Or | Op::Xor => Ok(None),
        Op::Both | Op::Either => Ok(None),
    }
}

/// The negation of a comparison of copies.
fn denial(alloc: Global, op: Op, a: &Expr, b: &Expr) -> Result<Expr, NoMemory>
    ensures { IfOk result (λ made. term made ≡ tree.neg (tree.bin op (term a.now) (term b.now))) }
{
    let inside = nodes::pair(alloc, op, a, b)?;
    Ok(Expr::Not(boxed(alloc, inside)?))
}

/// `b <= a`, of `!(a < b)`.
fn above_of_not_less(alloc: Global, n: u32, a: &Expr, b: &Expr) -> Result<Option<Fact>, NoMemory>
    requires { n ≤ MOST_NUMBERED }
    ensures { IfOk result (λ made. option_map fact made ≡ spec.fact_of_denial n Lt (term a.now) (term b.now)) }
{
    let less = by_axiom(alloc, 9, n + 4, n + 5, b, a)?;
    let equal = by_axiom(alloc, 11, n + 4, n + 5, b, a)?;
    let first = nodes::cases(alloc, n + 3, less, equal)?;
    let step = nodes::cases(alloc, n + 2, first, Cert::Absurd(n + 3, n + 1))?;
    let why = nodes::axiom_of_two(alloc, 6, b, a, step)?;
    let given = denial(alloc, Op::Lt, a, b)?;
    derived(alloc, given, nodes::pair(alloc, Op::Le, b, a)?, why)
}

/// `0 < a`, of `!(a == b)` where `b` is 0.
fn positive_of_not_zero(alloc: Global, n: u32, a: &Expr, b: &Expr) -> Result<Option<Fact>, NoMemory>
    requires { n ≤ MOST_NUMBERED }
    ensures { IfOk result (λ made. option_map fact made ≡ spec.fact_of_denial n Eq (term a.now) (term b.now)) }
{
    if !is_zero(b) {
        return Ok(None);
    }
    let step = nodes::cases(alloc, n + 2, Cert::Absurd(n + 3, n + 1), Cert::Auto)?;
    let why = nodes::axiom_of_one(alloc, 22, a, step)?;
    let given = denial(alloc, Op::Eq, a, b)?;
    derived(
        alloc,
        given,
        nodes::pair(alloc, Op::Lt, &Expr::Const(0), a)?,
        why,
    )
}

/// `b < a`, of `!(a <= b)`.
fn above_of_not_at_most(alloc: Global, n: u32, a: &Expr, b: &Expr) -> Result<Option<Fact>, NoMemory>
    requires { n ≤ MOST_NUMBERED }
    ensures { IfOk result (λ made. option_map fact made ≡ spec.fact_of_denial n Le (term a.now) (term b.now)) }
{
    let less = against(alloc, n, 9, a, b)?;
    let equal = against(alloc, n, 11, a, b)?;
    let first = nodes::cases(alloc, n + 3, less, equal)?;
    let step = nodes::cases(alloc, n + 2, first, Cert::Auto)?;
    let why = nodes::axiom_of_two(alloc, 6, a, b, step)?;
    let given = denial(alloc, Op::Le, a, b)?;
    derived(alloc, given, nodes::pair(alloc, Op::Lt, b, a)?, why)
}

/// The fact that a negation gives.
fn fact_of_negation(alloc: Global, n: u32, e: &Expr) -> Result<Option<Fact>, NoMemory>
    requires { n ≤ MOST_NUMBERED }
    ensures { IfOk result (λ made. option_map fact made ≡ spec.fact_of_negation n (term e.now)) }
{
    match e {
        Expr::Bin(op, a, b) => match *op {
            Op::Lt => above_of_not_less(alloc, n, a, b),
            Op::Le => above_of_not_at_most(alloc, n, a, b),
            Op::Eq => positive_of_not_zero(alloc, n, a, b),
            Op::Ne | Op::Add | Op::Sub | Op::Mul | Op::And | Op::Or | Op::Xor => Ok(None),
            Op::Both | Op::Either => Ok(None),
        },
        Expr::Const(_) | Expr::Var(_) | Expr::Not(_) => Ok(None),
    }
}

/// `b <= a`, of `a == b`.
fn above_of_equal(alloc: Global, n: u32, a: &Expr, b: &Expr) -> Result<Option<Fact>, NoMemory>
    requires { n ≤ MOST_NUMBERED }
    ensures { IfOk result (λ made. option_map fact made ≡ spec.turned_of n (Some (term a.now, term b.now))) }
{
    let step = by_axiom(alloc, 11, n + 2, n + 3, b, a)?;
    let template = nodes::pair(alloc, Op::Eq, &Expr::Var(HOLE), a)?;
    let turned = nodes::backward(alloc, n + 1, template, Cert::Refl)?;
    let says = nodes::pair(alloc, Op::Eq, b, a)?;
    let why = nodes::have(alloc, says, turned, step)?;
    let given = nodes::pair(alloc, Op::Eq, a, b)?;
    derived(alloc, given, nodes::pair(alloc, Op::Le, b, a)?, why)
}

/// Adds the facts of each conjunct of a hypothesis.
fn gather(alloc: Global, n: u32, facts: &mut List<Fact>, e: &Expr) -> Result<(), NoMemory>
    requires { n ≤ MOST_NUMBERED }
    ensures { OnOk result (map fact facts.new ≡ spec.gathered n (map fact facts.old) (term e.now)) }
{
    match e {
        Expr::Bin(Op::Both, a, b) => {
            gather(alloc, n, facts, a)?;
            gather(alloc, n, facts, b)
        }
        Expr::Const(_) | Expr::Var(_) | Expr::Not(_) | Expr::Bin(..) => {
            let made = match e {
                Expr::Bin(op, a, b) => fact_of_comparison(alloc, n, *op, a, b)?,
                Expr::Not(inside) => fact_of_negation(alloc, n, inside)?,
                Expr::Const(_) | Expr::Var(_) => None,
            };
            add_any(facts, made)?;
            let turned = match operands(Op::Eq, e) {
                Some((a, b)) => above_of_equal(alloc, n, a, b)?,
                None => None,
            };
            add_any(facts, turned)
        }
    }
}

/// The facts of hypotheses.
pub fn gathered(alloc: Global, n: u32, hyps: &[&Expr]) -> Result<List<Fact>, NoMemory>
    requires { n ≤ MOST_NUMBERED }
    ensures { IfOk result (λ made. map fact made ≡ spec.gathered_each n [] (map lent hyps.now)) }
{
    let mut facts = List::new(alloc);
    for h in hyps {
        gather(alloc, n, &mut facts, h)?;
    }
    Ok(facts)
}
