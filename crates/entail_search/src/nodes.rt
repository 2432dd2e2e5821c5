//! Nodes of certificates and of expressions, made of their parts.

ghost use Rattle.std.specs.Prelude.{◌≡◌, ◌+◌, ◌≤◌, [], ◌∷◌, IfOk, length};
ghost use Rattle.cov_expr.specs.View.{term};
ghost use Rattle.cov_expr.specs.Term as tree;
ghost use Rattle.cov_ast.specs.Syntax as by;
ghost use Rattle.cov_ast.specs.View as view;
ghost use Rattle.entail_search.specs.Chains as spec;
ghost use Rattle.entail_search.specs.Facts.{by_premise};

use cov_ast::Cert;
use cov_expr::{Expr, List, NoMemory, Op, boxed, copy};
use std::alloc::Global;

/// Hypotheses that are numbered, at most, so that some numbers behind them are words too.
pub const MOST_NUMBERED: u32 = 4_000_000_000;

/// The number of the hypothesis at an index: they count from 1. Past the last word there is none, and the answer is a want of memory.
pub fn number_at(index: usize) -> Result<u32, NoMemory>
    ensures { IfOk result (λ n. n ≡ index + 1) }
{
    if index < u32::MAX as usize {
        Ok(index as u32 + 1)
    } else {
        Err(NoMemory)
    }
}

/// How many hypotheses there are. Past so many that numbers behind theirs may be none, the answer is a want of memory.
pub fn number_of(hyps: &[&Expr]) -> Result<u32, NoMemory>
    ensures { IfOk result (λ n. (n ≡ length hyps.now) × (n ≤ MOST_NUMBERED)) }
{
    if hyps.len() <= MOST_NUMBERED as usize {
        Ok(hyps.len() as u32)
    } else {
        Err(NoMemory)
    }
}

/// An operation of two expressions.
pub fn joined(alloc: Global, op: Op, a: Expr, b: Expr) -> Result<Expr, NoMemory>
    ensures { IfOk result (λ made. term made ≡ tree.bin op (term a) (term b)) }
{
    let left = boxed(alloc, a)?;
    let right = boxed(alloc, b)?;
    Ok(Expr::Bin(op, left, right))
}

/// An operation of copies of two expressions.
pub fn pair(alloc: Global, op: Op, a: &Expr, b: &Expr) -> Result<Expr, NoMemory>
    ensures { IfOk result (λ made. term made ≡ tree.bin op (term a.now) (term b.now)) }
{
    let first = copy(alloc, a)?;
    joined(alloc, op, first, copy(alloc, b)?)
}

/// A certificate as the child of a node.
pub fn child(alloc: Global, c: Cert) -> Result<Box<Cert>, NoMemory>
    ensures { IfOk result (λ made. made.value ≡ c) }
{
    Ok(Box::new(alloc, c)?)
}

/// `and c d`.
pub fn both(alloc: Global, c: Cert, d: Cert) -> Result<Cert, NoMemory>
    ensures { IfOk result (λ made. view.cert made ≡ by.and (view.cert c) (view.cert d)) }
{
    let left = child(alloc, c)?;
    let right = child(alloc, d)?;
    Ok(Cert::And(left, right))
}

/// `left c`.
pub fn left(alloc: Global, c: Cert) -> Result<Cert, NoMemory>
    ensures { IfOk result (λ made. view.cert made ≡ by.left (view.cert c)) }
{
    let part = child(alloc, c)?;
    Ok(Cert::Left(part))
}

/// `right c`.
pub fn right(alloc: Global, c: Cert) -> Result<Cert, NoMemory>
    ensures { IfOk result (λ made. view.cert made ≡ by.right (view.cert c)) }
{
    let part = child(alloc, c)?;
    Ok(Cert::Right(part))
}

/// `use n c`.
pub fn unpacked(alloc: Global, n: u32, c: Cert) -> Result<Cert, NoMemory>
    ensures { IfOk result (λ made. view.cert made ≡ by.unpack n (view.cert c)) }
{
    let part = child(alloc, c)?;
    Ok(Cert::Unpack(n, part))
}

/// `cases n c d`.
pub fn cases(alloc: Global, n: u32, c: Cert, d: Cert) -> Result<Cert, NoMemory>
    ensures { IfOk result (λ made. view.cert made ≡ by.cases n (view.cert c) (view.cert d)) }
{
    let left = child(alloc, c)?;
    let right = child(alloc, d)?;
    Ok(Cert::Cases(n, left, right))
}

/// `split [e] c d`.
pub fn split(alloc: Global, e: &Expr, c: Cert, d: Cert) -> Result<Cert, NoMemory>
    ensures { IfOk result (λ made. view.cert made ≡ by.split (term e.now) (view.cert c) (view.cert d)) }
{
    let left = child(alloc, c)?;
    let right = child(alloc, d)?;
    Ok(Cert::Split(copy(alloc, e)?, left, right))
}

/// `have [e] c d`.
pub fn have(alloc: Global, e: Expr, c: Cert, d: Cert) -> Result<Cert, NoMemory>
    ensures { IfOk result (λ made. view.cert made ≡ by.have (term e) (view.cert c) (view.cert d)) }
{
    let left = child(alloc, c)?;
    let right = child(alloc, d)?;
    Ok(Cert::Have(e, left, right))
}

/// `fwd n [t] auto`.
pub fn forward(alloc: Global, n: u32, t: Expr) -> Result<Cert, NoMemory>
    ensures { IfOk result (λ made. view.cert made ≡ by.fwd n (term t) by.auto) }
{
    let part = child(alloc, Cert::Auto)?;
    Ok(Cert::Fwd(n, t, part))
}

/// `rev n [t] c`.
pub fn backward(alloc: Global, n: u32, t: Expr, c: Cert) -> Result<Cert, NoMemory>
    ensures { IfOk result (λ made. view.cert made ≡ by.rev n (term t) (view.cert c)) }
{
    let part = child(alloc, c)?;
    Ok(Cert::Rev(n, t, part))
}

/// `axiom k (a) c`.
pub fn axiom_of_one(alloc: Global, k: u32, a: &Expr, c: Cert) -> Result<Cert, NoMemory>
    ensures { IfOk result (λ made. view.cert made ≡ by.instance k (term a.now ∷ []) (view.cert c)) }
{
    let part = child(alloc, c)?;
    let mut letters = List::with_capacity(alloc, 1)?;
    letters.push(copy(alloc, a)?)?;
    Ok(Cert::Axiom(k, letters, part))
}

/// `axiom k (a, b) c`.
pub fn axiom_of_two(alloc: Global, k: u32, a: &Expr, b: &Expr, c: Cert) -> Result<Cert, NoMemory>
    ensures { IfOk result (λ made. view.cert made ≡ by.instance k (term a.now ∷ term b.now ∷ []) (view.cert c)) }
{
    let part = child(alloc, c)?;
    let mut letters = List::with_capacity(alloc, 2)?;
    letters.push(copy(alloc, a)?)?;
    letters.push(copy(alloc, b)?)?;
    Ok(Cert::Axiom(k, letters, part))
}

/// `axiom k (a, b, c) d`.
pub fn axiom_of_three(
    alloc: Global,
    k: u32,
    a: &Expr,
    b: &Expr,
    c: &Expr,
    d: Cert,
) -> Result<Cert, NoMemory>
    ensures { IfOk result (λ made. view.cert made ≡ by.instance k (term a.now ∷ term b.now ∷ term c.now ∷ []) (view.cert d)) }
{
    let part = child(alloc, d)?;
    let mut letters = List::with_capacity(alloc, 3)?;
    letters.push(copy(alloc, a)?)?;
    letters.push(copy(alloc, b)?)?;
    letters.push(copy(alloc, c)?)?;
    Ok(Cert::Axiom(k, letters, part))
}

/// A goal `q` by hypothesis i, which is `p`, and hypothesis m, which is `!p || q`.
pub fn by_premise(alloc: Global, i: u32, m: u32) -> Result<Cert, NoMemory>
    requires { m ≤ MOST_NUMBERED + 20 }
    ensures { IfOk result (λ made. view.cert made ≡ by_premise i m) }
{
    cases(alloc, m, Cert::Absurd(i, m + 1), Cert::Auto)
}

pub fn is_auto(c: &Cert) -> bool
    ensures { result ≡ spec.is_auto (view.cert c.now) }
{
    match c {
        Cert::Auto => true,
        Cert::Calc | Cert::Refl | Cert::Ring | Cert::Range => false,
        Cert::Hyp(_) | Cert::Clash(_) | Cert::Absurd(_, _) => false,
        Cert::And(_, _) | Cert::Cases(_, _, _) | Cert::Split(_, _, _) | Cert::Have(_, _, _) => {
            false
        }
        Cert::Left(_) | Cert::Right(_) | Cert::Unpack(_, _) | Cert::Not(_) | Cert::Contra(_) => {
            false
        }
        Cert::Fwd(_, _, _) | Cert::Rev(_, _, _) | Cert::Axiom(_, _, _) => false,
    }
}
