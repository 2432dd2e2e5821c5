//! Expressions made from others: copies, and what a substitution gives.

ghost use Rattle.std.specs.Prelude.{◌≡◌, IfOk, OnOk};
ghost use Rattle.cov_expr.specs.Term.{bin, neg};
ghost use Rattle.cov_expr.specs.Trees as tree;
ghost use Rattle.cov_expr.specs.View.{term};
ghost use Rattle.cov_expr.specs.Words.{HasWords};

use crate::expr::{Expr, Op};
use crate::list::NoMemory;
use std::alloc::Global;

/// An equal tree. That the copy came to its end also tells that the tree is made of words.
pub fn copy(alloc: Global, e: &Expr) -> Result<Expr, NoMemory>
    ensures copied { IfOk result (λ made. term made ≡ term e.now) }
    ensures words { OnOk result (HasWords (term e.now)) }
{
    match e {
        Expr::Const(k) => Ok(Expr::Const(*k)),
        Expr::Var(x) => Ok(Expr::Var(*x)),
        Expr::Not(a) => negation(alloc, copy(alloc, a)?),
        Expr::Bin(op, a, b) => {
            let left = copy(alloc, a)?;
            operation(alloc, *op, left, copy(alloc, b)?)
        }
    }
}

/// The tree with a part in the place of each occurrence of a variable.
pub fn subst(alloc: Global, e: &Expr, x: u32, part: &Expr) -> Result<Expr, NoMemory>
    ensures { IfOk result (λ made. term made ≡ tree.subst (term e.now) x (term part.now)) }
{
    match e {
        Expr::Const(k) => Ok(Expr::Const(*k)),
        Expr::Var(y) if *y == x => copy(alloc, part),
        Expr::Var(y) => Ok(Expr::Var(*y)),
        Expr::Not(a) => negation(alloc, subst(alloc, a, x, part)?),
        Expr::Bin(op, a, b) => {
            let left = subst(alloc, a, x, part)?;
            operation(alloc, *op, left, subst(alloc, b, x, part)?)
        }
    }
}

/// The negation of an expression.
fn negation(alloc: Global, a: Expr) -> Result<Expr, NoMemory>
    ensures { IfOk result (λ made. term made ≡ neg (term a)) }
{
    Ok(Expr::Not(boxed(alloc, a)?))
}

/// An operation of two expressions.
fn operation(alloc: Global, op: Op, a: Expr, b: Expr) -> Result<Expr, NoMemory>
    ensures { IfOk result (λ made. term made ≡ bin op (term a) (term b)) }
{
    let left = boxed(alloc, a)?;
    let right = boxed(alloc, b)?;
    Ok(Expr::Bin(op, left, right))
}

/// An expression in memory of its own, as a part of another.
pub fn boxed(alloc: Global, e: Expr) -> Result<Box<Expr>, NoMemory>
    ensures { IfOk result (λ made. made.value ≡ e) }
{
    Ok(Box::new(alloc, e)?)
}
