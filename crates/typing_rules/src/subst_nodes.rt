//! How large expressions are, before they are made.

ghost use Rattle.std.specs.Prelude.{◌≡◌, ◌+◌, ◌<◌, IfOk, MatchOption};
ghost use Rattle.cov_expr.specs.declared.limits.TheConstants.{MOST_NODES};
ghost use Rattle.cov_expr.specs.Trees as tree;
ghost use Rattle.cov_expr.specs.View.{term};

use cov_expr::{Expr, MOST_NODES, NoMemory, nodes_left, subst};
use std::alloc::Global;

/// How many parts joined by `&&` an expression of at most [`MOST_NODES`] nodes has at most.
pub const MOST_PARTS: usize = 500;

/// The expression with a part in the place of each occurrence of a variable, where that has at most [`MOST_NODES`] nodes.
/// Nothing is made where it has more.
pub fn small_subst(alloc: Global, e: &Expr, x: u32, part: &Expr) -> Result<Option<Expr>, NoMemory>
    ensures { IfOk result (λ made. MatchOption made (MOST_NODES < tree.nodes (tree.subst (term e.now) x (term part.now)))
        (λ whole. term whole ≡ tree.subst (term e.now) x (term part.now))) }
{
    match subst_nodes_left(e, x, part, MOST_NODES) {
        Some(_) => Ok(Some(subst(alloc, e, x, part)?)),
        None => Ok(None),
    }
}

/// How many nodes of a budget are left by the expression with a part in the place of each occurrence of a variable, or
/// nothing where it has more.
pub fn subst_nodes_left(e: &Expr, x: u32, part: &Expr, budget: u32) -> Option<u32>
    ensures { MatchOption result (budget < tree.nodes (tree.subst (term e.now) x (term part.now)))
        (λ left. left + tree.nodes (tree.subst (term e.now) x (term part.now)) ≡ budget) }
{
    match e {
        Expr::Var(y) if *y == x => nodes_left(part, budget),
        Expr::Const(_) | Expr::Var(_) => budget.checked_sub(1),
        Expr::Not(a) => subst_nodes_left(a, x, part, budget.checked_sub(1)?),
        Expr::Bin(_, a, b) => {
            let left = subst_nodes_left(a, x, part, budget.checked_sub(1)?)?;
            subst_nodes_left(b, x, part, left)
        }
    }
}
