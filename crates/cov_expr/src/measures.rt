//! Measures of expressions against a bound: width, height and nodes.

ghost use Rattle.std.specs.Prelude.{◌≡◌, ◌↔◌, ◌+◌, ◌<◌, ◌≤◌, IsTrue, MatchOption};
ghost use Rattle.cov_expr.specs.Trees as tree;
ghost use Rattle.cov_expr.specs.View.{term};

use crate::expr::Expr;

/// Whether the width is at most `k`: how many registers the evaluation takes where each operand is kept while the next
/// is evaluated. A leaf has width 1, `!a` the larger of 2 and that of `a`, and an operator the larger of that of its left operand
/// and one more than that of its right one.
pub fn width_at_most(e: &Expr, k: u32) -> bool
    ensures { IsTrue result ↔ (tree.width (term e.now) ≤ k) }
{
    match e {
        Expr::Const(_) | Expr::Var(_) => 1 <= k,
        Expr::Not(a) => 2 <= k && width_at_most(a, k),
        Expr::Bin(_, a, b) => 1 <= k && width_at_most(a, k) && width_at_most(b, k - 1),
    }
}

/// Whether the height is at most `k`. A leaf has height 1. It goes no deeper than `k`.
pub fn height_at_most(e: &Expr, k: u32) -> bool
    ensures { IsTrue result ↔ (tree.height (term e.now) ≤ k) }
{
    match e {
        Expr::Const(_) | Expr::Var(_) => 1 <= k,
        Expr::Not(a) => 1 <= k && height_at_most(a, k - 1),
        Expr::Bin(_, a, b) => 1 <= k && height_at_most(a, k - 1) && height_at_most(b, k - 1),
    }
}

/// Whether there are at most `k` leaves and operations. It looks at no more than `k` of them.
pub fn nodes_at_most(e: &Expr, k: u32) -> bool
    ensures { IsTrue result ↔ (tree.nodes (term e.now) ≤ k) }
{
    nodes_left(e, k).is_some()
}

/// How many nodes of a budget an expression leaves, or nothing where it has more.
pub fn nodes_left(e: &Expr, budget: u32) -> Option<u32>
    ensures { MatchOption result (budget < tree.nodes (term e.now)) (λ left. left + tree.nodes (term e.now) ≡ budget) }
{
    let left = budget.checked_sub(1)?;
    match e {
        Expr::Const(_) | Expr::Var(_) => Some(left),
        Expr::Not(a) => nodes_left(a, left),
        Expr::Bin(_, a, b) => {
            let left = nodes_left(a, left)?;
            nodes_left(b, left)
        }
    }
}
