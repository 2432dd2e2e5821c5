//! How many registers the parts of an expression take.

ghost use Rattle.std.specs.Prelude.{◌≡◌, ◌<◌, ◌^◌};
ghost use Rattle.cov_expr.specs.Trees as tree;
ghost use Rattle.cov_expr.specs.View.{term};

use cov_expr::Expr;

/// How many registers the evaluation of an expression takes where each operand is kept while the next is evaluated: so many
/// parts have to have registers. A leaf has width 1. It walks over the whole expression, and takes no memory.
pub fn width(e: &Expr) -> u32
    requires { tree.width (term e.now) < 2 ^ 32 }
    ensures { result ≡ tree.width (term e.now) }
{
    match e {
        Expr::Const(_) | Expr::Var(_) => 1,
        Expr::Not(a) => width(a).max(2),
        Expr::Bin(_, a, b) => width(a).max(width(b) + 1),
    }
}
