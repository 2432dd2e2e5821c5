//! Expressions as they are read, with their measures.

ghost use Rattle.std.specs.Prelude.{◌≡◌, ◌+◌, min, IfOk};
ghost use Rattle.cov_expr.specs.declared.limits.TheConstants.{MOST_HEIGHT, MOST_NODES};
ghost use Rattle.cov_expr.specs.Term.{const, var, neg, bin};
ghost use Rattle.cov_expr.specs.Trees as tree;
ghost use Rattle.cov_expr.specs.View.{term};
ghost use Rattle.cov_grammar.specs.Grammar.{negated};

use crate::measures::{HEIGHT, NODES};
use cov_expr::{Expr, NoMemory, Op, boxed};
use std::alloc::Global;

/// An expression as it was read, with its measures as far as its limits ask for them.
pub struct Written {
    pub expr: Expr,
    /// How many nodes it has, or one above the most.
    pub nodes: u32,
    /// Its height, or one above the most.
    pub height: u32,
    ghost nodes_are: { nodes ≡ min (tree.nodes (term expr)) (MOST_NODES + 1) },
    ghost height_is: { height ≡ min (tree.height (term expr)) (MOST_HEIGHT + 1) },
}

impl Drop for Written {
    fn drop(self) {
        drop(self.into_expr());
    }
}

impl Written {
    /// The expression alone.
    pub fn into_expr(self) -> Expr
        ensures { result ≡ self.expr }
    {
        let Written {
            expr,
            nodes: _,
            height: _,
        } = self;
        expr
    }
}

/// A number.
pub fn number(n: u32) -> Written
    ensures { term result.expr ≡ const n }
{
    Written {
        expr: Expr::Const(n),
        nodes: 1,
        height: 1,
    }
}

/// A variable.
pub fn variable(x: u32) -> Written
    ensures { term result.expr ≡ var x }
{
    Written {
        expr: Expr::Var(x),
        nodes: 1,
        height: 1,
    }
}

/// An expression in memory that was taken for it before.
#[inline(always)]
fn placed(room: Box<Expr>, e: Expr) -> Box<Expr>
    ensures { result.value ≡ e }
{
    let mut part = room;
    *part = e;
    part
}

/// An expression behind a mark. Memory is taken before the operand is taken apart.
fn negation(alloc: Global, operand: Written) -> Result<Written, NoMemory>
    ensures { IfOk result (λ made. term made.expr ≡ neg (term operand.expr)) }
{
    let room = boxed(alloc, Expr::Const(0))?;
    let nodes = (operand.nodes + 1).min(NODES);
    let height = (operand.height + 1).min(HEIGHT);
    Ok(Written {
        expr: Expr::Not(placed(room, operand.into_expr())),
        nodes,
        height,
    })
}

/// An expression behind so many marks.
pub fn negations(alloc: Global, marks: usize, operand: Written) -> Result<Written, NoMemory>
    ensures { IfOk result (λ made. term made.expr ≡ negated marks (term operand.expr)) }
{
    let mut made = operand;
    for _ in 0..marks {
        made = negation(alloc, made)?;
    }
    Ok(made)
}

/// Two expressions with an operator between them. Memory is taken before the operands are taken apart.
pub fn binary(alloc: Global, op: Op, left: Written, right: Written) -> Result<Written, NoMemory>
    ensures { IfOk result (λ made. term made.expr ≡ bin op (term left.expr) (term right.expr)) }
{
    let first = boxed(alloc, Expr::Const(0))?;
    let second = boxed(alloc, Expr::Const(0))?;
    let nodes = (left.nodes + right.nodes + 1).min(NODES);
    let height = (left.height.max(right.height) + 1).min(HEIGHT);
    let first = placed(first, left.into_expr());
    let second = placed(second, right.into_expr());
    Ok(Written {
        expr: Expr::Bin(op, first, second),
        nodes,
        height,
    })
}
