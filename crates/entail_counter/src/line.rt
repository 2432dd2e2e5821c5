//! Expressions as functions of one variable.

ghost use Rattle.std.specs.Prelude.{◌≡◌};
ghost use Rattle.cov_expr.specs.View.{term};
ghost use Rattle.entail_counter.specs.Lines as spec;

use crate::binding::{Binding, bound};
use cov_expr::{Expr, Op, apply};

/// What an expression is as a function of one variable, modulo 2^32.
#[derive(Clone, Copy)]
pub enum Line {
    /// This word.
    Constant(u32),
    /// The variable and this word, added.
    Rising(u32),
    /// This word without the variable.
    Falling(u32),
    /// None of these, or a variable besides is free.
    Other,
}

/// What an expression is as a function of a variable, as far as others are bound. Each node is looked at once.
pub fn as_line(x: u32, m: &[Binding], e: &Expr) -> Line
    ensures { result ≡ spec.line x m.now (term e.now) }
{
    match e {
        Expr::Const(k) => Line::Constant(*k),
        Expr::Var(y) => {
            if *y == x {
                Line::Rising(0)
            } else {
                match bound(m, *y) {
                    Some(v) => Line::Constant(v),
                    None => Line::Other,
                }
            }
        }
        Expr::Not(a) => {
            match as_line(x, m, a) {
                Line::Constant(v) => Line::Constant((v == 0) as u32),
                Line::Rising(_) | Line::Falling(_) | Line::Other => Line::Other,
            }
        }
        Expr::Bin(op, a, b) => combined(*op, as_line(x, m, a), as_line(x, m, b)),
    }
}

/// That of an operation.
fn combined(op: Op, a: Line, b: Line) -> Line
    ensures { result ≡ spec.combined op a b }
{
    match op {
        Op::Add => {
            match (a, b) {
                (Line::Constant(v), Line::Constant(w)) => Line::Constant(apply(Op::Add, v, w)),
                (Line::Constant(v), Line::Rising(c)) => Line::Rising(apply(Op::Add, v, c)),
                (Line::Constant(v), Line::Falling(c)) => Line::Falling(apply(Op::Add, v, c)),
                (Line::Rising(c), Line::Constant(w)) => Line::Rising(apply(Op::Add, c, w)),
                (Line::Falling(c), Line::Constant(w)) => Line::Falling(apply(Op::Add, c, w)),
                (_, _) => Line::Other,
            }
        }
        Op::Sub => taken(a, b),
        Op::Mul
        | Op::And
        | Op::Or
        | Op::Xor
        | Op::Eq
        | Op::Ne
        | Op::Lt
        | Op::Le
        | Op::Both
        | Op::Either => {
            match (a, b) {
                (Line::Constant(v), Line::Constant(w)) => Line::Constant(apply(op, v, w)),
                (_, _) => Line::Other,
            }
        }
    }
}

/// That of a difference.
fn taken(a: Line, b: Line) -> Line
    ensures { result ≡ spec.taken a b }
{
    match (a, b) {
        (Line::Constant(v), Line::Constant(w)) => Line::Constant(apply(Op::Sub, v, w)),
        (Line::Constant(v), Line::Rising(c)) => Line::Falling(apply(Op::Sub, v, c)),
        (Line::Constant(v), Line::Falling(c)) => Line::Rising(apply(Op::Sub, v, c)),
        (Line::Rising(c), Line::Constant(w)) => Line::Rising(apply(Op::Sub, c, w)),
        (Line::Falling(c), Line::Constant(w)) => Line::Falling(apply(Op::Sub, c, w)),
        (_, _) => Line::Other,
    }
}

/// The value of the variable for which two are equal, where one of them is a word.
pub fn crossing(a: Line, b: Line) -> Option<u32>
    ensures { result ≡ spec.crossing a b }
{
    match (a, b) {
        (Line::Rising(c), Line::Constant(w)) => Some(apply(Op::Sub, w, c)),
        (Line::Falling(c), Line::Constant(w)) => Some(apply(Op::Sub, c, w)),
        (Line::Constant(v), Line::Rising(c)) => Some(apply(Op::Sub, v, c)),
        (Line::Constant(v), Line::Falling(c)) => Some(apply(Op::Sub, c, v)),
        (_, _) => None,
    }
}
