//! The values of expressions, where bindings settle them.

ghost use Rattle.std.specs.Prelude.{◌≡◌};
ghost use Rattle.cov_expr.specs.View.{term};
ghost use Rattle.entail_counter.specs.Known as spec;

use crate::binding::{Binding, bound};
use cov_expr::{Expr, Op, apply};

/// The value of an expression. `None` comes where the bindings don't settle it: where a variable in it is free; but `&&` with one operand that is 0 is 0, and
/// `||` with one that is another number is 1, whatever the other operand is.
pub fn known(e: &Expr, m: &[Binding]) -> Option<u32>
    ensures { result ≡ spec.known (term e.now) m.now }
{
    match e {
        Expr::Const(k) => Some(*k),
        Expr::Var(x) => bound(m, *x),
        Expr::Not(a) => match known(a, m) {
            Some(v) => Some((v == 0) as u32),
            None => None,
        },
        Expr::Bin(op, a, b) => match (known(a, m), known(b, m)) {
            (Some(v), Some(w)) => Some(apply(*op, v, w)),
            (Some(v), None) => decided(*op, v),
            (None, Some(w)) => decided(*op, w),
            (None, None) => None,
        },
    }
}

/// What an operator gives of one operand.
fn decided(op: Op, v: u32) -> Option<u32>
    ensures { result ≡ spec.decided op v }
{
    match op {
        Op::Both => { if v == 0 { Some(0) } else { None } }
        Op::Either => { if v == 0 { None } else { Some(1) } }
        Op::Add
        | Op::Sub
        | Op::Mul
        | Op::And
        | Op::Or
        | Op::Xor
        | Op::Eq
        | Op::Ne
        | Op::Lt
        | Op::Le => None,
    }
}
