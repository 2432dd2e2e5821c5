//! The variable that is bound next.

ghost use Rattle.std.specs.Prelude.{◌≡◌, map};
ghost use Rattle.cov_expr.specs.View.{term};
ghost use Rattle.entail_counter.specs.Free as spec;

use crate::binding::{Binding, bound};
use cov_expr::Expr;

/// Which variables of an expression are free.
#[derive(Clone, Copy)]
pub enum Unbound {
    /// None is.
    Settled,
    /// One is.
    One(u32),
    /// Several are, of which this is the first.
    Several(u32),
}

/// The variable to be bound. `None` comes where none is free.
pub fn chosen(hyps: &[Expr], goal: &Expr, m: &[Binding]) -> Option<u32>
    ensures { result ≡ spec.chosen (map term hyps.now) (term goal.now) m.now }
{
    match fewest(free(goal, m), hyps, m) {
        Unbound::Settled => None,
        Unbound::One(x) => Some(x),
        Unbound::Several(x) => Some(x),
    }
}

/// The fewest of all.
fn fewest(first: Unbound, hyps: &[Expr], m: &[Binding]) -> Unbound
    ensures { result ≡ spec.fewest first (map term hyps.now) m.now }
{
    let mut found = first;
    for h in hyps {
        found = fewer(found, free(h, m));
    }
    found
}

/// The fewer of two.
fn fewer(a: Unbound, b: Unbound) -> Unbound
    ensures { result ≡ spec.fewer a b }
{
    match (a, b) {
        (Unbound::Settled, _) => b,
        (Unbound::One(x), _) => Unbound::One(x),
        (Unbound::Several(_), Unbound::One(y)) => Unbound::One(y),
        (Unbound::Several(x), Unbound::Settled) => Unbound::Several(x),
        (Unbound::Several(x), Unbound::Several(_)) => Unbound::Several(x),
    }
}

/// Those of an expression.
fn free(e: &Expr, m: &[Binding]) -> Unbound
    ensures { result ≡ spec.free (term e.now) m.now }
{
    match e {
        Expr::Const(_) => Unbound::Settled,
        Expr::Var(x) => {
            match bound(m, *x) {
                Some(_) => Unbound::Settled,
                None => Unbound::One(*x),
            }
        }
        Expr::Not(a) => free(a, m),
        Expr::Bin(_, a, b) => joined(free(a, m), free(b, m)),
    }
}

/// Those of two parts.
fn joined(a: Unbound, b: Unbound) -> Unbound
    ensures { result ≡ spec.joined a b }
{
    match (a, b) {
        (Unbound::Settled, _) => b,
        (Unbound::One(x), Unbound::Settled) => Unbound::One(x),
        (Unbound::One(x), Unbound::One(y)) => {
            if x == y {
                Unbound::One(x)
            } else {
                Unbound::Several(x)
            }
        }
        (Unbound::One(x), Unbound::Several(_)) => Unbound::Several(x),
        (Unbound::Several(x), _) => Unbound::Several(x),
    }
}
