//! The conditions of the certificates `ring` and `range`.

ghost use Rattle.std.specs.Prelude.{◌≡◌, ◌++◌, IfOk, map};
ghost use Rattle.cov_expr.specs.View.{term};
ghost use Rattle.entail_range.specs.Range.{lent};
ghost use Rattle.entail_cert.specs.HeldTerms.{held_term};
ghost use Rattle.entail_cert.specs.Valid as spec;

use crate::held::Held;
use crate::parts::operands;
use cov_expr::{Expr, List, NoMemory, Op};
use entail_range::range_valid_indexed;
use entail_ring::ring_equal;
use std::alloc::Global;

/// Whether a goal is an equation whose sides are one polynomial.
pub fn is_ring(alloc: Global, goal: &Expr) -> Result<bool, NoMemory>
    ensures { IfOk result (λ holds. holds ≡ spec.is_ring (term goal.now)) }
{
    match operands(Op::Eq, goal) {
        Some((a, b)) => ring_equal(alloc, a, b),
        None => Ok(false),
    }
}

/// Whether a goal follows from the bounds that hypotheses give, which come in two parts.
pub fn is_range(
    alloc: Global,
    given: &[Expr],
    added: &[&Expr],
    goal: &Expr,
) -> Result<bool, NoMemory>
    ensures { IfOk result (λ holds. holds ≡ spec.is_range (map term given.now ++ map lent added.now) (term goal.now)) }
{
    range_valid_indexed(alloc, given, added, goal)
}

/// The hypotheses that a walk has added, each lent.
pub fn lent_facts<'f>(alloc: Global, facts: &'f [Held<'_>]) -> Result<List<&'f Expr>, NoMemory>
    ensures { IfOk result (λ made. map lent made ≡ map held_term facts.now) }
{
    let mut made = List::new(alloc);
    for f in facts {
        made.push(f.expr())?;
    }
    Ok(made)
}
