//! Terms with a number by which most of them are put in order.

ghost use Rattle.std.specs.Prelude.{◌≡◌, ◌^◌};
ghost use Rattle.entail_ring.specs.Inside as inside;
ghost use Rattle.entail_ring.specs.Polys as spec;

use crate::monomials::{Monomial, order};
use std::cmp::Ordering;

/// A term that is lent, with its rank: the first atoms in one number, by which most pairs of terms are told apart.
#[derive(Clone, Copy)]
pub struct Ranked<'a> {
    rank: u64,
    /// The term.
    pub term: &'a Monomial,
    ghost ranked: { rank ≡ inside.rank (2 ^ 56) term.now.atoms },
}

impl<'a> Ranked<'a> {
    /// A term with its rank.
    pub fn new(term: &'a Monomial) -> Self
        ensures { result.term.now ≡ term.now }
    {
        Ranked {
            rank: rank(term.atoms.as_slice()),
            term,
        }
    }
}

/// The order of the multisets of two terms.
pub fn compare(t: &Ranked<'_>, u: &Ranked<'_>) -> Ordering
    ensures { result ≡ spec.order t.now.term.now.atoms u.now.term.now.atoms }
{
    if t.rank < u.rank {
        Ordering::Less
    } else if u.rank < t.rank {
        Ordering::Greater
    } else {
        order(t.term, u.term)
    }
}

/// The numbers of the first eight atoms as digits to the base 256, up to one that is too large for a digit. A multiset that comes later
/// never has a lower rank.
fn rank(atoms: &[u32]) -> u64
    ensures { result ≡ inside.rank (2 ^ 56) atoms.now }
{
    let mut rank = 0u64;
    let mut unit = 1u64 << 56;
    for x in atoms {
        if *x >= 254 {
            return rank + 255 * unit;
        }
        rank += (*x as u64 + 1) * unit;
        unit /= 256;
    }
    rank
}
