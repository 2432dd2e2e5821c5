//! Terms of any order as one polynomial, in which those of equal atoms are joined.

ghost use Rattle.std.specs.Prelude.{◌≡◌, [], ◌∷◌, ◌++◌, IfOk, OnOk, map};
ghost use Rattle.std.specs.List.Sorted.{IsPermutation, IsSortedBy};
ghost use Rattle.entail_ring.specs.Inside.{AreBefore, AreUpTo, comes_before};
ghost use Rattle.entail_ring.specs.Polys as spec;
ghost use Rattle.entail_ring.specs.Polys.{IsPoly};

use crate::monomials::Monomial;
use crate::ranked::{Ranked, compare};
use cov_expr::NoMemory;
use std::alloc::Global;

/// The polynomial of any terms. The time is that of sorting them.
pub fn joined(alloc: Global, terms: &[Monomial]) -> Result<Vec<Monomial>, NoMemory>
    ensures { IfOk result (λ made. made.items ≡ spec.joined terms.now) }
{
    let rising = in_order(alloc, terms)?;
    let mut made = Vec::new(alloc);
    for t in &rising {
        add(&mut made, t.term)?;
    }
    Ok(made)
}

/// The terms in the order of their multisets.
fn in_order(alloc: Global, terms: &[Monomial]) -> Result<Vec<Ranked<'_>>, NoMemory>
    ensures terms { IfOk result (λ made. IsPermutation terms.now (map (λ t. t.term.now) made.items)) }
    ensures order { IfOk result (λ made. IsSortedBy comes_before (map (λ t. t.term.now) made.items)) }
{
    let mut made = Vec::with_capacity(alloc, terms.len())?;
    for t in terms {
        made.push(Ranked::new(t))?;
    }
    made.sort_by(|t, u| compare(t, u))?;
    Ok(made)
}

/// A term more, of which no other's multiset comes behind: joined with the last one, if that has the same.
fn add(made: &mut Vec<Monomial>, t: &Monomial) -> Result<(), NoMemory>
    requires poly { IsPoly made.old.items }
    requires last { AreUpTo t.now.atoms made.old.items }
    ensures { OnOk result (made.new.items ≡ spec.joined (made.old.items ++ t.now ∷ [])) }
{
    let coefficient = taken(made, t.atoms.as_slice()).wrapping_add(t.coefficient);
    if coefficient != 0 {
        made.push(Monomial {
            coefficient,
            atoms: t.atoms.copy(),
        })?;
    }
    Ok(())
}

/// Takes the last term off where it has these atoms, and gives its coefficient; 0 where nothing was taken.
fn taken(made: &mut Vec<Monomial>, atoms: &[u32]) -> u32
    requires poly { IsPoly made.old.items }
    requires last { AreUpTo atoms.now made.old.items }
    ensures rest { made.old.items ≡ made.new.items ++ spec.put result atoms.now [] }
    ensures poly { IsPoly made.new.items }
    ensures before { AreBefore atoms.now made.new.items }
{
    let Some(last) = made.last() else {
        return 0;
    };
    if last.atoms.as_slice() != atoms {
        return 0;
    }
    let coefficient = last.coefficient;
    made.pop();
    coefficient
}
