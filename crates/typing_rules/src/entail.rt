//! Copies of entailments, with their place and number, as they are handed out.

ghost use Rattle.std.specs.Prelude.{◌≡◌, ◌<◌, ◌+◌, ◌^◌, ◌++◌, [], ◌∷◌, ℕ, List, length, map, IfOk, OnOk};
ghost use Rattle.cov_expr.specs.View.{term};
ghost use Rattle.cov_ast.specs.Plain.{Plain};
ghost use Rattle.cov_ast.specs.Syntax as syntax;
ghost use Rattle.typing_law.specs.ThreadEntailments.{view_entail};
ghost use Rattle.typing_rules.specs.Inside.Walking.{asked_from};
ghost use Rattle.typing_rules.specs.Keeping.{kept_for, view_kept};
ghost use Rattle.typing_rules.specs.declared.purpose.Purpose.TheVariants.{Collect};
ghost use Rattle.typing_rules.specs.Listed.{entailment_of, entailments_of};
ghost use Rattle.typing_state.specs.KeptPoints.{AtPoint};

use crate::asked::Entailment;
use crate::kept::Kept;
use crate::purpose::Wanted;
use cov_expr::{Expr, List, NoMemory, copy};
use std::alloc::Global;
use typing_law::{Entail, Site};
use typing_state::Point;

/// Adds copies of entailments at a point, numbered from a number on, to others: of those that are wanted.
pub fn add_copies(
    alloc: Global,
    site: Site,
    point: &Point,
    from: u32,
    entailments: &[Entailment<'_>],
    wanted: Wanted,
    kept: &mut List<Kept>,
) -> Result<(), NoMemory>
    requires { from + length entailments.now < 2 ^ 32 }
    ensures { OnOk result ((proofs : List syntax.Proof) → (p : Plain) → (t : ℕ) → AtPoint p t point.now (λ a. map view_kept kept.new
        ≡ map view_kept kept.old ++ kept_for (Collect wanted) (asked_from site.place proofs from (entailments_of a.preds entailments.now)))) }
{
    let mut number = from;
    for entailment in entailments {
        add_copy(alloc, site, point, number, entailment, wanted, kept)?;
        number += 1;
    }
    Ok(())
}

/// Adds a copy of an entailment at a point to others, if it is wanted.
fn add_copy(
    alloc: Global,
    site: Site,
    point: &Point,
    number: u32,
    entailment: &Entailment<'_>,
    wanted: Wanted,
    kept: &mut List<Kept>,
) -> Result<(), NoMemory>
    ensures { OnOk result ((proofs : List syntax.Proof) → (p : Plain) → (t : ℕ) → AtPoint p t point.now (λ a. map view_kept kept.new
        ≡ map view_kept kept.old ++ kept_for (Collect wanted) (asked_from site.place proofs number (entailment_of a.preds entailment.now ∷ [])))) }
{
    if wanted.has(site.place, number) {
        let made = copied(alloc, site, point, number, entailment)?;
        kept.push(Kept::Copy(made))?;
    }
    Ok(())
}

/// A copy of an entailment at a point.
fn copied(
    alloc: Global,
    site: Site,
    point: &Point,
    number: u32,
    entailment: &Entailment<'_>,
) -> Result<Entail, NoMemory>
    ensures { IfOk result (λ made. (p : Plain) → (t : ℕ) → AtPoint p t point.now (λ a.
        view_entail made ≡ record { place = site.place; number = number; entailment = entailment_of a.preds entailment.now })) }
{
    let hyps = copied_hyps(alloc, point, entailment)?;
    let goal = copy(alloc, entailment.goal.expr())?;
    Ok(Entail {
        place: site.place,
        number,
        hyps,
        goal,
    })
}

/// Copies of what an entailment may follow from.
fn copied_hyps(
    alloc: Global,
    point: &Point,
    entailment: &Entailment<'_>,
) -> Result<List<Expr>, NoMemory>
    ensures { IfOk result (λ made. (p : Plain) → (t : ℕ) → AtPoint p t point.now (λ a.
        map term made ≡ (entailment_of a.preds entailment.now).hyps)) }
{
    let mut hyps = copied_all(alloc, point.preds().as_slice())?;
    match &entailment.more {
        Some(more) => {
            let last = copy(alloc, more.expr())?;
            hyps.push(last)?;
            Ok(hyps)
        }
        None => Ok(hyps),
    }
}

/// Copies of expressions.
fn copied_all(alloc: Global, exprs: &[Expr]) -> Result<List<Expr>, NoMemory>
    ensures { IfOk result (λ made. map term made ≡ map term exprs.now) }
{
    let mut made = List::with_capacity(alloc, exprs.len())?;
    for e in exprs {
        let copied = copy(alloc, e)?;
        made.push(copied)?;
    }
    Ok(made)
}
