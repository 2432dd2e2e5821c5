//! The search for certificates of entailments that have no valid one.

ghost use Rattle.std.specs.Prelude.{◌≡◌, ◌<◌, ◌+◌, ◌^◌, ◌++◌, [], ◌∷◌, ℕ, length, map, option_map, IfOk, OnOk};
ghost use Rattle.cov_expr.specs.View.{term};
ghost use Rattle.cov_ast.specs.Plain.{Plain};
ghost use Rattle.cov_ast.specs.View as view;
ghost use Rattle.cert_search.specs.Searching as spec;
ghost use Rattle.entail_range.specs.Range.{lent};
ghost use Rattle.typing_rules.specs.Inside.Walking.{asked_from};
ghost use Rattle.typing_rules.specs.Keeping.{kept_for, view_kept, view_searched, searched_for};
ghost use Rattle.typing_rules.specs.Listed.{entailment_of, entailments_of};
ghost use Rattle.typing_rules.specs.declared.purpose.Purpose.TheVariants.{Search};
ghost use Rattle.typing_state.specs.KeptPoints.{AtPoint};

use crate::asked::Entailment;
use crate::certificates::is_proved;
use crate::kept::{Kept, Searched};
use cert_search::{find_lent, lent_each};
use cov_ast::{Cert, Proof};
use cov_expr::{Expr, List, NoMemory};
use std::alloc::Global;
use typing_law::Site;
use typing_state::Point;

/// Adds to what is kept what a search of a depth comes to for each entailment at a point that isn't proved. They are numbered from a number on.
pub fn add_searched(
    alloc: Global,
    site: Site,
    point: &Point,
    proofs: &[Proof],
    from: u32,
    entailments: &[Entailment<'_>],
    depth: u32,
    kept: &mut List<Kept>,
) -> Result<(), NoMemory>
    requires { from + length entailments.now < 2 ^ 32 }
    ensures { OnOk result ((p : Plain) → (t : ℕ) → AtPoint p t point.now (λ a. map view_kept kept.new
        ≡ map view_kept kept.old ++ kept_for (Search depth) (asked_from site.place (map view.proof proofs.now) from (entailments_of a.preds entailments.now)))) }
{
    let mut number = from;
    let mut next = 0;
    for entailment in entailments {
        add_unproved(
            alloc, site, point, proofs, number, entailment, depth, &mut next, kept,
        )?;
        number += 1;
    }
    Ok(())
}

/// Adds to what is kept what a search of a depth comes to for an entailment at a point, if it isn't proved. The predicate at the place `next` is looked
/// at first.
fn add_unproved(
    alloc: Global,
    site: Site,
    point: &Point,
    proofs: &[Proof],
    number: u32,
    entailment: &Entailment<'_>,
    depth: u32,
    next: &mut usize,
    kept: &mut List<Kept>,
) -> Result<(), NoMemory>
    ensures { OnOk result ((p : Plain) → (t : ℕ) → AtPoint p t point.now (λ a. map view_kept kept.new
        ≡ map view_kept kept.old ++ kept_for (Search depth) (asked_from site.place (map view.proof proofs.now) number (entailment_of a.preds entailment.now ∷ [])))) }
{
    let proved = is_proved(alloc, point, proofs, number, entailment, next)?;
    if proved {
        return Ok(());
    }
    let made = search_for(alloc, site, point, number, entailment, depth)?;
    kept.push(Kept::Found(made))?;
    Ok(())
}

/// What a search of a depth comes to for an entailment at a point.
fn search_for(
    alloc: Global,
    site: Site,
    point: &Point,
    number: u32,
    entailment: &Entailment<'_>,
    depth: u32,
) -> Result<Searched, NoMemory>
    ensures { IfOk result (λ made. (p : Plain) → (t : ℕ) → AtPoint p t point.now (λ a.
        view_searched made ≡ searched_for depth (record { place = site.place; number = number; entailment = entailment_of a.preds entailment.now }))) }
{
    let found = find(alloc, point, entailment, depth)?;
    Ok(Searched {
        place: site.place,
        number,
        found,
    })
}

/// A certificate of an entailment at a point, if a search of a depth finds one.
fn find(
    alloc: Global,
    point: &Point,
    entailment: &Entailment<'_>,
    depth: u32,
) -> Result<Option<Cert>, NoMemory>
    ensures { IfOk result (λ found. (p : Plain) → (t : ℕ) → AtPoint p t point.now (λ a.
        option_map view.cert found ≡ spec.search depth (entailment_of a.preds entailment.now).hyps (entailment_of a.preds entailment.now).goal)) }
{
    let hyps = lent_hyps(alloc, point, entailment)?;
    find_lent(alloc, hyps.as_slice(), entailment.goal.expr(), depth)
}

/// What an entailment at a point may follow from, each lent.
fn lent_hyps<'a>(
    alloc: Global,
    point: &'a Point,
    entailment: &'a Entailment<'_>,
) -> Result<List<&'a Expr>, NoMemory>
    ensures { IfOk result (λ made. (p : Plain) → (t : ℕ) → AtPoint p t point.now (λ a. map lent made ≡ (entailment_of a.preds entailment.now).hyps)) }
{
    let mut hyps = lent_each(alloc, point.preds().as_slice())?;
    match &entailment.more {
        Some(more) => {
            hyps.push(more.expr())?;
            Ok(hyps)
        }
        None => Ok(hyps),
    }
}
