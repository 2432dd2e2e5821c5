//! The search for what is chosen: certificates for the entailments of a program that have no valid one.

ghost use Rattle.std.specs.Prelude.{◌≡◌, ◌++◌, ◌<◌, ℕ, [], ◌∷◌, get_or, length, map, IfOk, IsTrue, OnOk};
ghost use Rattle.cov_ast.specs.Obligations.{all_hold};
ghost use Rattle.cov_ast.specs.View as view;
ghost use Rattle.cov_ast.specs.WellFormed.{IsWellFormed};
ghost use Rattle.mode_compat.specs.Declared.{declaration_obligations};
ghost use Rattle.policy_class.specs.Resolved.{resolved_cert};
ghost use Rattle.typing_rules.specs.Keeping.{view_searched};
ghost use Rattle.annotate.specs.Annotated.{choices, open_of};
ghost use Rattle.annotate.specs.NotFound.{not_found, not_found_in_thread};
ghost use Rattle.annotate.specs.Inside.Choosing.{chosen_at, chosen_in};
ghost use Rattle.annotate.specs.Inside.Searches.{found_at, opens, renumbered};

use crate::choices::{Choice, ThreadChoices};
use crate::outcome::Open;
use cov_ast::{Cert, Program};
use cov_expr::{List, NoMemory};
use policy_class::{Renumbering, renumber_cert};
use std::alloc::Global;
use tree_copies::copy_cert;
use typing_rules::{Searched, searched_entailments};

/// What is chosen for each thread of a program, with other numbers for its variables. The entailments for which nothing is found are added to those that are open.
pub fn choose(
    alloc: Global,
    q: &Program,
    depth: u32,
    numbers: &Renumbering,
    unproved: &mut List<Open>,
) -> Result<List<ThreadChoices>, NoMemory>
    requires formed { IsWellFormed (view.program q.now) }
    requires declared { IsTrue (all_hold (declaration_obligations (view.program q.now))) }
    ensures count { IfOk result (λ made. length made ≡ length q.now.threads) }
    ensures chosen { IfOk result (λ made. (t : ℕ) → (place : ℕ)
        → chosen_in made t place ≡ map (renumbered numbers.now) (choices depth (view.program q.now) t place)) }
    ensures unproved { OnOk result (unproved.new ≡ unproved.old ++ not_found depth (view.program q.now)) }
{
    let mut made = List::new(alloc);
    for t in 0..q.threads.len() {
        let chosen = choose_in(alloc, q, t as u32, depth, numbers, unproved)?;
        made.push(chosen)?;
    }
    Ok(made)
}

/// What is chosen for a thread.
fn choose_in(
    alloc: Global,
    q: &Program,
    t: u32,
    depth: u32,
    numbers: &Renumbering,
    unproved: &mut List<Open>,
) -> Result<ThreadChoices, NoMemory>
    requires formed { IsWellFormed (view.program q.now) }
    requires declared { IsTrue (all_hold (declaration_obligations (view.program q.now))) }
    requires thread { t < length q.now.threads }
    ensures chosen { IfOk result (λ made. (place : ℕ) → chosen_at made place ≡ map (renumbered numbers.now) (choices depth (view.program q.now) t place)) }
    ensures unproved { OnOk result (unproved.new ≡ unproved.old ++ map (open_of t) (not_found_in_thread depth (view.program q.now) t)) }
{
    let searched = searched_entailments(alloc, q, t, depth)?;
    let mut chosen = ThreadChoices::new(alloc);
    add_each(
        alloc,
        t,
        numbers,
        searched.as_slice(),
        &mut chosen,
        unproved,
    )?;
    Ok(chosen)
}

/// Adds what searches came to for a thread.
fn add_each(
    alloc: Global,
    t: u32,
    numbers: &Renumbering,
    searched: &[Searched],
    chosen: &mut ThreadChoices,
    unproved: &mut List<Open>,
) -> Result<(), NoMemory>
    ensures chosen { OnOk result ((place : ℕ)
        → chosen_at chosen.new place ≡ chosen_at chosen.old place ++ map (renumbered numbers.now) (found_at (map view_searched searched.now) place)) }
    ensures unproved { OnOk result (unproved.new ≡ unproved.old ++ opens t (map view_searched searched.now)) }
{
    for one in searched {
        add(alloc, t, numbers, one, chosen, unproved)?;
    }
    Ok(())
}

/// Adds what a search came to: the certificate to what is chosen, or else the entailment to those that are open.
fn add(
    alloc: Global,
    t: u32,
    numbers: &Renumbering,
    searched: &Searched,
    chosen: &mut ThreadChoices,
    unproved: &mut List<Open>,
) -> Result<(), NoMemory>
    ensures chosen { OnOk result ((place : ℕ)
        → chosen_at chosen.new place ≡ chosen_at chosen.old place ++ map (renumbered numbers.now) (found_at (view_searched searched.now ∷ []) place)) }
    ensures unproved { OnOk result (unproved.new ≡ unproved.old ++ opens t (view_searched searched.now ∷ [])) }
{
    match &searched.found {
        Some(cert) => {
            let cert = renumbered(alloc, numbers, cert)?;
            chosen.add(
                alloc,
                searched.place,
                Choice {
                    number: searched.number,
                    cert,
                },
            )
        }
        None => {
            unproved.push(Open {
                thread: t,
                place: searched.place,
                number: searched.number,
            })?;
            Ok(())
        }
    }
}

/// A certificate with other numbers for its variables.
fn renumbered(alloc: Global, numbers: &Renumbering, cert: &Cert) -> Result<Cert, NoMemory>
    ensures { IfOk result (λ made. view.cert made ≡ resolved_cert (λ x. get_or numbers.now.0 x numbers.now.1) (λ l. l) (view.cert cert.now)) }
{
    let mut made = copy_cert(alloc, cert)?;
    renumber_cert(numbers, &mut made);
    Ok(made)
}
