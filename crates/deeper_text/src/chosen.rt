//! What is found, by threads and places, with other numbers for variables.

ghost use Rattle.std.specs.Prelude.{◌≡◌, ◌<◌, [], ◌∷◌, ◌++◌, ℕ, get_or, length, map, IfOk, OnOk};
ghost use Rattle.annotate.specs.Inside.Choosing.{chosen_at, chosen_in};
ghost use Rattle.annotate.specs.Inside.Searches.{renumbered};
ghost use Rattle.cov_ast.specs.View as view;
ghost use Rattle.deeper_text.specs.DeeperText as spec;
ghost use Rattle.deeper_text.specs.Inside.{found};
ghost use Rattle.policy_class.specs.Resolved.{resolved_cert};

use crate::found::Found;
use annotate::{Choice, ThreadChoices};
use cov_ast::Cert;
use cov_expr::{List, NoMemory};
use policy_class::{Renumbering, renumber_cert};
use std::alloc::Global;
use tree_copies::copy_cert;

/// What is found for each of so many threads. It goes over what is found once for each.
pub fn choose_found(
    alloc: Global,
    all: &[Found],
    numbers: &Renumbering,
    threads: usize,
) -> Result<List<ThreadChoices>, NoMemory>
    ensures count { IfOk result (λ made. length made ≡ threads) }
    ensures chosen { IfOk result (λ made. (t : ℕ) → (place : ℕ) → t < threads
        → chosen_in made t place ≡ map (renumbered numbers.now) (spec.chosen_among (map found all.now) t place)) }
{
    let mut made = List::new(alloc);
    for t in 0..threads {
        let chosen = choose_in(alloc, all, numbers, t)?;
        made.push(chosen)?;
    }
    Ok(made)
}

/// What is found for a thread.
fn choose_in(
    alloc: Global,
    all: &[Found],
    numbers: &Renumbering,
    t: usize,
) -> Result<ThreadChoices, NoMemory>
    ensures { IfOk result (λ made. (place : ℕ) → chosen_at made place ≡ map (renumbered numbers.now) (spec.chosen_among (map found all.now) t place)) }
{
    let mut made = ThreadChoices::new(alloc);
    for one in all {
        add_where(alloc, one, numbers, t, &mut made)?;
    }
    Ok(made)
}

/// Adds what is found, where it is of a thread.
fn add_where(
    alloc: Global,
    one: &Found,
    numbers: &Renumbering,
    t: usize,
    made: &mut ThreadChoices,
) -> Result<(), NoMemory>
    ensures { OnOk result ((place : ℕ) → chosen_at made.new place
        ≡ chosen_at made.old place ++ map (renumbered numbers.now) (spec.chosen_among (found one.now ∷ []) t place)) }
{
    if one.thread as usize == t {
        let cert = renumbered(alloc, numbers, &one.cert)?;
        made.add(
            alloc,
            one.place,
            Choice {
                number: one.number,
                cert,
            },
        )
    } else {
        Ok(())
    }
}

/// A certificate with other numbers for its variables.
fn renumbered(alloc: Global, numbers: &Renumbering, cert: &Cert) -> Result<Cert, NoMemory>
    ensures { IfOk result (λ made. view.cert made ≡ resolved_cert (λ x. get_or numbers.now.0 x numbers.now.1) (λ l. l) (view.cert cert.now)) }
{
    let mut made = copy_cert(alloc, cert)?;
    renumber_cert(numbers, &mut made);
    Ok(made)
}
