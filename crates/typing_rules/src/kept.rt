//! What a walk keeps of the entailments that it comes by: copies of them, or what a search comes to for them.

ghost use Rattle.std.specs.Prelude.{◌≡◌, ◌++◌, [], ◌∷◌, map, reverse, take, IfOk, OnOk};
ghost use Rattle.typing_law.specs.ThreadEntailments.{view_entail};
ghost use Rattle.typing_rules.specs.Keeping.{copied_among, sought_among, view_kept, view_searched};

use cov_ast::Cert;
use cov_expr::{List, NoMemory};
use std::alloc::Global;
use typing_law::Entail;

/// What a search comes to for an entailment of a thread that has no valid certificate.
#[derive(Drop)]
pub struct Searched {
    /// The byte offset of the statement.
    pub place: u32,
    /// The number of the entailment among those of the statement, from 1 on.
    pub number: u32,
    /// A valid certificate, if the search finds one.
    pub found: Option<Cert>,
}

/// What a walk keeps of an entailment.
#[derive(Drop)]
pub enum Kept {
    /// A copy of it.
    Copy(Entail),
    /// What a search comes to for it.
    Found(Searched),
}

/// Drops what is kept behind the first so many.
pub fn cut(kept: &mut List<Kept>, mark: usize)
    ensures { kept.new ≡ take mark kept.old }
{
    while kept.len() > mark {
        let _ = kept.pop();
    }
}

/// The items from the last one to the first, so that `pop` takes off the first one first.
fn turned<T>(items: List<T>) -> List<T>
    ensures { reverse result ≡ items }
{
    let mut rest = items;
    rest.as_mut_slice().reverse();
    rest
}

/// The copies among what is kept, in their order.
pub fn copies(alloc: Global, kept: List<Kept>) -> Result<List<Entail>, NoMemory>
    ensures { IfOk result (λ made. map view_entail made ≡ copied_among (map view_kept kept)) }
{
    let mut rest = turned(kept);
    let mut made = List::with_capacity(alloc, rest.len())?;
    while let Some(item) = rest.pop() {
        add_copy(item, &mut made)?;
    }
    Ok(made)
}

/// Adds a copy to others, where one is kept.
fn add_copy(item: Kept, made: &mut List<Entail>) -> Result<(), NoMemory>
    ensures { OnOk result (map view_entail made.new ≡ map view_entail made.old ++ copied_among (view_kept item ∷ [])) }
{
    match item {
        Kept::Copy(entail) => made.push(entail),
        Kept::Found(_) => Ok(()),
    }
}

/// What searches came to, among what is kept, in this order.
pub fn searches(alloc: Global, kept: List<Kept>) -> Result<List<Searched>, NoMemory>
    ensures { IfOk result (λ made. map view_searched made ≡ sought_among (map view_kept kept)) }
{
    let mut rest = turned(kept);
    let mut made = List::with_capacity(alloc, rest.len())?;
    while let Some(item) = rest.pop() {
        add_search(item, &mut made)?;
    }
    Ok(made)
}

/// Adds what a search came to, where that is kept.
fn add_search(item: Kept, made: &mut List<Searched>) -> Result<(), NoMemory>
    ensures { OnOk result (map view_searched made.new ≡ map view_searched made.old ++ sought_among (view_kept item ∷ [])) }
{
    match item {
        Kept::Copy(_) => Ok(()),
        Kept::Found(searched) => made.push(searched),
    }
}
