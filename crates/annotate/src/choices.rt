//! What is chosen for the statements of a thread, by their places.

ghost use Rattle.std.specs.Prelude.{◌≡◌, ℕ, ◌==◌, [], ◌∷◌, ◌++◌, if◌then◌else◌, map, OnOk};
ghost use Rattle.annotate.specs.Inside.Choosing.{chosen_at, view_choice};

use cov_ast::Cert;
use cov_expr::{List, NoMemory};
use indexmap::IndexMap;
use std::alloc::Global;

/// A certificate that is chosen for an entailment of a statement, by its number.
pub struct Choice {
    pub number: u32,
    pub cert: Cert,
}

impl Drop for Choice {
    fn drop(self) {
        let Choice { number: _, cert } = self;
        drop(cert);
    }
}

/// What is chosen for the statements of a thread, by hashing of their places.
pub struct ThreadChoices {
    by_place: IndexMap<u32, List<Choice>>,
}

impl Drop for ThreadChoices {
    fn drop(self) {
        let ThreadChoices { by_place } = self;
        drop(by_place);
    }
}

impl ThreadChoices {
    /// Nothing, which takes no memory yet.
    pub fn new(alloc: Global) -> ThreadChoices
        ensures { (place : ℕ) → chosen_at result place ≡ [] }
    {
        ThreadChoices {
            by_place: IndexMap::new(alloc),
        }
    }

    /// Adds a choice behind those for the statement at a place.
    pub fn add(&mut self, alloc: Global, place: u32, choice: Choice) -> Result<(), NoMemory>
        ensures { OnOk result ((other : ℕ) → chosen_at self.new other
            ≡ chosen_at self.old other ++ (if place == other then view_choice choice ∷ [] else [])) }
    {
        let mut chosen = self.take(alloc, place);
        chosen.push(choice)?;
        self.by_place.insert(place, chosen)?;
        Ok(())
    }

    /// Takes out what is chosen for the statement at a place.
    fn take(&mut self, alloc: Global, place: u32) -> List<Choice>
        ensures taken { map view_choice result ≡ chosen_at self.old place }
        ensures rest { (other : ℕ) → chosen_at self.new other ≡ (if place == other then [] else chosen_at self.old other) }
    {
        match self.by_place.swap_remove(&place) {
            Some(chosen) => chosen,
            None => List::new(alloc),
        }
    }

    /// What is chosen for the statement at a place.
    pub fn at(&self, place: u32) -> &[Choice]
        ensures { map view_choice result.now ≡ chosen_at self.now place }
    {
        match self.by_place.get(&place) {
            Some(chosen) => chosen.as_slice(),
            None => &[],
        }
    }
}
