//! Names of a listing by hashing: ids of what is declared, and the first name that is repeated.

ghost use Rattle.std.specs.Prelude.{◌≡◌, ◌↔◌, ℕ, ◌++◌, ◌∷◌, [], List, ◌<◌, length, IfOk, IfSome, OnOk, OnErr, IsTrue, None, Some, if◌then◌else◌, replicate};
ghost use Rattle.std.specs.Option.{option_or};
ghost use Rattle.cov_expr.specs.Words.{IsWord};
ghost use Rattle.cov_expr.specs.Names.{IsName};
ghost use Rattle.code_text.specs.declared.names.TheConstants.{GUESSES};
ghost use Rattle.code_text.specs.Inside.Lookup.{IsIndexOf, IsRegisterOf};
ghost use Rattle.code_text.specs.Inside.Drafts.{CanStand};
ghost use Rattle.code_text.specs.Inside.ListingReading.{Draft, id_of, with_row};
ghost use Rattle.risc_machine.specs.Faults as faults;
ghost use Rattle.risc_machine.specs.Faults.{names_of};

use crate::row::Row;
use cov_expr::{List, Name, NoMemory};
use indexmap::{IndexMap, IndexSet};
use std::alloc::Global;
use std::marker::Model;

/// How many guesses at ids of names are kept.
const GUESSES: usize = 1024;

/// Names of declarations in order, which may be repeated, and their places by hashing. Contracts see the list of the names.
///
/// A guess is the id of the name that was last added among those that share it. A field is compared with that name before the
/// index is asked, which hashes with more care and so takes longer.
#[derive(Drop)]
pub struct Names {
    list: List<Name>,
    ids: IndexMap<Name, u32>,
    guesses: [Option<u32>; GUESSES],
}

impl Model for Names {
    ghost use Rattle.std.specs.Prelude.{List, ℕ};
    ghost use Rattle.code_text.specs.Inside.Lookup.{IsIndexOf, AreGuesses};

    ghost Value = { List (List ℕ) };

    ghost view = { λ n. n.list };

    ghost invariant = { λ n. IsIndexOf n.ids n.list × AreGuesses n.guesses n.list };
}

impl Names {
    /// No names.
    #[tactic(auto, using(crate::proofs::LookupLaws::none_indexed))]
    pub fn new(alloc: Global) -> Names
        ensures { result ≡ [] }
    {
        Names {
            list: List::new(alloc),
            ids: IndexMap::new(alloc),
            guesses: no_guesses(),
        }
    }

    /// Adds a name. Where memory runs out the names stay as they were.
    pub fn add(&mut self, name: Name) -> Result<(), NoMemory>
        requires named { IsName name }
        requires count { IsWord (length self.old) }
        ensures { OnOk result (self.new ≡ self.old ++ name ∷ []) }
    {
        let next = self.list.len() as u32;
        self.list.push(name)?;
        match add_id(&mut self.ids, name, next) {
            Ok(id) => {
                self.guesses[guess_of(name.text())] = Some(id);
                Ok(())
            }
            Err(fault) => {
                self.list.pop();
                Err(fault)
            }
        }
    }

    /// The id of the name that a field is: that of its first declaration.
    pub fn find(&self, field: &[u8]) -> Option<u32>
        ensures { result ≡ id_of self.now field.now }
    {
        match self.guessed(field) {
            Some(id) => Some(id),
            None => self.looked_up(field),
        }
    }

    /// The guess for a field, where the field is its name.
    fn guessed(&self, field: &[u8]) -> Option<u32>
        ensures { IfSome result (λ id. Some id ≡ id_of self.now field.now) }
    {
        let guess = self.guesses[guess_of(field)];
        match guess {
            Some(id) => {
                if self.list.as_slice()[id as usize].text() == field {
                    Some(id)
                } else {
                    None
                }
            }
            None => None,
        }
    }

    #[tactic(auto, using(crate::proofs::LookupLaws::unnamed))]
    fn looked_up(&self, field: &[u8]) -> Option<u32>
        ensures { result ≡ id_of self.now field.now }
    {
        let ids = &self.ids;
        match Name::new(field) {
            None => None,
            Some(name) => ids.get(&name).copied(),
        }
    }

    /// Whether there is no name.
    pub fn is_empty(&self) -> bool
        ensures { IsTrue result ↔ (self.now ≡ []) }
    {
        self.list.is_empty()
    }

    /// The names.
    pub fn into_list(self) -> List<Name>
        ensures { result ≡ self }
    {
        self.list
    }
}

/// The id of a name, which is added with the next one where the name wasn't declared before.
fn add_id(ids: &mut IndexMap<Name, u32>, name: Name, next: u32) -> Result<u32, NoMemory>
    ensures ok { IfOk result (λ id. (names : List (List ℕ)) → IsName name → length names ≡ next → IsIndexOf ids.old names
        → IsIndexOf ids.new (names ++ name ∷ []) × (Some id ≡ id_of (names ++ name ∷ []) name)) }
    ensures err { OnErr result ((names : List (List ℕ)) → IsIndexOf ids.old names → IsIndexOf ids.new names) }
{
    match ids.get(&name) {
        Some(id) => Ok(*id),
        None => {
            ids.insert(name, next)?;
            Ok(next)
        }
    }
}

fn no_guesses() -> [Option<u32>; GUESSES]
    ensures { result ≡ replicate GUESSES None }
{
    [None; GUESSES]
}

/// Which guess is for a text.
fn guess_of(text: &[u8]) -> usize
    ensures { result < GUESSES }
{
    let mut sum: u32 = 0;
    for byte in text {
        sum = sum.wrapping_mul(31).wrapping_add(*byte as u32);
    }
    sum as usize % GUESSES
}

/// Which names there are, by hashing, and the first that equals an earlier one.
#[derive(Drop)]
pub struct Register {
    known: IndexSet<Name>,
    repeated: Option<Name>,
}

impl Register {
    /// No names.
    #[tactic(auto, using(crate::proofs::LookupLaws::none_registered))]
    pub fn new(alloc: Global) -> Register
        ensures { IsRegisterOf result [] }
    {
        Register {
            known: IndexSet::new(alloc),
            repeated: None,
        }
    }

    /// Adds the name that a row declares, if it declares one.
    pub fn add_row(&mut self, row: &Row) -> Result<(), NoMemory>
        ensures { OnOk result ((d : Draft) → CanStand d row.now → IsRegisterOf self.old (names_of d.parts) → IsRegisterOf self.new (names_of (with_row d row.now).parts)) }
    {
        match row {
            Row::Var(name) => self.add(*name),
            Row::Lock(name) => self.add(*name),
            Row::Thread(name, _) => self.add(*name),
            Row::Line(_) => Ok(()),
        }
    }

    fn add(&mut self, name: Name) -> Result<(), NoMemory>
        ensures { OnOk result ((names : List (List ℕ)) → IsRegisterOf self.old names → IsRegisterOf self.new (names ++ name ∷ [])) }
    {
        let is_new = self.known.insert(name)?;
        self.repeated = first_repeated(self.repeated, is_new, name);
        Ok(())
    }

    /// The first name that equals an earlier one.
    pub fn repeated(&self) -> Option<Name>
        ensures { (names : List (List ℕ)) → IsRegisterOf self.now names → result ≡ faults.repeated [] names }
    {
        self.repeated
    }
}

/// The first repeated name, behind a name more.
fn first_repeated(before: Option<Name>, is_new: bool, name: Name) -> Option<Name>
    ensures { result ≡ option_or before (if is_new then None else Some name) }
{
    match before {
        Some(first) => Some(first),
        None => { if is_new { None } else { Some(name) } }
    }
}
