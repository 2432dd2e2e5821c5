//! The first name of parts that equals an earlier one, by hashing.

ghost use Rattle.std.specs.Prelude.{◌≡◌, [], List, ℕ, IfOk};
ghost use Rattle.object_code.specs.Inside.Known.{AreKnown, IsFound};
ghost use Rattle.risc_machine.specs.Faults as faults;

use cov_expr::{Name, NoMemory};
use indexmap::IndexSet;
use risc_machine::{Parts, ThreadCode};
use std::alloc::Global;

/// The first name that equals an earlier one.
pub fn first_repeated(alloc: Global, parts: &Parts) -> Result<Option<Name>, NoMemory>
    ensures { IfOk result (λ found. found ≡ faults.repeated [] (faults.names_of parts.now)) }
{
    let mut known = IndexSet::new(alloc);
    repeated_in(&mut known, parts)
}

/// The same, where no name is known yet.
fn repeated_in(known: &mut IndexSet<Name>, parts: &Parts) -> Result<Option<Name>, NoMemory>
    requires { AreKnown known.old [] }
    ensures { IfOk result (λ found. found ≡ faults.repeated [] (faults.names_of parts.now)) }
{
    let of_vars = add_names(known, parts.vars.as_slice())?;
    if let Some(name) = of_vars {
        return Ok(Some(name));
    }
    let of_locks = add_names(known, parts.locks.as_slice())?;
    if let Some(name) = of_locks {
        return Ok(Some(name));
    }
    add_threads(known, parts.threads.as_slice())
}

/// Adds names to those that are known, up to the first that is known already.
fn add_names(known: &mut IndexSet<Name>, names: &[Name]) -> Result<Option<Name>, NoMemory>
    ensures { IfOk result (λ found. (before : List (List ℕ)) → AreKnown known.old before → IsFound found before names.now known.new) }
{
    for name in names {
        let is_new = known.insert(*name)?;
        if !is_new {
            return Ok(Some(*name));
        }
    }
    Ok(None)
}

/// The same with the names of threads.
fn add_threads(known: &mut IndexSet<Name>, threads: &[ThreadCode]) -> Result<Option<Name>, NoMemory>
    ensures { IfOk result (λ found. (before : List (List ℕ)) → AreKnown known.old before → found ≡ faults.repeated before (faults.thread_names threads.now)) }
{
    for thread in threads {
        let is_new = known.insert(thread.name)?;
        if !is_new {
            return Ok(Some(thread.name));
        }
    }
    Ok(None)
}
