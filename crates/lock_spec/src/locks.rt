//! The checks of the lists of locks (W4) and of their invariants (W5), and the lock that lists a variable.

ghost use Rattle.std.specs.Prelude.{◌≡◌, ℕ, ◌<◌, ◌++◌, [], false, map, length, OnOk, All, IsTrue, IfSome, IsNone};
ghost use Rattle.std.specs.List.{flat_map};
ghost use Rattle.cov_ast.specs.View as view;
ghost use Rattle.cov_ast.specs.Plain.{plain};
ghost use Rattle.cov_ast.specs.Declarations as declared;
ghost use Rattle.cov_ast.specs.Tables.{with_all};
ghost use Rattle.cov_ast.specs.Obligations.{Decides};
ghost use Rattle.cov_ast.specs.WellFormed.{IsWellFormed, IsLockInRange};
ghost use Rattle.lock_spec.specs.Locks as spec;
ghost use Rattle.lock_spec.specs.Inside.{marked_obligations, marked_from};

use cov_ast::{CheckFault, Detail, LockDecl, NumberSet, Program, Rule, first_outside, refused};
use std::alloc::Global;

/// Refuses a program for the first variable that is named a second time in the lists of locks (W4), or else for the
/// first variable of an invariant that isn't under its lock (W5).
pub fn check_locks(alloc: Global, p: &Program) -> Result<(), CheckFault>
    requires { IsWellFormed (view.program p.now) }
    ensures { Decides (spec.lock_obligations (view.program p.now)) result }
{
    let mut seen = NumberSet::new(alloc, p.vars.len())?;
    match check_listings(p, &mut seen) {
        Ok(()) => check_invariants(alloc, p),
        Err(fault) => Err(fault),
    }
}

/// Each variable is named once in the lists of all locks.
fn check_listings(p: &Program, seen: &mut NumberSet) -> Result<(), CheckFault>
    requires { IsWellFormed (view.program p.now) }
    ensures { Decides (marked_from (view.program p.now) seen.old (map view.lock p.now.locks)) result }
{
    for lock in p.locks.as_slice() {
        if let Err(fault) = check_listing(p, lock, seen) {
            return Err(fault);
        }
    }
    Ok(())
}

fn check_listing(p: &Program, lock: &LockDecl, seen: &mut NumberSet) -> Result<(), CheckFault>
    requires { IsLockInRange (length p.now.vars) (length p.now.locks) (view.lock lock.now) }
    ensures decides { Decides (marked_obligations (view.program p.now) (view.lock lock.now) seen.old (lock.now.nowrite ++ lock.now.hide)) result }
    ensures ok { OnOk result (seen.new ≡ with_all seen.old (lock.now.nowrite ++ lock.now.hide)) }
{
    match check_list(p, lock, lock.nowrite.as_slice(), seen) {
        Ok(()) => check_list(p, lock, lock.hide.as_slice(), seen),
        Err(fault) => Err(fault),
    }
}

/// No variable of the list was seen before. Where that is so, all of them are seen then.
fn check_list(
    p: &Program,
    lock: &LockDecl,
    list: &[u32],
    seen: &mut NumberSet,
) -> Result<(), CheckFault>
    requires { All (λ x. x < length p.now.vars) list.now }
    ensures decides { Decides (marked_obligations (view.program p.now) (view.lock lock.now) seen.old list.now) result }
    ensures ok { OnOk result (seen.new ≡ with_all seen.old list.now) }
{
    for x in list {
        if seen.has(*x) {
            return Err(refused(Rule::W4, lock.at, Detail::One(p.var_name(*x))));
        }
        seen.put(*x, true);
    }
    Ok(())
}

/// The invariants speak of the variables of their locks alone.
fn check_invariants(alloc: Global, p: &Program) -> Result<(), CheckFault>
    requires { IsWellFormed (view.program p.now) }
    ensures { Decides (flat_map (spec.invariant_obligations (view.program p.now)) (map view.lock p.now.locks)) result }
{
    for lock in p.locks.as_slice() {
        if let Err(fault) = check_invariant(alloc, p, lock) {
            return Err(fault);
        }
    }
    Ok(())
}

fn check_invariant(alloc: Global, p: &Program, lock: &LockDecl) -> Result<(), CheckFault>
    requires { IsLockInRange (length p.now.vars) (length p.now.locks) (view.lock lock.now) }
    ensures { Decides (spec.invariant_obligations (view.program p.now) (view.lock lock.now)) result }
{
    let Some(inv) = &lock.inv else {
        return Ok(());
    };
    let listed = lock.listed(alloc, p.vars.len())?;
    match first_outside(inv, &listed) {
        None => Ok(()),
        Some(y) => Err(refused(Rule::W5, lock.at, Detail::One(p.var_name(y)))),
    }
}

/// The lock that lists a variable, the first by declaration. `None` comes exactly where no lock lists it.
pub fn under(p: &Program, x: u32) -> Option<u32>
    requires { IsWellFormed (view.program p.now) }
    ensures lists { IfSome result (λ l. IsTrue (declared.under (plain (view.program p.now)) l x)) }
    ensures first { IfSome result (λ l. (k : ℕ) → k < l → declared.under (plain (view.program p.now)) k x ≡ false) }
    ensures none { IsNone result → (k : ℕ) → declared.under (plain (view.program p.now)) k x ≡ false }
{
    for (l, lock) in p.locks.as_slice().iter().enumerate() {
        if lock.lists(x) {
            return Some(l as u32);
        }
    }
    None
}
