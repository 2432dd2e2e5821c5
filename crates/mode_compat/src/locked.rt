//! Whether what a thread assumes is free of locks (W6).

ghost use Rattle.std.specs.Prelude.{◌≡◌, ◌<◌, map, length, replicate, false, IfOk, All};
ghost use Rattle.std.specs.List.{flat_map};
ghost use Rattle.cov_ast.specs.View as view;
ghost use Rattle.cov_ast.specs.Tables.{table};
ghost use Rattle.cov_ast.specs.Obligations.{Decides};
ghost use Rattle.cov_ast.specs.WellFormed.{IsWellFormed, IsThreadInRange};
ghost use Rattle.mode_compat.specs.Compatible as spec;
ghost use Rattle.mode_compat.specs.Inside as marked;

use cov_ast::{CheckFault, Detail, NumberSet, Program, Rule, ThreadDecl, refused};
use cov_expr::NoMemory;
use std::alloc::Global;

/// What a thread assumes is under no lock.
pub fn check_unlocked(alloc: Global, p: &Program) -> Result<(), CheckFault>
    requires { IsWellFormed (view.program p.now) }
    ensures { Decides (flat_map (spec.w6_obligations (view.program p.now)) (map view.thread p.now.threads)) result }
{
    let locked = locked(alloc, p)?;
    check_threads(p, &locked)
}

/// The variables that a lock lists.
fn locked(alloc: Global, p: &Program) -> Result<NumberSet, NoMemory>
    ensures { IfOk result (λ made. made ≡ marked.with_locks (replicate (length p.now.vars) false) (map view.lock p.now.locks)) }
{
    let mut locked = NumberSet::new(alloc, p.vars.len())?;
    add_locks(p, &mut locked);
    Ok(locked)
}

fn add_locks(p: &Program, locked: &mut NumberSet)
    ensures { locked.new ≡ marked.with_locks locked.old (map view.lock p.now.locks) }
{
    for lock in p.locks.as_slice() {
        locked.insert_all(lock.nowrite.as_slice());
        locked.insert_all(lock.hide.as_slice());
    }
}

fn check_threads(p: &Program, locked: &NumberSet) -> Result<(), CheckFault>
    requires formed { IsWellFormed (view.program p.now) }
    requires locked { locked.now ≡ marked.with_locks (replicate (length p.now.vars) false) (map view.lock p.now.locks) }
    ensures { Decides (flat_map (spec.w6_obligations (view.program p.now)) (map view.thread p.now.threads)) result }
{
    for thread in p.threads.as_slice() {
        if let Err(fault) = check_thread(p, thread, locked) {
            return Err(fault);
        }
    }
    Ok(())
}

fn check_thread(p: &Program, thread: &ThreadDecl, locked: &NumberSet) -> Result<(), CheckFault>
    requires formed { IsWellFormed (view.program p.now) }
    requires range { IsThreadInRange (length p.now.vars) (length p.now.locks) (view.thread thread.now) }
    requires locked { locked.now ≡ marked.with_locks (replicate (length p.now.vars) false) (map view.lock p.now.locks) }
    ensures { Decides (spec.w6_obligations (view.program p.now) (view.thread thread.now)) result }
{
    match check_list(p, thread, thread.modes.assume_nowrite.as_slice(), locked) {
        Ok(()) => check_list(p, thread, thread.modes.assume_hide.as_slice(), locked),
        Err(fault) => Err(fault),
    }
}

fn check_list(
    p: &Program,
    thread: &ThreadDecl,
    list: &[u32],
    locked: &NumberSet,
) -> Result<(), CheckFault>
    requires { All (λ x. x < length p.now.vars) list.now }
    ensures { Decides (map (marked.apart_obligation (view.program p.now) (view.thread thread.now) locked.now) list.now) result }
{
    for x in list {
        if locked.has(*x) {
            return Err(refused(Rule::W6, thread.at, Detail::One(p.var_name(*x))));
        }
    }
    Ok(())
}
