//! Whether the controls of a variable are kept with it: under its lock (W7), or by who assumes it (W8).

ghost use Rattle.std.specs.Prelude.{◌≡◌, ◌<◌, ◌||◌, map, length, IfOk, All, IsTrue, ◌↔◌};
ghost use Rattle.std.specs.List.{flat_map, list_all, range_with_len};
ghost use Rattle.cov_ast.specs.View as view;
ghost use Rattle.cov_ast.specs.Tables.{table, has, with_all};
ghost use Rattle.cov_ast.specs.Declarations as declared;
ghost use Rattle.cov_ast.specs.Obligations.{Decides};
ghost use Rattle.cov_ast.specs.WellFormed.{IsWellFormed, IsLockInRange, IsThreadInRange};
ghost use Rattle.mode_compat.specs.Compatible as spec;
ghost use Rattle.mode_compat.specs.Inside as marked;

use cov_ast::{
    CheckFault, Class, Detail, LockDecl, NumberSet, Program, Rule, ThreadDecl, first_outside,
    refused,
};
use cov_expr::{List, NoMemory};
use policy_class::class_of;
use std::alloc::Global;

/// Each control of a variable under a lock is under the lock too, or every thread assumes it.
pub fn check_lock_controls(alloc: Global, p: &Program) -> Result<(), CheckFault>
    requires { IsWellFormed (view.program p.now) }
    ensures { Decides (flat_map (spec.w7_obligations (view.program p.now)) (map view.lock p.now.locks)) result }
{
    let assumed = assumed_by_all(alloc, p)?;
    check_locks(alloc, p, &assumed)
}

/// The variables that every thread assumes.
fn assumed_by_all(alloc: Global, p: &Program) -> Result<NumberSet, NoMemory>
    ensures { IfOk result (λ made. made ≡ table (length p.now.vars) (spec.all_assume (view.program p.now))) }
{
    let sets = assumed_sets(alloc, p)?;
    let marks = marks_of_all(alloc, sets.as_slice(), p.vars.len())?;
    Ok(NumberSet::from_marks(marks))
}

/// For each number below a bound whether all sets have it.
fn marks_of_all(alloc: Global, sets: &[NumberSet], bound: usize) -> Result<List<bool>, NoMemory>
    ensures { IfOk result (λ marks. marks ≡ map (λ x. list_all (λ s. has s x) sets.now) (range_with_len 0 bound)) }
{
    let mut marks = List::new(alloc);
    for x in 0..bound {
        marks.push(is_in_all(sets, x))?;
    }
    Ok(marks)
}

/// Whether each set has a number.
fn is_in_all(sets: &[NumberSet], x: usize) -> bool
    ensures { result ≡ list_all (λ s. has s x) sets.now }
{
    sets.iter().all(|set| set.has_index(x))
}

/// For each thread the variables that it assumes.
fn assumed_sets(alloc: Global, p: &Program) -> Result<List<NumberSet>, NoMemory>
    ensures { IfOk result (λ made. made ≡ map (λ t. table (length p.now.vars) (declared.have_assumed (view.modes t.modes))) p.now.threads) }
{
    let mut sets = List::new(alloc);
    for thread in p.threads.as_slice() {
        sets.push(assumed_set(alloc, p.vars.len(), thread)?)?;
    }
    Ok(sets)
}

/// The variables that a thread assumes.
fn assumed_set(alloc: Global, count: usize, thread: &ThreadDecl) -> Result<NumberSet, NoMemory>
    ensures { IfOk result (λ made. made ≡ table count (declared.have_assumed (view.modes thread.now.modes))) }
{
    let modes = &thread.modes;
    NumberSet::of_both(
        alloc,
        count,
        modes.assume_nowrite.as_slice(),
        modes.assume_hide.as_slice(),
    )
}

fn check_locks(alloc: Global, p: &Program, assumed: &NumberSet) -> Result<(), CheckFault>
    requires formed { IsWellFormed (view.program p.now) }
    requires assumed { assumed.now ≡ table (length p.now.vars) (spec.all_assume (view.program p.now)) }
    ensures { Decides (flat_map (spec.w7_obligations (view.program p.now)) (map view.lock p.now.locks)) result }
{
    for lock in p.locks.as_slice() {
        if let Err(fault) = check_lock(alloc, p, lock, assumed) {
            return Err(fault);
        }
    }
    Ok(())
}

fn check_lock(
    alloc: Global,
    p: &Program,
    lock: &LockDecl,
    assumed: &NumberSet,
) -> Result<(), CheckFault>
    requires formed { IsWellFormed (view.program p.now) }
    requires range { IsLockInRange (length p.now.vars) (length p.now.locks) (view.lock lock.now) }
    requires assumed { assumed.now ≡ table (length p.now.vars) (spec.all_assume (view.program p.now)) }
    ensures { Decides (spec.w7_obligations (view.program p.now) (view.lock lock.now)) result }
{
    let mut kept = assumed.copy(alloc)?;
    kept.insert_all(lock.nowrite.as_slice());
    kept.insert_all(lock.hide.as_slice());
    match check_controls(p, &kept, lock.nowrite.as_slice(), Rule::W7, lock.at) {
        Ok(()) => check_controls(p, &kept, lock.hide.as_slice(), Rule::W7, lock.at),
        Err(fault) => Err(fault),
    }
}

/// Each control of a variable that a thread assumes is assumed by it too.
pub fn check_assumed_controls(alloc: Global, p: &Program) -> Result<(), CheckFault>
    requires { IsWellFormed (view.program p.now) }
    ensures { Decides (flat_map (spec.w8_obligations (view.program p.now)) (map view.thread p.now.threads)) result }
{
    for thread in p.threads.as_slice() {
        if let Err(fault) = check_thread(alloc, p, thread) {
            return Err(fault);
        }
    }
    Ok(())
}

fn check_thread(alloc: Global, p: &Program, thread: &ThreadDecl) -> Result<(), CheckFault>
    requires formed { IsWellFormed (view.program p.now) }
    requires range { IsThreadInRange (length p.now.vars) (length p.now.locks) (view.thread thread.now) }
    ensures { Decides (spec.w8_obligations (view.program p.now) (view.thread thread.now)) result }
{
    let kept = assumed_set(alloc, p.vars.len(), thread)?;
    match check_controls(
        p,
        &kept,
        thread.modes.assume_nowrite.as_slice(),
        Rule::W8,
        thread.at,
    ) {
        Ok(()) => check_controls(
            p,
            &kept,
            thread.modes.assume_hide.as_slice(),
            Rule::W8,
            thread.at,
        ),
        Err(fault) => Err(fault),
    }
}

/// Each control of the variables of a list is in a set.
fn check_controls(
    p: &Program,
    kept: &NumberSet,
    list: &[u32],
    rule: Rule,
    place: u32,
) -> Result<(), CheckFault>
    requires formed { IsWellFormed (view.program p.now) }
    requires range { All (λ x. x < length p.now.vars) list.now }
    ensures { Decides (flat_map (marked.kept_obligations (view.program p.now) rule place kept.now) list.now) result }
{
    for x in list {
        if let Err(fault) = check_controls_of(p, kept, *x, rule, place) {
            return Err(fault);
        }
    }
    Ok(())
}

fn check_controls_of(
    p: &Program,
    kept: &NumberSet,
    x: u32,
    rule: Rule,
    place: u32,
) -> Result<(), CheckFault>
    requires formed { IsWellFormed (view.program p.now) }
    requires range { x < length p.now.vars }
    ensures { Decides (marked.kept_obligations (view.program p.now) rule place kept.now x) result }
{
    let Class::When(e) = class_of(p, x) else {
        return Ok(());
    };
    match first_outside(e, kept) {
        None => Ok(()),
        Some(c) => Err(refused(rule, place, Detail::Two(p.var_name(x), p.var_name(c)))),
    }
}
