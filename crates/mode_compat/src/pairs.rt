//! Whether every other thread guarantees what a thread assumes (W9).

ghost use Rattle.std.specs.Prelude.{◌≡◌, ◌<◌, ℕ, map, length, All, IfOk};
ghost use Rattle.std.specs.List.{flat_map};
ghost use Rattle.cov_ast.specs.View as view;
ghost use Rattle.cov_ast.specs.Obligations.{Decides};
ghost use Rattle.cov_ast.specs.WellFormed.{IsWellFormed, IsThreadInRange};
ghost use Rattle.mode_compat.specs.Compatible as spec;
ghost use Rattle.mode_compat.specs.Inside as marked;

use cov_ast::{CheckFault, Detail, NumberSet, Program, Rule, ThreadDecl, refused};
use cov_expr::{List, NoMemory};
use std::alloc::Global;

/// What a thread guarantees not to write, and what it guarantees to leave alone.
type Guaranteed = (NumberSet, NumberSet);

/// What one thread assumes every other guarantees.
pub fn check_guarantees(alloc: Global, p: &Program) -> Result<(), CheckFault>
    requires { IsWellFormed (view.program p.now) }
    ensures { Decides (flat_map (spec.w9_obligations (view.program p.now)) (spec.threads_of (view.program p.now))) result }
{
    let sets = guaranteed_sets(alloc, p)?;
    check_threads(p, sets.as_slice())
}

/// For each thread what it guarantees.
fn guaranteed_sets(alloc: Global, p: &Program) -> Result<List<Guaranteed>, NoMemory>
    ensures { IfOk result (λ made. made ≡ map (marked.guaranteed_by (length p.now.vars)) p.now.threads) }
{
    let mut sets = List::new(alloc);
    for thread in p.threads.as_slice() {
        sets.push(guaranteed_set(alloc, p.vars.len(), thread)?)?;
    }
    Ok(sets)
}

/// What a thread guarantees.
fn guaranteed_set(alloc: Global, count: usize, thread: &ThreadDecl) -> Result<Guaranteed, NoMemory>
    ensures { IfOk result (λ made. made ≡ marked.guaranteed_by count thread.now) }
{
    let (nowrite, hide) = (
        thread.modes.guarantee_nowrite.as_slice(),
        thread.modes.guarantee_hide.as_slice(),
    );
    let unwritten = NumberSet::of_both(alloc, count, nowrite, hide)?;
    let left_alone = NumberSet::of(alloc, count, hide)?;
    Ok((unwritten, left_alone))
}

/// What one thread assumes every other guarantees, where it is known what each guarantees.
fn check_threads(p: &Program, sets: &[Guaranteed]) -> Result<(), CheckFault>
    requires formed { IsWellFormed (view.program p.now) }
    requires sets { sets.now ≡ map (marked.guaranteed_by (length p.now.vars)) p.now.threads }
    ensures { Decides (flat_map (spec.w9_obligations (view.program p.now)) (spec.threads_of (view.program p.now))) result }
{
    for (t, thread) in p.threads.as_slice().iter().enumerate() {
        if let Err(fault) = check_others(p, sets, t, thread) {
            return Err(fault);
        }
    }
    Ok(())
}

/// What the thread of a number assumes every other guarantees.
fn check_others(
    p: &Program,
    sets: &[Guaranteed],
    t: usize,
    thread: &ThreadDecl,
) -> Result<(), CheckFault>
    requires formed { IsWellFormed (view.program p.now) }
    requires sets { sets.now ≡ map (marked.guaranteed_by (length p.now.vars)) p.now.threads }
    requires range { IsThreadInRange (length p.now.vars) (length p.now.locks) (view.thread thread.now) }
    requires number { view.thread thread.now ≡ spec.numbered (view.program p.now) t }
    ensures { Decides (spec.w9_obligations (view.program p.now) t) result }
{
    for (u, other) in p.threads.as_slice().iter().enumerate() {
        if let Err(fault) = check_other(p, t, thread, u, other, &sets[u]) {
            return Err(fault);
        }
    }
    Ok(())
}

/// What a thread assumes another guarantees, if it is another.
fn check_other(
    p: &Program,
    t: usize,
    thread: &ThreadDecl,
    u: usize,
    other: &ThreadDecl,
    met: &Guaranteed,
) -> Result<(), CheckFault>
    requires range { IsThreadInRange (length p.now.vars) (length p.now.locks) (view.thread thread.now) }
    requires number { view.thread thread.now ≡ spec.numbered (view.program p.now) t }
    requires other { view.thread other.now ≡ spec.numbered (view.program p.now) u }
    requires met { met.now ≡ marked.guaranteed_by (length p.now.vars) other.now }
    ensures { Decides (spec.w9_other (view.program p.now) t u) result }
{
    if t == u {
        return Ok(());
    }
    check_pair(p, thread, other, met)
}

/// What a thread assumes another guarantees.
fn check_pair(
    p: &Program,
    thread: &ThreadDecl,
    other: &ThreadDecl,
    met: &Guaranteed,
) -> Result<(), CheckFault>
    requires range { IsThreadInRange (length p.now.vars) (length p.now.locks) (view.thread thread.now) }
    requires met { met.now ≡ marked.guaranteed_by (length p.now.vars) other.now }
    ensures { Decides (spec.w9_pair (view.program p.now) (view.thread thread.now) (view.thread other.now)) result }
{
    let nowrite = thread.modes.assume_nowrite.as_slice();
    match check_met(p, thread, other, nowrite, &met.0) {
        Ok(()) => check_met(
            p,
            thread,
            other,
            thread.modes.assume_hide.as_slice(),
            &met.1,
        ),
        Err(fault) => Err(fault),
    }
}

/// Each variable of a list is in the set of what another thread guarantees.
fn check_met(
    p: &Program,
    thread: &ThreadDecl,
    other: &ThreadDecl,
    list: &[u32],
    met: &NumberSet,
) -> Result<(), CheckFault>
    requires { All (λ x. x < length p.now.vars) list.now }
    ensures { Decides (map (marked.met_obligation (view.program p.now) (view.thread thread.now) (view.thread other.now) met.now) list.now) result }
{
    for x in list {
        if !met.has(*x) {
            let detail = Detail::Three(thread.name, other.name, p.var_name(*x));
            return Err(refused(Rule::W9, thread.at, detail));
        }
    }
    Ok(())
}
