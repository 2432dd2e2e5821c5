//! The search for bindings.

ghost use Rattle.std.specs.Prelude.{◌≡◌, IfOk, map};
ghost use Rattle.std.specs.List.{list_any};
ghost use Rattle.cov_expr.specs.View.{term};
ghost use Rattle.entail_counter.specs.Known as what;
ghost use Rattle.entail_counter.specs.Searching as spec;

use crate::binding::Binding;
use crate::candidates::candidates;
use crate::free::chosen;
use crate::known::known;
use cov_expr::{Expr, List, NoMemory};
use std::alloc::Global;

/// How many variables are bound, at most.
pub const MOST_BINDINGS: u32 = 32;

/// How many nodes of expressions all trials visit, at most.
pub const MOST_VISITED: u32 = 2_000_000;

/// What a search comes to with so many bindings more, at most. Each trial takes one from `left`.
#[cycle(search)]
pub fn search(
    alloc: Global,
    hyps: &[Expr],
    goal: &Expr,
    more: &[u32],
    depth: u32,
    m: &[Binding],
    left: &mut u32,
) -> Result<Option<List<Binding>>, NoMemory>
    ensures { IfOk result (λ found. (found ≡ (spec.search (map term hyps.now) (term goal.now) more.now depth m.now left.old).found)
        × (left.new ≡ (spec.search (map term hyps.now) (term goal.now) more.now depth m.now left.old).left)) }
{
    let choice = chosen(hyps, goal, m);
    if depth == 0 {
        return match choice {
            Some(_) => Ok(None),
            None => Ok(Some(copied(alloc, m)?)),
        };
    }
    onward(alloc, hyps, goal, more, depth - 1, choice, m, left)
}

/// Where no variable is free the bindings, and else the same with each value of the one that is chosen.
#[cycle(search)]
fn onward(
    alloc: Global,
    hyps: &[Expr],
    goal: &Expr,
    more: &[u32],
    below: u32,
    choice: Option<u32>,
    m: &[Binding],
    left: &mut u32,
) -> Result<Option<List<Binding>>, NoMemory>
    ensures { IfOk result (λ found. (found ≡ (spec.onward (map term hyps.now) (term goal.now) more.now (spec.search (map term hyps.now) (term goal.now) more.now below) choice m.now left.old).found)
        × (left.new ≡ (spec.onward (map term hyps.now) (term goal.now) more.now (spec.search (map term hyps.now) (term goal.now) more.now below) choice m.now left.old).left)) }
{
    match choice {
        Some(x) => {
            let values = candidates(alloc, hyps, goal, more, x, m)?;
            each(
                alloc,
                hyps,
                goal,
                more,
                below,
                x,
                values.as_slice(),
                m,
                left,
            )
        }
        None => Ok(Some(copied(alloc, m)?)),
    }
}

/// The same with each of some values of a variable.
#[cycle(search)]
fn each(
    alloc: Global,
    hyps: &[Expr],
    goal: &Expr,
    more: &[u32],
    below: u32,
    x: u32,
    values: &[u32],
    m: &[Binding],
    left: &mut u32,
) -> Result<Option<List<Binding>>, NoMemory>
    ensures { IfOk result (λ found. (found ≡ (spec.each (map term hyps.now) (term goal.now) more.now (spec.search (map term hyps.now) (term goal.now) more.now below) x values.now m.now left.old).found)
        × (left.new ≡ (spec.each (map term hyps.now) (term goal.now) more.now (spec.search (map term hyps.now) (term goal.now) more.now below) x values.now m.now left.old).left)) }
{
    for value in values {
        let b = Binding {
            variable: x,
            value: *value,
        };
        if let Some(found) = tried(alloc, hyps, goal, more, below, b, m, left)? {
            return Ok(Some(found));
        }
    }
    Ok(None)
}

/// The same with one binding, where a trial is left.
#[cycle(search)]
fn tried(
    alloc: Global,
    hyps: &[Expr],
    goal: &Expr,
    more: &[u32],
    below: u32,
    b: Binding,
    m: &[Binding],
    left: &mut u32,
) -> Result<Option<List<Binding>>, NoMemory>
    ensures { IfOk result (λ found. (found ≡ (spec.tried (map term hyps.now) (term goal.now) more.now (spec.search (map term hyps.now) (term goal.now) more.now below) b m.now left.old).found)
        × (left.new ≡ (spec.tried (map term hyps.now) (term goal.now) more.now (spec.search (map term hyps.now) (term goal.now) more.now below) b m.now left.old).left)) }
{
    if *left == 0 {
        return Ok(None);
    }
    *left -= 1;
    let mut longer = List::with_capacity(alloc, m.len().saturating_add(1))?;
    longer.extend_from_slice(m)?;
    longer.push(b)?;
    if may_break(hyps, goal, longer.as_slice()) {
        search(alloc, hyps, goal, more, below, longer.as_slice(), left)
    } else {
        Ok(None)
    }
}

/// The same bindings.
fn copied(alloc: Global, m: &[Binding]) -> Result<List<Binding>, NoMemory>
    ensures { IfOk result (λ made. made ≡ m.now) }
{
    let mut made = List::with_capacity(alloc, m.len())?;
    made.extend_from_slice(m)?;
    Ok(made)
}

/// Whether bindings leave it open that all hypotheses hold and the goal doesn't.
fn may_break(hyps: &[Expr], goal: &Expr, m: &[Binding]) -> bool
    ensures { result ≡ spec.may_break (map term hyps.now) (term goal.now) m.now }
{
    !is_other(known(goal, m)) && !is_denied(hyps, m)
}

/// Whether they settle that a hypothesis is 0.
fn is_denied(hyps: &[Expr], m: &[Binding]) -> bool
    ensures { result ≡ list_any (λ h. spec.is_zero (what.known h m.now)) (map term hyps.now) }
{
    for h in hyps {
        if is_zero(known(h, m)) {
            return true;
        }
    }
    false
}

/// Whether a value is settled and is 0.
pub fn is_zero(value: Option<u32>) -> bool
    ensures { result ≡ spec.is_zero value }
{
    match value {
        Some(v) => v == 0,
        None => false,
    }
}

/// Whether a value is settled and is another word.
pub fn is_other(value: Option<u32>) -> bool
    ensures { result ≡ spec.is_other value }
{
    match value {
        Some(v) => v != 0,
        None => false,
    }
}
