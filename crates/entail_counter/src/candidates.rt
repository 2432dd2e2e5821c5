//! The values that are tried for a variable.

ghost use Rattle.std.specs.Prelude.{◌≡◌, IfOk, OnOk, map};
ghost use Rattle.cov_expr.specs.View.{term};
ghost use Rattle.entail_counter.specs.Candidates as spec;

use crate::binding::Binding;
use crate::line::{as_line, crossing};
use cov_expr::{Expr, List, NoMemory, Op, apply, has_number};
use std::alloc::Global;

/// How many values are tried for a variable, at most.
pub const MOST_VALUES: usize = 64;

/// Those of every variable: 0, 1, those next to the numbers in the expressions, and the greatest word.
pub fn common(alloc: Global, hyps: &[Expr], goal: &Expr) -> Result<List<u32>, NoMemory>
    ensures { IfOk result (λ made. made ≡ spec.common (map term hyps.now) (term goal.now)) }
{
    let mut found = List::new(alloc);
    add(0, &mut found)?;
    add(1, &mut found)?;
    add_numbers(goal, &mut found)?;
    for h in hyps {
        add_numbers(h, &mut found)?;
    }
    add(u32::MAX, &mut found)?;
    Ok(found)
}

/// Those of a variable that is free: those next to where the sides of a comparison are equal, as far as other variables are bound, and those of every variable.
pub fn candidates(
    alloc: Global,
    hyps: &[Expr],
    goal: &Expr,
    more: &[u32],
    x: u32,
    m: &[Binding],
) -> Result<List<u32>, NoMemory>
    ensures { IfOk result (λ made. made ≡ spec.candidates (map term hyps.now) (term goal.now) more.now x m.now) }
{
    let mut found = List::new(alloc);
    add_tight(goal, x, m, &mut found)?;
    add_tight_of(hyps, x, m, &mut found)?;
    for v in more {
        add(*v, &mut found)?;
    }
    Ok(found)
}

/// Adds a value, where it is new and there are fewer than [`MOST_VALUES`].
fn add(v: u32, found: &mut List<u32>) -> Result<(), NoMemory>
    ensures { OnOk result (found.new ≡ spec.added found.old v) }
{
    if MOST_VALUES <= found.len() || has_number(found.as_slice(), v) {
        return Ok(());
    }
    found.push(v)
}

/// Adds a word, the next one and the one before.
fn add_near(v: u32, found: &mut List<u32>) -> Result<(), NoMemory>
    ensures { OnOk result (found.new ≡ spec.with_near found.old v) }
{
    add(v, found)?;
    add(apply(Op::Add, v, 1), found)?;
    if v == 0 { Ok(()) } else { add(v - 1, found) }
}

/// Adds those next to the numbers of an expression.
fn add_numbers(e: &Expr, found: &mut List<u32>) -> Result<(), NoMemory>
    ensures { OnOk result (found.new ≡ spec.with_numbers found.old (term e.now)) }
{
    match e {
        Expr::Const(k) => add_near(*k, found),
        Expr::Var(_) => Ok(()),
        Expr::Not(a) => add_numbers(a, found),
        Expr::Bin(_, a, b) => {
            add_numbers(a, found)?;
            add_numbers(b, found)
        }
    }
}

/// Adds those of a variable next to where the sides of a comparison in an expression are equal.
fn add_tight(e: &Expr, x: u32, m: &[Binding], found: &mut List<u32>) -> Result<(), NoMemory>
    ensures { OnOk result (found.new ≡ spec.with_tight x m.now found.old (term e.now)) }
{
    match e {
        Expr::Const(_) => Ok(()),
        Expr::Var(_) => Ok(()),
        Expr::Not(a) => add_tight(a, x, m, found),
        Expr::Bin(op, a, b) => {
            if matches!(*op, Op::Eq | Op::Ne | Op::Lt | Op::Le) {
                match crossing(as_line(x, m, a), as_line(x, m, b)) {
                    Some(v) => add_near(v, found),
                    None => Ok(()),
                }
            } else {
                add_tight(a, x, m, found)?;
                add_tight(b, x, m, found)
            }
        }
    }
}

/// The same of several expressions.
fn add_tight_of(hyps: &[Expr], x: u32, m: &[Binding], found: &mut List<u32>) -> Result<(), NoMemory>
    ensures { OnOk result (found.new ≡ spec.with_all_tight x m.now found.old (map term hyps.now)) }
{
    for h in hyps {
        add_tight(h, x, m, found)?;
    }
    Ok(())
}
