//! All warnings of a program and its text, in the order of their places.

ghost use Rattle.std.specs.Prelude.{◌≡◌, ◌++◌, MatchResult, IfOk, OnOk};
ghost use Rattle.cov_ast.specs.Plain.{plain};
ghost use Rattle.cov_ast.specs.View as view;
ghost use Rattle.explain.specs.Warnings as spec;

use crate::unreached::add_threads;
use crate::unused::of_declarations;
use crate::warning::{Cause, Warning};
use cov_ast::Program;
use cov_expr::{List, NoMemory};
use std::alloc::Global;

/// What is warned of in a program, in the order of its text.
pub fn of_program(alloc: Global, program: &Program) -> Result<List<Warning>, NoMemory>
    ensures { IfOk result (λ found. found ≡ spec.of_program (plain (view.program program.now))) }
{
    let mut found = List::new(alloc);
    add_no_thread(program, &mut found)?;
    let declared = of_declarations(alloc, program)?;
    found.extend_from_slice(declared.as_slice())?;
    add_threads(program.threads.as_slice(), &mut found)?;
    Ok(found)
}

/// Adds that a program has no thread, where it has none.
fn add_no_thread(program: &Program, found: &mut List<Warning>) -> Result<(), NoMemory>
    ensures { OnOk result (found.new ≡ found.old ++ spec.of_count (plain (view.program program.now)).threads) }
{
    match program.threads.as_slice() {
        [] => found.push(Warning {
            place: 0,
            cause: Cause::NoThread,
        }),
        [_, ..] => Ok(()),
    }
}

/// The warnings of two lists, each in the order of the places, in that order.
pub fn merged_by_place(
    alloc: Global,
    first: &[Warning],
    second: &[Warning],
) -> Result<List<Warning>, NoMemory>
    ensures { IfOk result (λ made. made ≡ spec.merged_by_place first.now second.now) }
{
    let mut made = List::new(alloc);
    let mut rest = second;
    for warning in first {
        rest = add_warnings_before(warning.place, rest, &mut made)?;
        made.push(*warning)?;
    }
    made.extend_from_slice(rest)?;
    Ok(made)
}

/// Adds the warnings in front of a place, and gives the rest.
fn add_warnings_before<'a>(
    place: u32,
    warnings: &'a [Warning],
    made: &mut List<Warning>,
) -> Result<&'a [Warning], NoMemory>
    ensures { MatchResult result (λ rest. (rest.now ≡ spec.warnings_from place warnings.now) × (made.new ≡ made.old ++ spec.warnings_before place warnings.now)) (λ e. Unit {0}) }
{
    for (i, warning) in warnings.iter().enumerate() {
        if place <= warning.place {
            return Ok(&warnings[i..]);
        }
        made.push(*warning)?;
    }
    Ok(&[])
}
