//! What every other thread guarantees of a variable, and the thread of a refusal doesn't assume.

ghost use Rattle.std.specs.Prelude.{◌≡◌, ◌≤◌, ◌++◌, OnOk, length, map};
ghost use Rattle.cov_ast.specs.View as view;
ghost use Rattle.cov_ast.specs.WellFormed.{IsWellFormed};
ghost use Rattle.cov_expr.specs.declared.limits.TheConstants.{MOST_THREADS, MOST_VARIABLES};
ghost use Rattle.explain.specs.UnassumedVariables as spec;

use cov_ast::{Program, ThreadDecl, VarDecl};
use cov_expr::{Blob, List, NoMemory, has_number};
use entail_origins::lock_over;
use std::alloc::Global;
use text_parts::add_variable_names;

/// Of how many variables is told at most.
const MOST_UNASSUMED: usize = 4;

/// Adds a line of the first variables under no lock of which every other thread guarantees that it doesn't write them, and the thread of a refusal assumes nothing, where there are such and
/// other threads. It takes time in proportion to the variables, times what the threads guarantee.
pub fn add_unassumed_line(
    alloc: Global,
    p: &Program,
    thread: Option<u32>,
    text: &mut Blob,
) -> Result<(), NoMemory>
    requires { IsWellFormed (view.program p.now) }
    ensures { OnOk result (text.new ≡ text.old ++ spec.unassumed_line (view.program p.now) thread) }
{
    match thread {
        Some(t) => {
            let mut found = List::new(alloc);
            add_unassumed(p, t, p.vars.as_slice(), &mut found)?;
            if found.as_slice().is_empty() {
                Ok(())
            } else {
                add_line(p, found.as_slice(), text)
            }
        }
        None => Ok(()),
    }
}

/// Adds the variables of which is to be told.
fn add_unassumed(
    p: &Program,
    t: u32,
    vars: &[VarDecl],
    found: &mut List<u32>,
) -> Result<(), NoMemory>
    requires few { length vars.now ≤ MOST_VARIABLES }
    requires threads { length p.now.threads ≤ MOST_THREADS }
    ensures { OnOk result (found.new ≡ spec.with_unassumed (view.program p.now) t found.old 0 (map view.var vars.now)) }
{
    for (x, _) in vars.iter().enumerate() {
        if found.len() < MOST_UNASSUMED && is_unassumed(p, t, x as u32) {
            found.push(x as u32)?;
        }
    }
    Ok(())
}

/// Whether a variable is under no lock, and every other thread guarantees what a thread doesn't assume of it.
fn is_unassumed(p: &Program, t: u32, x: u32) -> bool
    requires { length p.now.threads ≤ MOST_THREADS }
    ensures { result ≡ spec.is_unassumed (view.program p.now) t x }
{
    let threads = p.threads.as_slice();
    2 <= threads.len() && lock_over(x, p.locks.as_slice()).is_none() && are_met(threads, t, x)
}

/// Whether the thread of a number assumes nothing of a variable, and every other guarantees that it doesn't write it.
fn are_met(threads: &[ThreadDecl], t: u32, x: u32) -> bool
    requires { length threads.now ≤ MOST_THREADS }
    ensures { result ≡ spec.are_met t x 0 (map view.thread threads.now) }
{
    for (u, thread) in threads.iter().enumerate() {
        let is_met = if u as u32 == t {
            !has_number(thread.modes.assume_nowrite.as_slice(), x)
                && !has_number(thread.modes.assume_hide.as_slice(), x)
        } else {
            has_number(thread.modes.guarantee_nowrite.as_slice(), x)
                || has_number(thread.modes.guarantee_hide.as_slice(), x)
        };
        if !is_met {
            return false;
        }
    }
    true
}

/// Adds the line of some variables.
fn add_line(p: &Program, xs: &[u32], text: &mut Blob) -> Result<(), NoMemory>
    ensures { OnOk result (text.new ≡ text.old ++ spec.line_of (view.program p.now) xs.now) }
{
    text.extend_from_slice(b"  not assumed: ")?;
    add_variable_names(p, xs, text)?;
    text.extend_from_slice(b"   (each other thread guarantees `nowrite` or `hide` of it)\n")
}
