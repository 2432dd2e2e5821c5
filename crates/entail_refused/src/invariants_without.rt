//! Which variables of a predicate that is asked a hypothesis mentions, and no invariant of the lock over them.

ghost use Rattle.std.specs.Prelude.{◌≡◌, ◌++◌, OnOk, map};
ghost use Rattle.cov_ast.specs.View as view;
ghost use Rattle.cov_expr.specs.View.{term};
ghost use Rattle.entail_refused.specs.InvariantsWithout as spec;

use crate::noted::is_predicate;
use cov_ast::{LockDecl, Program};
use cov_expr::{Blob, Expr, NoMemory, mentions, vars};
use entail_losses::is_mentioned;
use entail_origins::{Question, lock_over};
use std::alloc::Global;
use text_parts::{add_line_of, add_variable_name};

/// Adds a line for each variable of a goal that a hypothesis mentions, and that is under a lock, the first of which has no invariant that mentions it, where the goal is a predicate that is
/// asked. `bytes` are the text of the program. It takes time in proportion to the hypotheses for each variable of the goal.
pub fn add_invariant_lines(
    alloc: Global,
    p: &Program,
    bytes: &[u8],
    question: Question,
    hyps: &[Expr],
    goal: &Expr,
    text: &mut Blob,
) -> Result<(), NoMemory>
    ensures { OnOk result (text.new ≡ text.old ++ spec.invariant_lines (view.program p.now) bytes.now (map term hyps.now) question (term goal.now)) }
{
    if is_predicate(question) {
        let xs = vars(alloc, goal)?;
        add_of_each(p, bytes, hyps, xs.as_slice(), text)
    } else {
        Ok(())
    }
}

/// Adds the lines of variables.
fn add_of_each(
    p: &Program,
    bytes: &[u8],
    hyps: &[Expr],
    xs: &[u32],
    text: &mut Blob,
) -> Result<(), NoMemory>
    ensures { OnOk result (text.new ≡ text.old ++ spec.lines_of (view.program p.now) bytes.now (map term hyps.now) xs.now) }
{
    for x in xs {
        add_if_mentioned(p, bytes, hyps, *x, text)?;
    }
    Ok(())
}

/// Adds the line of a variable, if a hypothesis mentions it.
fn add_if_mentioned(
    p: &Program,
    bytes: &[u8],
    hyps: &[Expr],
    x: u32,
    text: &mut Blob,
) -> Result<(), NoMemory>
    ensures { OnOk result (text.new ≡ text.old ++ spec.line_if_mentioned (view.program p.now) bytes.now (map term hyps.now) x) }
{
    if is_mentioned(hyps, x) {
        match lock_over(x, p.locks.as_slice()) {
            Some(lock) => match &lock.inv {
                Some(e) if mentions(e, x) => Ok(()),
                _ => {
                    text.extend_from_slice(b"  no invariant: ")?;
                    add_variable_name(p, x, text)?;
                    add_lock_part(lock, text)?;
                    add_place_part(bytes, lock.at, text)
                }
            },
            None => Ok(()),
        }
    } else {
        Ok(())
    }
}

/// Adds the lock.
fn add_lock_part(lock: &LockDecl, text: &mut Blob) -> Result<(), NoMemory>
    ensures { OnOk result (text.new ≡ text.old ++ spec.lock_part (view.lock lock.now)) }
{
    text.extend_from_slice(b"   (the lock ")?;
    text.extend_from_slice(lock.name.text())
}

/// Adds the line of the lock, and that it has no invariant that mentions the variable.
fn add_place_part(bytes: &[u8], at: u32, text: &mut Blob) -> Result<(), NoMemory>
    ensures { OnOk result (text.new ≡ text.old ++ spec.place_part bytes.now at) }
{
    text.extend_from_slice(b", line ")?;
    add_line_of(bytes, at, text)?;
    text.extend_from_slice(b", has none that mentions it)\n")
}
