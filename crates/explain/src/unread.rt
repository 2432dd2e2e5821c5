//! What the thread of a refusal stores to and no statement reads.

ghost use Rattle.std.specs.Prelude.{◌≡◌, ◌++◌, IfOk, OnOk};
ghost use Rattle.cov_ast.specs.View as view;
ghost use Rattle.explain.specs.UnreadVariables as spec;

use crate::uses::add_block;
use cov_ast::{NumberSet, Program, Stmt, ThreadDecl};
use cov_expr::{Blob, List, NoMemory};
use statement_parts::add_assigned;
use std::alloc::Global;
use text_parts::add_variable_names;

/// Of how many variables is told at most.
const MOST_UNREAD: usize = 4;

/// Adds a line of the first variables that the thread of a refusal stores to, assumes that no other reads, and doesn't read itself, where there are such. The statements of the thread are
/// gone through twice.
pub fn add_unread_line(
    alloc: Global,
    p: &Program,
    thread: Option<u32>,
    text: &mut Blob,
) -> Result<(), NoMemory>
    ensures { OnOk result (text.new ≡ text.old ++ spec.unread_line (view.program p.now) thread) }
{
    match thread {
        Some(t) => match p.threads.as_slice().get(t as usize) {
            Some(thread) => {
                let found = unread(alloc, p, thread)?;
                add_unless_none(p, found.as_slice(), text)
            }
            None => Ok(()),
        },
        None => Ok(()),
    }
}

/// The variables of which is to be told.
#[tactic(auto, unfolding(crate::specs::UnreadVariables::unread))]
fn unread(alloc: Global, p: &Program, thread: &ThreadDecl) -> Result<List<u32>, NoMemory>
    ensures { IfOk result (λ made. made ≡ spec.unread (view.program p.now) (view.thread thread.now)) }
{
    let read = read_in(alloc, p, thread.body.as_slice())?;
    let stored = stored_in(alloc, p, thread.body.as_slice())?;
    let mut found = List::new(alloc);
    add_unread(
        &read,
        &stored,
        thread.modes.assume_hide.as_slice(),
        &mut found,
    )?;
    Ok(found)
}

/// The variables that the statements of a block read.
fn read_in(alloc: Global, p: &Program, block: &[Stmt]) -> Result<NumberSet, NoMemory>
    ensures { IfOk result (λ made. made ≡ spec.read_in (view.program p.now) (view.block block.now)) }
{
    let mut read = NumberSet::new(alloc, p.vars.len())?;
    add_block(block, &mut read);
    Ok(read)
}

/// The variables to which they store.
fn stored_in(alloc: Global, p: &Program, block: &[Stmt]) -> Result<NumberSet, NoMemory>
    ensures { IfOk result (λ made. made ≡ spec.stored_in (view.program p.now) (view.block block.now)) }
{
    let mut stored = NumberSet::new(alloc, p.vars.len())?;
    add_assigned(block, &mut stored);
    Ok(stored)
}

/// Adds those of some variables of which is to be told.
fn add_unread(
    read: &NumberSet,
    stored: &NumberSet,
    xs: &[u32],
    found: &mut List<u32>,
) -> Result<(), NoMemory>
    ensures { OnOk result (found.new ≡ spec.with_unread read.now stored.now found.old xs.now) }
{
    for x in xs {
        add_if_unread(read, stored, *x, found)?;
    }
    Ok(())
}

/// Adds a variable, if it is to be told.
fn add_if_unread(
    read: &NumberSet,
    stored: &NumberSet,
    x: u32,
    found: &mut List<u32>,
) -> Result<(), NoMemory>
    ensures { OnOk result (found.new ≡ spec.with_one read.now stored.now found.old x) }
{
    if found.len() < MOST_UNREAD && stored.has(x) && !read.has(x) {
        found.push(x)
    } else {
        Ok(())
    }
}

/// Adds the line of some variables, if there are some.
fn add_unless_none(p: &Program, xs: &[u32], text: &mut Blob) -> Result<(), NoMemory>
    ensures { OnOk result (text.new ≡ text.old ++ spec.unless_none (view.program p.now) xs.now) }
{
    match xs {
        [] => Ok(()),
        [_, ..] => add_line(p, xs, text),
    }
}

/// Adds the line of some variables.
fn add_line(p: &Program, xs: &[u32], text: &mut Blob) -> Result<(), NoMemory>
    ensures { OnOk result (text.new ≡ text.old ++ spec.line_of (view.program p.now) xs.now) }
{
    text.extend_from_slice(b"  never read:  ")?;
    add_variable_names(p, xs, text)?;
    text.extend_from_slice(b"   (the thread stores to it, and alone may read it)\n")
}
