//! The line of V8: which locks are held at two ends, with those behind it.

ghost use Rattle.cov_expr.specs.declared.limits.TheConstants.{MOST_LOCKS};
ghost use Rattle.std.specs.Prelude.{◌≡◌, ◌++◌, ◌≤◌, OnOk, length, map};
ghost use Rattle.cov_ast.specs.View as view;
ghost use Rattle.refusal_names.specs.NameLines as spec;

use crate::changes::add_changes;
use cov_ast::{LockDecl, Stmt, StmtKind};
use cov_expr::{Blob, List, Name, NoMemory};
use mode_state::ModeState;
use statement_parts::{Nested, parts_of};
use statement_paths::pass_block;
use std::alloc::Global;

/// Adds which locks are held at the two ends of a branch, or at the start and the end of the block of a loop, by those that are held in
/// front of it, and which statements change those that are held at one of the two alone. Of a branch the locks are then those at the end of its
/// second block.
pub fn add_ends(
    alloc: Global,
    bytes: &[u8],
    locks: &[LockDecl],
    modes: &mut ModeState,
    kind: &StmtKind,
    text: &mut Blob,
) -> Result<(), NoMemory>
    requires { length locks.now ≤ MOST_LOCKS }
    ensures { OnOk result (text.new ≡ text.old ++ spec.ends_line bytes.now (map view.lock locks.now) (modes.old).held (view.kind kind.now)) }
{
    match parts_of(kind).nested {
        Nested::Either(a, b) => {
            let mut first = modes.copy(alloc)?;
            pass_block(a, &mut first);
            pass_block(b, modes);
            add_branch_ends(alloc, bytes, locks, &first, modes, a, b, text)
        }
        Nested::Turn(b) => {
            let mut end = modes.copy(alloc)?;
            pass_block(b, &mut end);
            add_loop_ends(alloc, bytes, locks, modes, &end, b, text)
        }
        Nested::None => Ok(()),
    }
}

/// Adds which locks are held at the two ends of a branch.
fn add_branch_ends(
    alloc: Global,
    bytes: &[u8],
    locks: &[LockDecl],
    first: &ModeState,
    second: &ModeState,
    a: &[Stmt],
    b: &[Stmt],
    text: &mut Blob,
) -> Result<(), NoMemory>
    requires { length locks.now ≤ MOST_LOCKS }
    ensures { OnOk result (text.new ≡ text.old
        ++ spec.branch_ends bytes.now (map view.lock locks.now) (first.now).held (second.now).held (view.block a.now) (view.block b.now)) }
{
    let front = b"  held at the end of the first block: ";
    let between = b"; at the end of the second: ";
    add_two_ends(alloc, locks, front, between, first, second, text)?;
    add_changes(bytes, locks, first, second, a, Some(b), text)
}

/// Adds which locks are held at the start and at the end of the block of a loop.
fn add_loop_ends(
    alloc: Global,
    bytes: &[u8],
    locks: &[LockDecl],
    start: &ModeState,
    end: &ModeState,
    b: &[Stmt],
    text: &mut Blob,
) -> Result<(), NoMemory>
    requires { length locks.now ≤ MOST_LOCKS }
    ensures { OnOk result (text.new ≡ text.old ++ spec.loop_ends bytes.now (map view.lock locks.now) (start.now).held (end.now).held (view.block b.now)) }
{
    let front = b"  held at the start of the block: ";
    let between = b"; at its end: ";
    add_two_ends(alloc, locks, front, between, start, end, text)?;
    add_changes(bytes, locks, end, start, b, None, text)
}

/// Adds which locks are held at two places, each with words in front.
fn add_two_ends(
    alloc: Global,
    locks: &[LockDecl],
    front: &[u8],
    between: &[u8],
    first: &ModeState,
    second: &ModeState,
    text: &mut Blob,
) -> Result<(), NoMemory>
    requires { length locks.now ≤ MOST_LOCKS }
    ensures { OnOk result (text.new ≡ text.old ++ spec.two_ends front.now between.now (map view.lock locks.now) (first.now).held (second.now).held) }
{
    text.extend_from_slice(front)?;
    add_held(alloc, locks, first, text)?;
    text.extend_from_slice(between)?;
    add_held(alloc, locks, second, text)?;
    text.extend_from_slice(b"\n")
}

/// Adds the names of the locks that are held.
pub fn add_held(
    alloc: Global,
    locks: &[LockDecl],
    modes: &ModeState,
    text: &mut Blob,
) -> Result<(), NoMemory>
    requires { length locks.now ≤ MOST_LOCKS }
    ensures { OnOk result (text.new ≡ text.old ++ spec.held_text (map view.lock locks.now) (modes.now).held) }
{
    let mut names = List::new(alloc);
    for (number, lock) in locks.iter().enumerate() {
        if modes.holds(number as u32) {
            names.push(lock.name)?;
        }
    }
    add_listed(names.as_slice(), text)
}

/// Adds names with commas between, or that there are none.
fn add_listed(names: &[Name], text: &mut Blob) -> Result<(), NoMemory>
    ensures { OnOk result (text.new ≡ text.old ++ spec.listed_names names.now) }
{
    match names {
        [] => text.extend_from_slice(b"none"),
        [first, rest @ ..] => {
            text.extend_from_slice(first.text())?;
            for name in rest {
                text.extend_from_slice(b", ")?;
                text.extend_from_slice(name.text())?;
            }
            Ok(())
        }
    }
}
