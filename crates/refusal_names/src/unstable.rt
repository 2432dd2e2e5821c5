//! The lines of V5 and behind those of V3, V4, V12 and V14: why a variable isn't stable.

ghost use Rattle.cov_expr.specs.declared.limits.TheConstants.{MOST_LOCKS};
ghost use Rattle.std.specs.Prelude.{◌≡◌, ◌++◌, ◌≤◌, OnOk, length, map};
ghost use Rattle.cov_ast.specs.View as view;
ghost use Rattle.refusal_names.specs.UnstableVariables as spec;

use crate::access::{add_list, add_lock_with_held, first_forbidding};
use crate::reads::add_variable;
use cov_ast::{Detail, LockDecl, NameTable};
use cov_expr::{Blob, NoMemory};
use mode_state::ModeState;
use std::alloc::Global;

/// Adds why a variable isn't stable, by the locks that are held: the lock that it is under isn't, or it is under none.
pub fn add_unstable(
    alloc: Global,
    names: &NameTable,
    bytes: &[u8],
    locks: &[LockDecl],
    modes: &ModeState,
    x: u32,
    text: &mut Blob,
) -> Result<(), NoMemory>
    requires { length locks.now ≤ MOST_LOCKS }
    ensures { OnOk result (text.new ≡ text.old ++ spec.unstable_line names.now bytes.now (map view.lock locks.now) (modes.now).held x) }
{
    match first_forbidding(locks, modes, true, x) {
        Some((lock, word)) => {
            add_lock_with_held(alloc, names, bytes, locks, modes, lock, word, x, text)
        }
        None => add_assumption(names, x, text),
    }
}

/// Adds why the variable that a refusal shows isn't stable, by the locks that are held, and where it is under none what is mostly done.
pub fn add_shown_cause(
    alloc: Global,
    names: &NameTable,
    bytes: &[u8],
    locks: &[LockDecl],
    modes: &ModeState,
    detail: Detail,
    text: &mut Blob,
) -> Result<(), NoMemory>
    requires { length locks.now ≤ MOST_LOCKS }
    ensures { OnOk result (text.new ≡ text.old ++ spec.shown_cause names.now (spec.unstable_part_line names.now bytes.now (map view.lock locks.now) (modes.now).held) detail) }
{
    match detail {
        Detail::One(shown) => match names.find(shown) {
            Some(x) => match first_forbidding(locks, modes, true, x) {
                Some((lock, word)) => {
                    add_lock_with_held(alloc, names, bytes, locks, modes, lock, word, x, text)
                }
                None => {
                    add_assumption(names, x, text)?;
                    text.extend_from_slice(
                        b"  assign a constant in each branch of a test of it, or a copy of it in a variable of which the thread assumes `nowrite`\n",
                    )
                }
            },
            None => Ok(()),
        },
        _ => Ok(()),
    }
}

/// Adds the line of a variable that is under no lock.
fn add_assumption(names: &NameTable, x: u32, text: &mut Blob) -> Result<(), NoMemory>
    ensures { OnOk result (text.new ≡ text.old ++ spec.assumption_text names.now x) }
{
    text.extend_from_slice(b"  ")?;
    add_variable(names, x, text)?;
    let start = b" is under no lock, and the thread doesn't assume `";
    add_list(names, start, b"nowrite", x, b"`\n", text)
}
