//! The line of V14: why a variable may not be given a type.

ghost use Rattle.cov_expr.specs.declared.limits.TheConstants.{MOST_LOCKS};
ghost use Rattle.std.specs.Prelude.{◌≡◌, ◌++◌, ◌≤◌, OnOk, length, map};
ghost use Rattle.cov_ast.specs.View as view;
ghost use Rattle.refusal_names.specs.GivenTypes as spec;
ghost use Rattle.refusal_names.specs.UnstableVariables.{unstable_line};

use crate::reads::add_variable;
use crate::sets::Known;
use crate::unstable::add_unstable;
use cov_ast::{Detail, LockDecl, NameTable, StmtKind};
use cov_expr::{Blob, NoMemory};
use mode_state::ModeState;
use statement_parts::parts_of;
use std::alloc::Global;

/// Adds why a statement may not give a type to the variable that a refusal shows, by the locks that are held.
pub fn add_given(
    alloc: Global,
    names: &NameTable,
    bytes: &[u8],
    locks: &[LockDecl],
    modes: &ModeState,
    known: &Known,
    kind: &StmtKind,
    detail: Detail,
    text: &mut Blob,
) -> Result<(), NoMemory>
    requires { length locks.now ≤ MOST_LOCKS }
    ensures { OnOk result (text.new ≡ text.old
        ++ spec.shown_line names.now (unstable_line names.now bytes.now (map view.lock locks.now) (modes.now).held) known.now.stable known.now.controls (view.kind kind.now) detail) }
{
    match detail {
        Detail::One(shown) => match names.find(shown) {
            Some(z) => {
                let parts = parts_of(kind);
                match (parts.store, parts.state) {
                    (Some(store), _) if !known.controls.has(store.variable) => {
                        let words =
                            b", which is assigned, is no control: no `retype` may stand here\n";
                        add_with_words(names, store.variable, words, text)
                    }
                    (Some(_), _) | (None, Some(_)) => {
                        if known.controls.has(z) {
                            add_with_words(names, z, b" is a control, and has no type\n", text)
                        } else if known.stable.has(z) {
                            add_with_words(names, z, b" is listed twice\n", text)
                        } else {
                            add_untracked(alloc, names, bytes, locks, modes, z, text)
                        }
                    }
                    (None, None) => Ok(()),
                }
            }
            None => Ok(()),
        },
        _ => Ok(()),
    }
}

/// Adds that a variable isn't stable, and why.
fn add_untracked(
    alloc: Global,
    names: &NameTable,
    bytes: &[u8],
    locks: &[LockDecl],
    modes: &ModeState,
    z: u32,
    text: &mut Blob,
) -> Result<(), NoMemory>
    requires { length locks.now ≤ MOST_LOCKS }
    ensures { OnOk result (text.new ≡ text.old
        ++ spec.untracked_text names.now (unstable_line names.now bytes.now (map view.lock locks.now) (modes.now).held) z) }
{
    add_with_words(names, z, b" isn't stable here, and has no type\n", text)?;
    add_unstable(alloc, names, bytes, locks, modes, z, text)
}

/// Adds a variable, with words behind.
fn add_with_words(names: &NameTable, x: u32, words: &[u8], text: &mut Blob) -> Result<(), NoMemory>
    ensures { OnOk result (text.new ≡ text.old ++ spec.variable_text names.now x words.now) }
{
    text.extend_from_slice(b"  ")?;
    add_variable(names, x, text)?;
    text.extend_from_slice(words)
}
