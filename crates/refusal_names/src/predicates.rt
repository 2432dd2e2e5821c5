//! The line of V12: a predicate that isn't over stable variables.

ghost use Rattle.cov_expr.specs.declared.limits.TheConstants.{MOST_LOCKS};
ghost use Rattle.std.specs.Prelude.{◌≡◌, ◌++◌, ◌≤◌, OnOk, Some, length, map};
ghost use Rattle.cov_ast.specs.View as view;
ghost use Rattle.cov_expr.specs.View.{term};
ghost use Rattle.refusal_names.specs.NameLines as spec;
ghost use Rattle.refusal_names.specs.UnstableVariables.{unstable_line};

use crate::outside::first_expr;
use crate::reads::add_variable;
use crate::unstable::add_unstable;
use cov_ast::{LockDecl, NameTable, NumberSet, StmtKind};
use cov_expr::{Blob, Expr, NoMemory};
use cov_print::add_expr;
use mode_state::ModeState;
use statement_parts::parts_of;
use std::alloc::Global;

/// Adds the first predicate that a statement states and that isn't over stable variables, and why its variable isn't stable, by the
/// locks that are held.
pub fn add_predicates(
    alloc: Global,
    names: &NameTable,
    bytes: &[u8],
    locks: &[LockDecl],
    modes: &ModeState,
    stable: &NumberSet,
    kind: &StmtKind,
    text: &mut Blob,
) -> Result<(), NoMemory>
    requires { length locks.now ≤ MOST_LOCKS }
    ensures { OnOk result (text.new ≡ text.old
        ++ spec.predicates_line names.now (unstable_line names.now bytes.now (map view.lock locks.now) (modes.now).held) stable.now (view.kind kind.now)) }
{
    let Some(state) = parts_of(kind).state else {
        return Ok(());
    };
    match first_expr(state.preds.as_slice(), stable) {
        Some((e, x)) => {
            add_predicate_text(names, e, x, text)?;
            add_unstable(alloc, names, bytes, locks, modes, x, text)
        }
        None => Ok(()),
    }
}

/// Adds which predicate it is, with its variable.
fn add_predicate_text(names: &NameTable, e: &Expr, x: u32, text: &mut Blob) -> Result<(), NoMemory>
    ensures { OnOk result (text.new ≡ text.old ++ spec.predicate_text names.now (term e.now) x) }
{
    text.extend_from_slice(b"  the predicate `")?;
    add_expr(names, false, e, text)?;
    text.extend_from_slice(b"` has the variable ")?;
    add_variable(names, x, text)?;
    text.extend_from_slice(b", which isn't stable here\n")
}
