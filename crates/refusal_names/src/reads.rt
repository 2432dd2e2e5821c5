//! The line of V3: two reads of variables that aren't stable.

ghost use Rattle.cov_expr.specs.declared.limits.TheConstants.{MOST_LOCKS};
ghost use Rattle.std.specs.Prelude.{◌≡◌, ◌++◌, ◌≤◌, OnOk, length, map};
ghost use Rattle.cov_ast.specs.View as view;
ghost use Rattle.cov_print.specs.Spelling.{name};
ghost use Rattle.refusal_names.specs.NameLines as spec;
ghost use Rattle.refusal_names.specs.SpokenParts as parts;
ghost use Rattle.refusal_names.specs.UnstableVariables.{unstable_line};

use crate::outside::add_outside;
use crate::unstable::add_unstable;
use cov_ast::{LockDecl, NameTable, NumberSet, StmtKind};
use cov_expr::{Blob, Expr, List, NoMemory};
use cov_print::add_expr;
use mode_state::ModeState;
use statement_parts::parts_of;
use std::alloc::Global;

/// Adds the first two reads of a statement of variables that aren't stable, by what is stable in front of it, and why they aren't, by the
/// locks that are held there.
pub fn add_reads(
    alloc: Global,
    names: &NameTable,
    bytes: &[u8],
    locks: &[LockDecl],
    modes: &ModeState,
    stable: &NumberSet,
    kind: &StmtKind,
    text: &mut Blob,
) -> Result<(), NoMemory>
    requires { length locks.now ≤ MOST_LOCKS }
    ensures { OnOk result (text.new ≡ text.old
        ++ spec.reads_line names.now (unstable_line names.now bytes.now (map view.lock locks.now) (modes.now).held) stable.now (parts.evaluated_expression (view.kind kind.now))) }
{
    let Some(e) = parts_of(kind).evaluated() else {
        return Ok(());
    };
    let mut found = List::new(alloc);
    add_outside(e, stable, &mut found)?;
    match found.as_slice() {
        [x, y, ..] => add_two_with_causes(alloc, names, bytes, locks, modes, *x, *y, text),
        [_] | [] => Ok(()),
    }
}

/// Adds the lines with two variables, and why they aren't stable, once where they are the same.
fn add_two_with_causes(
    alloc: Global,
    names: &NameTable,
    bytes: &[u8],
    locks: &[LockDecl],
    modes: &ModeState,
    x: u32,
    y: u32,
    text: &mut Blob,
) -> Result<(), NoMemory>
    requires { length locks.now ≤ MOST_LOCKS }
    ensures { OnOk result (text.new ≡ text.old
        ++ spec.two_with_causes names.now (unstable_line names.now bytes.now (map view.lock locks.now) (modes.now).held) x y) }
{
    add_two(names, x, y, text)?;
    add_unstable(alloc, names, bytes, locks, modes, x, text)?;
    if x == y {
        Ok(())
    } else {
        add_unstable(alloc, names, bytes, locks, modes, y, text)
    }
}

/// Adds the line with two variables.
fn add_two(names: &NameTable, x: u32, y: u32, text: &mut Blob) -> Result<(), NoMemory>
    ensures { OnOk result (text.new ≡ text.old ++ spec.two_reads names.now x y) }
{
    text.extend_from_slice(b"  not stable here: ")?;
    add_variable(names, x, text)?;
    text.extend_from_slice(b", ")?;
    add_variable(names, y, text)?;
    text.extend_from_slice(b"\n")
}

/// Adds the name of a variable.
pub fn add_variable(names: &NameTable, x: u32, text: &mut Blob) -> Result<(), NoMemory>
    ensures { OnOk result (text.new ≡ text.old ++ name names.now x) }
{
    add_expr(names, false, &Expr::Var(x), text)
}
