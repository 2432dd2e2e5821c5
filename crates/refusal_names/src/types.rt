//! The line of V4: a type that isn't over stable controls.

ghost use Rattle.cov_expr.specs.declared.limits.TheConstants.{MOST_LOCKS};
ghost use Rattle.std.specs.Prelude.{◌≡◌, ◌++◌, ◌≤◌, OnOk, Some, length, map, option_map};
ghost use Rattle.cov_ast.specs.Plain.{plain};
ghost use Rattle.cov_ast.specs.View as view;
ghost use Rattle.cov_expr.specs.View.{term};
ghost use Rattle.refusal_names.specs.NameLines as spec;
ghost use Rattle.refusal_names.specs.OutsideVariables.{first_with_outside};
ghost use Rattle.refusal_names.specs.SpokenParts as parts;
ghost use Rattle.refusal_names.specs.UnstableVariables.{unstable_line};

use crate::outside::{first_listed, first_unstable_class, first_written};
use crate::reads::add_variable;
use crate::sets::Known;
use crate::unstable::add_unstable;
use cov_ast::{LockDecl, NameTable, NumberSet, Program, StmtKind};
use cov_expr::{Blob, Expr, NoMemory, vars};
use cov_print::add_expr;
use mode_state::{Mask, ModeState};
use statement_parts::parts_of;
use std::alloc::Global;

/// Adds the first type of a statement that isn't over stable controls, or for a value without a type of its own the class that isn't, and
/// why the control in it isn't stable, by the locks that are held.
pub fn add_types(
    alloc: Global,
    p: &Program,
    names: &NameTable,
    bytes: &[u8],
    locks: &[LockDecl],
    modes: &ModeState,
    known: &Known,
    kind: &StmtKind,
    text: &mut Blob,
) -> Result<(), NoMemory>
    requires { length locks.now ≤ MOST_LOCKS }
    ensures { OnOk result (text.new ≡ text.old
        ++ spec.types_line (plain (view.program p.now)) names.now (unstable_line names.now bytes.now (map view.lock locks.now) (modes.now).held)
        known.now.stable known.now.controls known.now.stable_controls (view.kind kind.now)) }
{
    let value_class = match parts_of(kind).untyped() {
        Some(e) => {
            let variables = vars(alloc, e)?;
            first_unstable_class(p, &known.stable, &known.controls, variables.as_slice())
        }
        None => None,
    };
    match value_class {
        Some((y, control)) => {
            add_class_text(names, y, control, text)?;
            add_unstable(alloc, names, bytes, locks, modes, control, text)
        }
        None => match first_type(kind, &known.stable_controls) {
            Some((q, x)) => {
                add_type_text(names, &known.controls, q, x, text)?;
                if known.controls.has(x) {
                    add_unstable(alloc, names, bytes, locks, modes, x, text)
                } else {
                    Ok(())
                }
            }
            None => Ok(()),
        },
    }
}

/// Adds which variable it is, with the control of its class.
fn add_class_text(names: &NameTable, y: u32, control: u32, text: &mut Blob) -> Result<(), NoMemory>
    ensures { OnOk result (text.new ≡ text.old ++ spec.class_text names.now y control) }
{
    text.extend_from_slice(b"  no type is written by `as`, and the class of ")?;
    add_variable(names, y, text)?;
    text.extend_from_slice(b" has the control ")?;
    add_variable(names, control, text)?;
    text.extend_from_slice(b", which isn't stable here\n")
}

/// The first type of a statement that has a variable outside of a set, with the first such variable.
fn first_type<'p>(kind: &'p StmtKind, set: &NumberSet) -> Option<(&'p Expr, u32)>
    ensures { option_map (λ f. (term f.0.now, f.1)) result ≡ first_with_outside set.now (parts.stated_types (view.kind kind.now)) }
{
    let parts = parts_of(kind);
    match (parts.store, parts.state) {
        (Some(store), _) => first_written(store.written, store.retypes, set),
        (None, Some(state)) => first_listed(state.types.as_slice(), set),
        (None, None) => None,
    }
}

/// Adds which type it is, with its variable.
fn add_type_text(
    names: &NameTable,
    controls: &Mask,
    q: &Expr,
    x: u32,
    text: &mut Blob,
) -> Result<(), NoMemory>
    ensures { OnOk result (text.new ≡ text.old ++ spec.type_text names.now controls.now (term q.now) x) }
{
    let control = controls.has(x);
    text.extend_from_slice(b"  the type `")?;
    add_expr(names, false, q, text)?;
    text.extend_from_slice(b"` has the ")?;
    text.extend_from_slice(part_word(control))?;
    add_variable(names, x, text)?;
    text.extend_from_slice(part_fault(control))
}

/// What a variable is.
fn part_word(control: bool) -> &'static [u8]
    ensures { result.now ≡ spec.part_word control }
{
    if control { b"control " } else { b"variable " }
}

/// Why a variable may not be in a type.
fn part_fault(control: bool) -> &'static [u8]
    ensures { result.now ≡ spec.part_fault control }
{
    if control {
        b", which isn't stable here\n"
    } else {
        b", which is no control: no class mentions it\n"
    }
}
