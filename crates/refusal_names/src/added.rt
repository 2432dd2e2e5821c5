//! The line of V15: the predicate that is one too many.

ghost use Rattle.std.specs.Prelude.{◌≡◌, ◌++◌, OnOk, Some};
ghost use Rattle.cov_ast.specs.Plain.{plain};
ghost use Rattle.cov_ast.specs.View as view;
ghost use Rattle.cov_expr.specs.View.{term};
ghost use Rattle.refusal_names.specs.NameLines as spec;

use crate::reads::add_variable;
use cov_ast::{NameTable, Program, StmtKind};
use cov_expr::{Blob, Expr, Name, NoMemory};
use cov_print::add_expr;
use statement_parts::parts_of;

/// Adds the predicate that a statement adds to a point.
pub fn add_added(
    p: &Program,
    names: &NameTable,
    kind: &StmtKind,
    text: &mut Blob,
) -> Result<(), NoMemory>
    ensures { OnOk result (text.new ≡ text.old ++ spec.added_line (plain (view.program p.now)) names.now (view.kind kind.now)) }
{
    let parts = parts_of(kind);
    match (parts.store, parts.taken, parts.guard) {
        (Some(store), _, _) => add_equation(names, store.variable, store.value, text),
        (None, Some(l), _) => {
            match p.locks.as_slice().get(l as usize) {
                Some(lock) => match &lock.inv {
                    Some(e) => add_invariant(names, lock.name, e, text),
                    None => Ok(()),
                },
                None => Ok(()),
            }
        }
        (None, None, Some(guard)) => add_guard(names, guard, text),
        (None, None, None) => Ok(()),
    }
}

/// Adds the line of the equation of an assignment.
fn add_equation(names: &NameTable, x: u32, e: &Expr, text: &mut Blob) -> Result<(), NoMemory>
    ensures { OnOk result (text.new ≡ text.old ++ spec.equation_line names.now x (term e.now)) }
{
    text.extend_from_slice(b"  one too many is the equation `")?;
    add_variable(names, x, text)?;
    text.extend_from_slice(b" == ")?;
    add_expr(names, true, e, text)?;
    text.extend_from_slice(b"`\n")
}

/// Adds the line of an invariant.
fn add_invariant(names: &NameTable, lock: Name, e: &Expr, text: &mut Blob) -> Result<(), NoMemory>
    ensures { OnOk result (text.new ≡ text.old ++ spec.invariant_line names.now lock (Some (term e.now))) }
{
    text.extend_from_slice(b"  one too many is the invariant of ")?;
    text.extend_from_slice(lock.text())?;
    text.extend_from_slice(b": `")?;
    add_expr(names, false, e, text)?;
    text.extend_from_slice(b"`\n")
}

/// Adds the line of a guard.
fn add_guard(names: &NameTable, e: &Expr, text: &mut Blob) -> Result<(), NoMemory>
    ensures { OnOk result (text.new ≡ text.old ++ spec.guard_line names.now (term e.now)) }
{
    text.extend_from_slice(b"  one too many is the guard or its negation: `")?;
    add_expr(names, false, e, text)?;
    text.extend_from_slice(b"`\n")
}
