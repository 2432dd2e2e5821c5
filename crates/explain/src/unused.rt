//! What is warned of in declarations.

ghost use Rattle.std.specs.Prelude.{◌≡◌, ◌++◌, length, map, IfOk, OnOk};
ghost use Rattle.cov_ast.specs.Plain.{plain};
ghost use Rattle.cov_ast.specs.Tables.{table};
ghost use Rattle.cov_ast.specs.View as view;
ghost use Rattle.cov_expr.specs.View.{term};
ghost use Rattle.explain.specs.Unused as spec;
ghost use Rattle.explain.specs.StatementUses.{has_reader, has_writer};

use crate::nowhere::holds_nowhere;
use crate::uses::{UseSets, uses};
use crate::warning::{Cause, Warning};
use cov_ast::{Class, Program, VarDecl};
use cov_expr::{Expr, List, NoMemory, closed, eval};
use std::alloc::Global;

/// What is warned of in the declarations of a program, in their order.
pub fn of_declarations(alloc: Global, program: &Program) -> Result<List<Warning>, NoMemory>
    ensures { IfOk result (λ found. found ≡ spec.of_declarations (plain (view.program program.now))) }
{
    let uses = uses(alloc, program)?;
    let mut found = List::new(alloc);
    add_variables(program, &uses, &mut found)?;
    let locks = program.locks.as_slice();
    for lock in locks {
        let is_false = match &lock.inv {
            Some(e) if is_closed_false(e) => true,
            Some(e) => holds_nowhere(alloc, e)?,
            None => false,
        };
        if is_false {
            found.push(Warning {
                place: lock.at,
                cause: Cause::FalseInvariant(lock.name),
            })?;
        }
    }
    Ok(found)
}

/// Adds what is warned of variables.
fn add_variables(
    program: &Program,
    uses: &UseSets,
    found: &mut List<Warning>,
) -> Result<(), NoMemory>
    requires read { uses.now.read ≡ table (length program.now.vars) (has_reader (plain (view.program program.now))) }
    requires written { uses.now.written ≡ table (length program.now.vars) (has_writer (plain (view.program program.now))) }
    ensures { OnOk result (found.new ≡ found.old ++ spec.of_variables (plain (view.program program.now)) 0 (map view.var program.now.vars)) }
{
    for (x, var) in program.vars.as_slice().iter().enumerate() {
        let read = uses.read.has_index(x);
        let written = uses.written.has_index(x);
        add_use(var, read, written, found)?;
    }
    Ok(())
}

/// Adds what is warned of a variable that has a reader, or none, and a writer, or none.
fn add_use(
    var: &VarDecl,
    read: bool,
    written: bool,
    found: &mut List<Warning>,
) -> Result<(), NoMemory>
    ensures { OnOk result (found.new ≡ found.old ++ spec.of_use (view.var var.now) read written) }
{
    let is_high = match &var.class {
        Class::High => true,
        Class::Low | Class::When(_) => false,
    };
    if !read && !is_high {
        found.push(Warning {
            place: var.at,
            cause: Cause::NeverRead(var.name),
        })?;
    }
    if !written && !is_high {
        found.push(Warning {
            place: var.at,
            cause: Cause::NeverWritten(var.name),
        })?;
    }
    Ok(())
}

/// Whether an expression is 0 without a look at memory.
#[tactic(auto, using(crate::proofs::ClosedLaws::closed_in_range))]
pub fn is_closed_false(e: &Expr) -> bool
    ensures { result ≡ spec.is_closed_false (term e.now) }
{
    closed(e) && eval(e, &[]) == 0
}
