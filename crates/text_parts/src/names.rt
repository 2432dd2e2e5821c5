//! The names of the variables of a program.

ghost use Rattle.std.specs.Prelude.{◌≡◌, ◌<◌, [], IfOk, length, map};
ghost use Rattle.cov_ast.specs.View as view;
ghost use Rattle.cov_ast.specs.WellFormed.{IsWellFormed};
ghost use Rattle.text_parts.specs.Inside.{AreNew};
ghost use Rattle.text_parts.specs.VariableNames as spec;

use cov_ast::{NameTable, Program, VarDecl};
use cov_expr::NoMemory;
use std::alloc::Global;

/// The names of the variables of a program, by their ids.
pub fn variable_names(alloc: Global, p: &Program) -> Result<NameTable, NoMemory>
    requires { IsWellFormed (view.program p.now) }
    ensures { IfOk result (λ made. made ≡ spec.variable_names (view.program p.now).vars) }
{
    table_of(alloc, p.vars.as_slice())
}

/// The names of variables, which differ.
fn table_of(alloc: Global, vars: &[VarDecl]) -> Result<NameTable, NoMemory>
    requires few { length vars.now < 4294967295 }
    requires differ { AreNew [] (spec.variable_names (map view.var vars.now)) }
    ensures { IfOk result (λ made. made ≡ spec.variable_names (map view.var vars.now)) }
{
    let mut names = NameTable::new(alloc);
    for var in vars {
        names.add(var.name)?;
    }
    Ok(names)
}
