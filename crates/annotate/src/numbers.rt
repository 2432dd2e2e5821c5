//! The numbers that the names of variables have in a text.

ghost use Rattle.std.specs.Prelude.{◌≡◌, ℕ, [], get_or, map, IfOk};
ghost use Rattle.cov_ast.specs.NameTables as tables;
ghost use Rattle.cov_ast.specs.Syntax as syntax;
ghost use Rattle.cov_ast.specs.View as view;
ghost use Rattle.annotate.specs.AnnotatedText.{name_number};

use cov_ast::{NameTable, Parsed, VarDecl};
use cov_expr::{List, Name, NoMemory};
use policy_class::Renumbering;
use std::alloc::Global;

/// For each variable of a text the number of its name.
pub fn name_numbers(alloc: Global, p: &Parsed) -> Result<Renumbering, NoMemory>
    ensures { IfOk result (λ made. (x : ℕ) → get_or made.0 x made.1 ≡ name_number (view.parsed p.now) x) }
{
    let numbers = numbers_of(alloc, &p.names, p.vars.as_slice())?;
    Ok(Renumbering::new(alloc, numbers, past(&p.names)))
}

/// The numbers of the names of variables, one behind the other.
fn numbers_of(alloc: Global, names: &NameTable, vars: &[VarDecl]) -> Result<List<u32>, NoMemory>
    ensures { IfOk result (λ made. made ≡ map (λ (v : syntax.Var). tables.number_of names.now v.name) (map view.var vars.now)) }
{
    let mut made = List::new(alloc);
    for var in vars {
        made.push(number_of(names, var.name))?;
    }
    Ok(made)
}

/// The number of a name, or behind the last where it isn't there.
fn number_of(names: &NameTable, name: Name) -> u32
    ensures { result ≡ tables.number_of names.now name }
{
    match names.find(name) {
        Some(number) => number,
        None => names.len(),
    }
}

/// The number behind the last name, which that of the empty text would be: no name is empty.
fn past(names: &NameTable) -> u32
    ensures { result ≡ tables.number_of names.now [] }
{
    for number in 0..names.len() {
        let name = names.name(number);
        let _ = name.text();
    }
    names.len()
}
