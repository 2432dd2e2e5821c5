//! The names that a text declares, each once (W1).

ghost use Rattle.std.specs.Prelude.{◌≡◌, ◌<◌, [], ◌∷◌, ◌++◌, length, map, IfOk, OnOk, All};
ghost use Rattle.cov_expr.specs.Names.{IsName};
ghost use Rattle.cov_ast.specs.View as view;
ghost use Rattle.cov_ast.specs.Ready.{IsReady};
ghost use Rattle.cov_ast.specs.Obligations.{Decides};
ghost use Rattle.policy_class.specs.Resolved as spec;
ghost use Rattle.policy_class.specs.Inside.DeclaredNames.{IsTableOf, declared_name};

use cov_ast::{
    CheckFault, Detail, LockDecl, NameTable, Parsed, Rule, ThreadDecl, VarDecl, refused,
};
use cov_expr::{List, Name, NoMemory};
use std::alloc::Global;

/// A declared name and its byte offset.
#[derive(Drop)]
pub struct Declared {
    pub name: Name,
    pub at: u32,
}

/// The declared names in the order of the text, in one table. Refuses a text for the first name that was declared before
/// (W1).
pub fn declared_names(alloc: Global, p: &Parsed) -> Result<NameTable, CheckFault>
    requires { IsReady (view.parsed p.now) }
    ensures decided { Decides (spec.w1_from [] (spec.declared_names (view.parsed p.now))) (spec.without_value result) }
    ensures table { IfOk result (IsTableOf (view.parsed p.now)) }
{
    let declarations = declarations(alloc, p)?;
    table_of(alloc, declarations.as_slice())
}

/// The declarations in the order of the text.
fn declarations(alloc: Global, p: &Parsed) -> Result<List<Declared>, NoMemory>
    ensures { IfOk result (λ made. map declared_name made ≡ spec.declared_names (view.parsed p.now)) }
{
    let mut made = List::new(alloc);
    add_vars(&mut made, p.vars.as_slice())?;
    add_locks(&mut made, p.locks.as_slice())?;
    add_threads(&mut made, p.threads.as_slice())?;
    Ok(made)
}

fn add_vars(made: &mut List<Declared>, vars: &[VarDecl]) -> Result<(), NoMemory>
    ensures { OnOk result (map declared_name made.new ≡ map declared_name made.old ++ map spec.var_named (map view.var vars.now)) }
{
    for var in vars {
        made.push(Declared {
            name: var.name,
            at: var.at,
        })?;
    }
    Ok(())
}

fn add_locks(made: &mut List<Declared>, locks: &[LockDecl]) -> Result<(), NoMemory>
    ensures { OnOk result (map declared_name made.new ≡ map declared_name made.old ++ map spec.lock_named (map view.lock locks.now)) }
{
    for lock in locks {
        made.push(Declared {
            name: lock.name,
            at: lock.at,
        })?;
    }
    Ok(())
}

fn add_threads(made: &mut List<Declared>, threads: &[ThreadDecl]) -> Result<(), NoMemory>
    ensures { OnOk result (map declared_name made.new ≡ map declared_name made.old ++ map spec.thread_named (map view.thread threads.now)) }
{
    for thread in threads {
        made.push(Declared {
            name: thread.name,
            at: thread.at,
        })?;
    }
    Ok(())
}

/// The table of names that are to differ.
fn table_of(alloc: Global, declarations: &[Declared]) -> Result<NameTable, CheckFault>
    requires { length declarations.now < 4294967295 }
    ensures decided { Decides (spec.w1_from [] (map declared_name declarations.now)) (spec.without_value result) }
    ensures names { IfOk result (λ table. table ≡ map (λ d. d.name) declarations.now) }
    ensures texts { IfOk result (All IsName) }
{
    let mut table = NameTable::new(alloc);
    for declared in declarations {
        if let Err(fault) = declare(&mut table, declared) {
            return Err(fault);
        }
    }
    Ok(table)
}

/// Adds a name, and refuses one that is there. That no name is an empty text tells elsewhere that past the last name of a
/// text there is none that is declared.
fn declare(table: &mut NameTable, declared: &Declared) -> Result<(), CheckFault>
    requires { length table.old < 4294967295 }
    ensures decided { Decides (spec.w1_obligation table.old (declared_name declared.now) ∷ []) result }
    ensures added { OnOk result (table.new ≡ table.old ++ declared.now.name ∷ []) }
    ensures text { IsName declared.now.name }
{
    let name = declared.name;
    prove!(!name.text().is_empty());
    if let Some(_) = table.find(name) {
        return Err(refused(Rule::W1, declared.at, Detail::One(name)));
    }
    table.add(name)?;
    Ok(())
}
