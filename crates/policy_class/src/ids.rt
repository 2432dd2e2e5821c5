//! The ids that the names of a text stand for, by the number of the name.

ghost use Rattle.std.specs.Prelude.{◌≡◌, ◌<◌, length, IfOk};
ghost use Rattle.std.specs.List.{position_or_len};
ghost use Rattle.std.specs.Str.{bytes_eq};
ghost use Rattle.cov_ast.specs.View as view;
ghost use Rattle.cov_ast.specs.NameTables as names;
ghost use Rattle.cov_ast.specs.Ready.{IsReady};
ghost use Rattle.policy_class.specs.Resolved as spec;
ghost use Rattle.policy_class.specs.Inside.DeclaredNames.{IsTableOf};
ghost use Rattle.policy_class.specs.Inside.Ids.{AreIdsOf, has_id, var_in, lock_in};

use cov_ast::{NameTable, NameUse, Parsed};
use cov_expr::{List, Name, NoMemory};
use std::alloc::Global;

/// What the names of a text declare, by the number of the name: the id of the variable, and the id of the lock. Where none is
/// declared, that is their count.
#[derive(Drop)]
pub struct Ids {
    pub vars: List<u32>,
    pub locks: List<u32>,
    pub var_count: u32,
    pub lock_count: u32,
}

impl Ids {
    /// The id of a variable.
    pub fn var(&self, name: u32) -> u32
        ensures { result ≡ var_in self.now name }
    {
        match self.vars.as_slice().get(name as usize) {
            Some(id) => *id,
            None => self.var_count,
        }
    }

    /// The id of a lock.
    pub fn lock(&self, name: u32) -> u32
        ensures { result ≡ lock_in self.now name }
    {
        match self.locks.as_slice().get(name as usize) {
            Some(id) => *id,
            None => self.lock_count,
        }
    }

    /// Whether a name is declared as what it is used.
    pub fn has(&self, used: &NameUse) -> bool
        ensures { result ≡ has_id self.now used.now }
    {
        if used.lock {
            self.lock(used.name) < self.lock_count
        } else {
            self.var(used.name) < self.var_count
        }
    }
}

/// The ids of the names of a text, in which each declared name stands once.
pub fn ids_of(alloc: Global, p: &Parsed, declared: &NameTable) -> Result<Ids, NoMemory>
    requires ready { IsReady (view.parsed p.now) }
    requires table { IsTableOf (view.parsed p.now) declared.now }
    ensures ids { IfOk result (AreIdsOf (view.parsed p.now)) }
    ensures few { length p.now.names < 4294967296 }
{
    let mut vars = List::new(alloc);
    let mut locks = List::new(alloc);
    for number in 0..p.names.len() {
        let name = p.names.name(number);
        vars.push(var_id(p, declared, name))?;
        locks.push(lock_id(p, declared, name))?;
    }
    Ok(Ids {
        vars,
        locks,
        var_count: p.vars.len() as u32,
        lock_count: p.locks.len() as u32,
    })
}

/// The number of a name among the declared ones, or behind the last where it isn't there.
fn number_of(declared: &NameTable, name: Name) -> usize
    ensures { result ≡ names.number_of declared.now name }
{
    match declared.find(name) {
        Some(number) => number as usize,
        None => declared.len() as usize,
    }
}

/// The id of the variable of a name.
fn var_id(p: &Parsed, declared: &NameTable, name: Name) -> u32
    requires ready { IsReady (view.parsed p.now) }
    requires table { IsTableOf (view.parsed p.now) declared.now }
    ensures { result ≡ position_or_len (bytes_eq name) (spec.var_names (view.parsed p.now)) }
{
    let number = number_of(declared, name);
    let count = p.vars.len();
    if number < count {
        number as u32
    } else {
        count as u32
    }
}

/// The id of the lock of a name. The declared names have the locks behind the variables.
fn lock_id(p: &Parsed, declared: &NameTable, name: Name) -> u32
    requires ready { IsReady (view.parsed p.now) }
    requires table { IsTableOf (view.parsed p.now) declared.now }
    ensures { result ≡ position_or_len (bytes_eq name) (spec.lock_names (view.parsed p.now)) }
{
    let number = number_of(declared, name);
    let first = p.vars.len();
    let count = p.locks.len();
    if number < first {
        return count as u32;
    }
    let id = number - first;
    if id < count { id as u32 } else { count as u32 }
}
