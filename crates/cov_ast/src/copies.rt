//! Copies of declarations and of uses of names.

ghost use Rattle.std.specs.Prelude.{◌≡◌, IfOk, map, option_map};
ghost use Rattle.cov_expr.specs.View.{term};
ghost use Rattle.cov_ast.specs.View as view;

use crate::decl::{Class, LockDecl, Modes, VarDecl};
use crate::parsed::NameUse;
use cov_expr::{Expr, List, NoMemory, copy};
use std::alloc::Global;

/// Equal uses of names.
pub fn copy_uses(alloc: Global, uses: &[NameUse]) -> Result<List<NameUse>, NoMemory>
    ensures { IfOk result (λ copies. copies ≡ uses.now) }
{
    let mut copies = List::new(alloc);
    copies.extend_from_slice(uses)?;
    Ok(copies)
}

/// Equal variables.
pub fn copy_vars(alloc: Global, vars: &[VarDecl]) -> Result<List<VarDecl>, NoMemory>
    ensures { IfOk result (λ copies. map view.var copies ≡ map view.var vars.now) }
{
    let mut copies = List::new(alloc);
    for var in vars {
        copies.push(VarDecl {
            name: var.name,
            at: var.at,
            class: copy_class(alloc, &var.class)?,
        })?;
    }
    Ok(copies)
}

fn copy_class(alloc: Global, class: &Class) -> Result<Class, NoMemory>
    ensures { IfOk result (λ copied. view.class copied ≡ view.class class.now) }
{
    match class {
        Class::Low => Ok(Class::Low),
        Class::High => Ok(Class::High),
        Class::When(e) => Ok(Class::When(copy(alloc, e)?)),
    }
}

/// Equal locks.
pub fn copy_locks(alloc: Global, locks: &[LockDecl]) -> Result<List<LockDecl>, NoMemory>
    ensures { IfOk result (λ copies. map view.lock copies ≡ map view.lock locks.now) }
{
    let mut copies = List::new(alloc);
    for lock in locks {
        let copied = copy_lock(alloc, lock)?;
        copies.push(copied)?;
    }
    Ok(copies)
}

fn copy_lock(alloc: Global, lock: &LockDecl) -> Result<LockDecl, NoMemory>
    ensures { IfOk result (λ copied. view.lock copied ≡ view.lock lock.now) }
{
    Ok(LockDecl {
        name: lock.name,
        at: lock.at,
        nowrite: copy_numbers(alloc, &lock.nowrite)?,
        hide: copy_numbers(alloc, &lock.hide)?,
        inv: copy_option(alloc, &lock.inv)?,
    })
}

/// An equal expression, if there is one.
pub fn copy_option(alloc: Global, e: &Option<Expr>) -> Result<Option<Expr>, NoMemory>
    ensures { IfOk result (λ copied. option_map term copied ≡ option_map term e.now) }
{
    match e {
        Some(e) => Ok(Some(copy(alloc, e)?)),
        None => Ok(None),
    }
}

fn copy_numbers(alloc: Global, numbers: &List<u32>) -> Result<List<u32>, NoMemory>
    ensures { IfOk result (λ copies. copies ≡ numbers.now) }
{
    let mut copies = List::new(alloc);
    copies.extend_from_slice(numbers.as_slice())?;
    Ok(copies)
}

/// Equal modes.
pub fn copy_modes(alloc: Global, modes: &Modes) -> Result<Modes, NoMemory>
    ensures { IfOk result (λ copied. view.modes copied ≡ view.modes modes.now) }
{
    Ok(Modes {
        assume_nowrite: copy_numbers(alloc, &modes.assume_nowrite)?,
        assume_hide: copy_numbers(alloc, &modes.assume_hide)?,
        guarantee_nowrite: copy_numbers(alloc, &modes.guarantee_nowrite)?,
        guarantee_hide: copy_numbers(alloc, &modes.guarantee_hide)?,
    })
}
