//! Programs and their declarations as callers get them, made of what was read.

ghost use Rattle.std.specs.Prelude.{◌≡◌, [], ◌∷◌, ◌++◌, ◌<◌, length, map, All, IfOk, OnOk};
ghost use Rattle.cov_ast.specs.View as ast;
ghost use Rattle.cov_text.specs.Named.{AreNamed};
ghost use Rattle.cov_text.specs.GivenTrees as spec;
ghost use Rattle.cov_read.specs.DeclViews as decls;

use crate::exprs::{expr_of, option_of};
use crate::stmts::stmts_of;
use crate::turned::turned;
use cov_ast::{Class, LockDecl, Modes, NameTable, NameUse, Parsed, ThreadDecl, VarDecl};
use cov_expr::{List, Name, NoMemory};
use cov_read::{ClassDecl, Pair, PlacedLock, PlacedProgram, PlacedThread, PlacedVariable};
use std::alloc::Global;

/// The name of a number.
fn name_of(names: &NameTable, id: u32) -> Name
    requires { id < length names.now }
    ensures { result ≡ spec.name_of names.now id }
{
    names.name(id)
}

fn class_of(class: ClassDecl) -> Class
    ensures { ast.class result ≡ spec.class_of (decls.class class) }
{
    match class {
        ClassDecl::Low => Class::Low,
        ClassDecl::High => Class::High,
        ClassDecl::When(e) => Class::When(expr_of(e)),
    }
}

fn var_of(names: &NameTable, var: PlacedVariable) -> VarDecl
    requires { (decls.var var).name.0 < length names.now }
    ensures { ast.var result ≡ spec.var_of names.now (decls.var var) }
{
    VarDecl {
        name: name_of(names, var.name),
        at: var.at,
        class: class_of(var.class),
    }
}

fn vars_of(
    alloc: Global,
    names: &NameTable,
    vars: List<PlacedVariable>,
) -> Result<List<VarDecl>, NoMemory>
    requires { All (λ v. v.name.0 < length names.now) (map decls.var vars) }
    ensures { IfOk result (λ made. map ast.var made ≡ map (spec.var_of names.now) (map decls.var vars)) }
{
    let mut rest = turned(vars);
    let mut made = List::with_capacity(alloc, rest.len())?;
    while let Some(var) = rest.pop() {
        made.push(var_of(names, var))?;
    }
    Ok(made)
}

#[tactic(auto, using(crate::proofs::BlockLaws::numbers_same))]
fn lock_of(names: &NameTable, lock: PlacedLock) -> LockDecl
    requires { (decls.lock lock).name.0 < length names.now }
    ensures { ast.lock result ≡ spec.lock_of names.now (decls.lock lock) }
{
    LockDecl {
        name: name_of(names, lock.name),
        at: lock.at,
        nowrite: lock.nowrite,
        hide: lock.hide,
        inv: option_of(lock.inv),
    }
}

fn locks_of(
    alloc: Global,
    names: &NameTable,
    locks: List<PlacedLock>,
) -> Result<List<LockDecl>, NoMemory>
    requires { All (λ l. l.name.0 < length names.now) (map decls.lock locks) }
    ensures { IfOk result (λ made. map ast.lock made ≡ map (spec.lock_of names.now) (map decls.lock locks)) }
{
    let mut rest = turned(locks);
    let mut made = List::with_capacity(alloc, rest.len())?;
    while let Some(lock) = rest.pop() {
        made.push(lock_of(names, lock))?;
    }
    Ok(made)
}

fn modes_of(assumes: Pair, guarantees: Pair) -> Modes
    ensures { ast.modes result ≡ spec.modes_of (decls.modes assumes guarantees) }
{
    Modes {
        assume_nowrite: assumes.nowrite,
        assume_hide: assumes.hide,
        guarantee_nowrite: guarantees.nowrite,
        guarantee_hide: guarantees.hide,
    }
}

fn thread_of(alloc: Global, names: &NameTable, thread: PlacedThread) -> Result<ThreadDecl, NoMemory>
    requires { (decls.thread thread).name.0 < length names.now }
    ensures { IfOk result (λ made. ast.thread made ≡ spec.thread_of names.now (decls.thread thread)) }
{
    Ok(ThreadDecl {
        name: name_of(names, thread.name),
        at: thread.at,
        modes: modes_of(thread.assumes, thread.guarantees),
        body: stmts_of(alloc, thread.body)?,
        end: thread.braces.end,
    })
}

fn add_thread(
    alloc: Global,
    names: &NameTable,
    thread: PlacedThread,
    made: &mut List<ThreadDecl>,
) -> Result<(), NoMemory>
    requires { (decls.thread thread).name.0 < length names.now }
    ensures { OnOk result (map ast.thread made.new ≡ map ast.thread made.old ++ spec.thread_of names.now (decls.thread thread) ∷ []) }
{
    let thread = thread_of(alloc, names, thread)?;
    made.push(thread)
}

fn threads_of(
    alloc: Global,
    names: &NameTable,
    threads: List<PlacedThread>,
) -> Result<List<ThreadDecl>, NoMemory>
    requires { All (λ h. h.name.0 < length names.now) (map decls.thread threads) }
    ensures { IfOk result (λ made. map ast.thread made ≡ map (spec.thread_of names.now) (map decls.thread threads)) }
{
    let mut rest = turned(threads);
    let mut made = List::with_capacity(alloc, rest.len())?;
    while let Some(thread) = rest.pop() {
        add_thread(alloc, names, thread, &mut made)?;
    }
    Ok(made)
}

/// The declarations of a program as callers get them.
fn declarations_of(
    alloc: Global,
    names: &NameTable,
    vars: List<PlacedVariable>,
    locks: List<PlacedLock>,
    threads: List<PlacedThread>,
) -> Result<(List<VarDecl>, List<LockDecl>, List<ThreadDecl>), NoMemory>
    requires vars { All (λ v. v.name.0 < length names.now) (map decls.var vars) }
    requires locks { All (λ l. l.name.0 < length names.now) (map decls.lock locks) }
    requires threads { All (λ h. h.name.0 < length names.now) (map decls.thread threads) }
    ensures vars { IfOk result (λ made. map ast.var made.0 ≡ map (spec.var_of names.now) (map decls.var vars)) }
    ensures locks { IfOk result (λ made. map ast.lock made.1 ≡ map (spec.lock_of names.now) (map decls.lock locks)) }
    ensures threads { IfOk result (λ made. map ast.thread made.2 ≡ map (spec.thread_of names.now) (map decls.thread threads)) }
{
    let vars = vars_of(alloc, names, vars)?;
    let locks = locks_of(alloc, names, locks)?;
    let threads = threads_of(alloc, names, threads)?;
    Ok((vars, locks, threads))
}

/// The tree that callers get, of a program within its limits whose declarations are named by numbers of names. What was read
/// is moved into it.
pub fn parsed_of(
    alloc: Global,
    names: NameTable,
    uses: List<NameUse>,
    program: PlacedProgram,
) -> Result<Parsed, NoMemory>
    requires { AreNamed (length names) (decls.program program) }
    ensures { IfOk result (λ made. ast.parsed made ≡ spec.parsed_of names uses (decls.program program)) }
{
    let PlacedProgram {
        version,
        vars,
        locks,
        threads,
    } = program;
    let (vars, locks, threads) = declarations_of(alloc, &names, vars, locks, threads)?;
    Ok(Parsed {
        version,
        names,
        uses,
        vars,
        locks,
        threads,
    })
}
