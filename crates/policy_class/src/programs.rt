//! Programs with ids in the place of the numbers of names: statements, declarations and threads.

ghost use Rattle.std.specs.Prelude.{◌≡◌, map, All};
ghost use Rattle.cov_expr.specs.Words.{HasWords};
ghost use Rattle.cov_ast.specs.View as view;
ghost use Rattle.cov_ast.specs.Plain.{class_term};
ghost use Rattle.cov_ast.specs.Declarations.{invariant_term};
ghost use Rattle.cov_ast.specs.WellFormed.{AreOfWords, BlockHasWords, StmHasWords};
ghost use Rattle.cov_ast.specs.Syntax as syntax;
ghost use Rattle.policy_class.specs.Resolved as spec;
ghost use Rattle.policy_class.specs.Inside.Ids.{AreIdsOf, var_in, lock_in};
ghost use Rattle.policy_class.specs.Inside.Statements.{StmtHasWords, resolved_stmt};

use crate::certs::resolve_proofs;
use crate::exprs::{resolve_expr, resolve_option, resolve_retypes, resolve_state, resolved_var};
use crate::ids::Ids;
use cov_ast::{Class, LockDecl, Modes, Parsed, Program, Stmt, StmtKind, ThreadDecl, VarDecl};

#[cycle(blocks)]
fn resolve_block(ids: &Ids, body: &mut [Stmt])
    ensures resolved { view.block body.new ≡ spec.resolved_block (var_in ids.now) (lock_in ids.now) (view.block body.old) }
    ensures words { BlockHasWords (view.block body.new) }
{
    for i in 0..body.len() {
        resolve_stmt(ids, &mut body[i]);
    }
}

#[cycle(blocks)]
fn resolve_stmt(ids: &Ids, stmt: &mut Stmt)
    ensures resolved { view.stmt stmt.new ≡ resolved_stmt (var_in ids.now) (lock_in ids.now) (view.stmt stmt.old) }
    ensures words { StmtHasWords (view.stmt stmt.new) }
{
    resolve_kind(ids, &mut stmt.kind);
    resolve_proofs(ids, stmt.proofs.as_mut_slice());
}

#[cycle(blocks)]
fn resolve_kind(ids: &Ids, kind: &mut StmtKind)
    ensures resolved { view.kind kind.new ≡ spec.resolved_stm (var_in ids.now) (lock_in ids.now) (view.kind kind.old) }
    ensures words { StmHasWords (view.kind kind.new) }
{
    match kind {
        StmtKind::Skip => {}
        StmtKind::Assign(x, e, ty, retypes) => {
            *x = resolved_var(ids, *x);
            resolve_expr(ids, e);
            resolve_option(ids, ty);
            resolve_retypes(ids, retypes.as_mut_slice());
        }
        StmtKind::Lock(lock) => *lock = ids.lock(*lock),
        StmtKind::Unlock(lock) => *lock = ids.lock(*lock),
        StmtKind::If(e, first, second, join) => {
            resolve_expr(ids, e);
            resolve_block(ids, first.as_mut_slice());
            resolve_block(ids, second.as_mut_slice());
            resolve_state(ids, join);
        }
        StmtKind::While(e, inv, body) => {
            resolve_expr(ids, e);
            resolve_state(ids, inv);
            resolve_block(ids, body.as_mut_slice());
        }
        StmtKind::Note(state) => resolve_state(ids, state),
        StmtKind::Output(e) => resolve_expr(ids, e),
    }
}

fn resolve_class(ids: &Ids, class: &mut Class)
    ensures resolved { view.class class.new ≡ spec.resolved_class (var_in ids.now) (lock_in ids.now) (view.class class.old) }
    ensures words { HasWords (class_term (view.class class.new)) }
{
    if let Class::When(e) = class {
        resolve_expr(ids, e);
    }
}

fn resolve_vars(ids: &Ids, vars: &mut [VarDecl])
    ensures resolved { map view.var vars.new ≡ map (spec.resolved_variable (var_in ids.now) (lock_in ids.now)) (map view.var vars.old) }
    ensures words { All (λ (v : syntax.Var). HasWords (class_term v.class)) (map view.var vars.new) }
{
    for var in vars.iter_mut() {
        resolve_class(ids, &mut var.class);
    }
}

/// Ids of variables in a list.
fn resolve_list(ids: &Ids, xs: &mut [u32])
    ensures { xs.new ≡ map (spec.resolved_var (var_in ids.now) (lock_in ids.now)) xs.old }
{
    for x in xs.iter_mut() {
        *x = resolved_var(ids, *x);
    }
}

fn resolve_locks(ids: &Ids, locks: &mut [LockDecl])
    ensures resolved { map view.lock locks.new ≡ map (spec.resolved_lock (var_in ids.now) (lock_in ids.now)) (map view.lock locks.old) }
    ensures words { All (λ (l : syntax.Lock). HasWords (invariant_term l.inv)) (map view.lock locks.new) }
{
    for lock in locks.iter_mut() {
        resolve_lock(ids, lock);
    }
}

fn resolve_lock(ids: &Ids, lock: &mut LockDecl)
    ensures resolved { view.lock lock.new ≡ spec.resolved_lock (var_in ids.now) (lock_in ids.now) (view.lock lock.old) }
    ensures words { HasWords (invariant_term (view.lock lock.new).inv) }
{
    resolve_list(ids, lock.nowrite.as_mut_slice());
    resolve_list(ids, lock.hide.as_mut_slice());
    resolve_option(ids, &mut lock.inv);
}

fn resolve_modes(ids: &Ids, modes: &mut Modes)
    ensures { view.modes modes.new ≡ spec.resolved_modes (var_in ids.now) (lock_in ids.now) (view.modes modes.old) }
{
    resolve_list(ids, modes.assume_nowrite.as_mut_slice());
    resolve_list(ids, modes.assume_hide.as_mut_slice());
    resolve_list(ids, modes.guarantee_nowrite.as_mut_slice());
    resolve_list(ids, modes.guarantee_hide.as_mut_slice());
}

fn resolve_threads(ids: &Ids, threads: &mut [ThreadDecl])
    ensures resolved { map view.thread threads.new ≡ map (spec.resolved_thread (var_in ids.now) (lock_in ids.now)) (map view.thread threads.old) }
    ensures words { All (λ (t : syntax.Thread). BlockHasWords t.body) (map view.thread threads.new) }
{
    for thread in threads.iter_mut() {
        resolve_thread(ids, thread);
    }
}

fn resolve_thread(ids: &Ids, thread: &mut ThreadDecl)
    ensures resolved { view.thread thread.new ≡ spec.resolved_thread (var_in ids.now) (lock_in ids.now) (view.thread thread.old) }
    ensures words { BlockHasWords (view.block thread.new.body) }
{
    resolve_modes(ids, &mut thread.modes);
    resolve_block(ids, thread.body.as_mut_slice());
}

/// The program that a text stands for, by the ids of its names.
pub fn resolved_program(ids: &Ids, p: Parsed) -> Program
    requires { AreIdsOf (view.parsed p) ids.now }
    ensures resolved { view.program result ≡ spec.resolved (view.parsed p) }
    ensures words { AreOfWords (view.program result).vars (view.program result).locks (view.program result).threads }
{
    let (version, mut vars, mut locks, mut threads) = p.into_parts();
    resolve_vars(ids, vars.as_mut_slice());
    resolve_locks(ids, locks.as_mut_slice());
    resolve_threads(ids, threads.as_mut_slice());
    Program {
        version,
        vars,
        locks,
        threads,
    }
}
