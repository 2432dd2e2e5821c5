//! Copies of texts, as they are read.

ghost use Rattle.std.specs.Prelude.{◌≡◌, IfOk, map, option_map};
ghost use Rattle.cov_expr.specs.View.{term};
ghost use Rattle.cov_ast.specs.Syntax as by;
ghost use Rattle.cov_ast.specs.View as view;

use crate::certs::{copy_exprs, copy_proofs};
use cov_ast::{
    Parsed, Retype, State, Stmt, StmtKind, ThreadDecl, copy_locks, copy_modes, copy_option,
    copy_uses, copy_vars,
};
use cov_expr::{Expr, List, NoMemory, copy};
use std::alloc::Global;

/// An equal text.
pub fn copy_text(alloc: Global, text: &Parsed) -> Result<Parsed, NoMemory>
    ensures { IfOk result (λ made. view.parsed made ≡ view.parsed text.now) }
{
    let uses = copy_uses(alloc, text.uses.as_slice())?;
    let names = text.names.copy(alloc)?;
    let vars = copy_vars(alloc, text.vars.as_slice())?;
    let locks = copy_locks(alloc, text.locks.as_slice())?;
    let threads = copy_threads(alloc, text.threads.as_slice())?;
    Ok(Parsed {
        version: text.version,
        names,
        uses,
        vars,
        locks,
        threads,
    })
}

fn copy_threads(alloc: Global, threads: &[ThreadDecl]) -> Result<List<ThreadDecl>, NoMemory>
    ensures { IfOk result (λ copies. map view.thread copies ≡ map view.thread threads.now) }
{
    let mut copies = List::with_capacity(alloc, threads.len())?;
    for thread in threads {
        let copied = copy_thread(alloc, thread)?;
        copies.push(copied)?;
    }
    Ok(copies)
}

fn copy_thread(alloc: Global, thread: &ThreadDecl) -> Result<ThreadDecl, NoMemory>
    ensures { IfOk result (λ copied. view.thread copied ≡ view.thread thread.now) }
{
    Ok(ThreadDecl {
        name: thread.name,
        at: thread.at,
        modes: copy_modes(alloc, &thread.modes)?,
        body: copy_block(alloc, thread.body.as_slice())?,
        end: thread.end,
    })
}

#[cycle(blocks)]
fn copy_block(alloc: Global, body: &[Stmt]) -> Result<List<Stmt>, NoMemory>
    ensures { IfOk result (λ copies. map view.stmt copies ≡ map view.stmt body.now) }
{
    let mut copies = List::with_capacity(alloc, body.len())?;
    for stmt in body {
        let copied = copy_stmt(alloc, stmt)?;
        copies.push(copied)?;
    }
    Ok(copies)
}

#[cycle(blocks)]
fn copy_stmt(alloc: Global, stmt: &Stmt) -> Result<Stmt, NoMemory>
    ensures { IfOk result (λ copied. view.stmt copied ≡ view.stmt stmt.now) }
{
    let kind = copy_kind(alloc, &stmt.kind)?;
    let proofs = copy_proofs(alloc, stmt.proofs.as_slice())?;
    Ok(Stmt {
        at: stmt.at,
        kind,
        proofs,
    })
}

/// What an equal statement does.
#[cycle(blocks)]
pub fn copy_kind(alloc: Global, kind: &StmtKind) -> Result<StmtKind, NoMemory>
    ensures { IfOk result (λ copied. view.kind copied ≡ view.kind kind.now) }
{
    match kind {
        StmtKind::Skip => Ok(StmtKind::Skip),
        StmtKind::Assign(x, e, class, retypes) => {
            copy_assignment(alloc, *x, e, class, retypes.as_slice())
        }
        StmtKind::Lock(l) => Ok(StmtKind::Lock(*l)),
        StmtKind::Unlock(l) => Ok(StmtKind::Unlock(*l)),
        StmtKind::If(e, a, b, join) => {
            let yes = copy_block(alloc, a.as_slice())?;
            let no = copy_block(alloc, b.as_slice())?;
            copy_branch(alloc, e, yes, no, join)
        }
        StmtKind::While(e, inv, b) => {
            let turn = copy_block(alloc, b.as_slice())?;
            copy_loop(alloc, e, inv, turn)
        }
        StmtKind::Note(state) => Ok(StmtKind::Note(copy_state(alloc, state)?)),
        StmtKind::Output(e) => Ok(StmtKind::Output(copy(alloc, e)?)),
    }
}

fn copy_assignment(
    alloc: Global,
    x: u32,
    e: &Expr,
    class: &Option<Expr>,
    retypes: &[Retype],
) -> Result<StmtKind, NoMemory>
    ensures { IfOk result (λ copied. view.kind copied ≡ by.assign x (term e.now) (option_map term class.now) (map view.retype retypes.now)) }
{
    let value = copy(alloc, e)?;
    let class = copy_option(alloc, class)?;
    let retypes = copy_retypes(alloc, retypes)?;
    Ok(StmtKind::Assign(x, value, class, retypes))
}

/// A branch between copied blocks.
fn copy_branch(
    alloc: Global,
    e: &Expr,
    yes: List<Stmt>,
    no: List<Stmt>,
    join: &State,
) -> Result<StmtKind, NoMemory>
    ensures { IfOk result (λ copied. view.kind copied ≡ by.branch (term e.now) (view.block yes) (view.block no) (view.state join.now)) }
{
    let guard = copy(alloc, e)?;
    let join = copy_state(alloc, join)?;
    Ok(StmtKind::If(guard, yes, no, join))
}

/// A loop of a copied block.
fn copy_loop(alloc: Global, e: &Expr, inv: &State, turn: List<Stmt>) -> Result<StmtKind, NoMemory>
    ensures { IfOk result (λ copied. view.kind copied ≡ by.loop (term e.now) (view.state inv.now) (view.block turn)) }
{
    let guard = copy(alloc, e)?;
    let inv = copy_state(alloc, inv)?;
    Ok(StmtKind::While(guard, inv, turn))
}

fn copy_state(alloc: Global, state: &State) -> Result<State, NoMemory>
    ensures { IfOk result (λ copied. view.state copied ≡ view.state state.now) }
{
    let preds = copy_exprs(alloc, state.preds.as_slice())?;
    let types = copy_types(alloc, state.types.as_slice())?;
    Ok(State { preds, types })
}

fn copy_types(alloc: Global, types: &[(u32, Expr)]) -> Result<List<(u32, Expr)>, NoMemory>
    ensures { IfOk result (λ copies. map view.typed copies ≡ map view.typed types.now) }
{
    let mut copies = List::with_capacity(alloc, types.len())?;
    for typed in types {
        let class = copy(alloc, &typed.1)?;
        copies.push((typed.0, class))?;
    }
    Ok(copies)
}

fn copy_retypes(alloc: Global, retypes: &[Retype]) -> Result<List<Retype>, NoMemory>
    ensures { IfOk result (λ copies. map view.retype copies ≡ map view.retype retypes.now) }
{
    let mut copies = List::with_capacity(alloc, retypes.len())?;
    for retype in retypes {
        let class = copy(alloc, &retype.class)?;
        copies.push(Retype {
            var: retype.var,
            class,
        })?;
    }
    Ok(copies)
}
