//! Programs without their annotations: neither notes, states nor proofs, of which the semantics speaks.

ghost use Rattle.std.specs.Prelude.{◌≡◌, [], IfOk, None, OnOk, Some, map, option_map};
ghost use Rattle.cov_expr.specs.View.{term};
ghost use Rattle.cov_ast.specs.Plain as spec;
ghost use Rattle.cov_ast.specs.Syntax as syntax;
ghost use Rattle.cov_ast.specs.View as view;
ghost use Rattle.cov_ast.specs.View.{onto};
ghost use Rattle.cov_ast.specs.WellFormed.{IsWellFormed};

use crate::copies::{copy_locks, copy_modes, copy_vars};
use crate::decl::{Program, ThreadDecl};
use crate::state::State;
use crate::stmt::{Stmt, StmtKind};
use cov_expr::{Expr, List, NoMemory, copy};
use std::alloc::Global;

/// The plain program: the same declarations and statements, at the same places, without types, states, proofs and
/// notes. It is what a program does; the rest says why it may. Its version is that of the program, and it is well formed
/// where the program is.
pub fn plain(alloc: Global, program: &Program) -> Result<Program, NoMemory>
    ensures bare { IfOk result (λ made. view.program made ≡ spec.bare (view.program program.now)) }
    ensures formed { IsWellFormed (view.program program.now) → IfOk result (λ made. IsWellFormed (view.program made)) }
{
    let vars = copy_vars(alloc, program.vars.as_slice())?;
    let locks = copy_locks(alloc, program.locks.as_slice())?;
    let threads = plain_threads(alloc, program.threads.as_slice())?;
    Ok(Program {
        version: program.version,
        vars,
        locks,
        threads,
    })
}

fn plain_threads(alloc: Global, threads: &[ThreadDecl]) -> Result<List<ThreadDecl>, NoMemory>
    ensures { IfOk result (λ bare. map view.thread bare ≡ map spec.bare_thread (map view.thread threads.now)) }
{
    let mut bare = List::new(alloc);
    for thread in threads {
        let next = plain_thread(alloc, thread)?;
        bare.push(next)?;
    }
    Ok(bare)
}

fn plain_thread(alloc: Global, thread: &ThreadDecl) -> Result<ThreadDecl, NoMemory>
    ensures { IfOk result (λ bare. view.thread bare ≡ spec.bare_thread (view.thread thread.now)) }
{
    Ok(ThreadDecl {
        name: thread.name,
        at: thread.at,
        modes: copy_modes(alloc, &thread.modes)?,
        body: plain_block(alloc, thread.body.as_slice())?,
        end: thread.end,
    })
}

#[cycle(blocks)]
fn plain_block(alloc: Global, body: &[Stmt]) -> Result<List<Stmt>, NoMemory>
    ensures { IfOk result (λ bare. view.block bare ≡ spec.bare_block (view.block body.now)) }
{
    let mut bare = List::new(alloc);
    for stmt in body {
        let kind = plain_kind(alloc, &stmt.kind)?;
        add(alloc, &mut bare, stmt.at, kind)?;
    }
    Ok(bare)
}

/// Adds a statement, if there is one.
#[tactic(auto, using(crate::proofs::Blocks::onto_append))]
fn add(
    alloc: Global,
    body: &mut List<Stmt>,
    at: u32,
    kind: Option<StmtKind>,
) -> Result<(), NoMemory>
    ensures { OnOk result ((rest : syntax.Block) →
        onto (map view.stmt body.new) rest ≡ onto (map view.stmt body.old) (spec.with_statement at (option_map view.kind kind) rest)) }
{
    if let Some(kind) = kind {
        let stmt = unproved(alloc, at, kind);
        body.push(stmt)?;
    }
    Ok(())
}

/// A statement without proofs.
fn unproved(alloc: Global, at: u32, kind: StmtKind) -> Stmt
    ensures { view.stmt result ≡ record { at = at; stm = view.kind kind; proofs = [] } }
{
    Stmt {
        at,
        kind,
        proofs: List::new(alloc),
    }
}

/// A statement without annotations; a note is nothing.
#[cycle(blocks)]
fn plain_kind(alloc: Global, kind: &StmtKind) -> Result<Option<StmtKind>, NoMemory>
    ensures { IfOk result (λ bare. option_map view.kind bare ≡ spec.bare_kind (view.kind kind.now)) }
{
    match kind {
        StmtKind::Skip => Ok(Some(StmtKind::Skip)),
        StmtKind::Assign(x, e, _, _) => assigned(alloc, *x, e),
        StmtKind::Lock(l) => Ok(Some(StmtKind::Lock(*l))),
        StmtKind::Unlock(l) => Ok(Some(StmtKind::Unlock(*l))),
        StmtKind::If(e, a, b, _) => {
            let yes = plain_block(alloc, a.as_slice())?;
            branched(alloc, e, yes, plain_block(alloc, b.as_slice())?)
        }
        StmtKind::While(e, _, b) => looped(alloc, e, plain_block(alloc, b.as_slice())?),
        StmtKind::Note(_) => Ok(None),
        StmtKind::Output(e) => Ok(Some(StmtKind::Output(copy(alloc, e)?))),
    }
}

/// An assignment, which gives the variable no type and changes none.
fn assigned(alloc: Global, x: u32, e: &Expr) -> Result<Option<StmtKind>, NoMemory>
    ensures { IfOk result (λ bare. option_map view.kind bare ≡ Some (syntax.assign x (term e.now) None [])) }
{
    let value = copy(alloc, e)?;
    Ok(Some(StmtKind::Assign(x, value, None, List::new(alloc))))
}

/// A branch on a guard between two blocks, without a state behind it.
fn branched(
    alloc: Global,
    e: &Expr,
    yes: List<Stmt>,
    no: List<Stmt>,
) -> Result<Option<StmtKind>, NoMemory>
    ensures { IfOk result (λ bare. option_map view.kind bare
        ≡ Some (syntax.branch (term e.now) (view.block yes) (view.block no) spec.no_state)) }
{
    Ok(Some(StmtKind::If(copy(alloc, e)?, yes, no, no_state(alloc))))
}

/// A loop of a block, without a state at its head.
fn looped(alloc: Global, e: &Expr, turn: List<Stmt>) -> Result<Option<StmtKind>, NoMemory>
    ensures { IfOk result (λ bare. option_map view.kind bare ≡ Some (syntax.loop (term e.now) spec.no_state (view.block turn))) }
{
    Ok(Some(StmtKind::While(copy(alloc, e)?, no_state(alloc), turn)))
}

fn no_state(alloc: Global) -> State
    ensures { view.state result ≡ spec.no_state }
{
    State {
        preds: List::new(alloc),
        types: List::new(alloc),
    }
}

/// A law: what is without annotations does the same.
#[tactic(auto, using(crate::proofs::PlainLaws::plain_bare))]
pub fn annotations_do_nothing()
    ensures { (p : syntax.Program) → spec.plain (spec.bare p) ≡ spec.plain p }
{}
