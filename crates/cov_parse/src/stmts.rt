//! Statements as callers get them, without the places of their braces.

ghost use Rattle.std.specs.Prelude.{◌≡◌, [], ◌∷◌, ◌++◌, map, option_map, IfOk, OnOk};
ghost use Rattle.cov_ast.specs.Syntax as syntax;
ghost use Rattle.cov_ast.specs.View as ast;
ghost use Rattle.cov_grammar.specs.PlacedTrees.{stms};
ghost use Rattle.cov_text.specs.GivenTrees as spec;
ghost use Rattle.cov_read.specs.CertViews as certs;
ghost use Rattle.cov_read.specs.StateViews as states;
ghost use Rattle.cov_read.specs.StmtViews as stmts;

use crate::annotations::{proofs_of, retyped_of, state_of, stated_of};
use crate::exprs::{expr_of, option_of};
use crate::turned::turned;
use cov_ast::{Stmt, StmtKind};
use cov_expr::{List, NoMemory};
use cov_read::{PlacedProof, PlacedState, PlacedStmt, PlacedStmtKind, Typed, Whole};
use std::alloc::Global;

/// Statements without the places of their braces.
#[cycle(made)]
pub fn stmts_of(alloc: Global, body: List<PlacedStmt>) -> Result<List<Stmt>, NoMemory>
    ensures { IfOk result (λ made. ast.block made ≡ spec.stms_of (stms (map stmts.stmt body))) }
{
    let mut rest = turned(body);
    let mut made = List::with_capacity(alloc, rest.len())?;
    while let Some(stmt) = rest.pop() {
        add_stmt(alloc, stmt, &mut made)?;
    }
    Ok(made)
}

#[cycle(made)]
fn add_stmt(alloc: Global, stmt: PlacedStmt, made: &mut List<Stmt>) -> Result<(), NoMemory>
    ensures { OnOk result (map ast.stmt made.new ≡ map ast.stmt made.old ++ spec.stmt_of (stmts.stmt stmt) ∷ []) }
{
    let stmt = stmt_of(alloc, stmt)?;
    made.push(stmt)
}

/// A statement, with its proofs.
#[cycle(made)]
fn stmt_of(alloc: Global, stmt: PlacedStmt) -> Result<Stmt, NoMemory>
    ensures { IfOk result (λ made. ast.stmt made ≡ spec.stmt_of (stmts.stmt stmt)) }
{
    let PlacedStmt { at, kind } = stmt;
    match kind {
        PlacedStmtKind::Skip => Ok(unproved(alloc, at, StmtKind::Skip)),
        PlacedStmtKind::Lock(lock) => Ok(unproved(alloc, at, StmtKind::Lock(lock))),
        PlacedStmtKind::Unlock(lock, proofs) => unlock_of(alloc, at, lock, proofs),
        PlacedStmtKind::Output(e, proofs) => output_of(alloc, at, e, proofs),
        PlacedStmtKind::Note(state, proofs) => note_of(alloc, at, state, proofs),
        PlacedStmtKind::Assign(x, e, class, retypes, proofs) => {
            assign_of(alloc, at, x, e, class, retypes, proofs)
        }
        PlacedStmtKind::If(e, _, first, _, second, join, proofs) => {
            if_of(alloc, at, e, first, second, join, proofs)
        }
        PlacedStmtKind::While(e, inv, _, body, proofs) => {
            while_of(alloc, at, e, inv, body, proofs)
        }
    }
}

/// A statement without proofs.
fn unproved(alloc: Global, at: u32, kind: StmtKind) -> Stmt
    ensures { ast.stmt result ≡ record { at = at; stm = ast.kind kind; proofs = [] } }
{
    Stmt {
        at,
        kind,
        proofs: List::new(alloc),
    }
}

fn unlock_of(alloc: Global, at: u32, lock: u32, proofs: List<PlacedProof>) -> Result<Stmt, NoMemory>
    ensures { IfOk result (λ made. ast.stmt made ≡ record { at = at; stm = syntax.unlock lock; proofs = map spec.proof_of (map states.proof proofs) }) }
{
    let proofs = proofs_of(alloc, proofs)?;
    let kind = StmtKind::Unlock(lock);
    Ok(Stmt { at, kind, proofs })
}

fn output_of(alloc: Global, at: u32, e: Whole, proofs: List<PlacedProof>) -> Result<Stmt, NoMemory>
    ensures { IfOk result (λ made. ast.stmt made ≡ record { at = at; stm = syntax.output (spec.expr_of (certs.whole e)); proofs = map spec.proof_of (map states.proof proofs) }) }
{
    let proofs = proofs_of(alloc, proofs)?;
    let kind = StmtKind::Output(expr_of(e));
    Ok(Stmt { at, kind, proofs })
}

fn note_of(
    alloc: Global,
    at: u32,
    state: PlacedState,
    proofs: List<PlacedProof>,
) -> Result<Stmt, NoMemory>
    ensures { IfOk result (λ made. ast.stmt made ≡ record { at = at; stm = syntax.note (spec.state_of (states.state state)); proofs = map spec.proof_of (map states.proof proofs) }) }
{
    let state = state_of(alloc, state)?;
    let proofs = proofs_of(alloc, proofs)?;
    let kind = StmtKind::Note(state);
    Ok(Stmt { at, kind, proofs })
}

fn assign_of(
    alloc: Global,
    at: u32,
    x: u32,
    e: Whole,
    class: Option<Whole>,
    retypes: List<Typed>,
    proofs: List<PlacedProof>,
) -> Result<Stmt, NoMemory>
    ensures { IfOk result (λ made. ast.stmt made ≡ record { at = at; stm = syntax.assign x (spec.expr_of (certs.whole e)) (option_map spec.expr_of (option_map certs.whole class)) (map spec.pair_of (map states.typed retypes)); proofs = map spec.proof_of (map states.proof proofs) }) }
{
    let (retypes, proofs) = retyped_of(alloc, retypes, proofs)?;
    let kind = StmtKind::Assign(x, expr_of(e), option_of(class), retypes);
    Ok(Stmt { at, kind, proofs })
}

/// An `if`.
#[cycle(made)]
fn if_of(
    alloc: Global,
    at: u32,
    e: Whole,
    first: List<PlacedStmt>,
    second: List<PlacedStmt>,
    join: Option<Box<PlacedState>>,
    proofs: List<PlacedProof>,
) -> Result<Stmt, NoMemory>
    ensures { IfOk result (λ made. ast.stmt made ≡ record { at = at; stm = syntax.branch (spec.expr_of (certs.whole e)) (spec.stms_of (stms (map stmts.stmt first))) (spec.stms_of (stms (map stmts.stmt second))) (spec.state_or_none (option_map (λ j. states.state j.value) join)); proofs = map spec.proof_of (map states.proof proofs) }) }
{
    let (join, proofs) = stated_of(alloc, join, proofs)?;
    let (first, second) = blocks_of(alloc, first, second)?;
    let kind = StmtKind::If(expr_of(e), first, second, join);
    Ok(Stmt { at, kind, proofs })
}

/// The two blocks of an `if`.
#[cycle(made)]
fn blocks_of(
    alloc: Global,
    first: List<PlacedStmt>,
    second: List<PlacedStmt>,
) -> Result<(List<Stmt>, List<Stmt>), NoMemory>
    ensures first { IfOk result (λ made. ast.block made.0 ≡ spec.stms_of (stms (map stmts.stmt first))) }
    ensures second { IfOk result (λ made. ast.block made.1 ≡ spec.stms_of (stms (map stmts.stmt second))) }
{
    let first = stmts_of(alloc, first)?;
    let second = stmts_of(alloc, second)?;
    Ok((first, second))
}

/// A loop.
#[cycle(made)]
fn while_of(
    alloc: Global,
    at: u32,
    e: Whole,
    inv: Option<Box<PlacedState>>,
    body: List<PlacedStmt>,
    proofs: List<PlacedProof>,
) -> Result<Stmt, NoMemory>
    ensures { IfOk result (λ made. ast.stmt made ≡ record { at = at; stm = syntax.loop (spec.expr_of (certs.whole e)) (spec.state_or_none (option_map (λ j. states.state j.value) inv)) (spec.stms_of (stms (map stmts.stmt body))); proofs = map spec.proof_of (map states.proof proofs) }) }
{
    let (inv, proofs) = stated_of(alloc, inv, proofs)?;
    let body = stmts_of(alloc, body)?;
    let kind = StmtKind::While(expr_of(e), inv, body);
    Ok(Stmt { at, kind, proofs })
}
