//! Whether statements say something of a variable.

ghost use Rattle.std.specs.Prelude.{◌≡◌, option_map};
ghost use Rattle.cov_ast.specs.Plain.{plain};
ghost use Rattle.cov_ast.specs.View as view;
ghost use Rattle.cov_expr.specs.View.{term};
ghost use Rattle.statement_parts.specs.Parts as table;
ghost use Rattle.entail_losses.specs.About as spec;

use crate::unknown_variables::is_mentioned;
use cov_ast::{Program, State, Stmt, StmtKind};
use cov_expr::{Expr, mentions};
use statement_parts::{Store, parts_of};

/// Whether a statement says something of a variable: it stores to it, may give a predicate that mentions it, or takes a lock that it is under, also in its blocks.
/// Each statement of them is looked at once.
#[cycle(blocks)]
pub fn is_statement_about(p: &Program, x: u32, kind: &StmtKind) -> bool
    ensures { result ≡ spec.is_statement_about (plain (view.program p.now)) x (view.kind kind.now) }
{
    let parts = &parts_of(kind);
    let is_taken_about = match parts.taken {
        Some(l) => match p.locks.as_slice().get(l as usize) {
            Some(lock) => { lock.lists(x) || is_in(lock.inv.as_ref(), x) }
            None => false,
        },
        None => false,
    };
    if is_store_about(parts.store, x)
        || is_in(parts.guard, x)
        || is_taken_about
        || is_stated_about(parts.state, x)
    {
        return true;
    }
    match kind {
        StmtKind::If(_, a, b, _) => {
            is_block_about(p, x, a.as_slice()) || is_block_about(p, x, b.as_slice())
        }
        StmtKind::While(_, _, b) => is_block_about(p, x, b.as_slice()),
        _ => false,
    }
}

/// The same of the statements of a block.
#[cycle(blocks)]
fn is_block_about(p: &Program, x: u32, body: &[Stmt]) -> bool
    ensures { result ≡ spec.is_block_about (plain (view.program p.now)) x (view.block body.now) }
{
    for stmt in body {
        if is_statement_about(p, x, &stmt.kind) {
            return true;
        }
    }
    false
}

/// Whether a store is one to a variable, or of a value that mentions it.
fn is_store_about(store: Option<Store<'_>>, x: u32) -> bool
    ensures { result ≡ spec.is_store_about (option_map table.store_of store.entry) x }
{
    match store {
        Some(store) => store.variable == x || mentions(store.value, x),
        None => false,
    }
}

/// Whether an expression mentions a variable, if there is one.
fn is_in(e: Option<&Expr>, x: u32) -> bool
    ensures { result ≡ spec.is_in (option_map (λ e. term e.now) e.entry) x }
{
    match e {
        Some(e) => mentions(e, x),
        None => false,
    }
}

/// Whether a state lists a predicate that mentions a variable, if there is one.
fn is_stated_about(state: Option<&State>, x: u32) -> bool
    ensures { result ≡ spec.is_mentioned (table.preds_of (option_map (λ j. view.state j.now) state.entry)) x }
{
    match state {
        Some(state) => is_mentioned(state.preds.as_slice(), x),
        None => false,
    }
}
