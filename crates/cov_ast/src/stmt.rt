//! Statements with their places and the proofs of their entailments.

use crate::cert::Proof;
use crate::state::State;
use cov_expr::{Expr, List};

/// A statement with the byte offset of its first token and the proofs of its entailments.
#[cycle(stmt)]
pub struct Stmt {
    pub at: u32,
    pub kind: StmtKind,
    pub proofs: List<Proof>,
}

impl Drop for Stmt {
    #[cycle(stmt)]
    fn drop(self) {
        let Stmt {
            at: _,
            kind,
            proofs,
        } = self;
        drop(kind);
        drop(proofs);
    }
}

/// What a statement does. A variable and a lock are named by number.
#[cycle(stmt)]
pub enum StmtKind {
    /// Nothing, in one step.
    Skip,
    /// The value of the expression is stored. The type of the value is written, or left to its variables; where a
    /// control is assigned, tracked variables may be given new types.
    Assign(u32, Expr, Option<Expr>, List<Retype>),
    /// The lock is taken, once it is free.
    Lock(u32),
    /// The lock is freed.
    Unlock(u32),
    /// The first block where the guard isn't 0, else the second; then what the state says.
    If(Expr, List<Stmt>, List<Stmt>, State),
    /// The block as long as the guard isn't 0; before each turn the state holds.
    While(Expr, State, List<Stmt>),
    /// A fact about this place. It takes no step.
    Note(State),
    /// The value of the expression is put at the end of the public output.
    Output(Expr),
}

impl Drop for StmtKind {
    #[cycle(stmt)]
    fn drop(self) {
        match self {
            StmtKind::Skip | StmtKind::Lock(_) | StmtKind::Unlock(_) => {}
            StmtKind::Assign(_, e, class, retypes) => {
                drop(e);
                drop(class);
                drop(retypes);
            }
            StmtKind::If(e, yes, no, join) => {
                drop(e);
                drop(yes);
                drop(no);
                drop(join);
            }
            StmtKind::While(e, inv, body) => {
                drop(e);
                drop(inv);
                drop(body);
            }
            StmtKind::Note(state) => drop(state),
            StmtKind::Output(e) => drop(e),
        }
    }
}

/// A new type of a tracked variable, given where a control is assigned.
pub struct Retype {
    pub var: u32,
    pub class: Expr,
}

impl Drop for Retype {
    fn drop(self) {
        let Retype { var: _, class } = self;
        drop(class);
    }
}
