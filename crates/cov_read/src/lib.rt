//! Tokens as trees with places.
//!
//! - [`read_program`]: the tree of a program at the front of tokens; [`read_whole`]: that of an expression with its place. Each
//!   reader answers what reading by the grammar gives, and stands in front of what that leaves. `specs/*Views.antt` says which
//!   tree of the grammar each of its trees is.
//!
//! `specs/Templates.antt` says which rule an expression is read by. `specs/Inside` has words of private contracts, which no promise cites.
#![tactic(auto)]

mod cert;
mod certs;
mod decl;
mod decls;
mod expressions;
mod level;
mod measures;
mod state;
mod states;
mod stmt;
mod stmts;
mod written;

pub use cert::{PlacedCert, Whole};
pub use certs::read_whole;
pub use decl::{ClassDecl, Pair, PlacedLock, PlacedProgram, PlacedThread, PlacedVariable};
pub use decls::read_program;
pub use measures::HEIGHT;
pub use state::{PlacedProof, PlacedState, Typed};
pub use stmt::{Braces, PlacedStmt, PlacedStmtKind};
