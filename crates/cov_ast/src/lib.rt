//! Programs as trees, and what a refusal of one says.
//!
//! - [`Program`]: declarations of variables, locks and threads; [`Stmt`]: a statement with its place and its proofs;
//!   [`State`]: what a join, a loop or a note states; [`Cert`]: a certificate of an entailment.
//! - [`NameTable`]: the names of a text, each with its number; [`Parsed`]: what a text spells.
//! - [`plain`]: the program without annotations.
//! - [`copy_vars`], [`copy_locks`], [`copy_modes`], [`copy_option`], [`copy_uses`]: equal parts of texts.
//! - [`Rule`], [`Detail`], [`Refusal`], [`CheckFault`]: why a program isn't accepted.
//!
//! Contracts see a tree as plain data: `specs/Syntax.antt` has that data, `specs/View.antt` the views, and
//! `specs/Plain.antt` the program without annotations, of which the semantics speaks.
#![tactic(auto)]

mod bare;
mod cert;
mod copies;
mod decl;
mod names;
mod parsed;
mod refusal;
mod sets;
mod state;
mod stmt;

pub use bare::{annotations_do_nothing, plain};
pub use cert::{Cert, Proof};
pub use copies::{copy_locks, copy_modes, copy_option, copy_uses, copy_vars};
pub use decl::{Class, LockDecl, Modes, Program, ThreadDecl, VarDecl};
pub use names::NameTable;
pub use parsed::{NameUse, Parsed};
pub use refusal::{CheckFault, Detail, Refusal, Rule, refused};
pub use sets::{NumberSet, first_outside};
pub use state::State;
pub use stmt::{Retype, Stmt, StmtKind};
