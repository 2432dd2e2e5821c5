//! The canonical spelling of a program.
//!
//! - [`print`]: one text for each tree. `specs/Spelling.antt` says which.
//! - [`add_expr`], [`add_cert`], [`add_front`]: how it spells an expression and a certificate, and the front of one (`specs/Fronts.antt`).
//! - [`second_version_is_read`] has no body: its contract is a law, of what is printed of a program in version 2.
#![tactic(auto)]

mod cert;
mod decl;
mod expr;
mod laws;
mod program;
mod state;
mod stmt;
mod text;

pub use cert::{add_cert, add_front};
pub use expr::add_expr;
pub use laws::second_version_is_read;
pub use program::print;
