//! The resolver of names: the program of a text, by the ids of its declarations; and then the rules of names and of classes.
//!
//! - [`resolve`]: the program of a text, in which each name is the id of its declaration (W1, W2).
//! - [`renumber_cert`]: other numbers for the variables of a certificate ([`Renumbering`]), as for a text in which names have numbers.
//! - [`check_policy`]: each control is itself declared low (W3).
//! - [`class_of`], [`controls`], [`is_control`]: the class of a variable, whether it depends on another, and whether some class depends on a variable.
#![tactic(auto)]

mod certs;
mod exprs;
mod ids;
mod names;
mod policy;
mod programs;
mod renumbering;
mod resolution;
mod uses;

pub use policy::{check_policy, class_of, controls, is_control};
pub use renumbering::{Renumbering, renumber_cert};
pub use resolution::resolve;
