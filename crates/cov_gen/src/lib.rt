//! A program that is as long as is asked for, to try the checker, the compiler and the machines on.
//!
//! - [`big`]: the text of the program of so many rounds, at most `MOST_ROUNDS` of `cov_expr`. `specs/Big.antt` says which it is.
//! - [`SECRET`]: its one variable whose word an observer must not learn.
#![tactic(auto)]

mod text;

pub use text::{SECRET, big};
