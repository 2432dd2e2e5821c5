//! Counterexamples to entailments: memories in which all hypotheses hold and the goal doesn't.
//!
//! - [`counterexample`] searches for one, with a bound on its work, and gives it as [`Binding`]s of variables.
//! - [`nodes_left_by`]: how many of some nodes hypotheses and a goal leave.
//! - [`counterexamples_break`] has no body: its contract is a law, that what is found is a counterexample.
//!
//! `specs/Counterexamples.antt` says what a counterexample is, and `specs/Searching.antt` which of several comes: `specs/Free.antt` has the order in which
//! variables are bound, `specs/Candidates.antt` the values that are tried, and `specs/Known.antt` what bindings settle.
#![tactic(auto)]

mod binding;
mod candidates;
mod finder;
mod free;
mod known;
mod laws;
mod line;
mod search;

pub use binding::Binding;
pub use finder::{counterexample, nodes_left_by};
pub use laws::counterexamples_break;
