//! The way to a statement of a thread's text: what is passed and entered on it, which locks the thread holds there, and what they make
//! of the variables.
//!
//! - [`way_to`]: the steps to the statement at a place ([`Step`], [`Way`]).
//! - [`add_to_first_end`], [`add_to_second_end`], [`add_to_head`], [`add_to_body_end`]: the steps from a statement with blocks to their
//!   ends, behind those to the statement.
//! - [`modes_along`]: the modes of a thread behind steps of its text, with the locks that it holds there.
//! - [`follow_step`], [`pass_block`]: the same behind a step, or the statements of a block, more.
//! - [`stable_set`], [`hidden_set`]: the variables that no other thread writes, or reads either, by the modes.
//! - [`stable_after_steps`], [`hidden_after_steps`]: the same behind steps of its text.
//! - [`held_locks_are_those_of_points`] has no body: its contract is a law, that the rules of types go by the same locks.
//!
//! `specs/Paths.antt` has ways as plain data, and says which one leads to a place; `specs/LocksHeld.antt` says which locks are held, and
//! `specs/VariableSets.antt` which variables these are.
#![tactic(auto)]

mod ends;
mod find;
mod laws;
mod variable_sets;
mod walk;
mod way;

pub use ends::{add_to_body_end, add_to_first_end, add_to_head, add_to_second_end};
pub use find::way_to;
pub use laws::held_locks_are_those_of_points;
pub use variable_sets::{hidden_after_steps, hidden_set, stable_after_steps, stable_set};
pub use walk::{follow_step, modes_along, pass_block};
pub use way::{Step, Way};
