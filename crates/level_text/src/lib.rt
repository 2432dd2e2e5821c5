//! Texts of levels, by which observers of a program are told apart: what such a text spells, its first fault, and the levels that it gives.
//!
//! What has to be believed is in `specs/`: `Lattice` has levels and classes over them as data; `TextTrees` and `TextGrammar` have what a
//! text is, by the expressions of `cov_grammar`; `TextFaults` has what may be wrong with one beside its grammar and its limits, and which levels it
//! gives; `LevelReads` has what is answered, and when two answers are alike. The first fault of the grammar is that of `cov_text`, which holds of
//! every grammar over the same tokens. `specs/Inside` has words of private contracts, which no promise cites.
//!
//! - [`Levels`], [`LevelClass`]: levels with classes of variables; at most [`MOST_LEVELS`].
//! - [`read_levels`]: the levels that a text gives for a program, or its first fault, a [`LevelFault`].
//! - [`one_reading`]: a law, without code of its own: all answers for a text are alike.
#![tactic(auto)]

mod answer;
mod fault;
mod faults;
mod given;
mod lattice;
mod laws;
mod markers;
mod places;
mod read;
mod reader;
mod repeats;
mod stands;
mod text;
mod variables;

pub use answer::read_levels;
pub use fault::LevelFault;
pub use lattice::{LevelClass, Levels, MOST_LEVELS};
pub use laws::one_reading;
