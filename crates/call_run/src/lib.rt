//! The commands that run a program: `run` and `run-until` once, `pair` twice, side by side, and `refute` so for each of many trials.
//!
//! What is replied stands in `specs/Runs`, `specs/Pairs` and `specs/Refutes`. `specs/Inside` has the words of private contracts, which no promise cites.
#![tactic(auto)]

pub mod pair;
pub mod run;
pub mod run_until;
pub mod trials;
