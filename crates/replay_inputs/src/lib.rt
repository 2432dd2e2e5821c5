//! What replays take: a program, with starts and a schedule, read from their files one behind the other; and an expression among the words.
//!
//! | `src/` | `specs/` | what it has |
//! |---|---|---|
//! | `inputs` | `Inputs`, `Steps` | how files are read as starts and schedules; the readings that plans of replays are made of |
//! | `runs` | `InputViews` | what runs take |
//! | `expressions` | `Expressions` | how a word is read as an expression |
//!
//! `specs/Inside` has the words of private contracts, which no promise cites.
#![tactic(auto)]

mod expressions;
mod inputs;
mod runs;

pub use expressions::read_expression;
pub use inputs::{read_entries, read_pair, read_run};
pub use runs::{PairInput, RunInput};
