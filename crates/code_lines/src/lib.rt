//! The compiled code of a program beside its source, as text.
//!
//! - [`add_code_lines`]: of each thread its lines, each with its position, and above those of a statement the number of its line in the source and its
//!   first words.
//!
//! | `src/` | `specs/` | what it has |
//! |---|---|---|
//! | `walk` | `CodeShares` | which lines belong to which statement |
//! | `walk`, `rows`, `source`, `cursor` | `CodeLines` | the text |
//!
//! `specs/Inside.antt` has the words of private contracts.
#![tactic(auto)]

mod cursor;
mod laws;
mod rows;
mod source;
mod threads;
mod walk;

pub use laws::{compiled_lines_are_of_their_statements, each_line_is_told};
pub use threads::add_code_lines;
