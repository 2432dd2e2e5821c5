//! Which register keeps which variable, while code is made.
//!
//! - [`Plan`]: the record of the eight registers. It tells which one already has the word of a variable, so that no load is
//!   needed, and which ones are free for the parts of an expression.
//! - [`width`]: how many registers an expression needs for its parts.
//!
//! Contracts see a plan as the list of `specs/Plan.antt`, and each call is the definition of the same name there. When a record
//! is true of registers and memory is said in `specs/TrueRecord.antt`; that it stays true while others run is a law about the
//! code that is made, `records_last` of `compiled_code`.
#![tactic(auto)]

mod measures;
mod plan;

pub use measures::width;
pub use plan::Plan;
