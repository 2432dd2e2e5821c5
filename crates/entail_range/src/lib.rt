//! Bounds of expressions, from hypotheses that compare expressions with numbers.
//!
//! - [`bound`] is the interval in which an expression's value lies in every memory in which the hypotheses hold.
//! - [`range_valid`] says whether the bounds of a comparison's sides make it hold. [`range_valid_with`] takes more hypotheses, and
//!   [`range_valid_indexed`] memory, by which it looks each bound up.
//! - [`values_within_bounds`] and [`range_gives_entailment`] have no body: their contracts are the laws on which the answers rest.
//!
//! `specs/Intervals.antt` has the arithmetic of intervals, and `specs/Range.antt` says which bounds hypotheses give.
#![tactic(auto)]

mod bounds;
mod hypotheses;
mod index;
mod interval;
mod laws;
mod range;

pub use bounds::bound;
pub use interval::Bound;
pub use laws::{range_gives_entailment, values_within_bounds};
pub use range::{range_valid, range_valid_indexed, range_valid_with};
