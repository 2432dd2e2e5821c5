//! Threads of a program that are replaced, and the verdict after each: that from scratch, by what a judge says of threads, while a
//! thread that was judged and isn't replaced isn't judged again.
//!
//! The definitions stand in `specs/`: `Judges` has what a judge means, `Swaps` the verdict from scratch and what a swapper keeps,
//! `SwapLines` what is told after each replaced thread, `Replacements` which declarations may stand in the place of which thread, `Binding` what a text of threads means for a program and
//! its first fault, `RulesSay` and `MemJudges` what the two judges here say. `specs/Inside` has words of private contracts, and what
//! laws of judges rest on. `proofs/Examples.antt` computes worked rows.
//!
//! - [`Judge`]: whoever says of a thread whether it is accepted ([`Said`]). [`Rules`]: by the rules. [`MemJudge`]: by a table of [`Row`]s.
//! - [`Swapper`]: a program with its verdict ([`Judged`]), of which threads may be replaced.
//! - [`swap_lines`]: the verdict on a program and after each of some replaced threads, a [`Line`] each.
//! - [`bind`]: the threads of a text for the places of threads of a program, or the first fault ([`SwapFault`]).
//! - [`others_keep_their_obligations`], [`exact_verdicts_are_right`], [`exactly_accepted_is_secure`], [`accepted_lines_are_secure`]: laws, without code of
//!   their own.
#![tactic(auto)]

mod binding;
mod bound_threads;
mod judge;
mod judged;
mod laws;
mod line;
mod lines;
mod mem_judge;
mod names;
mod row;
mod rules;
mod settle;
mod swap_fault;
mod swapper;

pub use binding::bind;
pub use judge::{Judge, Said};
pub use judged::Judged;
pub use laws::{
    accepted_lines_are_secure, exact_verdicts_are_right, exactly_accepted_is_secure,
    others_keep_their_obligations,
};
pub use line::Line;
pub use lines::swap_lines;
pub use mem_judge::MemJudge;
pub use row::Row;
pub use rules::Rules;
pub use swap_fault::SwapFault;
pub use swapper::Swapper;
