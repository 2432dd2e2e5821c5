//! Observers at levels, of which some lie below others: what each is shown of a program, and whether it is accepted for all of them.
//!
//! What has to be believed is in `specs/`: `Order` has which level lies below which, `Projection` what an observer is shown, and `Accepted`
//! which programs are accepted for every level, and what is answered of one. `specs/Inside` has words of private contracts, which no
//! promise cites. `proofs/Examples.antt` computes worked rows.
//!
//! - [`check_levels`]: whether what each observer is shown is accepted, and then it is secure; else a [`LevelRefusal`]. Levels are those of
//!   `level_text`.
//! - [`level_rows`], [`shown`], [`mark`]: the levels that each observer sees, what one is shown of a program, and what stands for a marker there, for
//!   programs that tell of a refusal.
//! - [`order_is_least`], [`shown_is_well_formed`], [`shown_does_the_same`], [`first_refused_is_first`], [`accepted_are_secure`]: laws, without code of
//!   their own.
#![tactic(auto)]

mod alike;
mod certs;
mod check;
mod classes;
mod laws;
mod marks;
mod programs;
mod refusal;
mod rows;
mod terms;

pub use check::check_levels;
pub use laws::{
    accepted_are_secure, first_refused_is_first, order_is_least, shown_does_the_same,
    shown_is_well_formed,
};
pub use marks::mark;
pub use programs::shown;
pub use refusal::LevelRefusal;
pub use rows::level_rows;
