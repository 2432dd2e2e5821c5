//! The check of whole programs: whether a program is accepted.
//!
//! Which programs are accepted, and that they are secure and disciplined, stands in `typing_law`.
//!
//! - [`check_program`]: the first obligation that fails, or a [`Verdict`]. [`check_declared`] looks at declarations alone.
//! - [`accepted_is_secure`], [`accepted_is_disciplined`]: laws of `typing_law`.
#![tactic(auto)]

mod check;

pub use check::{check_declared, check_program};
pub use typing_law::{Verdict, accepted_is_disciplined, accepted_is_secure};
