//! The law of typing: what has to hold of each statement of a thread for the thread to be accepted, and that it is then secure; and
//! the law of whole programs, which are accepted where it holds of each thread.
//!
//! The definitions stand in `specs/`: `Blocks` has the point after a statement, `Entailments` what has to follow from the
//! predicates of a point and by which certificate, and `ThreadObligations` every obligation of a thread (V1 to V16) in the order
//! in which they are tried, with what is refused where it fails. `ThreadEntailments` has what has to follow at the statements of
//! a thread, and how far that is reached, and `Counts` how much there is of both. `Accepted` has the obligations of a program (W3 to
//! W9, and those of each thread), `Verdicts` how many statements and entailments it has, and `Disciplined` what every run of an
//! accepted program keeps, from any memory. `proofs/Examples.antt` and the files beside it compute worked examples.
//!
//! - [`Count`]: how many statements and entailments a thread has. [`Entail`]: one of these, as it is handed out.
//! - [`Site`]: where an obligation of a thread stands. [`require_at`] and [`refused_at`] refuse one there.
//! - [`Verdict`]: that a program is accepted, with what follows.
//! - [`threads_end_without_locks`], [`entailments_are_obligations`], [`true_declarations_are_declared`],
//!   [`true_obligations_are_secure`]: laws, without a body. The last is the soundness of the rules.
//! - [`accepted_is_secure`], [`accepted_is_disciplined`]: laws of whole programs.
//!
//! The walk over statements that tries these obligations is `typing_rules`, and the check of whole programs is `verify`.
#![tactic(auto)]

mod count;
mod entail;
mod laws;
mod program_laws;
mod site;
mod verdict;

pub use count::Count;
pub use entail::Entail;
pub use laws::{
    entailments_are_obligations, threads_end_without_locks, true_declarations_are_declared,
    true_obligations_are_secure,
};
pub use program_laws::{accepted_is_disciplined, accepted_is_secure};
pub use site::{Site, refused_at, require_at};
pub use verdict::Verdict;
