//! A deeper search for certificates: for hypotheses and a goal, one that a search of `cert_search` doesn't come to.
//!
//! - [`find_deeper`] looks for chains of order (`a <= b` and `b < c` give `a < c`), for hypotheses that leave a value none, for facts in negations, and in
//!   each case of disjunctions. What it gives is valid, so the goal follows.
//! - [`deeper_certificates_are_sound`] and [`deeper_certificates_are_in_range`] have no body: their contracts are laws of what comes.
//!
//! | `src` | | `specs` |
//! |---|---|---|
//! | `finder` | the search, and the test of what it comes to | `Deeper`; `Sound`: what is promised |
//! | `splits` | disjunctions taken apart, and goals that are negations or disjunctions | `Deeper` |
//! | `closing` | how a goal follows from facts | `Closing` |
//! | `chains` | facts that follow from others by transitivity | `Chains` |
//! | `readings` | the facts that hypotheses give | `Readings` |
//! | `facts` | lists of facts | `Facts`, `View` |
//! | `within` | the limits of a certificate of a text | `Within` |
//! | `nodes` | nodes of certificates | |
//!
//! `proofs/Rows.antt` computes worked rows.
#![tactic(auto)]

mod chains;
mod closing;
mod facts;
mod finder;
mod laws;
mod nodes;
mod readings;
mod splits;
mod within;

pub use finder::find_deeper;
pub use laws::{deeper_certificates_are_in_range, deeper_certificates_are_sound};
