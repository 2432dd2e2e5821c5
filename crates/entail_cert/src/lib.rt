//! Certificates of entailments: a check of the claim that a goal holds in every memory in which all hypotheses hold.
//!
//! - [`check_cert`] says whether a certificate is valid, and names the first node that fails. Nothing is searched for.
//!   [`check_cert_with`] takes one more hypothesis.
//! - [`axioms_hold`], [`valid_gives_entailment`] and [`expressions_are_of_words`] do nothing: their contracts are the laws on which its
//!   answer rests.
//! - [`operands`], [`negated`], [`axiom_for`]: the parts of a goal or a hypothesis that a node asks for, and the axiom that it makes one.
//!
//! [`Held`] is an expression that is lent or made, as hypotheses are here and goals in the crates above.
//!
//! `specs/Valid.antt` says which certificates are valid, and `specs/Axioms.antt` has the axioms.
#![tactic(auto)]

mod arithmetic;
mod check;
mod held;
mod instance;
mod known;
mod laws;
mod parts;
mod shapes;
mod walk;

pub use check::{CertFault, check_cert, check_cert_with};
pub use held::Held;
pub use instance::axiom_for;
pub use laws::{axioms_hold, expressions_are_of_words, valid_gives_entailment};
pub use parts::{negated, operands};
