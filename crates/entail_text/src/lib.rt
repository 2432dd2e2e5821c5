//! Entailments in plain text: what was asked where a certificate isn't valid.
//!
//! - [`add_told`]: the goal of an entailment, its hypotheses by number, and its certificate, with the first node that fails. [`add_hypotheses`]: the
//!   hypotheses alone.
//! - [`failing_node_is_there`] has no body: its contract is a law, that the node of which the text tells is there and fails.
//! - [`cert_for`]: the certificate that a statement gives for an entailment.
//! - [`add_other`]: which certificate that is given for another entailment would show this one.
//! - [`found_for`]: what searches come to for an entailment, as a [`Finding`]: a certificate, a memory that breaks it, or neither. [`add_finding`]: the
//!   same in words, with where a certificate is to be written. [`would_help`]: whether one predicate more would do, and [`is_hopeless`], whether a memory breaks
//!   it with some more. [`suggested_certificates_are_valid`], [`broken_entailments_have_no_certificate`] and [`what_would_help_is_enough`] are laws of it.
//!
//! | `src/` | `specs/` | what it has |
//! |---|---|---|
//! | `entailment` | `EntailmentLines` | the text |
//! | `node` | `Nodes` | the hypotheses and the goal of each node of a certificate |
//! | `given` | `Given` | the certificate of a number |
//! | `other` | `OtherCertificates` | the certificates of other numbers |
//! | `zero` | `ZeroGoals` | goals that are 0, and how such a one may be shown at all |
//! | `finding` | `Findings` | what searches come to, and what would help |
//! | `suggestion` | `Suggestions` | the words on a certificate that is found |
//! | `broken` | `BrokenLines` | the words on a memory, and where neither is found |
//! | `laws` | `Nodes`, `Findings` | the node of which is told is there, and fails; what is suggested is valid; what is broken has no valid certificate; what would help is enough |
#![tactic(auto)]

mod broken;
mod entailment;
mod finding;
mod given;
mod laws;
mod node;
mod other;
mod suggestion;
mod zero;

pub use entailment::{add_hypotheses, add_told};
pub use finding::{Finding, found_for, is_hopeless, would_help};
pub use given::cert_for;
pub use laws::{
    broken_entailments_have_no_certificate, failing_node_is_there,
    suggested_certificates_are_valid, what_would_help_is_enough,
};
pub use other::add_other;
pub use suggestion::add_finding;
