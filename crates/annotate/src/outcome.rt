//! What comes of putting certificates into a text.

use cov_ast::Refusal;
use cov_expr::{Blob, List};

/// An entailment of a program without a valid certificate.
#[derive(Clone, Copy, PartialEq, Eq)]
pub struct Open {
    /// The number of its thread.
    pub thread: u32,
    /// The byte offset of its statement.
    pub place: u32,
    /// Its number among those of the statement, from 1 on.
    pub number: u32,
}

/// A text into which certificates are put.
#[derive(Drop)]
pub struct Outcome {
    /// Its canonical spelling.
    pub spelled: Blob,
    /// The first obligation of the program of that text that doesn't hold. `None` comes exactly where the program is accepted.
    pub first: Option<Refusal>,
    /// Its entailments that stay without a valid certificate, in the order in which they are tried.
    pub unproved: List<Open>,
}
