//! States, types and proofs of a text, with places.

use crate::cert::{PlacedCert, Whole};
use cov_expr::List;

/// A variable and an expression.
#[derive(Drop)]
pub struct Typed {
    pub name: u32,
    pub class: Whole,
}

/// What a join, a loop or a note states.
#[derive(Drop)]
pub struct PlacedState {
    pub at: u32,
    pub preds: List<Whole>,
    pub types: List<Typed>,
}

/// A proof of the entailment of a number.
#[derive(Drop)]
pub struct PlacedProof {
    pub number: u32,
    pub at: u32,
    pub cert: PlacedCert,
}
