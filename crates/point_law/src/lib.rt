//! What is known of a thread between two statements, and how each kind of statement changes it, as definitions.
//!
//! The definitions stand in `specs/`: `Terms` has lists of expressions without repeats, `Point` what a point is and what it
//! says of variables and expressions, `After` the point at the start of a thread and after each kind of statement, and
//! `AtModes` what is said of a thread by its sets. Lemmas on them are in `proofs/PointLaws.antt` and `proofs/Steps.antt`.
//!
//! It has no code: `typing_state` keeps points, and `typing_law` says what has to hold at them.
#![tactic(auto)]
