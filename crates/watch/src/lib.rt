//! What is stored to be asked later: a stop test, and what makes the words of trials.
//!
//! - [`Watch`]: keeps a test of memories beside the expression that it tests for. Whoever runs a program until the expression
//!   holds asks the test, and learns of the memory only so.
//! - [`Maker`]: keeps a function that makes the words of numbered trials. Whoever runs trials asks it for each word, and has words
//!   only so. [`raw_word`]: these words. [`drawn`]: what they are made from, as are the schedules of trials.
//!
//! What a watch keeps stands in `specs/Watches.antt`; when an expression holds, in `specs/Entailment.antt` of `cov_expr`: its
//! value isn't 0. The words of trials stand in `specs/TrialWords.antt`.
#![tactic(auto)]

mod draws;
mod maker;
mod watch;

pub use draws::{drawn, raw_word};
pub use maker::{Make, Maker};
pub use watch::{Test, Watch};
