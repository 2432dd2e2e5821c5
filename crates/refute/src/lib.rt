//! Numbered trials of a program: two runs each, from memories that agree on what is low, to find out whether it leaks.
//!
//! - [`refute`]: the first trial whose two runs don't agree after some step, and how many trials were fit to start from.
//!   [`Trials`]: its answer.
//! - [`Trial`]: the two memories and the schedule of one trial, by its number.
//! - [`secure_programs_have_no_first_trial`] and [`first_trial_is_one`] have no body: their contracts are laws.
//!
//! `specs/Trials.antt` says which memories and which schedule a trial has, when it is fit, and which trial is the first; the words
//! come from a `Maker` of `watch`, whose `specs/TrialWords.antt` says what they are. `specs/Inside.antt` has words of private
//! contracts alone.
#![tactic(auto)]

mod inputs;
mod laws;
mod trials;

pub use inputs::Trial;
pub use laws::{first_trial_is_one, secure_programs_have_no_first_trial};
pub use trials::{Trials, refute};
