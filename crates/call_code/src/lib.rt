//! The code of an accepted program: the commands `compile`, which lists it, and `object`, which writes its object; `unobject`, which lists the
//! code of an object; `run-code` and `pair-code`, which run it once, and twice side by side; and `big`, which makes a program of which
//! it and its code run twice each.
//!
//! What they share stands in `codes`: an accepted program with its code, the test of two starts, and the machine of a code. What `compile`
//! replies, and where code starts and ends, stands in `specs/Codes`, what `object` and `unobject` reply in `specs/Objects`, what runs of code
//! do and reply in `specs/CodeRuns`, and what `big` does and replies in `specs/BigReplies`, the parts of what it puts in `specs/Summaries`, made by
//! `summaries`. `specs/Inside` has the words by which shared steps are told.
//!
//! Laws have no code of their own: by [`accepted_programs_have_good_code`] what bytes spell and is accepted has good code, and by
//! [`unobject_gives_the_listing`] the object of a program is listed as the program is compiled.
#![tactic(auto)]

pub mod big;
pub mod codes;
pub mod compile;
mod laws;
pub mod object;
pub mod pair_code;
pub mod run_code;
mod summaries;
pub mod unobject;

pub use laws::{accepted_programs_have_good_code, unobject_gives_the_listing};
