//! Points behind steps of a thread's text, built by what each statement makes of a point.
//!
//! - [`Trace`], with [`Trace::point_behind`]: the point behind steps from the start of the text, as long as types stay within the bounds. [`Trace::pass_step`] and
//!   [`Trace::pass`]: the point behind one step more.
//! - [`points_are_of_the_rules`] has no body: its contract is a law, that the point that is built is the one to which the rules for statements lead.
//!
//! | `src/` | `specs/` | what it has |
//! |---|---|---|
//! | `passing` | `PointsBehind`, `Traces` | the point behind steps, and of which point the code keeps what it keeps |
//! | `laws` | `Points` | the point to which the rules for statements lead |
#![tactic(auto)]

mod laws;
mod passing;

pub use laws::points_are_of_the_rules;
pub use passing::Trace;
