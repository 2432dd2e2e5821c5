//! The top call: what the program does with a command line, as a library.
//!
//! [`covern`] takes the words of a command line, the files (a shelf) and the output (a sink), and ends with a status.
//! Its contract says what each command replies, what is put, and what a reply means. [`covern_with`] is the same call over a judge of
//! threads, whom `swap` asks. Laws have no body: by [`one_outcome`], over the same files, by the same judge, a command has one reply, and
//! by [`accepted_runs_never_differ`] and [`accepted_programs_are_never_refuted`] `pair` and `refute` tell no two runs of an accepted
//! program apart.
//!
//! | `src/` | `specs/` | what it has |
//! |---|---|---|
//! | `call` | `Headline`, `AcceptedRuns`, `SwappedPrograms`, `LevelledPrograms`, `AnnotatedPrograms` | `covern` and `covern_with`, with all their promises; what it says of a file that it is accepted, and of what is put that it is the listing or the object of its code; whose runs never differ; what the lines of `swap` say of programs, what `levels` says, and what is put by `annotate` |
//! | `commands` | `Commands`, `Outcome` | the plan of each command, in one row, and which command the words are; what is replied to the words |
//! | `laws` | `Laws` | one reply; no two runs of an accepted program that differ |
//!
//! What a command does stands in the crates below: `call_judge`, `call_text`, `call_run`, `call_code` and `call_verdicts`, over what it
//! takes (`call_inputs`) and what it answers (`call_reports`). There a command is a module with its step, and its plan and replies; here it
//! is a row in each of `Command` and `plan_of`, an arm in `commands`, and rows of `sound` and `may_differ` in `proofs`. Definitions by
//! command have no row for the rest, so that none is forgotten; `HoldsSecure`, `HoldsSwapped`, `HoldsSecureForAll`, `PutsAnnotated`,
//! `PutsCode`, `PutsObject` and `RunsAccepted` speak of the words of one or two commands each, and what is promised of another is a clause of its own.
#![tactic(auto)]

mod call;
mod commands;
mod laws;

pub use call::{covern, covern_with};
pub use laws::{accepted_programs_are_never_refuted, accepted_runs_never_differ, one_outcome};
