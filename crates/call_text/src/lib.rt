//! The commands that write a program: `fmt` its canonical spelling, and `migrate` that in version 2 of the language.
//!
//! A law has no body: by [`migrated_stays`] a program in version 2 does what it did, and is judged as it was.
#![tactic(auto)]

pub mod fmt;
mod laws;
pub mod migrate;

pub use laws::migrated_stays;
