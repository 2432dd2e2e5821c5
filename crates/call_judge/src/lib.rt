//! The command `check`: the verdict on what a file spells.
//!
//! A program that tells more than `check` does has its pieces: [`judge::judge_bytes`] judges the bytes of a file, and hands up what it
//! found, with the program; what `check` answers then follows from that. What is judged stands in `specs/Check`, what a text means in
//! `specs/Meaning`, what is found of bytes in `specs/Findings`, and what is replied to them in `specs/Texts`.
//! `specs/Inside` has the words by which steps that commands share, and what is found of bytes, are told.
//!
//! Two laws have no code of their own: [`spelled_programs_are_formed`] and [`accepted_programs_are_secure`] speak of bytes and of the
//! program that they spell.
#![tactic(auto)]

pub mod check;
pub mod judge;
mod laws;

pub use laws::{accepted_programs_are_secure, spelled_programs_are_formed};
