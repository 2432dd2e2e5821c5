//! The commands that judge programs made from a program: `swap`, which replaces threads one after another, `levels`, which shows it to an
//! observer at each of some levels, and `annotate`, which puts certificates into it.
//!
//! | `src/` | `specs/` | what it has |
//! |---|---|---|
//! | `swap`, `swap_reports` | `Swap` | `swap`: what it reads and replies, its lines, and how it asks a judge |
//! | `observers`, `observers_reports` | `Levels` | `levels`: what it reads and replies, and its line |
//! | `annotations`, `annotations_reports` | `Annotations` | `annotate`: what it reads and replies, and its lines |
//! | `laws` | | the threads of a text that has no fault may replace those of a program, so that each line that accepts, by an exact judge, is on a program that is secure; the levels that a text gives are levels over its variables, so that what is accepted for each is secure; the annotated text that is put is accepted, and means what the program does |
//!
//! `specs/Inside` has words of private contracts, which no promise cites.
#![tactic(auto)]

pub mod annotations;
mod annotations_reports;
mod laws;
pub mod observers;
mod observers_reports;
pub mod swap;
mod swap_reports;

pub use laws::{
    annotated_programs_are_secure, given_levels_fit, shown_programs_are_secure,
    swapped_programs_are_secure,
};
