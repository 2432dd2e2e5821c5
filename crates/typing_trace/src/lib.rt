//! What is known in front of each statement of a program, as text.
//!
//! - [`add_points`]: of each statement, or of those that begin in one line, what is known in front of it and at the ends of its blocks (the locks that
//!   are held, what holds and where that comes from, types), and what its entailments ask. The points are those of `typing_points`.
//!
//! | `src/` | `specs/` | what it has |
//! |---|---|---|
//! | `known` | `KnownLines` | what is known at a point, as lines |
//! | `spots` | `Spots` | which statements are told of |
//! | `points`, `ends` | `PointLines` | what is told of each, and of the ends of its blocks |
#![tactic(auto)]

mod ends;
mod known;
mod points;
mod spots;

pub use points::add_points;
