//! What is told of a program after a thread was replaced.

use crate::judged::Judged;

/// The verdict on a program, and how many statements were judged for it.
#[derive(Clone, Copy)]
pub struct Line {
    pub verdict: Judged,
    pub checked: u64,
}
