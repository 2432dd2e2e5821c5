//! The rows of the table of a judge in memory.

use crate::judge::Said;

/// What a table says of the threads that are declared at a place.
#[derive(Clone, Copy, PartialEq, Eq)]
pub struct Row {
    pub at: u32,
    pub said: Said,
}
