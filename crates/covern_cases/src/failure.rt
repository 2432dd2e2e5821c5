//! Why the program ends with another status than 0.

use cov_expr::NoMemory;
use std::alloc::{AllocError, AllocFailed};
use std::io;

/// Why the program ends with another status than 0.
#[derive(Debug, Drop)]
pub enum Failure {
    /// The words are neither form, or a file of a case has no name of its own.
    Usage,
    /// A file couldn't be read.
    Unreadable,
    /// A file or a text is longer than its limit.
    TooLong,
    /// A call shows something else than it has to.
    Differs,
    /// What was shown couldn't be written.
    Unwritten,
    /// Memory ran out.
    NoMemory,
}

impl From<NoMemory> for Failure {
    fn from(_error: NoMemory) -> Failure {
        Failure::NoMemory
    }
}

impl From<AllocError> for Failure {
    fn from(_error: AllocError) -> Failure {
        Failure::NoMemory
    }
}

impl<T: Drop> From<AllocFailed<T>> for Failure {
    fn from(_error: AllocFailed<T>) -> Failure {
        Failure::NoMemory
    }
}

/// The command line couldn't be had.
impl From<io::Error> for Failure {
    fn from(_error: io::Error) -> Failure {
        Failure::Usage
    }
}
