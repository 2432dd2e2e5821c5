//! How many statements and entailments a thread has.

/// How much there is of a thread, or of a program.
#[derive(Clone, Copy, PartialEq, Eq)]
pub struct Count {
    /// Statements, those in others and notes included.
    pub statements: u64,
    /// Entailments, for each of which a valid certificate is asked.
    pub entailments: u64,
}
