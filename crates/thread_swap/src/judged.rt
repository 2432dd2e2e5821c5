//! The verdict on a program.

use cov_ast::Refusal;
use typing_law::Count;

/// The verdict on a program.
#[derive(Clone, Copy, PartialEq, Eq)]
pub enum Judged {
    /// Every obligation holds; so much was checked.
    Accepted(Count),
    /// The first obligation that doesn't hold.
    Refused(Refusal),
}
