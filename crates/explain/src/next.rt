//! What could stand at a place.

use cov_expr::Kind;

/// What could stand at a place of a text.
#[derive(Clone, Copy, PartialEq, Eq)]
pub enum Next {
    /// A token of this kind.
    Token(Kind),
    /// The end of the text.
    End,
}
