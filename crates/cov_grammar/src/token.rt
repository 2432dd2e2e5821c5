//! Tokens as the grammar takes them, each with its kind, its place and its value.

use cov_expr::Kind;

/// A token of a text.
#[derive(Clone, Copy, PartialEq, Eq)]
pub struct Token {
    /// What it is.
    pub kind: Kind,
    /// The offset of its first byte in the text.
    pub at: u32,
    /// The offset behind its last byte.
    pub end: u32,
    /// Of a number its value, of a name the number by which the program knows it. Nothing reads it of other tokens.
    pub value: u32,
}
