//! Tokens of a text: what each is, and where it stands.

/// What a token is. Which keyword, name or sign it is, its bytes say.
#[derive(Clone, Copy, Debug, PartialEq, Eq)]
pub enum TokenKind {
    Keyword,
    Name,
    /// A number, with its value.
    Number(u32),
    Sign,
}

/// A token: the bytes of a text from the offset `at` up to, but without, the offset `end`.
#[derive(Clone, Copy, PartialEq, Eq)]
pub struct Token {
    pub kind: TokenKind,
    pub at: u32,
    pub end: u32,
}
