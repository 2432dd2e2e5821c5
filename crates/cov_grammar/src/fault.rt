//! Why the tokens of a text aren't read, with the place of the first wrong one.

/// Why the tokens of a text aren't read.
#[derive(Clone, Copy, PartialEq, Eq)]
pub enum TokenFault {
    /// At this offset stands the first token with which no text of the language goes on; or it is the length of the text,
    /// whose tokens can go on, and spell nothing as they are.
    Unexpected(u32),
    /// Memory ran out.
    NoMemory,
}
