//! Warnings, and what they are about.

use cov_expr::Name;

/// What is warned of.
#[derive(Clone, Copy, PartialEq, Eq)]
pub enum Cause {
    /// There is no thread.
    NoThread,
    /// The invariant of this lock holds in no memory: it has no variable and is 0, or that is shown by bounds or a certificate of one node.
    FalseInvariant(Name),
    /// No statement reads this variable.
    NeverRead(Name),
    /// No statement writes this variable.
    NeverWritten(Name),
    /// No run comes to this statement: the guard before it has the same value in every memory.
    NeverReached,
    /// A carriage return that no line feed follows.
    LoneReturn,
    /// This control character, other than tab, line feed and carriage return.
    Control(u8),
    /// A character that turns the direction of text.
    Direction,
    /// A line separator or a paragraph separator.
    Separator,
    /// So many more carriage returns, control characters and characters like these.
    More(usize),
}

/// A warning, with the byte offset of what it is about. Of a lock or a variable that is the offset of the name where it is
/// declared, of a statement that of its first token, and where there is no thread 0.
#[derive(Clone, Copy, PartialEq, Eq)]
pub struct Warning {
    pub place: u32,
    pub cause: Cause,
}
