//! Why a text has no tokens, and where.

ghost use Rattle.std.specs.Prelude.{◌≡◌};
ghost use Rattle.cov_lex.specs.declared.fault.LexFault.TheVariants as faults;

use cov_expr::NoMemory;
use thiserror::Error;

/// Why a text has no tokens. The first three have the offset in bytes of what is wrong.
#[derive(Clone, Copy, Debug, PartialEq, Eq, Error)]
pub enum LexFault {
    /// A byte that begins no token, blank or comment.
    #[error("no token begins with the byte at {0}")]
    BadByte(u32),
    /// A number above 4294967295, by its first digit.
    #[error("the number at {0} is above 4294967295")]
    NumberTooLarge(u32),
    /// A word of more than 32 bytes, by its first letter.
    #[error("the word at {0} has more than 32 bytes")]
    NameTooLong(u32),
    /// Memory for the tokens ran out.
    #[error("no memory")]
    NoMemory,
}

impl From<NoMemory> for LexFault {
    ghost from_gives = { λ _ fault. fault ≡ faults.NoMemory };

    fn from(_error: NoMemory) -> Self {
        LexFault::NoMemory
    }
}
