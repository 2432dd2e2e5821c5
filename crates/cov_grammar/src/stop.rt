//! Why a reader of a part of a text stops.

ghost use Rattle.std.specs.Prelude.{◌≡◌};
ghost use Rattle.cov_grammar.specs.declared.stop.Stop.TheVariants as stops;

use cov_expr::NoMemory;

/// Why a reader of a part of a text stops.
#[derive(Clone, Copy, PartialEq, Eq)]
pub enum Stop {
    /// At a token that can't stand there, or at the end of the text. It has no place: the reader is in front of the token.
    Unexpected,
    /// Memory ran out.
    NoMemory,
}

impl From<NoMemory> for Stop {
    ghost from_gives = { λ _ stop. stop ≡ stops.NoMemory };

    fn from(_error: NoMemory) -> Self {
        Stop::NoMemory
    }
}
