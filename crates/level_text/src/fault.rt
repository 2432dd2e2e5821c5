//! Why a text gives no levels.

ghost use Rattle.std.specs.Prelude.{◌≡◌};
ghost use Rattle.level_text.specs.LevelReads.{as_text_fault};
ghost use Rattle.level_text.specs.declared.fault.LevelFault.TheVariants as faults;

use cov_expr::NoMemory;
use cov_text::ParseFault;

/// Why a text gives no levels for a program. Each kind has the offset of a byte of the text; they are tried in this order.
#[derive(Clone, Copy, Debug, PartialEq, Eq)]
pub enum LevelFault {
    /// The text isn't in the grammar and its limits.
    Text(ParseFault),
    /// The name of a level past the most.
    Many(u32),
    /// The name of a level that is declared, or of a variable that is listed, a second time.
    Same(u32),
    /// The name of a level that isn't declared, or not before, or of a variable that the program doesn't declare.
    Unknown(u32),
    /// The name of a level that is also that of a variable which is more than a marker.
    Plain(u32),
    /// Memory ran out.
    NoMemory,
}

impl From<NoMemory> for LevelFault {
    ghost from_gives = { λ _ fault. fault ≡ faults.NoMemory };

    fn from(_error: NoMemory) -> Self {
        LevelFault::NoMemory
    }
}

impl From<ParseFault> for LevelFault {
    ghost from_gives = { λ error fault. fault ≡ as_text_fault error };

    fn from(error: ParseFault) -> Self {
        match error {
            ParseFault::NoMemory => LevelFault::NoMemory,
            fault => LevelFault::Text(fault),
        }
    }
}
