//! Why a program isn't accepted for every level.

ghost use Rattle.std.specs.Prelude.{◌≡◌};
ghost use Rattle.levels.specs.declared.refusal.LevelRefusal.TheVariants as refusals;

use cov_ast::Refusal;
use cov_expr::NoMemory;

/// Why a program isn't accepted for every level.
#[derive(Drop)]
pub enum LevelRefusal {
    /// The first level for which it isn't, and the first obligation that doesn't hold there.
    Refused(u32, Refusal),
    /// Memory ran out.
    NoMemory,
}

impl From<NoMemory> for LevelRefusal {
    ghost from_gives = { λ _ refusal. refusal ≡ refusals.NoMemory };

    fn from(_error: NoMemory) -> Self {
        LevelRefusal::NoMemory
    }
}
