//! The levels of binary operators, the tightest first.

ghost use Rattle.std.specs.Prelude.{◌≡◌};
ghost use Rattle.cov_read.specs.Inside.Levels as spec;

/// A level of binary operators, the tightest first.
#[derive(Clone, Copy)]
pub enum Level {
    Prod,
    Sum,
    Band,
    Bxor,
    Bor,
    Compare,
    Both,
    Either,
}

/// All levels, the tightest first. The operands of one are all that the levels in front of it make.
pub const LEVELS: [Level; 8] = [
    Level::Prod,
    Level::Sum,
    Level::Band,
    Level::Bxor,
    Level::Bor,
    Level::Compare,
    Level::Both,
    Level::Either,
];

/// Whether operators of a level may follow one another.
pub fn repeats(level: Level) -> bool
    ensures { result ≡ spec.repeats level }
{
    match level {
        Level::Compare => false,
        Level::Prod | Level::Sum | Level::Band | Level::Bxor | Level::Bor => true,
        Level::Both | Level::Either => true,
    }
}
