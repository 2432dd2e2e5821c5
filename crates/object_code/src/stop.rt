//! Why reading stops.

ghost use Rattle.std.specs.Prelude.{◌≡◌};
ghost use Rattle.object_code.specs.declared.stop.Stop.TheVariants as stops;

use cov_expr::NoMemory;

/// Why reading stops.
#[derive(Clone, Copy)]
pub enum Stop {
    /// So many bytes are left, with the first of which no object goes on. With 0 the bytes end too early.
    Left(usize),
    /// Memory ran out.
    NoMemory,
}

impl From<NoMemory> for Stop {
    ghost from_gives = { λ _ stop. stop ≡ stops.NoMemory };

    fn from(_error: NoMemory) -> Stop {
        Stop::NoMemory
    }
}
