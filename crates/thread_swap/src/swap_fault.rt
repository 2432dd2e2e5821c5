//! Why a text of threads is refused.

ghost use Rattle.std.specs.Prelude.{◌≡◌};
ghost use Rattle.thread_swap.specs.declared.swap_fault.SwapFault.TheVariants as faults;

use cov_expr::NoMemory;

/// Why the threads of a text can't stand in the place of those of a program.
#[derive(Clone, Copy, PartialEq, Eq)]
pub enum SwapFault {
    /// The text has version 2, and the program version 1.
    Version,
    /// The text declares a variable or a lock.
    Declares(u32),
    /// The program has no thread of this name.
    NoThread(u32),
    /// A name that is used is no variable, or no lock, of the program.
    Unknown(u32),
    NoMemory,
}

impl From<NoMemory> for SwapFault {
    ghost from_gives = { λ _ fault. fault ≡ faults.NoMemory };

    fn from(_error: NoMemory) -> SwapFault {
        SwapFault::NoMemory
    }
}
