//! Why bytes are no start, or no schedule.

ghost use Rattle.schedule_replay.specs.declared.fault.StartFault.TheVariants as start;
ghost use Rattle.schedule_replay.specs.declared.fault.ScheduleFault.TheVariants as schedule;
ghost use Rattle.std.specs.Prelude.{◌≡◌};

use cov_expr::{Name, NoMemory};
use thiserror::Error;

/// Why bytes are no start, the first that applies.
#[derive(Clone, Copy, PartialEq, Eq)]
pub enum StartFault {
    /// They have no reading as JSON.
    Json,
    /// The value is no object.
    NotObject,
    /// This variable, the first by declaration, is no key.
    Missing(Name),
    /// Some key is no variable.
    Unknown,
    /// The value of this variable, the first by declaration, is no word.
    NotWord(Name),
    /// Memory ran out.
    NoMemory,
}

/// Why bytes are no schedule, the first that applies.
#[derive(Clone, Copy, Debug, PartialEq, Eq, Error)]
pub enum ScheduleFault {
    /// They have no reading as JSON.
    #[error("no reading as JSON")]
    Json,
    /// The value is no list.
    #[error("no list")]
    NotList,
    /// It has more than `MOST_ENTRIES` of `cov_expr`.
    #[error("too many entries")]
    TooMany,
    /// The entry at this index, the first, is no number of a thread. Indices are counted from 0.
    #[error("the entry at {0} is no number of a thread")]
    BadEntry(u32),
    /// Memory ran out.
    #[error("no memory")]
    NoMemory,
}

impl From<NoMemory> for StartFault {
    ghost from_gives = { λ _ fault. fault ≡ start.NoMemory };

    fn from(_error: NoMemory) -> StartFault {
        StartFault::NoMemory
    }
}

impl From<NoMemory> for ScheduleFault {
    ghost from_gives = { λ _ fault. fault ≡ schedule.NoMemory };

    fn from(_error: NoMemory) -> ScheduleFault {
        ScheduleFault::NoMemory
    }
}
