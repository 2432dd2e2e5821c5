//! Counts of 64 bits, which stand still at their last value, and how often an interrupted call is made again.

ghost use Rattle.std.specs.Prelude.{◌≡◌, ◌≤◌};
ghost use Rattle.cov_io.specs.Counters.{last_count};
ghost use Rattle.cov_io.specs.Counters as spec;

/// A count that rises by a number, or stands still at its last value.
pub(crate) fn raised(count: u64, by: u64) -> u64
    ensures value { result ≡ spec.raised count by }
    ensures later { count ≤ result }
    ensures range { result ≤ last_count }
{
    count.saturating_add(by)
}

/// How often a call of the system is made again, where signals interrupt it, before that counts as a fault.
pub(crate) const RETRIES: u32 = 1_000;
