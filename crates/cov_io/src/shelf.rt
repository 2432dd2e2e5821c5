//! Where files are fetched from, by name and with a limit of length.

ghost use Rattle.std.specs.Prelude.{◌≡◌};
ghost use Rattle.cov_io.specs.Counters.{raised};
ghost use Rattle.cov_io.specs.Shelves.{Shelved, Gives, Passes, IsSound};
ghost use Rattle.cov_io.specs.declared.shelf.ShelfFault.TheVariants as faults;

use cov_expr::{Blob, NoMemory};
use std::alloc::Global;

/// Where files are read from, by name.
///
/// A shelf may *tell* its files, as one in memory does: then contracts know what stands under each name. It is *sure*
/// if its calls fail only where a name isn't there. It counts its calls, how often one failed and how many bytes were
/// taken, each up to 18446744073709551615, where the count stands still.
pub trait Shelf {
    /// What it holds, and how its calls went.
    ghost shelved: { Self → Shelved };

    /// The bytes under a name, if there are at most `limit` of them. They take memory; that a file is too long is
    /// found out by at most one byte past the limit.
    fn fetch(&mut self, alloc: Global, name: &str, limit: usize) -> Result<Fetched, ShelfFault>
        ensures answer { Gives (shelved self.old) (shelved self.new) name.now limit result }
        ensures passes { Passes (shelved self.old) (shelved self.new) }
        ensures sound { IsSound (shelved self.old) }
        ensures counted { (shelved self.new).calls ≡ raised (shelved self.old).calls 1 };
}

/// What was fetched.
#[derive(Drop)]
pub enum Fetched {
    /// All the bytes under the name.
    Whole(Blob),
    /// There are more bytes than the limit.
    TooLong,
}

/// Why nothing was fetched.
#[derive(Clone, Copy, PartialEq, Eq)]
pub enum ShelfFault {
    /// The name isn't there, or it couldn't be read. The shelf has counted it.
    Failed,
    /// Memory ran out.
    NoMemory,
}

impl From<NoMemory> for ShelfFault {
    ghost from_gives = { λ _ fault. fault ≡ faults.NoMemory };

    fn from(_error: NoMemory) -> ShelfFault {
        ShelfFault::NoMemory
    }
}
