//! The calls of a system by which files are opened and read.

ghost use Rattle.std.specs.Prelude.{◌≡◌, List, ℕ, Option, IfSome};
ghost use Rattle.std.specs.Io.{ReadsAtMost};
ghost use Rattle.std.specs.Io.KnownBytes.{ReadConsumes};
ghost use Rattle.cov_io.specs.Calls.{IsLater, Troubles, after_call, after_open};
ghost use Rattle.cov_io.specs.Disks.{Log, Opens, after_read, with_open};
ghost use Rattle.cov_io.specs.Shelves.{File, IsDistinctByName};

use crate::trouble::CallError;

/// The calls of a system by which files are read.
///
/// A disk may *tell* its files, and then contracts know what is left of one that is open. It may also tell which names
/// were opened and how many bytes were read. It counts how often a call was interrupted by a signal and how often one
/// failed for another cause.
pub trait Disk {
    /// A file that is open.
    type File: Drop;

    /// Its files, where it tells them.
    ghost told: { Self → Option (List File) };

    /// How its calls went.
    ghost troubles: { Self → Troubles };

    /// What was asked of it, where it tells that.
    ghost log: { Self → Option Log };

    /// The bytes that are left of an open file, where they are known.
    ghost left: { Self.File → Option (List ℕ) };

    /// Opens the file of a name, to be read from its first byte. None is a call that failed, as where the name isn't
    /// there.
    fn open(&mut self, name: &str) -> Option<Self::File>
        ensures opened { IfSome result (λ file. Opens (told self.old) name.now (left file)) }
        ensures told { told self.new ≡ told self.old }
        ensures distinct { IfSome (told self.old) IsDistinctByName }
        ensures counted { troubles self.new ≡ after_open (troubles self.old) result }
        ensures logged { log self.new ≡ with_open (log self.old) name.now };

    /// Reads some of the bytes that are left: none only at the end, or with no room. Where it fails, none is lost.
    fn read(&mut self, file: &mut Self::File, buffer: &mut [u8]) -> Result<usize, CallError>
        ensures bound { ReadsAtMost result buffer.new }
        ensures bytes { ReadConsumes (left file.old) (left file.new) result buffer.new }
        ensures told { told self.new ≡ told self.old }
        ensures counted { troubles self.new ≡ after_call (troubles self.old) result }
        ensures later { IsLater (troubles self.old) (troubles self.new) }
        ensures logged { log self.new ≡ after_read (log self.old) result };
}
