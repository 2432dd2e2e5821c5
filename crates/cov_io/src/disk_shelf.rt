//! A shelf over the files of a disk: one open, and reads up to one byte past the limit.

ghost use Rattle.std.specs.Prelude.{◌≡◌, ◌≤◌, ◌+◌, None, IfOk};
ghost use Rattle.std.specs.Io.{ReadsAtMost};
ghost use Rattle.std.specs.Io.KnownBytes.{ReadConsumes};
ghost use Rattle.cov_io.specs.Calls.{Tries, no_troubles};
ghost use Rattle.cov_io.specs.Counters.{raised as raised_count};
ghost use Rattle.cov_io.specs.Disks.{HasAsked, HasRead, IsCaused, ReadsAll, after_read};
ghost use Rattle.cov_io.specs.Shelves.{Gives, Passes, IsSound, bytes_taken, faults_of, untold};

use crate::counts::{RETRIES, raised};
use crate::disk::Disk;
use crate::shelf::{Fetched, Shelf, ShelfFault};
use crate::system::System;
use crate::trouble::CallError;
use cov_expr::List;
use std::alloc::Global;
use std::marker::Model;
use std::rt::Files;

/// A shelf of the files of a disk. It tells them where the disk does, and is never sure.
///
/// Contracts see it as what a shelf means, how the calls of the disk went, and what was asked of the disk, where that
/// tells it.
#[derive(Drop)]
pub struct DiskShelf<D: Disk> {
    disk: D,
    calls: u64,
    faults: u64,
    taken: u64,
}

impl<D: Disk> Model for DiskShelf<D> {
    ghost use Rattle.std.specs.Prelude.{◌≤◌, false};
    ghost use Rattle.cov_io.specs.Counters.{last_count};
    ghost use Rattle.cov_io.specs.Disks.{Reading};

    ghost Value = { Reading };

    ghost view = { λ s. record { shelved = record { told = D.told s.disk; sure = false; calls = s.calls; faults = s.faults; taken = s.taken }; troubles = D.troubles s.disk; log = D.log s.disk } };

    ghost invariant = { λ s. (s.calls ≤ last_count) × (s.faults ≤ last_count) × (s.taken ≤ last_count) };
}

/// The files of the system, whose names are paths. It tells nothing.
pub type FileShelf<'r, R> = DiskShelf<System<'r, R>>;

impl<'r, R: Files> DiskShelf<System<'r, R>> {
    /// The files of a runtime, before the first call.
    pub fn new(rt: &'r R) -> FileShelf<'r, R>
        ensures { result ≡ record { shelved = untold 0 0 0; troubles = no_troubles; log = None } }
    {
        DiskShelf {
            disk: System::new(rt),
            calls: 0,
            faults: 0,
            taken: 0,
        }
    }
}

impl<D: Disk> DiskShelf<D> {
    /// Reads a file to its end, or to one byte past the limit.
    fn read_up_to(
        &mut self,
        alloc: Global,
        file: &mut D::File,
        limit: usize,
    ) -> Result<Fetched, ShelfFault>
        ensures bytes { ReadsAll (D.left file.old) limit result }
        ensures causes { IsCaused self.old.troubles self.new.troubles result }
        ensures passes { Passes self.old.shelved self.new.shelved }
        ensures calls { self.new.shelved.calls ≡ self.old.shelved.calls }
        ensures faults { self.new.shelved.faults ≡ raised_count self.old.shelved.faults (faults_of result) }
        ensures taken { IfOk result (λ fetched. self.new.shelved.taken ≡ raised_count self.old.shelved.taken (bytes_taken limit fetched)) }
        ensures most { self.new.shelved.taken ≤ self.old.shelved.taken + (limit + 1) }
        ensures read { HasRead self.old.log self.new.log limit result }
    {
        let mut bytes = List::new(alloc);
        let mut buffer = [0; 4096];
        while bytes.len() <= limit {
            let room = (limit - bytes.len()).saturating_add(1).min(4096);
            match read_some(&mut self.disk, file, &mut buffer[..room]) {
                Ok(0) => return Ok(Fetched::Whole(bytes)),
                Ok(count) => {
                    self.taken = raised(self.taken, count as u64);
                    bytes.extend_from_slice(&buffer[..count])?;
                }
                Err(_) => {
                    self.faults = raised(self.faults, 1);
                    return Err(ShelfFault::Failed);
                }
            }
        }
        Ok(Fetched::TooLong)
    }
}

impl<D: Disk> Shelf for DiskShelf<D> {
    ghost shelved = { λ s. s.shelved };

    /// Opens a file and reads it. A name that isn't there, a folder and an error of the system are faults.
    fn fetch(&mut self, alloc: Global, name: &str, limit: usize) -> Result<Fetched, ShelfFault>
        ensures answer { Gives self.old.shelved self.new.shelved name.now limit result }
        ensures passes { Passes self.old.shelved self.new.shelved }
        ensures sound { IsSound self.old.shelved }
        ensures counted { self.new.shelved.calls ≡ raised_count self.old.shelved.calls 1 }
        ensures causes { IsCaused self.old.troubles self.new.troubles result }
        ensures faults { self.new.shelved.faults ≡ raised_count self.old.shelved.faults (faults_of result) }
        ensures taken { IfOk result (λ fetched. self.new.shelved.taken ≡ raised_count self.old.shelved.taken (bytes_taken limit fetched)) }
        ensures most { self.new.shelved.taken ≤ self.old.shelved.taken + (limit + 1) }
        ensures asked { HasAsked self.old.log self.new.log name.now limit result }
    {
        self.calls = raised(self.calls, 1);
        match self.disk.open(name) {
            Some(mut file) => self.read_up_to(alloc, &mut file, limit),
            None => {
                self.faults = raised(self.faults, 1);
                Err(ShelfFault::Failed)
            }
        }
    }
}

/// One read, made again where a signal interrupts it.
fn read_some<D: Disk>(
    disk: &mut D,
    file: &mut D::File,
    buffer: &mut [u8],
) -> Result<usize, CallError>
    ensures bound { ReadsAtMost result buffer.new }
    ensures bytes { ReadConsumes (D.left file.old) (D.left file.new) result buffer.new }
    ensures told { D.told disk.new ≡ D.told disk.old }
    ensures tries { Tries (D.troubles disk.old) (D.troubles disk.new) result }
    ensures logged { D.log disk.new ≡ after_read (D.log disk.old) result }
{
    for _ in 0..RETRIES {
        match disk.read(file, buffer) {
            Err(CallError::Interrupted) => {}
            answer => return answer,
        }
    }
    Err(CallError::Interrupted)
}
