//! A shelf of files in memory, which fails at chosen calls.

ghost use Rattle.std.specs.Prelude.{◌≡◌, option_copied};
ghost use Rattle.cov_io.specs.Counters.{raised as raised_count};
ghost use Rattle.cov_io.specs.Shelves.{Gives, Passes, IsSound, IsDistinctByName, held};
ghost use Rattle.cov_io.specs.MemShelves.{Answers, after_fetch, next_fetch, shelved_of, started};

use crate::counts::raised;
use crate::shelf::{Fetched, Shelf, ShelfFault};
use cov_expr::{Blob, List, Name};
use std::alloc::Global;
use std::marker::Model;

/// Files in memory. It tells them, and it is sure exactly where no call is to fail.
///
/// Contracts see it as its files, the numbers of the calls that fail, how many calls there were, and its two counts.
#[derive(Drop)]
pub struct MemShelf {
    files: List<(Name, Blob)>,
    fails: List<u64>,
    calls: u64,
    faults: u64,
    taken: u64,
}

impl Model for MemShelf {
    ghost use Rattle.cov_io.specs.Counters.{raised as raised_count};
    ghost use Rattle.cov_io.specs.Shelves.{IsDistinctByName};
    ghost use Rattle.cov_io.specs.MemShelves.{Files};

    ghost Value = { Files };

    ghost view = { λ s. record { files = s.files; fails = s.fails; calls = s.calls; faults = s.faults; taken = s.taken } };

    ghost invariant = { λ s. IsDistinctByName s.files };
}

impl MemShelf {
    /// A shelf of these files, no two of which have one name. Calls are numbered from 1, and those of the numbers in
    /// `fails` are to fail.
    pub fn new(files: List<(Name, Blob)>, fails: List<u64>) -> MemShelf
        requires { IsDistinctByName files }
        ensures { result ≡ started files fails }
    {
        MemShelf {
            files,
            fails,
            calls: 0,
            faults: 0,
            taken: 0,
        }
    }
}

impl Shelf for MemShelf {
    ghost shelved = { shelved_of };

    /// A copy of the bytes, unless they are too long. The answer is exact, but that memory may run out for the copy.
    fn fetch(&mut self, alloc: Global, name: &str, limit: usize) -> Result<Fetched, ShelfFault>
        ensures answer { Gives (shelved_of self.old) (shelved_of self.new) name.now limit result }
        ensures passes { Passes (shelved_of self.old) (shelved_of self.new) }
        ensures sound { IsSound (shelved_of self.old) }
        ensures counted { self.new.calls ≡ raised_count self.old.calls 1 }
        ensures exact { Answers (next_fetch self.old name.now limit) result }
        ensures after { self.new ≡ after_fetch self.old limit result }
    {
        self.calls = raised(self.calls, 1);
        if self.fails.as_slice().contains(&self.calls) {
            self.faults = raised(self.faults, 1);
            return Err(ShelfFault::Failed);
        }
        match file_named(self.files.as_slice(), name.as_bytes()) {
            Some(bytes) if bytes.len() > limit => {
                self.taken = raised(self.taken, (limit as u64).saturating_add(1));
                Ok(Fetched::TooLong)
            }
            Some(bytes) => {
                let mut copy = List::new(alloc);
                copy.extend_from_slice(bytes)?;
                self.taken = raised(self.taken, copy.len() as u64);
                Ok(Fetched::Whole(copy))
            }
            None => {
                self.faults = raised(self.faults, 1);
                Err(ShelfFault::Failed)
            }
        }
    }
}

/// The bytes under a name.
fn file_named<'a>(files: &'a [(Name, Blob)], name: &[u8]) -> Option<&'a [u8]>
    ensures { option_copied result ≡ held files.now name.now }
{
    for (file, bytes) in files {
        if file.text() == name {
            return Some(bytes.as_slice());
        }
    }
    None
}
