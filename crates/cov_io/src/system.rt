//! The calls of the real system: an open, a read and a write.
//!
//! Three lines of this file are shown by no proof: that `open` asks for the name that it is given, and once; that `read`
//! reads once; and that `write` writes once, to the output that it is given. What is made of the answers is proved, of
//! any file and any writer whose bytes are known.
ghost use Rattle.std.specs.Prelude.{◌≡◌, ◌≤◌, ◌<◌, None, IfOk, length};
ghost use Rattle.std.specs.Io.KnownBytes.{WriteAppends};
ghost use Rattle.cov_io.specs.Calls.{IsLater, after_call, no_troubles};

use crate::disk::Disk;
use crate::output::Output;
use crate::trouble::{CallError, Trouble};
use std::io::{Read, Write};
use std::rt::Files;
use std::{fs, io};

/// The system, by a runtime: its files, whose names are paths, and its standard output. It tells nothing.
#[derive(Drop)]
pub struct System<'r, R> {
    rt: &'r R,
    trouble: Trouble,
}

impl<'r, R> System<'r, R> {
    /// The system of a runtime, before the first call.
    pub(crate) fn new(rt: &'r R) -> System<'r, R>
        ensures { result.trouble ≡ no_troubles }
    {
        System {
            rt,
            trouble: Trouble::none(),
        }
    }
}

impl<R: Files> Disk for System<'_, R> {
    type File = R::File;

    ghost told = { λ _. None };

    ghost troubles = { λ s. s.trouble };

    ghost log = { λ _. None };

    ghost left = { R.File.remaining };

    /// One open.
    fn open(&mut self, name: &str) -> Option<R::File> {
        match fs::open(self.rt, name) {
            Ok(file) => Some(file),
            Err(_) => {
                self.trouble.fail();
                None
            }
        }
    }

    /// One read.
    fn read(&mut self, file: &mut R::File, buffer: &mut [u8]) -> Result<usize, CallError> {
        match file.read(buffer) {
            Ok(count) => Ok(count),
            Err(error) => Err(self.trouble.count(&error)),
        }
    }
}

impl<R: Print> Output for System<'_, R> {
    ghost has = { λ _. None };

    ghost troubles = { λ s. s.trouble };

    /// One write.
    fn write(&mut self, piece: &[u8]) -> Result<usize, CallError> {
        write_once(&mut io::writer(self.rt), &mut self.trouble, piece)
    }
}

/// One write. That nothing is taken of a piece that isn't empty is an error.
fn write_once<W: Write>(
    writer: &mut W,
    trouble: &mut Trouble,
    piece: &[u8],
) -> Result<usize, CallError>
    ensures count { IfOk result (λ count. (count ≤ length piece.now) × (0 < length piece.now → 0 < count)) }
    ensures bytes { WriteAppends (W.contents writer.old) (W.contents writer.new) result piece.now }
    ensures counted { trouble.new ≡ after_call trouble.old result }
    ensures later { IsLater trouble.old trouble.new }
{
    match writer.write(piece) {
        Ok(0) if !piece.is_empty() => {
            trouble.fail();
            Err(CallError::Other)
        }
        Ok(count) => Ok(count),
        Err(error) => Err(trouble.count(&error)),
    }
}
