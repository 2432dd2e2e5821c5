//! A sink in memory that was reserved before, which fails at chosen puts.

ghost use Rattle.std.specs.Prelude.{◌≡◌, ◌≤◌, ◌<◌, ◌+◌, [], IfOk, IsOk, length};
ghost use Rattle.std.specs.Result.{result_ok};
ghost use Rattle.cov_io.specs.Counters.{last_count};
ghost use Rattle.cov_io.specs.MemSinks.{after_put, next_put, opened, sunk_of};
ghost use Rattle.cov_io.specs.Sinks.{Puts};

use crate::counts::raised;
use crate::sink::{Failed, Sink};
use cov_expr::{List, NoMemory};
use std::alloc::Global;
use std::marker::Model;

/// What was put, in memory that was reserved when it was made. It tells this.
///
/// Contracts see it as its bytes, how many there is room for, how many a put takes at most, the numbers of the puts
/// that fail, how many puts there were, and its count.
#[derive(Drop)]
pub struct MemSink {
    bytes: Vec<u8>,
    room: usize,
    step: usize,
    fails: List<u64>,
    calls: u64,
    faults: u64,
}

impl Model for MemSink {
    ghost use Rattle.std.specs.Prelude.{◌≤◌, ◌<◌, length, vec_capacity};
    ghost use Rattle.cov_io.specs.MemSinks.{Bytes};

    ghost Value = { Bytes };

    ghost view = { λ s. record { bytes = s.bytes.items; room = s.room; step = s.step; fails = s.fails; calls = s.calls; faults = s.faults } };

    ghost invariant = { λ s. (length s.bytes.items ≤ s.room) × (s.room ≤ vec_capacity s.bytes) × (0 < s.step) };
}

impl MemSink {
    /// An empty sink with room for `room` bytes, of which a put takes at most `step`. Puts of pieces that aren't empty
    /// are numbered from 1, and those of the numbers in `fails` are to fail.
    pub fn new(
        alloc: Global,
        room: usize,
        step: usize,
        fails: List<u64>,
    ) -> Result<MemSink, NoMemory>
        requires { 0 < step }
        ensures { IfOk result (λ sink. sink ≡ opened room step fails) }
    {
        Ok(MemSink {
            bytes: Vec::with_capacity(alloc, room)?,
            room,
            step,
            fails,
            calls: 0,
            faults: 0,
        })
    }

    /// The bytes that were put so far.
    pub fn bytes(&self) -> &[u8]
        ensures { result.now ≡ self.now.bytes }
    {
        self.bytes.as_slice()
    }
}

impl Sink for MemSink {
    ghost sunk = { sunk_of };

    /// Takes as many bytes as the step and the room allow. It fails at the listed puts and where the room is used up.
    fn put(&mut self, piece: &[u8]) -> Result<usize, Failed>
        ensures answer { Puts (sunk_of self.old) (sunk_of self.new) piece.now result }
        ensures faults { self.old.faults ≤ self.new.faults }
        ensures empty { piece.now ≡ [] → self.new.faults ≡ self.old.faults }
        ensures range { self.old.faults ≤ last_count }
        ensures exact { result_ok result ≡ next_put self.old piece.now }
        ensures after { self.new ≡ after_put self.old piece.now (result_ok result) }
        ensures reliable { self.old.fails ≡ [] → length self.old.bytes + length piece.now ≤ self.old.room → IsOk result }
    {
        let left = self.room - self.bytes.len();
        if piece.is_empty() {
            return Ok(0);
        }
        self.calls = raised(self.calls, 1);
        let count = piece.len().min(self.step).min(left);
        if self.fails.as_slice().contains(&self.calls) || count == 0 {
            self.faults = raised(self.faults, 1);
            return Err(Failed);
        }
        match self.bytes.extend_from_slice(&piece[..count]) {
            Ok(()) => Ok(count),
            Err(_) => unreachable!(),
        }
    }
}
