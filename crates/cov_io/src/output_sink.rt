//! A sink over the writes of an output.

ghost use Rattle.std.specs.Prelude.{◌≡◌, ◌≤◌, ◌<◌, [], IfOk, OnErr, length};
ghost use Rattle.cov_io.specs.Calls.{Tries, after_write, no_troubles};
ghost use Rattle.cov_io.specs.Counters.{last_count};
ghost use Rattle.cov_io.specs.Outputs.{IsPutCaused, after_answer};
ghost use Rattle.cov_io.specs.Sinks.{Puts, silent};

use crate::counts::{RETRIES, raised};
use crate::output::Output;
use crate::sink::{Failed, Sink};
use crate::system::System;
use crate::trouble::CallError;
use std::marker::Model;

/// A sink that writes to an output. It tells what was put where the output does.
///
/// Contracts see it as what a sink means, and how the calls of the output went.
#[derive(Drop)]
pub struct OutputSink<O: Output> {
    output: O,
    faults: u64,
}

impl<O: Output> Model for OutputSink<O> {
    ghost use Rattle.std.specs.Prelude.{◌≤◌};
    ghost use Rattle.cov_io.specs.Counters.{last_count};
    ghost use Rattle.cov_io.specs.Outputs.{Writing};

    ghost Value = { Writing };

    ghost view = { λ s. record { sunk = record { has = O.has s.output; faults = s.faults }; troubles = O.troubles s.output } };

    ghost invariant = { λ s. s.faults ≤ last_count };
}

/// Standard output. It tells nothing.
pub type StdSink<'r, R> = OutputSink<System<'r, R>>;

impl<'r, R: Print> OutputSink<System<'r, R>> {
    /// The standard output of a runtime, before the first fault.
    pub fn new(rt: &'r R) -> StdSink<'r, R>
        ensures { result ≡ record { sunk = silent 0; troubles = no_troubles } }
    {
        OutputSink {
            output: System::new(rt),
            faults: 0,
        }
    }
}

impl<O: Output> Sink for OutputSink<O> {
    ghost sunk = { λ s. s.sunk };

    /// One write, made again where a signal interrupts it. None is made of an empty piece.
    fn put(&mut self, piece: &[u8]) -> Result<usize, Failed>
        ensures answer { Puts self.old.sunk self.new.sunk piece.now result }
        ensures faults { self.old.sunk.faults ≤ self.new.sunk.faults }
        ensures empty { piece.now ≡ [] → self.new.sunk.faults ≡ self.old.sunk.faults }
        ensures range { self.old.sunk.faults ≤ last_count }
        ensures counted { self.new.sunk ≡ after_answer self.old.sunk piece.now result }
        ensures causes { IsPutCaused self.old.troubles self.new.troubles result }
    {
        match write_some(&mut self.output, piece) {
            Ok(count) => Ok(count),
            Err(_) => {
                self.faults = raised(self.faults, 1);
                Err(Failed)
            }
        }
    }
}

/// One write, made again where a signal interrupts it, and none of an empty piece.
fn write_some<O: Output>(output: &mut O, piece: &[u8]) -> Result<usize, CallError>
    ensures count { IfOk result (λ count. (count ≤ length piece.now) × (0 < length piece.now → 0 < count)) }
    ensures bytes { O.has output.new ≡ after_write (O.has output.old) piece.now result }
    ensures error { OnErr result (0 < length piece.now) }
    ensures tries { Tries (O.troubles output.old) (O.troubles output.new) result }
{
    if piece.is_empty() {
        return Ok(0);
    }
    for _ in 0..RETRIES {
        match output.write(piece) {
            Err(CallError::Interrupted) => {}
            answer => return answer,
        }
    }
    Err(CallError::Interrupted)
}
