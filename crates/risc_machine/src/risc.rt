//! The RISC machine: code that runs.

ghost use Rattle.std.specs.Prelude.{◌≡◌, ◌<◌, ◌≤◌, ◌↔◌, ℕ, length, replicate, IfOk, IsTrue, MatchOption, None};
ghost use Rattle.flow_model.specs.Agreement.{IsFirstApart};
ghost use Rattle.flow_model.specs.FirstDifference.{holders_of};
ghost use Rattle.risc_machine.specs.CodeAgreement.{HasSamePosition};
ghost use Rattle.risc_machine.specs.Machine as spec;

use crate::code::Code;
use crate::parts::Line;
use crate::state::State;
use cov_expr::{List, NoMemory};
use flow_model::{Holder, Stepped};
use std::alloc::Global;
use std::marker::Model;

/// Code that runs. It takes memory when it starts, and none from then on.
pub struct Risc<'c> {
    code: &'c Code,
    state: State,
}

impl Drop for Risc<'_> {
    fn drop(self) {
        let Risc { code: _, state } = self;
        drop(state);
    }
}

impl<'c> Model for Risc<'c> {
    ghost use Rattle.risc_machine.specs.Faults.{AreGood};
    ghost use Rattle.risc_machine.specs.Inside.{Fits, code_state, room_of};
    ghost use Rattle.risc_machine.specs.Running.{RunningCode};

    ghost Value = { RunningCode };

    ghost use Rattle.std.specs.Coded.{codes};
    ghost use Rattle.cov_expr.specs.contracts.expr.Op as op;
    ghost use Rattle.risc_machine.specs.contracts.parts.Instr as instr;

    ghost coded = { Prim.hlevel (codes, op.the_row.coded, instr.the_row.coded) };

    ghost view = { λ s. record {
      parts = s.code.now;
      state = code_state s.state;
      room = room_of s.state;
    } };

    ghost invariant = { λ s. Fits s.code.now (code_state s.state) };
}

impl<'c> Risc<'c> {
    /// Code at its start: this memory, one word for each variable, these registers of each thread, all locks free, no
    /// outputs, and each thread in front of its first line. The memory for so many outputs is taken here.
    pub fn start(
        alloc: Global,
        code: &'c Code,
        memory: List<u32>,
        registers: List<[u32; 8]>,
        room: usize,
    ) -> Result<Risc<'c>, NoMemory>
        requires memory { length memory ≡ length (code.now).vars }
        requires registers { length registers ≡ length (code.now).threads }
        ensures parts { IfOk result (λ risc. risc.parts ≡ code.now) }
        ensures state { IfOk result (λ risc. risc.state ≡ spec.code_begin code.now memory registers) }
        ensures room { IfOk result (λ risc. risc.room ≡ room) }
    {
        let parts = code.parts();
        let holders = all_free(alloc, parts.locks.len())?;
        let positions = all_first(alloc, parts.threads.len())?;
        let said = Vec::with_capacity(alloc, room)?;
        let state = State {
            memory,
            holders,
            said,
            registers,
            positions,
        };
        Ok(Risc { code, state })
    }

    /// One step of a thread, and whether it stayed where it is, or was finished. It takes constant time and no memory.
    pub fn step(&mut self, t: u32) -> Stepped
        requires thread { t < length (self.old).parts.threads }
        requires room { length (self.old).state.outputs < (self.old).room }
        ensures parts { (self.new).parts ≡ (self.old).parts }
        ensures state { (self.new).state ≡ spec.code_step (self.old).parts (self.old).state t }
        ensures says { result ≡ spec.code_says (self.old).parts (self.old).state t }
        ensures room { (self.new).room ≡ (self.old).room }
    {
        let parts = self.code.parts();
        let lines = parts.threads.as_slice()[t as usize].lines.as_slice();
        let here = self.state.positions.as_slice()[t as usize];
        match lines.get(here as usize) {
            None => Stepped::Idle,
            Some(line) => self.state.run(line.instr, t),
        }
    }

    /// The line that a thread runs next, if it isn't finished.
    pub fn next_line(&self, t: u32) -> Option<Line>
        requires { t < length (self.now).parts.threads }
        ensures { result ≡ spec.line_of (self.now).parts (self.now).state t }
    {
        let parts = self.code.parts();
        let lines = parts.threads.as_slice()[t as usize].lines.as_slice();
        let here = self.state.positions.as_slice()[t as usize];
        match lines.get(here as usize) {
            None => None,
            Some(line) => Some(*line),
        }
    }

    /// The memory.
    pub fn memory(&self) -> &[u32]
        ensures memory { result.now ≡ (self.now).state.memory }
        ensures length { length result.now ≡ length (self.now).parts.vars }
    {
        self.state.memory.as_slice()
    }

    /// Who holds each lock.
    pub fn holders(&self) -> &[Holder]
        ensures holders { holders_of result.now ≡ (self.now).state.holders }
        ensures length { length result.now ≡ length (self.now).parts.locks }
    {
        self.state.holders.as_slice()
    }

    /// The words that were put out so far.
    pub fn said(&self) -> &[u32]
        ensures { result.now ≡ (self.now).state.outputs }
    {
        self.state.said.as_slice()
    }

    /// For how many outputs there is room.
    pub fn room(&self) -> usize
        ensures { result ≡ (self.now).room }
    {
        self.state.said.capacity()
    }

    /// Whether a thread is finished.
    pub fn done(&self, t: u32) -> bool
        requires { t < length (self.now).parts.threads }
        ensures { IsTrue result ↔ (spec.line_of (self.now).parts (self.now).state t ≡ None) }
    {
        let parts = self.code.parts();
        let lines = parts.threads.as_slice()[t as usize].lines.as_slice();
        let here = self.state.positions.as_slice()[t as usize];
        here as usize >= lines.len()
    }

    /// The position of a thread.
    pub fn pc(&self, t: u32) -> u32
        requires { t < length (self.now).parts.threads }
        ensures { result ≡ spec.position (self.now).state t }
    {
        self.state.positions.as_slice()[t as usize]
    }

    /// The first thread that doesn't stand at the same position in another machine of as many threads. It takes the time of
    /// one look at each thread.
    pub fn same_positions(&self, other: &Risc<'c>) -> Option<u32>
        requires { length (self.now).parts.threads ≡ length (other.now).parts.threads }
        ensures { MatchOption result ((t : ℕ) → HasSamePosition (self.now).state (other.now).state t)
            (λ t. IsFirstApart HasSamePosition (self.now).state (other.now).state (length (self.now).parts.threads) t) }
    {
        let left = self.state.positions.as_slice();
        let right = other.state.positions.as_slice();
        for t in 0..self.code.parts().threads.len() {
            if left[t] != right[t] {
                return Some(t as u32);
            }
        }
        None
    }
}

/// Each of so many locks is free.
fn all_free(alloc: Global, count: usize) -> Result<List<Holder>, NoMemory>
    ensures { IfOk result (λ made. holders_of made ≡ replicate count None) }
{
    let mut holders = List::new(alloc);
    for _ in 0..count {
        holders.push(Holder(None))?;
    }
    Ok(holders)
}

/// Each of so many threads in front of its first line.
fn all_first(alloc: Global, count: usize) -> Result<List<u32>, NoMemory>
    ensures { IfOk result (λ made. made ≡ replicate count 0) }
{
    let mut positions = List::new(alloc);
    for _ in 0..count {
        positions.push(0)?;
    }
    Ok(positions)
}
