//! The source machine: a program that runs.

ghost use Rattle.std.specs.Prelude.{◌≡◌, ◌+◌, ◌<◌, ◌≤◌, ◌↔◌, ℕ, [], length, map, All, IfOk, IsTrue, MatchOption};
ghost use Rattle.cov_ast.specs.View as view;
ghost use Rattle.cov_ast.specs.Plain.{plain};
ghost use Rattle.cov_ast.specs.WellFormed.{IsWellFormed, block_size, most_size};
ghost use Rattle.flow_model.specs.Agreement.{IsAlikeAt, IsFirstApart};
ghost use Rattle.flow_model.specs.FirstDifference.{holders_of};
ghost use Rattle.flow_model.specs.Source as spec;
ghost use Rattle.source_machine.specs.Inside.Stacks.{AllStart};
ghost use Rattle.source_machine.specs.SourceMachine.{change_of};

use crate::change::Change;
use crate::shared::{Shared, all_free};
use crate::thread::Thread;
use cov_ast::{Program, ThreadDecl};
use cov_expr::{List, NoMemory};
use flow_model::{Holder, Stepped};
use std::alloc::Global;
use std::marker::Model;

/// A program that runs. It takes memory when it starts, and none from then on.
pub struct Source<'p> {
    program: &'p Program,
    shared: Shared,
    threads: Vec<Thread<'p>>,
}

impl Drop for Source<'_> {
    fn drop(self) {
        let Source {
            program: _,
            shared,
            threads,
        } = self;
        drop(shared);
        drop(threads);
    }
}

impl<'p> Model for Source<'p> {
    ghost use Rattle.std.specs.Prelude.{map, vec_capacity};
    ghost use Rattle.source_machine.specs.Inside.Sound.{standing, IsSound};
    ghost use Rattle.source_machine.specs.SourceMachine.{RunningProgram};

    ghost Value = { RunningProgram };

    ghost use Rattle.std.specs.Coded.{codes};
    ghost use Rattle.cov_expr.specs.contracts.expr.Expr as e;
    ghost use Rattle.cov_ast.specs.contracts.stmt.Stmt as stmt;
    ghost use Rattle.cov_ast.specs.contracts.stmt.StmtKind as kind;
    ghost use Rattle.cov_ast.specs.contracts.cert.Cert as cert;

    ghost coded = { Prim.hlevel (codes, e.the_row.coded, stmt.the_row.coded, kind.the_row.coded, cert.the_row.coded) };

    ghost view = { λ s. record {
      program = s.program.now;
      memory = s.shared.memory;
      holders = s.shared.holders;
      outputs = s.shared.said.items;
      room = vec_capacity s.shared.said;
      threads = map standing s.threads.items;
    } };

    ghost invariant = { λ s. IsSound s.program.now s.shared s.threads.items };
}

impl<'p> Source<'p> {
    ghost use Rattle.source_machine.specs.SourceMachine.{run_of};

    /// A program at its start: this memory, one word for each variable, all locks free, nothing put out, and each thread in
    /// front of its body. The memory for all frames and for `room` outputs is taken here.
    pub fn start(
        alloc: Global,
        p: &'p Program,
        memory: List<u32>,
        room: usize,
    ) -> Result<Source<'p>, NoMemory>
        requires formed { IsWellFormed (view.program p.now) }
        requires memory { length memory ≡ length p.now.vars }
        ensures program { IfOk result (λ source. source.program ≡ p.now) }
        ensures run { IfOk result (λ source. run_of source ≡ spec.begin (plain (view.program p.now)) memory) }
        ensures room { IfOk result (λ source. source.room ≡ room) }
    {
        let holders = all_free(alloc, p.locks.len())?;
        let said = Vec::with_capacity(alloc, room)?;
        let threads = start_threads(alloc, p.threads.as_slice())?;
        Ok(Source {
            program: p,
            shared: Shared {
                memory,
                holders,
                said,
            },
            threads,
        })
    }

    /// One step of a thread, and whether it stayed where it is, or was finished. It takes no memory, and the time of what it
    /// evaluates and of the notes that it passes over.
    pub fn step(&mut self, t: u32) -> Stepped
        requires thread { t < length (self.old).program.threads }
        requires room { length (run_of self.old).outputs < (self.old).room }
        ensures program { (self.new).program ≡ (self.old).program }
        ensures run { run_of self.new ≡ spec.step (run_of self.old) t }
        ensures room { (self.new).room ≡ (self.old).room }
        ensures grows { length (run_of self.new).outputs ≤ length (run_of self.old).outputs + 1 }
        ensures says { result ≡ spec.says (run_of self.old) t }
    {
        let thread = &mut self.threads[t as usize];
        thread.turn(&mut self.shared, t)
    }

    /// The memory.
    pub fn memory(&self) -> &[u32]
        ensures memory { result.now ≡ (run_of self.now).memory }
        ensures length { length result.now ≡ length (self.now).program.vars }
    {
        self.shared.memory.as_slice()
    }

    /// Who holds each lock.
    pub fn holders(&self) -> &[Holder]
        ensures holders { holders_of result.now ≡ (run_of self.now).holders }
        ensures length { length result.now ≡ length (self.now).program.locks }
    {
        self.shared.holders.as_slice()
    }

    /// The words that were put out, the first in front.
    pub fn said(&self) -> &[u32]
        ensures { result.now ≡ (run_of self.now).outputs }
    {
        self.shared.said.as_slice()
    }

    /// How many words may be put out in all.
    pub fn room(&self) -> usize
        ensures { result ≡ (self.now).room }
    {
        self.shared.said.capacity()
    }

    /// Whether nothing remains of a thread.
    pub fn done(&self, t: u32) -> bool
        requires { t < length (self.now).program.threads }
        ensures { IsTrue result ↔ (spec.items_of (run_of self.now) t ≡ []) }
    {
        self.threads[t as usize].first().is_none()
    }

    /// The place of the statement at which a thread stands, if anything remains of it.
    pub fn place(&self, t: u32) -> Option<u32>
        requires { t < length (self.now).program.threads }
        ensures { result ≡ spec.first_place (spec.items_of (run_of self.now) t) }
    {
        match self.threads[t as usize].first() {
            Some((stmt, _)) => Some(stmt.at),
            None => None,
        }
    }

    /// What the next step of a thread changes beside what remains of the thread, where it doesn't stay.
    pub fn change(&self, t: u32) -> Change
        requires { t < length (self.now).program.threads }
        ensures { result ≡ change_of (spec.items_of (run_of self.now) t) }
    {
        self.threads[t as usize].change()
    }

    /// Whether what remains of a thread is the same in another machine, but for the words of pending stores and pending
    /// outputs.
    pub fn same_list(&self, other: &Source<'p>, t: u32) -> bool
        requires program { (self.now).program ≡ (other.now).program }
        requires thread { t < length (self.now).program.threads }
        ensures { IsTrue result ↔ IsAlikeAt (run_of self.now) (run_of other.now) t }
    {
        self.threads[t as usize].stands_like(&other.threads[t as usize])
    }

    /// The first thread of which what remains differs in more than the words of pending stores and pending outputs. It takes
    /// the time of one look at each thread.
    pub fn same_lists(&self, other: &Source<'p>) -> Option<u32>
        requires { (self.now).program ≡ (other.now).program }
        ensures { MatchOption result ((t : ℕ) → IsAlikeAt (run_of self.now) (run_of other.now) t)
            (λ t. IsFirstApart IsAlikeAt (run_of self.now) (run_of other.now) (length (self.now).program.threads) t) }
    {
        for t in 0..self.threads.len() {
            if !self.threads[t].stands_like(&other.threads[t]) {
                return Some(t as u32);
            }
        }
        None
    }
}

/// Each thread in front of its body.
fn start_threads<'p>(alloc: Global, decls: &'p [ThreadDecl]) -> Result<Vec<Thread<'p>>, NoMemory>
    requires { All (λ d. block_size (view.block d.body) < most_size) decls.now }
    ensures { IfOk result (λ made. AllStart (map (λ d. view.block d.body) decls.now) made.items) }
{
    let mut threads = Vec::new(alloc);
    for decl in decls {
        threads.push(Thread::start(alloc, decl.body.as_slice())?)?;
    }
    Ok(threads)
}
