//! The parts that the rows of a listing have given so far.

ghost use Rattle.std.specs.Prelude.{◌≡◌, length, OnOk};
ghost use Rattle.cov_expr.specs.Words.{IsWord};
ghost use Rattle.code_text.specs.Inside.Drafts.{CanStand};
ghost use Rattle.code_text.specs.Inside.ListingReading as spec;
ghost use Rattle.code_text.specs.declared.row.Row.TheVariants as row;

use crate::names::Names;
use crate::row::Row;
use cov_expr::{List, Name, NoMemory};
use risc_machine::{Line, Parts, ThreadCode};
use std::alloc::Global;
use std::marker::Model;

/// What was read of a listing, and how many lines of the last thread are left. Contracts see the parts and that number.
#[derive(Drop)]
pub struct Draft {
    version: u8,
    vars: Names,
    locks: Names,
    threads: List<ThreadCode>,
    left: u32,
}

impl Model for Draft {
    ghost use Rattle.std.specs.Coded.{codes};
    ghost use Rattle.cov_expr.specs.contracts.expr.Op as op;
    ghost use Rattle.risc_machine.specs.contracts.parts.Instr as instr;
    ghost use Rattle.code_text.specs.Inside.ListingReading.{Draft};

    ghost Value = { Draft };

    ghost coded = { Prim.hlevel (codes, op.the_row.coded, instr.the_row.coded) };

    ghost view = { λ d. record {
      parts = record { version = d.version; vars = d.vars; locks = d.locks; threads = d.threads };
      left = d.left;
    } };
}

impl Draft {
    /// Nothing but the version.
    pub fn begin(alloc: Global, version: u8) -> Draft
        ensures { result ≡ spec.begun version }
    {
        Draft {
            version,
            vars: Names::new(alloc),
            locks: Names::new(alloc),
            threads: List::new(alloc),
            left: 0,
        }
    }

    /// The version.
    pub fn version(&self) -> u8
        ensures { result ≡ (self.now).parts.version }
    {
        self.version
    }

    /// The variables.
    pub fn vars(&self) -> &Names
        ensures { result.now ≡ (self.now).parts.vars }
    {
        &self.vars
    }

    /// The locks.
    pub fn locks(&self) -> &Names
        ensures { result.now ≡ (self.now).parts.locks }
    {
        &self.locks
    }

    /// Whether no thread has begun.
    pub fn is_before_threads(&self) -> bool
        ensures { result ≡ spec.is_none (self.now).parts.threads }
    {
        self.threads.is_empty()
    }

    /// How many lines of the last thread are left.
    pub fn left(&self) -> u32
        ensures { result ≡ (self.now).left }
    {
        self.left
    }

    /// Adds a row, which may stand there. Where memory runs out the draft is to be dropped.
    pub fn add(&mut self, alloc: Global, row: Row) -> Result<(), NoMemory>
        requires stands { CanStand self.old row }
        requires vars { IsWord (length (self.old).parts.vars) }
        requires locks { IsWord (length (self.old).parts.locks) }
        ensures { OnOk result (self.new ≡ spec.with_row self.old row) }
    {
        match row {
            Row::Var(name) => self.vars.add(name),
            Row::Lock(name) => self.locks.add(name),
            Row::Thread(name, count) => self.add_thread(alloc, name, count),
            Row::Line(line) => self.add_line(line),
        }
    }

    fn add_thread(&mut self, alloc: Global, name: Name, count: u32) -> Result<(), NoMemory>
        ensures { OnOk result (self.new ≡ spec.with_row self.old (row.Thread name count)) }
    {
        let lines = List::new(alloc);
        self.threads.push(ThreadCode { name, lines })?;
        self.left = count;
        Ok(())
    }

    fn add_line(&mut self, line: Line) -> Result<(), NoMemory>
        ensures { OnOk result (self.new ≡ spec.with_row self.old (row.Line line)) }
    {
        push_line(self.threads.as_mut_slice(), line)?;
        self.left = self.left.saturating_sub(1);
        Ok(())
    }

    /// The parts.
    pub fn into_parts(self) -> Parts
        ensures { result ≡ self.parts }
    {
        Parts {
            version: self.version,
            vars: self.vars.into_list(),
            locks: self.locks.into_list(),
            threads: self.threads,
        }
    }
}

/// Adds a line at the end of the last thread.
fn push_line(threads: &mut [ThreadCode], line: Line) -> Result<(), NoMemory>
    ensures { OnOk result (threads.new ≡ spec.with_line threads.old line) }
{
    if threads.is_empty() {
        return Ok(());
    }
    let last = threads.len() - 1;
    threads[last].lines.push(line)
}
