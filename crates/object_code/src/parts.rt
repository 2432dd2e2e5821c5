//! Parts of an object: what is declared, threads and their lines, read from the front.

ghost use Rattle.std.specs.Prelude.{length, IfOk};
ghost use Rattle.cov_expr.specs.Words.{IsWord};
ghost use Rattle.object_code.specs.Inside.Given.{Gives};
ghost use Rattle.object_code.specs.Inside.ObjectReading as spec;

use crate::field::{WORDS, byte_within, name_at, number_at, past};
use crate::line::line_at;
use crate::opcode::Declared;
use crate::stop::Stop;
use cov_expr::{List, Name};
use risc_machine::{Line, Parts, ThreadCode};
use std::alloc::Global;

/// What stands before the threads.
#[derive(Drop)]
struct Front {
    version: u8,
    vars: List<Name>,
    locks: List<Name>,
}

/// The parts at the front.
#[tactic(auto, unfolding(crate::specs::Inside::ObjectReading::parts_at))]
pub fn parts_at(alloc: Global, bytes: &[u8]) -> Result<(Parts, &[u8]), Stop>
    ensures { Gives (λ x. (x.0, x.1.now)) result (spec.parts_at bytes.now) }
{
    let (front, rest) = front_at(alloc, bytes)?;
    let declared = Declared {
        version: front.version,
        vars: front.vars.len() as u32,
        locks: front.locks.len() as u32,
    };
    let (threads, rest) = threads_at(alloc, declared, rest)?;
    let parts = Parts {
        version: front.version,
        vars: front.vars,
        locks: front.locks,
        threads,
    };
    Ok((parts, rest))
}

#[tactic(auto, unfolding(crate::specs::Inside::ObjectReading::front_at))]
fn front_at(alloc: Global, bytes: &[u8]) -> Result<(Front, &[u8]), Stop>
    ensures front { Gives (λ x. (((x.0.version, x.0.vars), x.0.locks), x.1.now)) result (spec.front_at bytes.now) }
    ensures vars { IfOk result (λ x. IsWord (length x.0.vars)) }
    ensures locks { IfOk result (λ x. IsWord (length x.0.locks)) }
{
    let (version, rest) = version_at(bytes)?;
    let (vars, rest) = names_at(alloc, rest)?;
    let (locks, rest) = names_at(alloc, rest)?;
    let front = Front {
        version,
        vars,
        locks,
    };
    Ok((front, rest))
}

#[tactic(auto, unfolding(crate::specs::Inside::ObjectReading::version_at, crate::specs::Inside::ObjectReading::magic_at))]
fn version_at(bytes: &[u8]) -> Result<(u8, &[u8]), Stop>
    ensures { Gives (λ x. (x.0, x.1.now)) result (spec.version_at bytes.now) }
{
    let (_, rest) = byte_within(b'C', b'C', bytes)?;
    let (_, rest) = byte_within(b'O', b'O', rest)?;
    let (_, rest) = byte_within(b'V', b'V', rest)?;
    let (_, rest) = byte_within(b'O', b'O', rest)?;
    let (version, rest) = byte_within(1, 2, rest)?;
    Ok((version, rest))
}

/// How many names there are, and each of them.
#[tactic(auto, unfolding(crate::specs::Inside::ObjectReading::names_at))]
fn names_at(alloc: Global, bytes: &[u8]) -> Result<(List<Name>, &[u8]), Stop>
    ensures { Gives (λ x. (x.0, x.1.now)) result (spec.names_at bytes.now) }
{
    let (count, rest) = number_at(WORDS, bytes)?;
    let (names, rest) = many_names_at(alloc, count, rest)?;
    Ok((names, rest))
}

fn many_names_at(alloc: Global, count: u32, bytes: &[u8]) -> Result<(List<Name>, &[u8]), Stop>
    ensures { Gives (λ x. (x.0, x.1.now)) result (spec.many_at spec.name_at count bytes.now) }
{
    let mut names = List::new(alloc);
    let mut rest = bytes;
    for _ in 0..count {
        let (name, taken) = name_at(rest)?;
        names.push(name)?;
        rest = past(rest, taken);
    }
    Ok((names, rest))
}

/// How many threads there are, and each of them.
#[tactic(auto, unfolding(crate::specs::Inside::ObjectReading::threads_at))]
fn threads_at(
    alloc: Global,
    declared: Declared,
    bytes: &[u8],
) -> Result<(List<ThreadCode>, &[u8]), Stop>
    ensures { Gives (λ x. (x.0, x.1.now)) result (spec.threads_at declared bytes.now) }
{
    let (count, rest) = number_at(WORDS, bytes)?;
    let (threads, rest) = many_threads_at(alloc, declared, count, rest)?;
    Ok((threads, rest))
}

fn many_threads_at(
    alloc: Global,
    declared: Declared,
    count: u32,
    bytes: &[u8],
) -> Result<(List<ThreadCode>, &[u8]), Stop>
    ensures { Gives (λ x. (x.0, x.1.now)) result (spec.many_at (spec.thread_at declared) count bytes.now) }
{
    let mut threads = List::new(alloc);
    let mut rest = bytes;
    for _ in 0..count {
        let (thread, after) = thread_at(alloc, declared, rest)?;
        threads.push(thread)?;
        rest = after;
    }
    Ok((threads, rest))
}

#[tactic(auto, unfolding(crate::specs::Inside::ObjectReading::thread_at, crate::specs::Inside::ObjectReading::thread_head_at))]
fn thread_at(alloc: Global, declared: Declared, bytes: &[u8]) -> Result<(ThreadCode, &[u8]), Stop>
    ensures { Gives (λ x. (x.0, x.1.now)) result (spec.thread_at declared bytes.now) }
{
    let (name, taken) = name_at(bytes)?;
    let (count, rest) = number_at(WORDS, past(bytes, taken))?;
    let (lines, rest) = lines_at(alloc, declared, count, rest)?;
    Ok((ThreadCode { name, lines }, rest))
}

fn lines_at(
    alloc: Global,
    declared: Declared,
    count: u32,
    bytes: &[u8],
) -> Result<(List<Line>, &[u8]), Stop>
    ensures { Gives (λ x. (x.0, x.1.now)) result (spec.many_at (spec.line_at declared) count bytes.now) }
{
    let mut lines = List::new(alloc);
    let mut rest = bytes;
    for _ in 0..count {
        let (line, after) = line_at(declared, rest)?;
        lines.push(line)?;
        rest = after;
    }
    Ok((lines, rest))
}
