//! What runs take: a program, starts and a schedule, read from their files one behind the other.

ghost use Rattle.std.specs.Prelude.{◌≡◌, ◌≤◌, IfOk, MatchResult, length};
ghost use Rattle.replay_inputs.specs.InputViews.{IsPairInput, IsRunInput, pair_input, run_input, starts_of};
ghost use Rattle.replay_inputs.specs.Inputs as spec;
ghost use Rattle.call_inputs.specs.Readings.{HasRead, ended};
ghost use Rattle.replay_inputs.specs.Steps as step;
ghost use Rattle.call_reports.specs.AnswerViews.{Stops};
ghost use Rattle.call_reports.specs.Replies.{malformed};
ghost use Rattle.cov_ast.specs.View as view;
ghost use Rattle.cov_expr.specs.Words.{IsMemory, IsSchedule};
ghost use Rattle.cov_expr.specs.declared.limits.TheConstants.{MOST_ENTRIES, MOST_INPUT_BYTES, MOST_THREADS};

use crate::runs::{PairInput, RunInput, Starts};
use call_inputs::{fetch, read_program, unread};
use call_reports::{Fault, Stop};
use cov_ast::Parsed;
use cov_expr::{List, MOST_INPUT_BYTES};
use cov_io::Shelf;
use schedule_replay::{ScheduleFault, StartFault, read_schedule, read_start};
use std::alloc::Global;

/// The program, the start and the schedule that three files are.
pub fn read_run<'w, S: Shelf>(
    alloc: Global,
    program: &'w str,
    start: &'w str,
    schedule: &'w str,
    shelf: &mut S,
) -> Result<RunInput, Stop<'w>>
    ensures read { HasRead (S.shelved shelf.old) (S.shelved shelf.new) (step.run_input program.now start.now schedule.now) (ended run_input result) }
    ensures fits { IfOk result (λ input. IsRunInput input) }
{
    let parsed = read_program(alloc, program, shelf)?;
    let memory = read_memory(alloc, start, &parsed, shelf)?;
    let entries = read_entries(alloc, schedule, &parsed, shelf)?;
    Ok(RunInput {
        parsed,
        memory,
        entries,
    })
}

/// The program, the two starts and the schedule that four files are.
pub fn read_pair<'w, S: Shelf>(
    alloc: Global,
    program: &'w str,
    first: &'w str,
    second: &'w str,
    schedule: &'w str,
    shelf: &mut S,
) -> Result<PairInput, Stop<'w>>
    ensures read { HasRead (S.shelved shelf.old) (S.shelved shelf.new) (step.pair_input program.now first.now second.now schedule.now) (ended pair_input result) }
    ensures fits { IfOk result (λ input. IsPairInput input) }
{
    let parsed = read_program(alloc, program, shelf)?;
    let starts = read_starts(alloc, first, second, schedule, &parsed, shelf)?;
    Ok(PairInput {
        parsed,
        left: starts.left,
        right: starts.right,
        entries: starts.entries,
    })
}

/// The two starts and the schedule of a program that three files are.
fn read_starts<'w, S: Shelf>(
    alloc: Global,
    first: &'w str,
    second: &'w str,
    schedule: &'w str,
    parsed: &Parsed,
    shelf: &mut S,
) -> Result<Starts, Stop<'w>>
    requires { length parsed.now.threads ≤ MOST_THREADS }
    ensures read { HasRead (S.shelved shelf.old) (S.shelved shelf.new) (step.starts (view.parsed parsed.now) first.now second.now schedule.now)
        (ended (starts_of (view.parsed parsed.now)) result) }
    ensures left { IfOk result (λ starts. IsMemory (length parsed.now.vars) starts.left) }
    ensures right { IfOk result (λ starts. IsMemory (length parsed.now.vars) starts.right) }
    ensures threads { IfOk result (λ starts. IsSchedule (length parsed.now.threads) starts.entries) }
    ensures few { IfOk result (λ starts. length starts.entries ≤ MOST_ENTRIES) }
{
    let left = read_memory(alloc, first, parsed, shelf)?;
    let right = read_memory(alloc, second, parsed, shelf)?;
    let entries = read_entries(alloc, schedule, parsed, shelf)?;
    Ok(Starts {
        left,
        right,
        entries,
    })
}

/// The memory that a file is a start of.
pub fn read_memory<'w, S: Shelf>(
    alloc: Global,
    name: &'w str,
    parsed: &Parsed,
    shelf: &mut S,
) -> Result<List<u32>, Stop<'w>>
    ensures read { HasRead (S.shelved shelf.old) (S.shelved shelf.new) (step.memory (view.parsed parsed.now) name.now) (ended (λ memory. memory) result) }
    ensures fits { IfOk result (λ memory. IsMemory (length parsed.now.vars) memory) }
{
    let bytes = fetch(alloc, name, MOST_INPUT_BYTES, shelf)?;
    memory_of(alloc, name, bytes.as_slice(), parsed)
}

/// The memory that the bytes of a file are a start of.
fn memory_of<'w>(
    alloc: Global,
    name: &'w str,
    bytes: &[u8],
    parsed: &Parsed,
) -> Result<List<u32>, Stop<'w>>
    requires { length bytes.now ≤ MOST_INPUT_BYTES }
    ensures read { MatchResult result (λ memory. spec.IsStart (view.parsed parsed.now) bytes.now memory)
        (Stops (λ reply. (fault : Fault) × spec.IsStartFault (view.parsed parsed.now) bytes.now fault × (reply ≡ malformed name.now fault))) }
    ensures fits { IfOk result (λ memory. IsMemory (length parsed.now.vars) memory) }
{
    match read_start(alloc, bytes, &parsed.vars) {
        Ok(memory) => Ok(memory),
        Err(fault) => Err(unread(name, start_fault(fault))),
    }
}

/// The entries that a file is a schedule of.
pub fn read_entries<'w, S: Shelf>(
    alloc: Global,
    name: &'w str,
    parsed: &Parsed,
    shelf: &mut S,
) -> Result<List<u32>, Stop<'w>>
    requires { length parsed.now.threads ≤ MOST_THREADS }
    ensures read { HasRead (S.shelved shelf.old) (S.shelved shelf.new) (step.entries (view.parsed parsed.now) name.now) (ended (λ entries. entries) result) }
    ensures threads { IfOk result (λ entries. IsSchedule (length parsed.now.threads) entries) }
    ensures few { IfOk result (λ entries. length entries ≤ MOST_ENTRIES) }
{
    let bytes = fetch(alloc, name, MOST_INPUT_BYTES, shelf)?;
    entries_of(alloc, name, bytes.as_slice(), parsed)
}

/// The entries that the bytes of a file are a schedule of.
fn entries_of<'w>(
    alloc: Global,
    name: &'w str,
    bytes: &[u8],
    parsed: &Parsed,
) -> Result<List<u32>, Stop<'w>>
    requires short { length bytes.now ≤ MOST_INPUT_BYTES }
    requires threads { length parsed.now.threads ≤ MOST_THREADS }
    ensures read { MatchResult result (λ entries. spec.IsScheduleText (view.parsed parsed.now) bytes.now entries)
        (Stops (λ reply. (fault : Fault) × spec.IsScheduleFault (view.parsed parsed.now) bytes.now fault × (reply ≡ malformed name.now fault))) }
    ensures threads { IfOk result (λ entries. IsSchedule (length parsed.now.threads) entries) }
    ensures few { IfOk result (λ entries. length entries ≤ MOST_ENTRIES) }
{
    match read_schedule(alloc, bytes, parsed.threads.len() as u32) {
        Ok(entries) => Ok(entries),
        Err(fault) => Err(unread(name, schedule_fault(fault))),
    }
}

/// A fault of a start, as reports show it; want of memory is none.
fn start_fault(fault: StartFault) -> Option<Fault>
    ensures { result ≡ spec.start_shown fault }
{
    match fault {
        StartFault::Json => Some(Fault::Json),
        StartFault::NotObject => Some(Fault::NotObject),
        StartFault::Missing(name) => Some(Fault::Missing(name)),
        StartFault::Unknown => Some(Fault::UnknownKey),
        StartFault::NotWord(name) => Some(Fault::NotWord(name)),
        StartFault::NoMemory => None,
    }
}

/// A fault of a schedule, as reports show it; want of memory is none.
fn schedule_fault(fault: ScheduleFault) -> Option<Fault>
    ensures { result ≡ spec.schedule_shown fault }
{
    match fault {
        ScheduleFault::Json => Some(Fault::Json),
        ScheduleFault::NotList => Some(Fault::NotList),
        ScheduleFault::TooMany => Some(Fault::TooMany),
        ScheduleFault::BadEntry(i) => Some(Fault::BadEntry(i)),
        ScheduleFault::NoMemory => None,
    }
}
