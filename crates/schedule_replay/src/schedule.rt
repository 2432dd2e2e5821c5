//! The entries of a schedule, from a JSON list.

ghost use Rattle.std.specs.Prelude.{◌≡◌, ◌≤◌, length, Some};
ghost use Rattle.cov_expr.specs.declared.limits.TheConstants.{MOST_ENTRIES};
ghost use Rattle.serde_json.specs.View.{items_view};
ghost use Rattle.schedule_replay.specs.Json.{value_of};
ghost use Rattle.schedule_replay.specs.Schedules as spec;

use crate::fault::ScheduleFault;
use crate::values::{Unread, number_below, read_value};
use cov_expr::{List, MOST_ENTRIES};
use serde_json::Value;
use std::alloc::Global;

/// The entries of a schedule, from a JSON list of numbers of threads, which are counted from 0 in the order of
/// declaration. It takes memory for the value that is read and for the entries.
pub fn read_schedule(alloc: Global, bytes: &[u8], threads: u32) -> Result<List<u32>, ScheduleFault>
    ensures { spec.GivesSchedule result (spec.schedule_of threads (value_of bytes.now)) }
{
    let value = match read_value(alloc, bytes) {
        Ok(value) => value,
        Err(Unread::Json) => return Err(ScheduleFault::Json),
        Err(Unread::NoMemory) => return Err(ScheduleFault::NoMemory),
    };
    match value.as_array() {
        Some(items) => read_items(alloc, items.as_slice(), threads),
        None => Err(ScheduleFault::NotList),
    }
}

/// What the items of a list say.
fn read_items(alloc: Global, items: &[Value], threads: u32) -> Result<List<u32>, ScheduleFault>
    ensures { spec.GivesSchedule result (spec.schedule_at threads (Some (items_view items.now))) }
{
    if items.len() > MOST_ENTRIES {
        return Err(ScheduleFault::TooMany);
    }
    read_entries(alloc, items, threads)
}

/// The entries, or the first that is no number of a thread.
fn read_entries(alloc: Global, items: &[Value], threads: u32) -> Result<List<u32>, ScheduleFault>
    requires { length items.now ≤ MOST_ENTRIES }
    ensures { spec.GivesSchedule result (spec.entries_from threads 0 (items_view items.now)) }
{
    let mut entries = List::with_capacity(alloc, items.len())?;
    for (i, item) in items.iter().enumerate() {
        match number_below(item, u64::from(threads)) {
            Some(entry) => entries.push(entry)?,
            None => return Err(ScheduleFault::BadEntry(i as u32)),
        }
    }
    Ok(entries)
}
