//! Values of JSON, and the whole numbers that they are.

ghost use Rattle.std.specs.Prelude.{◌≡◌, ◌^◌, ◌≤◌, is_some, option_map};
ghost use Rattle.serde_json.specs.Find.{get_member};
ghost use Rattle.serde_json.specs.View.{view, members_view};
ghost use Rattle.schedule_replay.specs.Inside.{IsRead};
ghost use Rattle.schedule_replay.specs.Json as spec;

use cov_expr::Name;
use serde_json::{Map, Value};
use std::alloc::Global;

/// Why no value was read.
#[derive(Clone, Copy)]
pub enum Unread {
    /// The bytes have no reading.
    Json,
    NoMemory,
}

/// The value that bytes are.
pub fn read_value(alloc: Global, bytes: &[u8]) -> Result<Value, Unread>
    ensures { IsRead bytes.now result }
{
    match Value::from_slice(alloc, bytes) {
        Ok(value) => Ok(value),
        Err(error) => {
            if error.is_memory() {
                Err(Unread::NoMemory)
            } else {
                Err(Unread::Json)
            }
        }
    }
}

/// The whole number that a value is, where it is below a bound.
pub fn number_below(value: &Value, bound: u64) -> Option<u32>
    requires { bound ≤ 2 ^ 32 }
    ensures { result ≡ spec.number_below bound (view value.now) }
{
    match value.as_u64() {
        Some(number) if number < bound => Some(number as u32),
        _ => None,
    }
}

/// The value of a name.
pub fn member<'v>(members: &'v Map<String, Value>, name: &Name) -> Option<&'v Value>
    ensures { option_map (λ d. view d.now) result ≡ get_member name.now (members_view members.now.entries) }
{
    match str::from_utf8(name.text()) {
        Ok(text) => members.get(text),
        Err(_) => None,
    }
}

/// Whether a name has a value.
pub fn has_member(members: &Map<String, Value>, name: &Name) -> bool
    ensures { result ≡ is_some (get_member name.now (members_view members.now.entries)) }
{
    member(members, name).is_some()
}
