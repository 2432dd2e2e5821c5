//! The words of a start, from a JSON object.

ghost use Rattle.std.specs.Prelude.{◌≡◌, ◌++◌};
ghost use Rattle.serde_json.specs.View.{members_view};
ghost use Rattle.schedule_replay.specs.Json.{value_of};
ghost use Rattle.schedule_replay.specs.Starts as spec;

use crate::fault::StartFault;
use crate::values::{Unread, has_member, member, number_below, read_value};
use cov_ast::VarDecl;
use cov_expr::{List, Name};
use serde_json::{Map, Value};
use std::alloc::Global;

/// The words of a start, one for each variable in the order of the declarations, from a JSON object whose keys are
/// their names. It takes memory for the value that is read and for the words. A name that is declared twice is one
/// key.
pub fn read_start(
    alloc: Global,
    bytes: &[u8],
    vars: &List<VarDecl>,
) -> Result<List<u32>, StartFault>
    ensures { spec.GivesStart result (spec.start_of vars.now (value_of bytes.now)) }
{
    let value = match read_value(alloc, bytes) {
        Ok(value) => value,
        Err(Unread::Json) => return Err(StartFault::Json),
        Err(Unread::NoMemory) => return Err(StartFault::NoMemory),
    };
    match value.as_object() {
        Some(members) => read_members(alloc, members, vars.as_slice()),
        None => Err(StartFault::NotObject),
    }
}

/// What the members of an object say.
fn read_members(
    alloc: Global,
    members: &Map<String, Value>,
    vars: &[VarDecl],
) -> Result<List<u32>, StartFault>
    ensures { spec.GivesStart result (spec.start_in vars.now (members_view members.now.entries)) }
{
    if let Some(name) = first_missing(members, vars) {
        return Err(StartFault::Missing(name));
    }
    if !are_declared(members, vars) {
        return Err(StartFault::Unknown);
    }
    read_words(alloc, members, vars)
}

/// The name of the first variable that is no key.
fn first_missing(members: &Map<String, Value>, vars: &[VarDecl]) -> Option<Name>
    ensures { result ≡ spec.first_missing (members_view members.now.entries) vars.now }
{
    for var in vars {
        if !has_member(members, &var.name) {
            return Some(var.name);
        }
    }
    None
}

/// Whether each key is the name of a variable. Keys differ, so it looks at no more keys than there are variables, and
/// at the first that is none.
fn are_declared(members: &Map<String, Value>, vars: &[VarDecl]) -> bool
    ensures { result ≡ spec.are_declared vars.now (members_view members.now.entries) }
{
    for (key, _value) in members.iter() {
        if !is_declared(vars, key.as_str().as_bytes()) {
            return false;
        }
    }
    true
}

fn is_declared(vars: &[VarDecl], key: &[u8]) -> bool
    ensures { result ≡ spec.is_declared vars.now key.now }
{
    for var in vars {
        if var.name.text() == key {
            return true;
        }
    }
    false
}

/// The word of each variable, or the first whose value is no word.
fn read_words(
    alloc: Global,
    members: &Map<String, Value>,
    vars: &[VarDecl],
) -> Result<List<u32>, StartFault>
    ensures { spec.GivesStart result (spec.words_of (members_view members.now.entries) vars.now) }
{
    let mut words = List::new(alloc);
    for var in vars {
        match read_word(members, &var.name) {
            Some(word) => words.push(word)?,
            None => return Err(StartFault::NotWord(var.name)),
        }
    }
    Ok(words)
}

/// The word of a name.
fn read_word(members: &Map<String, Value>, name: &Name) -> Option<u32>
    ensures { result ≡ spec.word_of (members_view members.now.entries) name.now }
{
    match member(members, name) {
        Some(value) => number_below(value, 4294967296),
        None => None,
    }
}
