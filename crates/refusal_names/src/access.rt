//! The line of V1 and of V2: which guarantee forbids an access, or which lock that isn't held.

ghost use Rattle.cov_expr.specs.declared.limits.TheConstants.{MOST_LOCKS};
ghost use Rattle.std.specs.Prelude.{◌≡◌, ◌++◌, ◌≤◌, OnOk, length, map, option_map};
ghost use Rattle.cov_ast.specs.View as view;
ghost use Rattle.refusal_names.specs.ForbiddenAccess as spec;
ghost use Rattle.refusal_names.specs.NameLines.{held_text};

use crate::ends::add_held;
use crate::reads::add_variable;
use cov_ast::{Detail, LockDecl, NameTable, ThreadDecl};
use cov_expr::{Blob, Name, NoMemory, has_number};
use mode_state::ModeState;
use std::alloc::Global;
use text_parts::add_line_of;

/// Adds why a thread may not read, or write, the variable that a refusal shows, by the locks that it holds.
pub fn add_access(
    alloc: Global,
    names: &NameTable,
    bytes: &[u8],
    t: &ThreadDecl,
    locks: &[LockDecl],
    modes: &ModeState,
    writes: bool,
    detail: Detail,
    text: &mut Blob,
) -> Result<(), NoMemory>
    requires { length locks.now ≤ MOST_LOCKS }
    ensures { OnOk result (text.new ≡ text.old
        ++ spec.shown_access names.now bytes.now (view.thread t.now) (map view.lock locks.now) (modes.now).held writes detail) }
{
    match detail {
        Detail::One(shown) => match names.find(shown) {
            Some(x) => match guarantee_forbidding(t, writes, x) {
                Some(word) => {
                    add_declared(bytes, b"thread", t.name, t.at, text)?;
                    add_list(names, b", has `guarantee ", word, x, b"`\n", text)
                }
                None => match first_forbidding(locks, modes, writes, x) {
                    Some((lock, word)) => {
                        add_lock_with_held(alloc, names, bytes, locks, modes, lock, word, x, text)
                    }
                    None => Ok(()),
                },
            },
            None => Ok(()),
        },
        _ => Ok(()),
    }
}

/// The word of the list of a thread's guarantees that forbids to read, or to write, a variable, if one does.
fn guarantee_forbidding(t: &ThreadDecl, writes: bool, x: u32) -> Option<&'static [u8]>
    ensures { option_map (λ w. w.now) result ≡ spec.guarantee_forbidding (view.thread t.now) writes x }
{
    let modes = &t.modes;
    forbidding(
        modes.guarantee_nowrite.as_slice(),
        modes.guarantee_hide.as_slice(),
        writes,
        x,
    )
}

/// The same of the lists of a lock, while it isn't held.
fn lock_forbidding(lock: &LockDecl, writes: bool, x: u32) -> Option<&'static [u8]>
    ensures { option_map (λ w. w.now) result ≡ spec.lock_forbidding (view.lock lock.now) writes x }
{
    forbidding(lock.nowrite.as_slice(), lock.hide.as_slice(), writes, x)
}

/// The word of the list that forbids to read, or to write, a variable, if one does.
fn forbidding(nowrite: &[u32], hide: &[u32], writes: bool, x: u32) -> Option<&'static [u8]>
    ensures { option_map (λ w. w.now) result ≡ spec.forbidding nowrite.now hide.now writes x }
{
    if has_number(hide, x) {
        Some(b"hide")
    } else if writes && has_number(nowrite, x) {
        Some(b"nowrite")
    } else {
        None
    }
}

/// The first lock that isn't held and forbids to read, or to write, a variable, with the word of its list.
pub fn first_forbidding<'p>(
    locks: &'p [LockDecl],
    modes: &ModeState,
    writes: bool,
    x: u32,
) -> Option<(&'p LockDecl, &'static [u8])>
    requires { length locks.now ≤ MOST_LOCKS }
    ensures { option_map (λ f. (view.lock f.0.now, f.1.now)) result ≡ spec.first_forbidding (modes.now).held writes x 0 (map view.lock locks.now) }
{
    for (number, lock) in locks.iter().enumerate() {
        if !modes.holds(number as u32) {
            if let Some(word) = lock_forbidding(lock, writes, x) {
                return Some((lock, word));
            }
        }
    }
    None
}

/// Adds the line of a lock that isn't held, with those that are.
pub fn add_lock_with_held(
    alloc: Global,
    names: &NameTable,
    bytes: &[u8],
    locks: &[LockDecl],
    modes: &ModeState,
    lock: &LockDecl,
    word: &[u8],
    x: u32,
    text: &mut Blob,
) -> Result<(), NoMemory>
    requires { length locks.now ≤ MOST_LOCKS }
    ensures { OnOk result (text.new ≡ text.old
        ++ spec.lock_text names.now bytes.now (view.lock lock.now) word.now x (held_text (map view.lock locks.now) (modes.now).held)) }
{
    add_lock(names, bytes, lock, word, x, text)?;
    add_held(alloc, locks, modes, text)?;
    text.extend_from_slice(b"\n")
}

/// Adds the line of a lock that isn't held, in front of those that are.
fn add_lock(
    names: &NameTable,
    bytes: &[u8],
    lock: &LockDecl,
    word: &[u8],
    x: u32,
    text: &mut Blob,
) -> Result<(), NoMemory>
    ensures { OnOk result (text.new ≡ text.old ++ spec.lock_start names.now bytes.now (view.lock lock.now) word.now x) }
{
    add_declared(bytes, b"lock", lock.name, lock.at, text)?;
    add_list(
        names,
        b", has `",
        word,
        x,
        b"`, and isn't held here; held: ",
        text,
    )
}

/// Adds what a declaration is, its name and its line.
fn add_declared(
    bytes: &[u8],
    kind: &[u8],
    declared: Name,
    at: u32,
    text: &mut Blob,
) -> Result<(), NoMemory>
    ensures { OnOk result (text.new ≡ text.old ++ spec.declared_text bytes.now kind.now declared at) }
{
    text.extend_from_slice(b"  ")?;
    text.extend_from_slice(kind)?;
    text.extend_from_slice(b" ")?;
    text.extend_from_slice(declared.text())?;
    text.extend_from_slice(b", line ")?;
    add_line_of(bytes, at, text)
}

/// Adds which variable stands in which list.
pub fn add_list(
    names: &NameTable,
    start: &[u8],
    word: &[u8],
    x: u32,
    end: &[u8],
    text: &mut Blob,
) -> Result<(), NoMemory>
    ensures { OnOk result (text.new ≡ text.old ++ spec.list_text names.now start.now word.now x end.now) }
{
    text.extend_from_slice(start)?;
    text.extend_from_slice(word)?;
    text.extend_from_slice(b" ")?;
    add_variable(names, x, text)?;
    text.extend_from_slice(end)
}
