//! Behind the line of V8: which statements of blocks take the locks in which their ends differ, or give them back.

ghost use Rattle.cov_expr.specs.declared.limits.TheConstants.{MOST_LOCKS};
ghost use Rattle.std.specs.Prelude.{◌≡◌, ◌++◌, ◌≤◌, ◌==◌, OnOk, length, map, option_map};
ghost use Rattle.cov_ast.specs.View as view;
ghost use Rattle.refusal_names.specs.LockChanges as spec;
ghost use Rattle.typing_law.specs.ThreadObligations as rules;

use cov_ast::{LockDecl, Stmt, StmtKind};
use cov_expr::{Blob, Name, NoMemory};
use mode_state::ModeState;
use statement_parts::parts_of;
use text_parts::add_line_of;

/// What changes a lock: the place of a statement, and whether it takes the lock.
type Change = (u32, bool);

/// Adds a line for each lock that is held at one of two places alone, at the end of a block and at another: the end of a second block, or else the start
/// of this one. It tells which statements of the blocks take the lock last, or give it back. The blocks are gone through once for each such lock.
pub fn add_changes(
    bytes: &[u8],
    locks: &[LockDecl],
    end: &ModeState,
    there: &ModeState,
    a: &[Stmt],
    other: Option<&[Stmt]>,
    text: &mut Blob,
) -> Result<(), NoMemory>
    requires { length locks.now ≤ MOST_LOCKS }
    ensures { OnOk result (text.new ≡ text.old
        ++ spec.changes bytes.now (end.now).held (there.now).held (view.block a.now) (option_map (λ b. view.block b.now) other.entry) 0 (map view.lock locks.now)) }
{
    for (number, lock) in locks.iter().enumerate() {
        let wanted = number as u32;
        let (held, held_there) = (end.holds(wanted), there.holds(wanted));
        add_if_apart(bytes, lock.name, wanted, held, held_there, a, other, text)?;
    }
    Ok(())
}

/// Adds the line of a lock, where it is held at one of the two places alone.
fn add_if_apart(
    bytes: &[u8],
    name: Name,
    wanted: u32,
    held: bool,
    held_there: bool,
    a: &[Stmt],
    other: Option<&[Stmt]>,
    text: &mut Blob,
) -> Result<(), NoMemory>
    ensures { OnOk result (text.new ≡ text.old
        ++ spec.change_if_apart bytes.now name wanted held held_there (view.block a.now) (option_map (λ b. view.block b.now) other.entry)) }
{
    if agree(held, held_there) {
        Ok(())
    } else {
        text.extend_from_slice(b"  ")?;
        text.extend_from_slice(name.text())?;
        text.extend_from_slice(first_front(other))?;
        add_change(bytes, held, last_change(wanted, a), text)?;
        match other {
            Some(b) => {
                text.extend_from_slice(b"; in the second: ")?;
                add_change(bytes, held_there, last_change(wanted, b), text)?;
            }
            None => {}
        }
        text.extend_from_slice(b"\n")
    }
}

/// Whether two truth values are the same.
fn agree(a: bool, b: bool) -> bool
    ensures { result ≡ rules.agree a b }
{
    if a { b } else { !b }
}

/// What stands in front of the words for the first block, or the only one.
fn first_front(other: Option<&[Stmt]>) -> &'static [u8]
    ensures { result.now ≡ spec.first_front (option_map (λ b. view.block b.now) other.entry) }
{
    match other {
        Some(_) => b", in the first block: ",
        None => b", in the block: ",
    }
}

/// Adds what changes a lock in a block, if something does, by whether it is held at the end.
fn add_change(
    bytes: &[u8],
    held: bool,
    change: Option<Change>,
    text: &mut Blob,
) -> Result<(), NoMemory>
    ensures { OnOk result (text.new ≡ text.old ++ spec.change_words bytes.now held change) }
{
    match change {
        Some((at, takes)) => {
            text.extend_from_slice(change_word(takes))?;
            add_line_of(bytes, at, text)
        }
        None => text.extend_from_slice(unchanged_words(held)),
    }
}

/// What a statement does to a lock.
fn change_word(takes: bool) -> &'static [u8]
    ensures { result.now ≡ spec.change_word takes }
{
    if takes {
        b"taken in line "
    } else {
        b"given back in line "
    }
}

/// What is told of a lock that a block leaves as it was.
fn unchanged_words(held: bool) -> &'static [u8]
    ensures { result.now ≡ spec.unchanged_words held }
{
    if held {
        b"not given back"
    } else {
        b"not taken"
    }
}

/// The last statement of a block that takes a lock or gives it back, if there is one.
#[cycle(changes)]
fn last_change(wanted: u32, body: &[Stmt]) -> Option<Change>
    ensures { result ≡ spec.last_change wanted (view.block body.now) }
{
    let mut last = None;
    for stmt in body {
        if let Some(change) = change_by(wanted, stmt.at, &stmt.kind) {
            last = Some(change);
        }
    }
    last
}

/// The last statement that takes a lock or gives it back, of a statement and the blocks by which the locks behind it go.
#[cycle(changes)]
fn change_by(wanted: u32, at: u32, kind: &StmtKind) -> Option<Change>
    ensures { result ≡ spec.change_by wanted at (view.kind kind.now) }
{
    let parts = parts_of(kind);
    if let Some(l) = parts.taken {
        return where_same(l, wanted, at, true);
    }
    if let Some(l) = parts.returned {
        return where_same(l, wanted, at, false);
    }
    match kind {
        StmtKind::If(_, a, _, _) => last_change(wanted, a.as_slice()),
        _ => None,
    }
}

/// A change at a place, where two locks are the same.
fn where_same(l: u32, wanted: u32, at: u32, takes: bool) -> Option<Change>
    ensures { result ≡ spec.change_where (l == wanted) at takes }
{
    if l == wanted { Some((at, takes)) } else { None }
}
