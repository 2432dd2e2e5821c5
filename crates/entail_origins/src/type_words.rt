//! The words on an origin, and on a later change.

ghost use Rattle.std.specs.Prelude.{◌≡◌, ◌++◌, OnOk};
ghost use Rattle.cov_ast.specs.View as view;
ghost use Rattle.cov_expr.specs.View.{term};
ghost use Rattle.entail_origins.specs.TypeLines as spec;

use crate::type_origin::{By, TypeChange};
use cov_ast::{NameTable, StmtKind};
use cov_expr::{Blob, Expr, NoMemory};
use cov_print::add_expr;
use statement_parts::parts_of;

/// What lists types, or doesn't.
pub fn list_word(by: By) -> &'static str
    ensures { result.now ≡ spec.list_word by }
{
    match by {
        By::Join => "join of the `if`",
        By::LoopState => "inv of the `while`",
        By::Noted => "note",
        By::Retype => "retype",
    }
}

/// Adds the value that a statement stores, or the type that is written for it.
pub fn add_stored(names: &NameTable, kind: &StmtKind, text: &mut Blob) -> Result<(), NoMemory>
    ensures { OnOk result (text.new ≡ text.old ++ spec.stored_text names.now (view.kind kind.now)) }
{
    match parts_of(kind).store {
        Some(store) => match store.written {
            None => add_quoted(names, b", of `", store.value, text),
            Some(q) => add_quoted(names, b", which says that it is `", q, text),
        },
        None => Ok(()),
    }
}

/// Adds an expression in quotes, behind some words that begin them.
fn add_quoted(names: &NameTable, words: &[u8], e: &Expr, text: &mut Blob) -> Result<(), NoMemory>
    ensures { OnOk result (text.new ≡ text.old ++ spec.quoted names.now words.now (term e.now)) }
{
    text.extend_from_slice(words)?;
    add_expr(names, false, e, text)?;
    text.extend_from_slice(b"`")
}

/// What is done that may forget a type.
pub fn change_word(change: TypeChange) -> &'static str
    ensures { result.now ≡ spec.change_word change }
{
    match change {
        TypeChange::ControlStored(_) => " is stored to",
        TypeChange::Returned(_) => " is given back",
    }
}

/// What stands behind the line of a change that is known, or of one that may have been.
pub fn change_end(is_known: bool, change: TypeChange) -> &'static str
    ensures { result.now ≡ spec.change_end is_known change }
{
    match (is_known, change) {
        (true, TypeChange::ControlStored(_)) => ", which it mentions, so that it becomes ",
        (false, TypeChange::ControlStored(_)) => ", which it may mention, so that it may become ",
        (true, TypeChange::Returned(_)) => {
            ", and it mentions what that protects, so that it becomes "
        }
        (false, TypeChange::Returned(_)) => {
            ", and it may mention what that protects, so that it may become "
        }
    }
}

/// The assignment, where the type is that of its value.
pub fn assignment_words(of_value: bool) -> &'static str
    ensures { result.now ≡ spec.assignment_words of_value }
{
    if of_value {
        ", or `as ..` at the assignment"
    } else {
        ""
    }
}
