//! The line behind that of V13: that nothing is asked of a store, since others may not read the variable.

ghost use Rattle.std.specs.Prelude.{◌≡◌, ◌<◌, ◌++◌, OnOk, Some, length, option_map};
ghost use Rattle.cov_ast.specs.LocksAlong.{no_locks};
ghost use Rattle.cov_ast.specs.Plain.{plain};
ghost use Rattle.cov_ast.specs.View as view;
ghost use Rattle.cov_ast.specs.WellFormed.{IsStmInRange, IsWellFormed};
ghost use Rattle.statement_parts.specs.Parts as parts;
ghost use Rattle.statement_paths.specs.LocksHeld.{held_along};
ghost use Rattle.statement_paths.specs.Paths.{way};
ghost use Rattle.refusal_names.specs.UnaskedStores as spec;

use crate::refused::entailment_count;
use cov_ast::{LockDecl, Program, Rule};
use cov_expr::{Blob, NoMemory};
use entail_origins::lock_over;
use statement_parts::{Store, parts_of};
use statement_paths::{Way, modes_along};
use std::alloc::Global;
use text_parts::add_variable_name;

/// Behind a refusal by V13 of the statement at the end of a way, adds that nothing is asked of it, where it is a store, and what hides the variable.
pub fn add_unasked(
    alloc: Global,
    p: &Program,
    t: u32,
    rule: Rule,
    found: &Way<'_>,
    text: &mut Blob,
) -> Result<(), NoMemory>
    requires formed { IsWellFormed (view.program p.now) }
    requires thread { t < length p.now.threads }
    requires range { IsStmInRange (length p.now.vars) (length p.now.locks) (view.kind found.now.stmt.now.kind) }
    ensures { let w = way found.now in
        OnOk result (text.new ≡ text.old ++ spec.unasked_line (view.program p.now) t rule (held_along w.steps (no_locks (plain (view.program p.now)))) w.stm) }
{
    match rule {
        Rule::V13 => {
            let modes = modes_along(alloc, p, t, found.steps.as_slice())?;
            let count = entailment_count(alloc, p, &modes, &found.stmt.kind)?;
            if count == 0 {
                add_of_store(p, parts_of(&found.stmt.kind).store, text)
            } else {
                Ok(())
            }
        }
        _ => Ok(()),
    }
}

/// Adds the line of a store, if there is one.
fn add_of_store(p: &Program, store: Option<Store<'_>>, text: &mut Blob) -> Result<(), NoMemory>
    ensures { OnOk result (text.new ≡ text.old ++ spec.line_of_store (view.program p.now) (option_map parts.store_of store.entry)) }
{
    match store {
        Some(store) => {
            text.extend_from_slice(b"  nothing is asked of it, since others may not read ")?;
            add_variable_name(p, store.variable, text)?;
            add_hider(
                p,
                lock_over(store.variable, p.locks.as_slice()),
                store.variable,
                text,
            )
        }
        None => Ok(()),
    }
}

/// Adds what hides a variable.
fn add_hider(p: &Program, lock: Option<&LockDecl>, x: u32, text: &mut Blob) -> Result<(), NoMemory>
    ensures { OnOk result (text.new ≡ text.old ++ spec.hider_text (view.program p.now) (option_map (λ l. view.lock l.now) lock.entry) x) }
{
    match lock {
        Some(lock) => {
            text.extend_from_slice(b": the lock ")?;
            text.extend_from_slice(lock.name.text())?;
            add_hidden(p, b" has `hide ", x, text)
        }
        None => add_hidden(p, b": the thread assumes `hide ", x, text),
    }
}

/// Adds the list, with the variable in it.
fn add_hidden(p: &Program, front: &[u8], x: u32, text: &mut Blob) -> Result<(), NoMemory>
    ensures { OnOk result (text.new ≡ text.old ++ spec.hide_text (view.program p.now) front.now x) }
{
    text.extend_from_slice(front)?;
    add_variable_name(p, x, text)?;
    text.extend_from_slice(b"`\n")
}
