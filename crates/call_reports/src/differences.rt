//! The line on two runs that differ, and the names that reports on such runs and on unfit starts tell.

ghost use Rattle.std.specs.Prelude.{◌≡◌, ◌++◌, IfOk, OnOk, get_or, map, []};
ghost use Rattle.cov_ast.specs.View as view;
ghost use Rattle.call_reports.specs.Differences as names;
ghost use Rattle.call_reports.specs.Replies.{differ};
ghost use Rattle.call_reports.specs.Reports as spec;

use crate::lines::{add_between, add_number_behind};
use cov_ast::{LockDecl, Program, ThreadDecl, VarDecl};
use cov_expr::{Blob, List, NoMemory};
use flow_model::{BadStart, Differ};
use std::alloc::Global;

/// The line that says after which step two runs differ, and in what.
pub fn differ_line(alloc: Global, step: u32, what: &Blob) -> Result<Blob, NoMemory>
    ensures { IfOk result (λ line. line ≡ spec.report_of (differ step what.now)) }
{
    let mut line = List::new(alloc);
    add_number_behind(b"differ at step ", step, &mut line)?;
    add_between(b": ", what.as_slice(), b"\n", &mut line)?;
    Ok(line)
}

/// The name of what makes two memories unfit to start from.
pub fn bad_name(alloc: Global, p: &Program, found: &BadStart) -> Result<Blob, NoMemory>
    ensures { IfOk result (λ name. name ≡ names.bad_name (view.program p.now) found.now) }
{
    let mut name = List::new(alloc);
    match found {
        BadStart::Var(x) => add_var_name(p.vars.as_slice(), *x, &mut name)?,
        BadStart::Lock(l) => add_lock_name(p.locks.as_slice(), *l, &mut name)?,
    }
    Ok(name)
}

/// What two runs differ in.
pub fn differ_text(alloc: Global, p: &Program, differ: &Differ) -> Result<Blob, NoMemory>
    ensures { IfOk result (λ text. text ≡ names.differ_text (view.program p.now) differ.now) }
{
    let mut text = List::new(alloc);
    add_difference(p, differ, &mut text)?;
    Ok(text)
}

fn add_difference(p: &Program, differ: &Differ, text: &mut Blob) -> Result<(), NoMemory>
    ensures { OnOk result (text.new ≡ text.old ++ names.differ_text (view.program p.now) differ.now) }
{
    match differ {
        Differ::Lock(l) => add_lock_name(p.locks.as_slice(), *l, text),
        Differ::Var(x) => add_var_name(p.vars.as_slice(), *x, text),
        Differ::Output => text.extend_from_slice(b"output"),
        Differ::Thread(t) => add_thread_name(p.threads.as_slice(), *t, text),
    }
}

/// Adds the name of a variable, by its place.
fn add_var_name(vars: &[VarDecl], x: u32, text: &mut Blob) -> Result<(), NoMemory>
    ensures { OnOk result (text.new ≡ text.old ++ get_or (map (λ v. v.name) (map view.var vars.now)) x []) }
{
    match vars.get(x as usize) {
        Some(var) => text.extend_from_slice(var.name.text()),
        None => Ok(()),
    }
}

/// Adds the name of a lock, by its place.
fn add_lock_name(locks: &[LockDecl], l: u32, text: &mut Blob) -> Result<(), NoMemory>
    ensures { OnOk result (text.new ≡ text.old ++ get_or (map (λ lock. lock.name) (map view.lock locks.now)) l []) }
{
    match locks.get(l as usize) {
        Some(lock) => text.extend_from_slice(lock.name.text()),
        None => Ok(()),
    }
}

/// Adds the name of a thread, by its number.
pub fn add_thread_name(threads: &[ThreadDecl], t: u32, text: &mut Blob) -> Result<(), NoMemory>
    ensures { OnOk result (text.new ≡ text.old ++ names.name_at (map view.thread threads.now) t) }
{
    match threads.get(t as usize) {
        Some(thread) => text.extend_from_slice(thread.name.text()),
        None => Ok(()),
    }
}
