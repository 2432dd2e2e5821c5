//! The reports on runs of code.

ghost use Rattle.std.specs.Prelude.{◌≡◌, ◌++◌, ◌<◌, ◌≤◌, IfOk, OnOk, codes, length, map};
ghost use Rattle.cov_ast.specs.View as view;
ghost use Rattle.cov_expr.specs.declared.limits.TheConstants.{MOST_THREADS};
ghost use Rattle.schedule_replay.specs.CodeReplays.{DeclaresAsMany};
ghost use Rattle.replay_reports.specs.CodeReports as spec;
ghost use Rattle.replay_reports.specs.RunReports.{declaration_line, lines_from};

use crate::run_reports::{add_agreement, add_locks, add_outputs, add_pairs, add_vars};
use call_reports::{add_name, add_numbered};
use cov_ast::{Program, ThreadDecl};
use cov_expr::{Blob, List, NoMemory};
use risc_machine::Risc;
use std::alloc::Global;

/// The report on a run of code of so many steps, of which so many stayed, and on the machine after it.
pub fn code_report(
    alloc: Global,
    p: &Program,
    risc: &Risc<'_>,
    steps: u32,
    stayed: u32,
) -> Result<Blob, NoMemory>
    requires declared { DeclaresAsMany (risc.now).parts p.now }
    requires few { length p.now.threads ≤ MOST_THREADS }
    ensures { IfOk result (λ text. text ≡ spec.code_report (view.program p.now) (risc.now).parts steps stayed (risc.now).state) }
{
    let mut text = List::new(alloc);
    add_numbered(b"steps ", steps, &mut text)?;
    add_numbered(b"stayed ", stayed, &mut text)?;
    add_vars(p.vars.as_slice(), risc.memory(), &mut text)?;
    add_code_state(p, risc, &mut text)?;
    Ok(text)
}

/// The report on two runs of code that agree after each of so many steps, and on their machines after them.
pub fn code_pair_report(
    alloc: Global,
    p: &Program,
    left: &Risc<'_>,
    right: &Risc<'_>,
    steps: u32,
) -> Result<Blob, NoMemory>
    requires left { DeclaresAsMany (left.now).parts p.now }
    requires right { DeclaresAsMany (right.now).parts p.now }
    requires few { length p.now.threads ≤ MOST_THREADS }
    ensures { IfOk result (λ text. text ≡ spec.code_pair_report (view.program p.now) (left.now).parts steps (left.now).state (right.now).state) }
{
    let mut text = List::new(alloc);
    add_agreement(steps, &mut text)?;
    add_pairs(p.vars.as_slice(), left.memory(), right.memory(), &mut text)?;
    add_code_state(p, left, &mut text)?;
    Ok(text)
}

/// Adds the locks, the threads and the outputs of a machine.
fn add_code_state(p: &Program, risc: &Risc<'_>, text: &mut Blob) -> Result<(), NoMemory>
    requires declared { DeclaresAsMany (risc.now).parts p.now }
    requires few { length p.now.threads ≤ MOST_THREADS }
    ensures { OnOk result (text.new ≡ text.old ++ spec.code_state_lines (view.program p.now) (risc.now).parts (risc.now).state) }
{
    add_locks(
        p.threads.as_slice(),
        p.locks.as_slice(),
        risc.holders(),
        text,
    )?;
    add_code_threads(p.threads.as_slice(), risc, text)?;
    add_outputs(risc.said(), text)
}

fn add_code_threads(
    threads: &[ThreadDecl],
    risc: &Risc<'_>,
    text: &mut Blob,
) -> Result<(), NoMemory>
    requires threads { length (risc.now).parts.threads ≡ length threads.now }
    requires few { length threads.now ≤ MOST_THREADS }
    ensures { OnOk result (text.new ≡ text.old
        ++ lines_from (spec.code_thread_line (risc.now).parts (risc.now).state) 0 (map view.thread threads.now)) }
{
    for (t, thread) in threads.iter().enumerate() {
        add_code_thread(next_position(risc, t as u32), thread, text)?;
    }
    Ok(())
}

fn add_code_thread(
    position: Option<u32>,
    thread: &ThreadDecl,
    text: &mut Blob,
) -> Result<(), NoMemory>
    ensures { OnOk result (text.new ≡ text.old ++ declaration_line (codes "thread ") (view.thread thread.now).name (spec.position_text position)) }
{
    add_name(b"thread ", &thread.name, text)?;
    match position {
        Some(i) => add_numbered(b" pc ", i, text),
        None => text.extend_from_slice(b" done\n"),
    }
}

/// The position of a thread, if it isn't finished.
fn next_position(risc: &Risc<'_>, t: u32) -> Option<u32>
    requires { t < length (risc.now).parts.threads }
    ensures { result ≡ spec.next_position (risc.now).parts (risc.now).state t }
{
    if risc.done(t) { None } else { Some(risc.pc(t)) }
}
