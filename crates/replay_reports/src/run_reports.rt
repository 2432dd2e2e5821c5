//! The reports on runs of a program, and the lines that those on runs of code have too.

ghost use Rattle.std.specs.Prelude.{◌≡◌, ◌++◌, ◌≤◌, IfOk, OnOk, codes, decimal, flat_map, length, map};
ghost use Rattle.cov_ast.specs.View as view;
ghost use Rattle.cov_expr.specs.declared.limits.TheConstants.{MOST_THREADS};
ghost use Rattle.flow_model.specs.FirstDifference.{held_by, holders_of};
ghost use Rattle.source_machine.specs.SourceMachine.{run_of};
ghost use Rattle.replay_reports.specs.RunReports as spec;

use call_reports::{add_name, add_number_behind, add_numbered, add_thread_name};
use cov_ast::{LockDecl, Program, ThreadDecl, VarDecl};
use cov_expr::{Blob, List, NoMemory};
use flow_model::Holder;
use schedule_replay::Until;
use source_machine::Source;
use std::alloc::Global;

/// The report on a run of so many steps, of which so many stayed, and on the machine after it.
pub fn run_report<'p>(
    alloc: Global,
    p: &'p Program,
    source: &Source<'p>,
    steps: u32,
    stayed: u32,
) -> Result<Blob, NoMemory>
    requires program { (source.now).program ≡ p.now }
    requires few { length p.now.threads ≤ MOST_THREADS }
    ensures { IfOk result (λ text. text ≡ spec.run_report (view.program p.now) steps stayed (run_of source.now)) }
{
    let mut text = List::new(alloc);
    add_run(p, source, steps, stayed, &mut text)?;
    Ok(text)
}

/// The report on a run that was to stop where an expression holds, and on the machine after it.
pub fn stop_report<'p>(
    alloc: Global,
    p: &'p Program,
    source: &Source<'p>,
    stop: &Until,
) -> Result<Blob, NoMemory>
    requires program { (source.now).program ≡ p.now }
    requires few { length p.now.threads ≤ MOST_THREADS }
    ensures { IfOk result (λ text. text ≡ spec.stop_line stop.now.hit stop.now.steps
        ++ spec.run_report (view.program p.now) stop.now.steps stop.now.stayed (run_of source.now)) }
{
    let mut text = List::new(alloc);
    add_stop(stop.hit, stop.steps, &mut text)?;
    add_run(p, source, stop.steps, stop.stayed, &mut text)?;
    Ok(text)
}

/// The report on two runs that agree after each of so many steps, and on their machines after them.
pub fn pair_report<'p>(
    alloc: Global,
    p: &'p Program,
    left: &Source<'p>,
    right: &Source<'p>,
    steps: u32,
) -> Result<Blob, NoMemory>
    requires left { (left.now).program ≡ p.now }
    requires right { (right.now).program ≡ p.now }
    requires few { length p.now.threads ≤ MOST_THREADS }
    ensures { IfOk result (λ text. text ≡ spec.pair_report (view.program p.now) steps (run_of left.now) (run_of right.now)) }
{
    let mut text = List::new(alloc);
    add_agreement(steps, &mut text)?;
    add_pairs(p.vars.as_slice(), left.memory(), right.memory(), &mut text)?;
    add_state(p, left, &mut text)?;
    Ok(text)
}

/// Adds the line that says that two runs agree after each of so many steps.
pub fn add_agreement(steps: u32, text: &mut Blob) -> Result<(), NoMemory>
    ensures { OnOk result (text.new ≡ text.old ++ (codes "agree: " ++ decimal steps ++ codes " steps\n")) }
{
    add_number_behind(b"agree: ", steps, text)?;
    text.extend_from_slice(b" steps\n")
}

/// Adds how a run ended that was to stop where an expression holds.
fn add_stop(hit: bool, steps: u32, text: &mut Blob) -> Result<(), NoMemory>
    ensures { OnOk result (text.new ≡ text.old ++ spec.stop_line hit steps) }
{
    if hit {
        add_numbered(b"stopped after ", steps, text)
    } else {
        text.extend_from_slice(b"not reached\n")
    }
}

/// Adds the report on a run.
fn add_run<'p>(
    p: &'p Program,
    source: &Source<'p>,
    steps: u32,
    stayed: u32,
    text: &mut Blob,
) -> Result<(), NoMemory>
    requires program { (source.now).program ≡ p.now }
    requires few { length p.now.threads ≤ MOST_THREADS }
    ensures { OnOk result (text.new ≡ text.old ++ spec.run_report (view.program p.now) steps stayed (run_of source.now)) }
{
    add_numbered(b"steps ", steps, text)?;
    add_numbered(b"stayed ", stayed, text)?;
    add_vars(p.vars.as_slice(), source.memory(), text)?;
    add_state(p, source, text)
}

/// Adds the locks, the threads and the outputs of a machine.
fn add_state<'p>(p: &'p Program, source: &Source<'p>, text: &mut Blob) -> Result<(), NoMemory>
    requires program { (source.now).program ≡ p.now }
    requires few { length p.now.threads ≤ MOST_THREADS }
    ensures { OnOk result (text.new ≡ text.old ++ spec.state_lines (view.program p.now) (run_of source.now)) }
{
    add_locks(
        p.threads.as_slice(),
        p.locks.as_slice(),
        source.holders(),
        text,
    )?;
    add_threads(p.threads.as_slice(), source, text)?;
    add_outputs(source.said(), text)
}

/// Adds a line for each variable, with its word.
pub fn add_vars(vars: &[VarDecl], memory: &[u32], text: &mut Blob) -> Result<(), NoMemory>
    requires { length memory.now ≡ length vars.now }
    ensures { OnOk result (text.new ≡ text.old ++ spec.lines_from (spec.var_line memory.now) 0 (map view.var vars.now)) }
{
    for (x, var) in vars.iter().enumerate() {
        add_var(memory[x], var, text)?;
    }
    Ok(())
}

fn add_var(word: u32, var: &VarDecl, text: &mut Blob) -> Result<(), NoMemory>
    ensures { OnOk result (text.new ≡ text.old ++ spec.declaration_line (codes "var ") (view.var var.now).name (decimal word)) }
{
    add_name(b"var ", &var.name, text)?;
    add_numbered(b" ", word, text)
}

/// Adds the two words of each variable.
pub fn add_pairs(
    vars: &[VarDecl],
    left: &[u32],
    right: &[u32],
    text: &mut Blob,
) -> Result<(), NoMemory>
    requires left { length left.now ≡ length vars.now }
    requires right { length right.now ≡ length vars.now }
    ensures { OnOk result (text.new ≡ text.old ++ spec.lines_from (spec.pair_line left.now right.now) 0 (map view.var vars.now)) }
{
    for (x, var) in vars.iter().enumerate() {
        add_pair(left[x], right[x], var, text)?;
    }
    Ok(())
}

fn add_pair(left: u32, right: u32, var: &VarDecl, text: &mut Blob) -> Result<(), NoMemory>
    ensures { OnOk result (text.new ≡ text.old ++ spec.declaration_line (codes "var ") (view.var var.now).name (decimal left ++ codes " " ++ decimal right)) }
{
    add_name(b"var ", &var.name, text)?;
    add_number_behind(b" ", left, text)?;
    add_numbered(b" ", right, text)
}

/// Adds a line for each lock, with its holder.
pub fn add_locks(
    threads: &[ThreadDecl],
    locks: &[LockDecl],
    holders: &[Holder],
    text: &mut Blob,
) -> Result<(), NoMemory>
    requires { length holders.now ≡ length locks.now }
    ensures { OnOk result (text.new ≡ text.old
        ++ spec.lines_from (spec.lock_line (map view.thread threads.now) (holders_of holders.now)) 0 (map view.lock locks.now)) }
{
    for (l, lock) in locks.iter().enumerate() {
        add_lock(threads, holders[l], lock, text)?;
    }
    Ok(())
}

fn add_lock(
    threads: &[ThreadDecl],
    holder: Holder,
    lock: &LockDecl,
    text: &mut Blob,
) -> Result<(), NoMemory>
    ensures { OnOk result (text.new ≡ text.old
        ++ spec.declaration_line (codes "lock ") (view.lock lock.now).name (spec.holder_text (map view.thread threads.now) (held_by holder))) }
{
    add_name(b"lock ", &lock.name, text)?;
    text.extend_from_slice(b" ")?;
    add_holder(threads, holder, text)?;
    text.extend_from_slice(b"\n")
}

fn add_holder(threads: &[ThreadDecl], holder: Holder, text: &mut Blob) -> Result<(), NoMemory>
    ensures { OnOk result (text.new ≡ text.old ++ spec.holder_text (map view.thread threads.now) (held_by holder)) }
{
    match holder.0 {
        Some(t) => add_thread_name(threads, t, text),
        None => text.extend_from_slice(b"free"),
    }
}

fn add_threads(threads: &[ThreadDecl], source: &Source<'_>, text: &mut Blob) -> Result<(), NoMemory>
    requires threads { length (source.now).program.threads ≡ length threads.now }
    requires few { length threads.now ≤ MOST_THREADS }
    ensures { OnOk result (text.new ≡ text.old ++ spec.lines_from (spec.thread_line (run_of source.now)) 0 (map view.thread threads.now)) }
{
    for (t, thread) in threads.iter().enumerate() {
        add_thread(source.place(t as u32), thread, text)?;
    }
    Ok(())
}

fn add_thread(place: Option<u32>, thread: &ThreadDecl, text: &mut Blob) -> Result<(), NoMemory>
    ensures { OnOk result (text.new ≡ text.old ++ spec.declaration_line (codes "thread ") (view.thread thread.now).name (spec.place_text place)) }
{
    add_name(b"thread ", &thread.name, text)?;
    match place {
        Some(at) => add_numbered(b" at ", at, text),
        None => text.extend_from_slice(b" done\n"),
    }
}

/// Adds a line for each output.
pub fn add_outputs(said: &[u32], text: &mut Blob) -> Result<(), NoMemory>
    ensures { OnOk result (text.new ≡ text.old ++ flat_map spec.output_line said.now) }
{
    for word in said {
        add_numbered(b"output ", *word, text)?;
    }
    Ok(())
}
