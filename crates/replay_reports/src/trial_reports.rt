//! The reports on trials of a program.

ghost use Rattle.std.specs.Prelude.{◌≡◌, ◌++◌, IfOk, OnOk, flat_map, length};
ghost use Rattle.cov_ast.specs.View as view;
ghost use Rattle.call_reports.specs.Differences as names;
ghost use Rattle.call_reports.specs.Replies.{differ};
ghost use Rattle.call_reports.specs.Reports.{report_of};
ghost use Rattle.replay_reports.specs.TrialReports as spec;

use crate::run_reports::add_pairs;
use call_reports::{add_number_behind, add_numbered, differ_line, differ_text};
use cov_ast::Program;
use cov_expr::{Blob, List, NoMemory};
use schedule_replay::Found;
use std::alloc::Global;

/// The report on a trial with a number, whose two runs from two memories don't agree after some step, and on entries of its schedule.
pub fn apart_report(
    alloc: Global,
    p: &Program,
    trial: u32,
    found: &Found,
    left: &[u32],
    right: &[u32],
    entries: &[u32],
) -> Result<Blob, NoMemory>
    requires left { length left.now ≡ length p.now.vars }
    requires right { length right.now ≡ length p.now.vars }
    ensures { IfOk result (λ text. text ≡ spec.apart_report (view.program p.now) trial found.now left.now right.now entries.now) }
{
    let mut text = List::new(alloc);
    add_numbered(b"trial ", trial, &mut text)?;
    add_difference(alloc, p, found, &mut text)?;
    add_pairs(p.vars.as_slice(), left, right, &mut text)?;
    add_schedule(entries, &mut text)?;
    Ok(text)
}

/// The report on so many trials of which none has two runs that don't agree, and of which so many were fit to start from.
pub fn none_report(alloc: Global, trials: u32, fit: u32) -> Result<Blob, NoMemory>
    ensures { IfOk result (λ text. text ≡ spec.none_report trials fit) }
{
    let mut text = List::new(alloc);
    add_number_behind(b"none of ", trials, &mut text)?;
    add_number_behind(b" trials, ", fit, &mut text)?;
    text.extend_from_slice(b" fit\n")?;
    Ok(text)
}

/// Adds the line that says after which step two runs differ, and in what.
fn add_difference(
    alloc: Global,
    p: &Program,
    found: &Found,
    text: &mut Blob,
) -> Result<(), NoMemory>
    ensures { OnOk result (text.new ≡ text.old ++ report_of (differ found.now.step (names.differ_text (view.program p.now) found.now.differ))) }
{
    let what = differ_text(alloc, p, &found.differ)?;
    let line = differ_line(alloc, found.step, &what)?;
    text.extend_from_slice(line.as_slice())
}

/// Adds the line of a schedule.
fn add_schedule(entries: &[u32], text: &mut Blob) -> Result<(), NoMemory>
    ensures { OnOk result (text.new ≡ text.old ++ spec.schedule_line entries.now) }
{
    text.extend_from_slice(b"schedule")?;
    add_entries(entries, text)?;
    text.extend_from_slice(b"\n")
}

/// Adds the entries of a schedule.
fn add_entries(entries: &[u32], text: &mut Blob) -> Result<(), NoMemory>
    ensures { OnOk result (text.new ≡ text.old ++ flat_map spec.entry_text entries.now) }
{
    for t in entries {
        add_entry(*t, text)?;
    }
    Ok(())
}

fn add_entry(t: u32, text: &mut Blob) -> Result<(), NoMemory>
    ensures { OnOk result (text.new ≡ text.old ++ spec.entry_text t) }
{
    add_number_behind(b" ", t, text)
}
