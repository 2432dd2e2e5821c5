//! The lines of `annotate` on what a search leaves unproved.

ghost use Rattle.std.specs.Prelude.{◌≡◌, ◌++◌, IfOk, OnOk, map};
ghost use Rattle.call_verdicts.specs.Annotations as spec;
ghost use Rattle.cov_ast.specs.View as view;

use annotate::Open;
use call_reports::{add_number_behind, add_thread_name};
use cov_ast::ThreadDecl;
use cov_expr::{Blob, List, NoMemory};
use std::alloc::Global;

/// A line for each entailment that is left unproved of a program with these threads.
pub fn unproved_lines(
    alloc: Global,
    threads: &[ThreadDecl],
    entailments: &[Open],
) -> Result<Blob, NoMemory>
    ensures { IfOk result (λ lines. lines ≡ spec.unproved_lines (map view.thread threads.now) entailments.now) }
{
    let mut lines = List::new(alloc);
    for entailment in entailments {
        add_unproved(threads, entailment, &mut lines)?;
    }
    Ok(lines)
}

fn add_unproved(threads: &[ThreadDecl], entailment: &Open, lines: &mut Blob) -> Result<(), NoMemory>
    ensures { OnOk result (lines.new ≡ lines.old ++ spec.unproved_line (map view.thread threads.now) entailment.now) }
{
    lines.extend_from_slice(b"open ")?;
    add_thread_name(threads, entailment.thread, lines)?;
    add_number_behind(b" at ", entailment.place, lines)?;
    add_number_behind(b" entailment ", entailment.number, lines)?;
    lines.extend_from_slice(b"\n")
}
