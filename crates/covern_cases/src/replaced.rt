//! A thread that is replaced as often as no text can say.
ghost use Rattle.std.specs.Prelude.{◌≤◌, All, IfOk, length, map};
ghost use Rattle.cov_ast.specs.View as view;
ghost use Rattle.cov_ast.specs.WellFormed.{IsWellFormed};
ghost use Rattle.cov_expr.specs.declared.limits.TheConstants.{MOST_BYTES};
ghost use Rattle.thread_swap.specs.Replacements.{IsReplacement};

use crate::failure::Failure;
use crate::parts::add_text;
use cov_ast::{Program, ThreadDecl};
use cov_expr::{Blob, List};
use cov_parse::parse;
use policy_class::resolve;
use std::alloc::Global;
use thread_swap::{Judge, Judged, Line, Rules, bind, swap_lines};

/// Puts the first thread of a text that declares nothing a thousand times in its own place. Adds how many lines that gives, the last of them, and
/// how many statements were judged.
pub fn add_replaced(alloc: Global, text: &[u8], out: &mut Blob) -> Result<(), Failure>
    requires { length text.now ≤ MOST_BYTES }
{
    let Ok(parsed) = parse(alloc, text) else {
        return Err(Failure::Usage);
    };
    match resolve(alloc, parsed) {
        Ok(program) => {
            let threads = thousand(alloc, &program, text)?;
            add_lines(alloc, program, threads, out)
        }
        Err(_) => Err(Failure::Usage),
    }
}

fn add_lines(
    alloc: Global,
    program: Program,
    threads: List<ThreadDecl>,
    out: &mut Blob,
) -> Result<(), Failure>
    requires formed { IsWellFormed (view.program program) }
    requires fit { All (IsReplacement (view.program program)) (map view.thread threads) }
{
    let mut judge = Rules::new();
    let lines = swap_lines(alloc, program, threads, &mut judge)?;
    let count = format!(in alloc; "{} lines\n{} judged\n", lines.len(), judge.judged())?;
    out.extend_from_slice(count.as_bytes())?;
    match lines.as_slice().last() {
        Some(line) => add_line(alloc, line, out),
        None => Ok(()),
    }
}

fn add_line(alloc: Global, line: &Line, out: &mut Blob) -> Result<(), Failure> {
    match line.verdict {
        Judged::Accepted(count) => add_text(
            format!(in alloc;
                "accepted {} {} checked {}\n",
                count.statements, count.entailments, line.checked
            ),
            out,
        ),
        Judged::Refused(_) => add_text(
            format!(in alloc; "refused checked {}\n", line.checked),
            out,
        ),
    }
}

/// A thousand times the first thread of a text.
fn thousand(alloc: Global, program: &Program, text: &[u8]) -> Result<List<ThreadDecl>, Failure>
    requires formed { IsWellFormed (view.program program.now) }
    requires short { length text.now ≤ MOST_BYTES }
    ensures { IfOk result (λ threads. All (IsReplacement (view.program program.now)) (map view.thread threads)) }
{
    let mut threads = List::new(alloc);
    for _ in 0..1000 {
        let thread = first_bound(alloc, program, text)?;
        threads.push(thread)?;
    }
    Ok(threads)
}

/// The first thread of a text.
fn first_bound(alloc: Global, program: &Program, text: &[u8]) -> Result<ThreadDecl, Failure>
    requires formed { IsWellFormed (view.program program.now) }
    requires short { length text.now ≤ MOST_BYTES }
    ensures { IfOk result (λ thread. IsReplacement (view.program program.now) (view.thread thread)) }
{
    let Ok(parsed) = parse(alloc, text) else {
        return Err(Failure::Usage);
    };
    match bind(alloc, program, parsed) {
        Ok(threads) => first_of(program, threads),
        Err(_) => Err(Failure::Usage),
    }
}

fn first_of(program: &Program, threads: List<ThreadDecl>) -> Result<ThreadDecl, Failure>
    requires { All (IsReplacement (view.program program.now)) (map view.thread threads) }
    ensures { IfOk result (λ thread. IsReplacement (view.program program.now) (view.thread thread)) }
{
    let mut rest = threads;
    let _ = program;
    if rest.is_empty() {
        return Err(Failure::Usage);
    }
    Ok(rest.remove(0))
}
