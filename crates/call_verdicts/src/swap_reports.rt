//! The lines of `swap`: verdicts in the words of `check`, and how many statements were judged for each.

ghost use Rattle.std.specs.Prelude.{◌≡◌, ◌++◌, IfOk, OnOk, flat_map, map};
ghost use Rattle.cov_ast.specs.View as view;
ghost use Rattle.call_verdicts.specs.Swap as spec;

use call_reports::{Totals, add_accepted, add_counted, add_refusal};
use cov_ast::ThreadDecl;
use cov_expr::{Blob, List, Name, NoMemory};
use std::alloc::Global;
use thread_swap::{Judged, Line};

/// The names of threads, in their order.
pub fn thread_names(alloc: Global, threads: &[ThreadDecl]) -> Result<List<Name>, NoMemory>
    ensures { IfOk result (λ names. names ≡ map (λ t. t.name) (map view.thread threads.now)) }
{
    let mut names = List::new(alloc);
    for thread in threads {
        names.push(thread.name)?;
    }
    Ok(names)
}

/// The lines on a program whose threads have these names, one behind the other.
pub fn lines_text(alloc: Global, names: &[Name], lines: &[Line]) -> Result<Blob, NoMemory>
    ensures { IfOk result (λ text. text ≡ flat_map (spec.line_text names.now) lines.now) }
{
    let mut text = List::new(alloc);
    for line in lines {
        add_line(names, line, &mut text)?;
    }
    Ok(text)
}

fn add_line(names: &[Name], line: &Line, text: &mut Blob) -> Result<(), NoMemory>
    ensures { OnOk result (text.new ≡ text.old ++ spec.line_text names.now line.now) }
{
    add_verdict(names, &line.verdict, text)?;
    text.extend_from_slice(b" checked ")?;
    add_counted(line.checked, b"\n", text)
}

fn add_verdict(names: &[Name], verdict: &Judged, text: &mut Blob) -> Result<(), NoMemory>
    ensures { OnOk result (text.new ≡ text.old ++ spec.verdict_words names.now verdict.now) }
{
    match verdict {
        Judged::Accepted(count) => add_accepted(
            &Totals {
                threads: names.len() as u64,
                statements: count.statements,
                entailments: count.entailments,
            },
            text,
        ),
        Judged::Refused(refusal) => add_refusal(refusal, name_at(names, refusal.thread), text),
    }
}

/// The name of a thread by its number.
fn name_at(names: &[Name], thread: Option<u32>) -> Option<Name>
    ensures { result ≡ spec.name_at names.now thread }
{
    let name = names.get(thread? as usize)?;
    Some(*name)
}
