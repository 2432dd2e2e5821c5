//! `swap`: the verdict on a program, and on it after each replaced thread, by what a judge says.

ghost use Rattle.std.specs.Prelude.{◌≡◌, ◌+◌, ◌≤◌, IfOk, MatchResult, None, All, map};
ghost use Rattle.call_inputs.specs.Plans.{CarriesOutAsking, asks};
ghost use Rattle.call_reports.specs.AnswerViews.{Stops};
ghost use Rattle.call_reports.specs.Replies.{malformed};
ghost use Rattle.call_verdicts.specs.Inside.{IsMisfit};
ghost use Rattle.call_verdicts.specs.Swap as spec;
ghost use Rattle.call_verdicts.specs.Swap.{Swaps, SwapInput, due_by, fitting, misfit_rejection, misfit_shown, swap_plan};
ghost use Rattle.cov_ast.specs.Ready.{IsReady};
ghost use Rattle.cov_ast.specs.View as view;
ghost use Rattle.cov_ast.specs.WellFormed.{IsWellFormed};
ghost use Rattle.cov_io.specs.Shelves.{Shelved};
ghost use Rattle.thread_swap.specs.Binding.{bound};
ghost use Rattle.thread_swap.specs.Judges.{Passes};
ghost use Rattle.thread_swap.specs.Replacements.{IsReplacement};
ghost use Rattle.thread_swap.specs.SwapLines as lines;
ghost use Rattle.thread_swap.specs.SwapLines.{all_checked};

use crate::swap_reports::{lines_text, thread_names};
use call_inputs::{read_program, unread};
use call_judge::check::named;
use call_reports::{Answer, Fault, Misfit, Stop};
use cov_ast::{Parsed, Program, ThreadDecl};
use cov_expr::{Blob, List, NoMemory};
use cov_io::Shelf;
use std::alloc::Global;
use thread_swap::{Judge, SwapFault, bind, swap_lines};

/// Judges the program of a file, and again after each thread of another file is put in the place of the thread of its name.
pub fn swap<'w, S: Shelf, J: Judge>(
    alloc: Global,
    name: &'w str,
    replacing: &'w str,
    shelf: &mut S,
    judge: &mut J,
) -> Result<Answer<'w>, Stop<'w>>
    ensures does { CarriesOutAsking (S.shelved shelf.old) (S.shelved shelf.new) (J.judging judge.old).judged (J.judging judge.new).judged
        (swap_plan (J.judging judge.old) name.now replacing.now) result }
    ensures passes { Passes (J.judging judge.old) (J.judging judge.new) }
{
    let parsed = read_program(alloc, name, shelf)?;
    let threads = read_program(alloc, replacing, shelf)?;
    swap_texts(alloc, parsed, threads, replacing, judge)
}

/// Judges the program that a text spells, and again after each thread of another text.
fn swap_texts<'w, J: Judge>(
    alloc: Global,
    parsed: Parsed,
    threads: Parsed,
    replacing: &'w str,
    judge: &mut J,
) -> Result<Answer<'w>, Stop<'w>>
    requires program { IsReady (view.parsed parsed) }
    requires threads { IsReady (view.parsed threads) }
    ensures does { let j = J.judging judge.old in let i : SwapInput = record { program = view.parsed parsed; replacing = view.parsed threads } in
        (shelf : Shelved) → CarriesOutAsking shelf shelf j.judged (J.judging judge.new).judged (asks (fitting replacing.now i) (Swaps j) (due_by j)) result }
    ensures passes { Passes (J.judging judge.old) (J.judging judge.new) }
{
    let program = named(alloc, parsed)?;
    let given = bound_threads(alloc, &program, threads, replacing)?;
    let report = swap_report(alloc, program, given, judge)?;
    Ok(Answer::Ran(report))
}

/// The threads of a text for the places of those of a program.
fn bound_threads<'w>(
    alloc: Global,
    program: &Program,
    threads: Parsed,
    replacing: &'w str,
) -> Result<List<ThreadDecl>, Stop<'w>>
    requires formed { IsWellFormed (view.program program.now) }
    requires ready { IsReady (view.parsed threads) }
    ensures binds { MatchResult result
        (λ given. (misfit_rejection replacing.now (view.program program.now) (view.parsed threads) ≡ None)
        × (map view.thread given ≡ bound (view.program program.now) (view.parsed threads)))
        (Stops (IsMisfit replacing.now (view.program program.now) (view.parsed threads))) }
    ensures fit { IfOk result (λ given. All (IsReplacement (view.program program.now)) (map view.thread given)) }
{
    match bind(alloc, program, threads) {
        Ok(given) => Ok(given),
        Err(fault) => Err(unread(replacing, shown(fault))),
    }
}

/// A fault of a text of threads, as reports show it; want of memory is none.
fn shown(fault: SwapFault) -> Option<Fault>
    ensures { result ≡ misfit_shown fault }
{
    match fault {
        SwapFault::Version => Some(Fault::Misfit(Misfit::Version, 0)),
        SwapFault::Declares(at) => Some(Fault::Misfit(Misfit::Declares, at)),
        SwapFault::NoThread(at) => Some(Fault::Misfit(Misfit::Thread, at)),
        SwapFault::Unknown(at) => Some(Fault::Misfit(Misfit::Unknown, at)),
        SwapFault::NoMemory => None,
    }
}

/// The report on a program, and on it after each thread is put in the place of that of its name.
fn swap_report<J: Judge>(
    alloc: Global,
    program: Program,
    given: List<ThreadDecl>,
    judge: &mut J,
) -> Result<Blob, NoMemory>
    requires formed { IsWellFormed (view.program program) }
    requires fit { All (IsReplacement (view.program program)) (map view.thread given) }
    ensures report { IfOk result (λ text. text ≡ spec.swap_report (view.program program) (lines.swap_lines (J.judging judge.old) (view.program program) (map view.thread given))) }
    ensures passes { Passes (J.judging judge.old) (J.judging judge.new) }
    ensures count { IfOk result (λ _. (J.judging judge.new).judged
        ≡ (J.judging judge.old).judged + all_checked (lines.swap_lines (J.judging judge.old) (view.program program) (map view.thread given))) }
    ensures least { (J.judging judge.old).judged ≤ (J.judging judge.new).judged }
    ensures most { (J.judging judge.new).judged
        ≤ (J.judging judge.old).judged + all_checked (lines.swap_lines (J.judging judge.old) (view.program program) (map view.thread given)) }
{
    let names = thread_names(alloc, program.threads.as_slice())?;
    let lines = swap_lines(alloc, program, given, judge)?;
    lines_text(alloc, names.as_slice(), lines.as_slice())
}
