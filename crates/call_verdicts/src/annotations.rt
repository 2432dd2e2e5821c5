//! `annotate`: a program with the certificates that a search finds for it, or what is left unproved.

ghost use Rattle.std.specs.Prelude.{◌≡◌, ◌≤◌, IfOk, IsTrue, MatchResult, None, map};
ghost use Rattle.annotate.specs.AnnotatedText.{IsAsRead};
ghost use Rattle.call_inputs.specs.Plans.{CarriesOut};
ghost use Rattle.call_reports.specs.AnswerViews.{Gets, Stops, seen};
ghost use Rattle.call_verdicts.specs.Annotations.{annotate_plan, declared_rejection};
ghost use Rattle.call_verdicts.specs.Inside.{IsUndeclared, JudgesAnnotated, reply_by};
ghost use Rattle.cert_search.specs.declared.finder.TheConstants.{MOST_DEPTH};
ghost use Rattle.cov_ast.specs.Obligations.{all_hold};
ghost use Rattle.cov_ast.specs.View as view;
ghost use Rattle.cov_ast.specs.WellFormed.{IsWellFormed};
ghost use Rattle.mode_compat.specs.Declared.{declaration_obligations};
ghost use Rattle.policy_class.specs.Resolved.{resolved};

use crate::annotations_reports::unproved_lines;
use annotate::{Outcome, annotate as put_certificates, texts_are_as_read};
use call_inputs::read_program;
use call_judge::check::{named, thread_name};
use call_reports::{Answer, Stop};
use cov_ast::{CheckFault, Parsed, Program, ThreadDecl};
use cov_expr::NoMemory;
use cov_io::Shelf;
use std::alloc::Global;
use tree_copies::copy_text;
use verify::check_declared;

/// Puts certificates into the program of a file, which a search of this depth finds.
pub fn annotate<'w, S: Shelf>(
    alloc: Global,
    name: &'w str,
    depth: u32,
    shelf: &mut S,
) -> Result<Answer<'w>, Stop<'w>>
    requires { depth ≤ MOST_DEPTH }
    ensures { CarriesOut (S.shelved shelf.old) (S.shelved shelf.new) (annotate_plan name.now depth) result }
{
    texts_are_as_read();
    let parsed = read_program(alloc, name, shelf)?;
    annotated(alloc, parsed, depth)
}

/// The answer to what a text spells.
fn annotated<'w>(alloc: Global, parsed: Parsed, depth: u32) -> Result<Answer<'w>, Stop<'w>>
    requires read { IsAsRead (view.parsed parsed) }
    requires depth { depth ≤ MOST_DEPTH }
    ensures { Gets (JudgesAnnotated depth (view.parsed parsed)) result }
{
    let again = copy_text(alloc, &parsed)?;
    let program = named(alloc, again)?;
    declared(alloc, &parsed, &program)?;
    let outcome = put_certificates(alloc, parsed, &program, depth)?;
    Ok(answer_by(alloc, program.threads.as_slice(), outcome)?)
}

/// Whether the declarations of the program that a text stands for are in order.
fn declared<'w>(alloc: Global, parsed: &Parsed, program: &Program) -> Result<(), Stop<'w>>
    requires formed { IsWellFormed (view.program program.now) }
    requires resolved { view.program program.now ≡ resolved (view.parsed parsed.now) }
    ensures rejection { MatchResult result (λ _. declared_rejection (view.parsed parsed.now) ≡ None) (Stops (IsUndeclared (view.parsed parsed.now))) }
    ensures held { IfOk result (λ _. IsTrue (all_hold (declaration_obligations (view.program program.now)))) }
{
    match check_declared(alloc, program) {
        Ok(()) => Ok(()),
        Err(CheckFault::Refused(refusal)) => {
            let thread = thread_name(parsed.threads.as_slice(), refusal.thread);
            Err(Stop::Answer(Answer::Refused(refusal, thread)))
        }
        Err(CheckFault::NoMemory) => Err(Stop::NoMemory),
    }
}

/// The answer by what a search gave for a program with these threads.
fn answer_by<'w>(
    alloc: Global,
    threads: &[ThreadDecl],
    outcome: Outcome,
) -> Result<Answer<'w>, NoMemory>
    ensures { IfOk result (λ answer. seen answer ≡ reply_by (map view.thread threads.now) outcome.spelled outcome.unproved outcome.first) }
{
    let Outcome {
        spelled,
        first,
        unproved,
    } = outcome;
    match first {
        None => Ok(Answer::Spelled(spelled)),
        Some(refusal) => {
            let thread = thread_name(threads, refusal.thread);
            let lines = unproved_lines(alloc, threads, unproved.as_slice())?;
            Ok(Answer::RefusedOpen(refusal, thread, lines))
        }
    }
}
