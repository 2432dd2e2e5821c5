//! What is told of a program for which certificates are searched.

ghost use Rattle.std.specs.Prelude.{◌≡◌, ◌≤◌, ◌++◌, IfOk, IsTrue, OnOk, length, map};
ghost use Rattle.annotate.specs.AnnotatedText.{IsAsRead};
ghost use Rattle.call_inputs.specs.Programs.{SpellsProgram};
ghost use Rattle.call_reports.specs.declared.answers.Status.TheVariants as s;
ghost use Rattle.cov_ast.specs.Obligations.{all_hold};
ghost use Rattle.cov_ast.specs.View as view;
ghost use Rattle.cov_ast.specs.WellFormed.{IsWellFormed};
ghost use Rattle.cov_expr.specs.declared.limits.TheConstants.{MOST_BYTES};
ghost use Rattle.explain.specs.FileCalls.{TellsSuggested};
ghost use Rattle.explain.specs.Inside.Told.{AddsSuggested, IsDeclared, IsLeft, IsSearched, IsSuggested, outcome_of};
ghost use Rattle.explain.specs.SuggestedTexts as spec;
ghost use Rattle.mode_compat.specs.Declared.{declaration_obligations};
ghost use Rattle.policy_class.specs.Resolved.{name_obligations, resolved};

use crate::explanation::add_report;
use crate::files::tell_unread;
use crate::level_files::tell_malformed;
use crate::observers::{add_refused_lines, tell_unnamed};
use annotate::{Open, Outcome, texts_are_as_read};
use call_inputs::{fetch, parse_text};
use call_judge::check::thread_name;
use call_reports::{Answer, Status, Stop, add_number_behind, add_thread_name};
use cov_ast::{CheckFault, Parsed, Program, Refusal, ThreadDecl};
use cov_expr::{Blob, MOST_BYTES, NoMemory};
use cov_io::Shelf;
use deeper_text::annotate_deeper;
use policy_class::resolve;
use std::alloc::Global;
use tree_copies::copy_text;
use verify::check_declared;

/// Adds what is told of the program of a file for which certificates are searched, and gives its status.
pub fn tell_suggested<S: Shelf>(
    alloc: Global,
    name: &str,
    shelf: &mut S,
    text: &mut Blob,
) -> Result<Status, NoMemory>
    ensures { TellsSuggested (IsLeft (S.shelved shelf.new) (outcome_of text.new result)) name.now text.old (S.shelved shelf.old) }
{
    match fetch(alloc, name, MOST_BYTES, shelf) {
        Ok(bytes) => tell_bytes(alloc, name, bytes.as_slice(), text),
        Err(Stop::Answer(answer)) => tell_unread(alloc, answer, text),
        Err(Stop::NoMemory) => Err(NoMemory),
    }
}

/// Adds what is told of the bytes of a program for which certificates are searched.
fn tell_bytes(alloc: Global, name: &str, bytes: &[u8], text: &mut Blob) -> Result<Status, NoMemory>
    requires { length bytes.now ≤ MOST_BYTES }
    ensures { AddsSuggested name.now bytes.now text.old text.new result }
{
    texts_are_as_read();
    match parse_text(alloc, bytes) {
        Ok(parsed) => tell_parsed(alloc, name, bytes, parsed, text),
        Err(Some(fault)) => tell_malformed(alloc, name, bytes, fault, text),
        Err(None) => Err(NoMemory),
    }
}

/// Adds what is told of a text that bytes spell.
fn tell_parsed(
    alloc: Global,
    name: &str,
    bytes: &[u8],
    parsed: Parsed,
    text: &mut Blob,
) -> Result<Status, NoMemory>
    requires short { length bytes.now ≤ MOST_BYTES }
    requires spelled { SpellsProgram bytes.now (view.parsed parsed) }
    requires read { IsAsRead (view.parsed parsed) }
    ensures { IfOk result (λ status. IsSuggested name.now bytes.now (view.parsed parsed) text.old text.new status) }
{
    let again = copy_text(alloc, &parsed)?;
    match resolve(alloc, again) {
        Ok(program) => tell_named(alloc, name, bytes, parsed, &program, text),
        Err(CheckFault::Refused(refusal)) => tell_unnamed(alloc, name, bytes, refusal, text),
        Err(CheckFault::NoMemory) => Err(NoMemory),
    }
}

/// Adds what is told of a text whose names are in order, by the program that it stands for.
fn tell_named(
    alloc: Global,
    name: &str,
    bytes: &[u8],
    parsed: Parsed,
    program: &Program,
    text: &mut Blob,
) -> Result<Status, NoMemory>
    requires short { length bytes.now ≤ MOST_BYTES }
    requires read { IsAsRead (view.parsed parsed) }
    requires names { IsTrue (all_hold (name_obligations (view.parsed parsed))) }
    requires formed { IsWellFormed (view.program program.now) }
    requires resolved { view.program program.now ≡ resolved (view.parsed parsed) }
    ensures { IfOk result (λ status. IsDeclared name.now bytes.now (view.parsed parsed) text.old text.new status) }
{
    match check_declared(alloc, program) {
        Ok(()) => tell_searched(alloc, parsed, program, text),
        Err(CheckFault::Refused(refusal)) => {
            add_refused_lines(alloc, name, bytes, program, &refusal, text)?;
            Ok(Status::Refused)
        }
        Err(CheckFault::NoMemory) => Err(NoMemory),
    }
}

/// Adds a text with the certificates that are found for it, also by the deeper search, and what is left open.
fn tell_searched(
    alloc: Global,
    parsed: Parsed,
    program: &Program,
    text: &mut Blob,
) -> Result<Status, NoMemory>
    requires read { IsAsRead (view.parsed parsed) }
    requires names { IsTrue (all_hold (name_obligations (view.parsed parsed))) }
    requires formed { IsWellFormed (view.program program.now) }
    requires resolved { view.program program.now ≡ resolved (view.parsed parsed) }
    requires declared { IsTrue (all_hold (declaration_obligations (view.program program.now))) }
    ensures { IfOk result (λ status. IsSearched (view.parsed parsed) text.old text.new status) }
{
    let outcome = annotate_deeper(alloc, parsed, program)?;
    add_outcome(alloc, program.threads.as_slice(), &outcome, text)
}

/// Adds what a search comes to for a program with these threads, and gives the status of that.
fn add_outcome(
    alloc: Global,
    threads: &[ThreadDecl],
    outcome: &Outcome,
    text: &mut Blob,
) -> Result<Status, NoMemory>
    ensures { IfOk result (λ status. (status ≡ spec.status_by outcome.now.first s.Done)
        × (text.new ≡ text.old ++ (outcome.now.spelled ++ spec.closing (map view.thread threads.now) outcome.now.first outcome.now.unproved))) }
{
    text.extend_from_slice(outcome.spelled.as_slice())?;
    match &outcome.first {
        None => Ok(Status::Done),
        Some(refusal) => {
            add_closing(alloc, threads, refusal, outcome.unproved.as_slice(), text)?;
            Ok(Status::Refused)
        }
    }
}

/// Adds what is refused first, and what is left unproved, as comments.
fn add_closing(
    alloc: Global,
    threads: &[ThreadDecl],
    refusal: &Refusal,
    unproved: &[Open],
    text: &mut Blob,
) -> Result<(), NoMemory>
    ensures { OnOk result (text.new ≡ text.old ++ spec.closing_comments (map view.thread threads.now) refusal.now unproved.now) }
{
    let thread = thread_name(threads, refusal.thread);
    text.extend_from_slice(b"// ")?;
    add_report(alloc, Answer::Refused(*refusal, thread), text)?;
    for entailment in unproved {
        add_open_comment(threads, entailment, text)?;
    }
    Ok(())
}

/// Adds an entailment that is left unproved as a comment.
fn add_open_comment(
    threads: &[ThreadDecl],
    entailment: &Open,
    text: &mut Blob,
) -> Result<(), NoMemory>
    ensures { OnOk result (text.new ≡ text.old ++ spec.open_comment (map view.thread threads.now) entailment.now) }
{
    text.extend_from_slice(b"// open ")?;
    add_thread_name(threads, entailment.thread, text)?;
    add_number_behind(b" at ", entailment.place, text)?;
    add_number_behind(b" entailment ", entailment.number, text)?;
    text.extend_from_slice(b"\n")
}
