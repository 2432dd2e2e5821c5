//! What is asked, as a line of text.

ghost use Rattle.std.specs.Prelude.{◌≡◌, ◌<◌, ◌++◌, OnOk, Some, length};
ghost use Rattle.cov_ast.specs.Plain.{plain};
ghost use Rattle.cov_ast.specs.View as view;
ghost use Rattle.cov_ast.specs.WellFormed.{IsWellFormed};
ghost use Rattle.entail_origins.specs.QuestionLines as spec;

use crate::kinds::{Asked, End, Question};
use crate::numbered_question::question;
use cov_ast::Program;
use cov_expr::{Blob, NoMemory};
use std::alloc::Global;
use text_parts::{add_lock_name, add_number, add_variable_name};

/// Adds a line that says what the entailment with a number, counted from 1, asks, of those of the statement at a place of a thread, and
/// how many these are. Nothing is added where there is no such statement or entailment.
pub fn add_question(
    alloc: Global,
    p: &Program,
    t: u32,
    place: u32,
    number: u32,
    text: &mut Blob,
) -> Result<(), NoMemory>
    requires formed { IsWellFormed (view.program p.now) }
    requires thread { t < length p.now.threads }
    ensures { OnOk result (text.new ≡ text.old ++ spec.question_line (view.program p.now) t place number) }
{
    match question(alloc, p, t, place, number)? {
        Some(asked) => add_question_line(p, number as usize, &asked, text),
        None => Ok(()),
    }
}

/// Adds the line of a question, which the entailment with a number asks.
pub fn add_question_line(
    p: &Program,
    number: usize,
    asked: &Asked,
    text: &mut Blob,
) -> Result<(), NoMemory>
    ensures { OnOk result (text.new ≡ text.old ++ spec.line_of (plain (view.program p.now)) number (Some asked.now)) }
{
    text.extend_from_slice(b"  entailment ")?;
    add_number(number, text)?;
    text.extend_from_slice(b" of ")?;
    add_number(asked.of, text)?;
    text.extend_from_slice(b" asks: ")?;
    add_sentence(p, asked.question, text)?;
    text.extend_from_slice(b"\n")
}

/// Adds what is asked, as a sentence.
fn add_sentence(p: &Program, question: Question, text: &mut Blob) -> Result<(), NoMemory>
    ensures { OnOk result (text.new ≡ text.old ++ spec.sentence (plain (view.program p.now)) question) }
{
    text.extend_from_slice(question_front(question).as_bytes())?;
    match question {
        Question::Written | Question::Guard | Question::HeadGuard | Question::Printed => {}
        Question::Shown(x)
        | Question::Controlled(x)
        | Question::Retyped(x)
        | Question::Freed(x)
        | Question::TypeOf(_, x) => add_variable_name(p, x, text)?,
        Question::Invariant(l) => add_lock_name(p, l, text)?,
        Question::Predicate(_, i) => add_number(i, text)?,
    }
    text.extend_from_slice(question_end(question).as_bytes())
}

/// What stands in front of the name or of the number; all of it where there is none.
fn question_front(question: Question) -> &'static str
    ensures { result.now ≡ spec.question_front question }
{
    match question {
        Question::Written =>
            "the type behind `as` gives the type that the value has by its variables",
        Question::Shown(_) | Question::Controlled(_) | Question::Freed(_) => "where ",
        Question::Retyped(_) => "where the new type of ",
        Question::Invariant(_) => "the invariant of ",
        Question::Guard => "the guard is public",
        Question::HeadGuard => "the guard is public at the head of the loop",
        Question::Printed => "the value is public",
        Question::Predicate(_, _) => "predicate ",
        Question::TypeOf(_, _) => "where the type listed for ",
    }
}

/// What stands behind the name or the number.
fn question_end(question: Question) -> &'static str
    ensures { result.now ≡ spec.question_end question }
{
    match question {
        Question::Shown(_) => " is low, the value is public",
        Question::Controlled(_) => " is low after the assignment, it is public before",
        Question::Retyped(_) => " holds after the assignment, that variable is public before",
        Question::Invariant(_) => " holds",
        Question::Freed(_) => " is low, it is public, since the lock hides it no longer",
        Question::Predicate(end, _) => match end {
            End::Here => " of the note holds",
            End::Entry => " of `inv` holds where the loop is entered",
            End::FirstBlock => " of `join` holds at the end of the first block",
            End::SecondBlock => " of `join` holds at the end of the `else` block",
            End::Body => " of `inv` holds at the end of the block",
        },
        Question::TypeOf(end, _) => match end {
            End::Here => " holds, that variable is public here",
            End::Entry => " holds, that variable is public where the loop is entered",
            End::FirstBlock => " holds, that variable is public at the end of the first block",
            End::SecondBlock => " holds, that variable is public at the end of the `else` block",
            End::Body => " holds, that variable is public at the end of the block",
        },
        Question::Written | Question::Guard | Question::HeadGuard | Question::Printed => "",
    }
}
