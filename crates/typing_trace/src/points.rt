//! What is told of statements.

ghost use Rattle.std.specs.Prelude.{◌≡◌, ◌<◌, ◌++◌, OnOk, flat_map, length, map};
ghost use Rattle.cov_ast.specs.Plain.{plain};
ghost use Rattle.cov_ast.specs.View as view;
ghost use Rattle.cov_ast.specs.WellFormed.{IsStmInRange, IsWellFormed};
ghost use Rattle.mode_compat.specs.Compatible.{numbered};
ghost use Rattle.statement_paths.specs.Paths as paths;
ghost use Rattle.typing_points.specs.Traces.{AreInRange, IsTrace, plain_of};
ghost use Rattle.typing_trace.specs.PointLines as spec;
ghost use Rattle.typing_trace.specs.Spots.{spot};
ghost use Rattle.typing_trace.specs.declared.points.TheConstants.{MOST_TOLD};

use crate::ends::{BlockEnd, end_words, steps_to};
use crate::known::add_known_behind;
use crate::spots::{Span, Spot, bytes_of_lines, spots_of};
use cov_ast::{NameTable, Program, StmtKind};
use cov_expr::{Blob, NoMemory};
use entail_origins::{Asked, Question, add_question_line, questions};
use statement_paths::{Step, Way, hidden_after_steps, way_to};
use std::alloc::Global;
use text_parts::{add_excerpt, add_number, position, variable_names};
use typing_points::Trace;

/// Of how many statements is told.
const MOST_TOLD: usize = 256;

/// Adds what is known in front of the statements of a program, and what their entailments ask: of those that begin in the line of a number, counted from 1, or of
/// all. `bytes` are the text of the program.
///
/// Of each it takes the time of a check of the statements in front of it in its thread, and time in proportion to what is known times the steps to it.
pub fn add_points(
    alloc: Global,
    p: &Program,
    bytes: &[u8],
    number: Option<usize>,
    text: &mut Blob,
) -> Result<(), NoMemory>
    requires { IsWellFormed (view.program p.now) }
    ensures { OnOk result (text.new ≡ text.old ++ spec.point_lines (view.program p.now) bytes.now number) }
{
    let span = match number {
        Some(number) => Some(Span {
            from: bytes_of_lines(number.saturating_sub(1), bytes),
            to: bytes_of_lines(number, bytes),
        }),
        None => None,
    };
    let spots = spots_of(alloc, span, p.threads.as_slice())?;
    add_told(alloc, p, bytes, spots.as_slice(), text)
}

/// Adds what is told of the first of some statements, and how many there are besides.
fn add_told(
    alloc: Global,
    p: &Program,
    bytes: &[u8],
    spots: &[Spot],
    text: &mut Blob,
) -> Result<(), NoMemory>
    requires { IsWellFormed (view.program p.now) }
    ensures { OnOk result (text.new ≡ text.old ++ spec.told_of (view.program p.now) bytes.now spots.now) }
{
    if spots.is_empty() {
        return text.extend_from_slice(b"no statement begins there\n");
    }
    if spots.len() <= MOST_TOLD {
        add_each(alloc, p, bytes, spots, text)
    } else {
        add_first(alloc, p, bytes, spots, text)
    }
}

/// Adds what is told of the first of many statements, and how many there are besides.
fn add_first(
    alloc: Global,
    p: &Program,
    bytes: &[u8],
    spots: &[Spot],
    text: &mut Blob,
) -> Result<(), NoMemory>
    requires formed { IsWellFormed (view.program p.now) }
    requires many { MOST_TOLD < length spots.now }
    ensures { OnOk result (text.new ≡ text.old ++ spec.first_lines (view.program p.now) bytes.now spots.now) }
{
    add_each(alloc, p, bytes, &spots[..MOST_TOLD], text)?;
    add_left(spots.len() - MOST_TOLD, text)
}

/// Adds what is told of each of some statements.
fn add_each(
    alloc: Global,
    p: &Program,
    bytes: &[u8],
    spots: &[Spot],
    text: &mut Blob,
) -> Result<(), NoMemory>
    requires { IsWellFormed (view.program p.now) }
    ensures { OnOk result (text.new ≡ text.old ++ flat_map (spec.spot_lines (view.program p.now) bytes.now) spots.now) }
{
    for spot in spots {
        if (spot.thread as usize) < p.threads.len() {
            let trace = Trace {
                alloc,
                program: p,
                thread: spot.thread,
            };
            add_statement(&trace, bytes, spot.place, text)?;
        }
    }
    Ok(())
}

/// Adds how many more statements there are.
fn add_left(count: usize, text: &mut Blob) -> Result<(), NoMemory>
    ensures { OnOk result (text.new ≡ text.old ++ spec.left_line count) }
{
    text.extend_from_slice(b"and as many more statements, which aren't told: ")?;
    add_number(count, text)?;
    text.extend_from_slice(b"\n")
}

/// Adds what is told of the statement at a place of the thread.
fn add_statement(trace: &Trace<'_>, bytes: &[u8], at: u32, text: &mut Blob) -> Result<(), NoMemory>
    requires { IsTrace trace.now }
    ensures { OnOk result (text.new ≡ text.old ++ spec.spot_lines (view.program trace.now.program.now) bytes.now (spot trace.now.thread at)) }
{
    match way_to(trace.alloc, trace.program.body_of(trace.thread), at)? {
        Some(way) => add_way(trace, bytes, at, &way, text),
        None => Ok(()),
    }
}

/// Adds what is told of a statement at a place, by the way to it.
fn add_way(
    trace: &Trace<'_>,
    bytes: &[u8],
    at: u32,
    way: &Way<'_>,
    text: &mut Blob,
) -> Result<(), NoMemory>
    requires trace { IsTrace trace.now }
    requires range { AreInRange trace.now (map paths.step way.now.steps) }
    requires statement { IsStmInRange (length trace.now.program.now.vars) (length trace.now.program.now.locks) (view.kind way.now.stmt.now.kind) }
    ensures { OnOk result (text.new ≡ text.old ++ spec.way_told (view.program trace.now.program.now) trace.now.thread bytes.now at (paths.way way.now)) }
{
    let names = variable_names(trace.alloc, trace.program)?;
    let (steps, kind) = (way.steps.as_slice(), &way.stmt.kind);
    add_head(trace, bytes, at, text)?;
    add_known_behind(trace, &names, bytes, steps, text)?;
    add_ends(trace, &names, bytes, steps, at, kind, text)?;
    add_asked(trace, steps, kind, text)
}

/// Adds which statement it is, of which thread.
fn add_head(trace: &Trace<'_>, bytes: &[u8], at: u32, text: &mut Blob) -> Result<(), NoMemory>
    requires { IsTrace trace.now }
    ensures { OnOk result (text.new ≡ text.old ++ spec.head_lines bytes.now (numbered (view.program trace.now.program.now) trace.now.thread).name at) }
{
    text.extend_from_slice(b"line ")?;
    add_number(position(bytes, at as usize).line, text)?;
    text.extend_from_slice(b", thread ")?;
    text.extend_from_slice(
        trace.program.threads.as_slice()[trace.thread as usize]
            .name
            .text(),
    )?;
    text.extend_from_slice(b", in front of:\n")?;
    add_excerpt(bytes, at as usize, text)
}

/// Adds what is known at the ends of the blocks of a statement.
fn add_ends(
    trace: &Trace<'_>,
    names: &NameTable,
    bytes: &[u8],
    steps: &[Step<'_>],
    at: u32,
    kind: &StmtKind,
    text: &mut Blob,
) -> Result<(), NoMemory>
    requires trace { IsTrace trace.now }
    requires range { AreInRange trace.now (map paths.step steps.now) }
    requires statement { IsStmInRange (length trace.now.program.now.vars) (length trace.now.program.now.locks) (view.kind kind.now) }
    ensures { OnOk result (text.new ≡ text.old ++ spec.ends_of (plain_of trace.now) trace.now.thread names.now bytes.now (map paths.step steps.now) at (view.kind kind.now)) }
{
    add_end_if(trace, names, bytes, steps, BlockEnd::First, at, kind, text)?;
    add_end_if(trace, names, bytes, steps, BlockEnd::Second, at, kind, text)?;
    add_end_if(trace, names, bytes, steps, BlockEnd::Body, at, kind, text)
}

/// Adds what is known at an end of a block of a statement, if it has such a block.
fn add_end_if(
    trace: &Trace<'_>,
    names: &NameTable,
    bytes: &[u8],
    steps: &[Step<'_>],
    end: BlockEnd,
    at: u32,
    kind: &StmtKind,
    text: &mut Blob,
) -> Result<(), NoMemory>
    requires trace { IsTrace trace.now }
    requires range { AreInRange trace.now (map paths.step steps.now) }
    requires statement { IsStmInRange (length trace.now.program.now.vars) (length trace.now.program.now.locks) (view.kind kind.now) }
    ensures { OnOk result (text.new ≡ text.old ++ spec.end_if (plain_of trace.now) trace.now.thread names.now bytes.now (map paths.step steps.now) end at (view.kind kind.now)) }
{
    let has_end = match end {
        BlockEnd::First | BlockEnd::Second => matches!(kind, StmtKind::If(_, _, _, _)),
        BlockEnd::Body => matches!(kind, StmtKind::While(_, _, _)),
    };
    if has_end {
        add_end(trace, names, bytes, steps, end, at, kind, text)
    } else {
        Ok(())
    }
}

/// Adds what is known at an end of a block of a statement.
fn add_end(
    trace: &Trace<'_>,
    names: &NameTable,
    bytes: &[u8],
    steps: &[Step<'_>],
    end: BlockEnd,
    at: u32,
    kind: &StmtKind,
    text: &mut Blob,
) -> Result<(), NoMemory>
    requires trace { IsTrace trace.now }
    requires range { AreInRange trace.now (map paths.step steps.now) }
    requires statement { IsStmInRange (length trace.now.program.now.vars) (length trace.now.program.now.locks) (view.kind kind.now) }
    ensures { OnOk result (text.new ≡ text.old ++ spec.end_lines (plain_of trace.now) trace.now.thread names.now bytes.now (map paths.step steps.now) end at (view.kind kind.now)) }
{
    let further = steps_to(trace.alloc, steps, end, at, kind)?;
    text.extend_from_slice(b"  at the end of ")?;
    text.extend_from_slice(end_words(end).as_bytes())?;
    text.extend_from_slice(b":\n")?;
    add_known_behind(trace, names, bytes, further.as_slice(), text)
}

/// Adds what the entailments of a statement ask.
fn add_asked(
    trace: &Trace<'_>,
    steps: &[Step<'_>],
    kind: &StmtKind,
    text: &mut Blob,
) -> Result<(), NoMemory>
    requires trace { IsTrace trace.now }
    requires statement { IsStmInRange (length trace.now.program.now.vars) (length trace.now.program.now.locks) (view.kind kind.now) }
    ensures { OnOk result (text.new ≡ text.old ++ spec.asked_lines (plain_of trace.now) trace.now.thread (map paths.step steps.now) (view.kind kind.now)) }
{
    let hidden = hidden_after_steps(trace.alloc, trace.program, trace.thread, steps)?;
    let asked = questions(trace.alloc, trace.program, &hidden, kind)?;
    add_questions(trace.program, asked.as_slice(), text)
}

/// Adds what each entailment of a statement asks, with its number.
fn add_questions(p: &Program, asked: &[Question], text: &mut Blob) -> Result<(), NoMemory>
    ensures { OnOk result (text.new ≡ text.old ++ spec.all_lines (plain (view.program p.now)) asked.now) }
{
    for (i, question) in asked.iter().enumerate() {
        let one = Asked {
            question: *question,
            of: asked.len(),
        };
        add_question_line(p, i + 1, &one, text)?;
    }
    Ok(())
}
