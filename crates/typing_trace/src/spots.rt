//! Which statements are told of.

ghost use Rattle.std.specs.Prelude.{◌≡◌, [], ◌∷◌, ◌++◌, ◌≤◌, IfOk, OnOk, length, map};
ghost use Rattle.cov_ast.specs.View as view;
ghost use Rattle.cov_ast.specs.WellFormed.{places, places_within};
ghost use Rattle.cov_expr.specs.declared.limits.TheConstants.{MOST_THREADS};
ghost use Rattle.typing_trace.specs.Spots as spec;

use cov_ast::{Stmt, StmtKind, ThreadDecl};
use cov_expr::{List, NoMemory};
use std::alloc::Global;

/// Bytes of a text: from one on, and in front of another.
#[derive(Clone, Copy)]
pub struct Span {
    pub from: usize,
    pub to: usize,
}

/// A statement: its thread, and its place.
#[derive(Clone, Copy)]
pub struct Spot {
    pub thread: u32,
    pub place: u32,
}

/// How many bytes the first lines of a text have.
pub fn bytes_of_lines(count: usize, bytes: &[u8]) -> usize
    ensures { result ≡ spec.bytes_of_lines count bytes.now }
{
    let mut left = count;
    for (i, byte) in bytes.iter().enumerate() {
        if left == 0 {
            return i;
        }
        if *byte == b'\n' {
            left -= 1;
        }
    }
    bytes.len()
}

/// The statements that are asked for of some threads, in the order of the text.
pub fn spots_of(
    alloc: Global,
    span: Option<Span>,
    threads: &[ThreadDecl],
) -> Result<List<Spot>, NoMemory>
    requires few { length threads.now ≤ MOST_THREADS }
    ensures { IfOk result (λ made. made ≡ spec.spots_of span 0 (map view.thread threads.now)) }
{
    let mut spots = List::new(alloc);
    for (t, thread) in threads.iter().enumerate() {
        add_block(span, t as u32, thread.body.as_slice(), &mut spots)?;
    }
    Ok(spots)
}

/// Adds the statements of a block that are asked for.
#[cycle(blocks)]
fn add_block(
    span: Option<Span>,
    t: u32,
    body: &[Stmt],
    spots: &mut List<Spot>,
) -> Result<(), NoMemory>
    ensures { OnOk result (spots.new ≡ spots.old ++ spec.spots_in span t (places (view.block body.now))) }
{
    for stmt in body {
        add_place(span, t, stmt.at, spots)?;
        add_within(span, t, &stmt.kind, spots)?;
    }
    Ok(())
}

/// Adds the statements in the blocks of a statement that are asked for.
#[cycle(blocks)]
fn add_within(
    span: Option<Span>,
    t: u32,
    kind: &StmtKind,
    spots: &mut List<Spot>,
) -> Result<(), NoMemory>
    ensures { OnOk result (spots.new ≡ spots.old ++ spec.spots_in span t (places_within (view.kind kind.now))) }
{
    match kind {
        StmtKind::If(_, a, b, _) => {
            add_block(span, t, a.as_slice(), spots)?;
            add_block(span, t, b.as_slice(), spots)
        }
        StmtKind::While(_, _, b) => add_block(span, t, b.as_slice(), spots),
        _ => Ok(()),
    }
}

/// Adds the statement at a place, if it is asked for.
fn add_place(span: Option<Span>, t: u32, at: u32, spots: &mut List<Spot>) -> Result<(), NoMemory>
    ensures { OnOk result (spots.new ≡ spots.old ++ spec.spots_in span t (at ∷ [])) }
{
    let is_asked = match span {
        None => true,
        Some(span) => span.from <= at as usize && (at as usize) < span.to,
    };
    if is_asked {
        spots.push(Spot {
            thread: t,
            place: at,
        })
    } else {
        Ok(())
    }
}
