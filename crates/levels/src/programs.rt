//! What an observer is shown of a program.
//!
//! The program is only borrowed, since it is shown to one observer after another. So a copy of the plain program is changed in place: its
//! variables get their classes, and its threads, in one walk over those of the program, their statements with markers replaced.

ghost use Rattle.std.specs.Prelude.{◌≡◌, map, option_map, IfOk, OnOk};
ghost use Rattle.cov_ast.specs.Plain.{bare, bare_thread};
ghost use Rattle.cov_ast.specs.Syntax as by;
ghost use Rattle.cov_ast.specs.View as view;
ghost use Rattle.cov_expr.specs.View.{term};
ghost use Rattle.level_text.specs.Views as level_view;
ghost use Rattle.levels.specs.Inside.Marked.{marked_stmt};
ghost use Rattle.levels.specs.Projection as spec;

use crate::certs::marked_proofs;
use crate::classes::show_classes;
use crate::marks::marks;
use crate::terms::{marked_option, marked_retypes, marked_state};
use cov_ast::{NumberSet, Program, Retype, State, Stmt, StmtKind, ThreadDecl, plain};
use cov_expr::{Expr, List, NoMemory, copy};
use level_text::Levels;
use std::alloc::Global;
use tree_copies::copy_kind;

/// A program as an observer is shown it who sees these levels.
pub fn shown(alloc: Global, seen: &NumberSet, l: &Levels, p: &Program) -> Result<Program, NoMemory>
    ensures { IfOk result (λ made. view.program made ≡ spec.shown seen.now (level_view.levels l.now) (view.program p.now)) }
{
    let marks = marks(alloc, seen, l, p.vars.as_slice())?;
    let mut made = plain(alloc, p)?;
    show(alloc, seen, l, marks.as_slice(), p, &mut made)?;
    Ok(made)
}

/// Turns the plain program into what is shown.
fn show(
    alloc: Global,
    seen: &NumberSet,
    l: &Levels,
    marks: &[Option<u32>],
    p: &Program,
    made: &mut Program,
) -> Result<(), NoMemory>
    requires plain { view.program made.old ≡ bare (view.program p.now) }
    requires marks { marks.now ≡ spec.marks_of seen.now (level_view.levels l.now) (map view.var p.now.vars) }
    ensures { OnOk result (view.program made.new ≡ spec.shown seen.now (level_view.levels l.now) (view.program p.now)) }
{
    show_classes(alloc, seen, l, made.vars.as_mut_slice())?;
    annotate(
        alloc,
        marks,
        p.threads.as_slice(),
        made.threads.as_mut_slice(),
    )
}

/// Gives plain threads the annotations that those of the program have, in which numbers stand for markers.
fn annotate(
    alloc: Global,
    marks: &[Option<u32>],
    annotated: &[ThreadDecl],
    threads: &mut [ThreadDecl],
) -> Result<(), NoMemory>
    requires { map view.thread threads.old ≡ map bare_thread (map view.thread annotated.now) }
    ensures { OnOk result (map view.thread threads.new ≡ map (spec.marked_thread marks.now) (map view.thread annotated.now)) }
{
    for t in 0..threads.len() {
        annotate_thread(alloc, marks, &annotated[t], &mut threads[t])?;
    }
    Ok(())
}

/// Gives a plain thread the annotations that one has. Its plain body goes first, so that the program and one copy of it are in memory.
fn annotate_thread(
    alloc: Global,
    marks: &[Option<u32>],
    annotated: &ThreadDecl,
    thread: &mut ThreadDecl,
) -> Result<(), NoMemory>
    requires { view.thread thread.old ≡ bare_thread (view.thread annotated.now) }
    ensures { OnOk result (view.thread thread.new ≡ spec.marked_thread marks.now (view.thread annotated.now)) }
{
    thread.body = List::new(alloc);
    thread.body = marked_block(alloc, marks, annotated.body.as_slice())?;
    Ok(())
}

#[cycle(blocks)]
fn marked_block(alloc: Global, marks: &[Option<u32>], body: &[Stmt]) -> Result<List<Stmt>, NoMemory>
    ensures { IfOk result (λ made. view.block made ≡ spec.marked_block marks.now (view.block body.now)) }
{
    let mut made = List::new(alloc);
    for stmt in body {
        let next = marked_stm(alloc, marks, stmt)?;
        made.push(next)?;
    }
    Ok(made)
}

#[cycle(blocks)]
fn marked_stm(alloc: Global, marks: &[Option<u32>], stmt: &Stmt) -> Result<Stmt, NoMemory>
    ensures { IfOk result (λ made. view.stmt made ≡ marked_stmt marks.now (view.stmt stmt.now)) }
{
    let kind = marked_kind(alloc, marks, &stmt.kind)?;
    let proofs = marked_proofs(alloc, marks, stmt.proofs.as_slice())?;
    Ok(Stmt {
        at: stmt.at,
        kind,
        proofs,
    })
}

#[cycle(blocks)]
fn marked_kind(alloc: Global, marks: &[Option<u32>], kind: &StmtKind) -> Result<StmtKind, NoMemory>
    ensures { IfOk result (λ made. view.kind made ≡ spec.marked_stm marks.now (view.kind kind.now)) }
{
    match kind {
        StmtKind::Assign(x, e, class, retypes) => {
            assigned(alloc, marks, *x, e, class, retypes.as_slice())
        }
        StmtKind::If(e, a, b, join) => {
            let yes = marked_block(alloc, marks, a.as_slice())?;
            let no = marked_block(alloc, marks, b.as_slice())?;
            branched(alloc, marks, e, yes, no, join)
        }
        StmtKind::While(e, inv, b) => {
            let turn = marked_block(alloc, marks, b.as_slice())?;
            looped(alloc, marks, e, inv, turn)
        }
        StmtKind::Note(state) => Ok(StmtKind::Note(marked_state(alloc, marks, state)?)),
        StmtKind::Output(e) => Ok(StmtKind::Output(copy(alloc, e)?)),
        _ => copy_kind(alloc, kind),
    }
}

/// A branch between blocks that have numbers for markers.
fn branched(
    alloc: Global,
    marks: &[Option<u32>],
    e: &Expr,
    yes: List<Stmt>,
    no: List<Stmt>,
    join: &State,
) -> Result<StmtKind, NoMemory>
    ensures { IfOk result (λ made. view.kind made
        ≡ by.branch (term e.now) (view.block yes) (view.block no) (spec.marked_state marks.now (view.state join.now))) }
{
    let guard = copy(alloc, e)?;
    let join = marked_state(alloc, marks, join)?;
    Ok(StmtKind::If(guard, yes, no, join))
}

/// A loop of such a block.
fn looped(
    alloc: Global,
    marks: &[Option<u32>],
    e: &Expr,
    inv: &State,
    turn: List<Stmt>,
) -> Result<StmtKind, NoMemory>
    ensures { IfOk result (λ made. view.kind made ≡ by.loop (term e.now) (spec.marked_state marks.now (view.state inv.now)) (view.block turn)) }
{
    let guard = copy(alloc, e)?;
    let inv = marked_state(alloc, marks, inv)?;
    Ok(StmtKind::While(guard, inv, turn))
}

/// An assignment.
fn assigned(
    alloc: Global,
    marks: &[Option<u32>],
    x: u32,
    e: &Expr,
    class: &Option<Expr>,
    retypes: &[Retype],
) -> Result<StmtKind, NoMemory>
    ensures { IfOk result (λ made. view.kind made ≡ spec.marked_stm marks.now
        (by.assign x (term e.now) (option_map term class.now) (map view.retype retypes.now))) }
{
    let value = copy(alloc, e)?;
    let class = marked_option(alloc, marks, class)?;
    let retypes = marked_retypes(alloc, marks, retypes)?;
    Ok(StmtKind::Assign(x, value, class, retypes))
}
