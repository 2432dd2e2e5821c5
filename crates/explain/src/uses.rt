//! Which variables have a reader and a writer: a statement, or a thread that assumes that no other reads or writes them.

ghost use Rattle.std.specs.Prelude.{◌≡◌, ◌++◌, flat_map, length, map, IfOk};
ghost use Rattle.cov_ast.specs.Plain.{plain};
ghost use Rattle.cov_ast.specs.Tables.{table, with_all};
ghost use Rattle.cov_ast.specs.View as view;
ghost use Rattle.cov_expr.specs.Trees.{occurrences};
ghost use Rattle.cov_expr.specs.View.{term};
ghost use Rattle.explain.specs.Inside.StatementWalks.{block_reads, block_writes, stm_reads};
ghost use Rattle.explain.specs.StatementUses.{has_reader, has_writer};

use cov_ast::{NumberSet, Program, Stmt, StmtKind, ThreadDecl};
use cov_expr::{Expr, NoMemory};
use statement_parts::add_assigned;
use std::alloc::Global;

/// The variables that have a reader, and those that have a writer.
#[derive(Drop)]
pub struct UseSets {
    pub read: NumberSet,
    pub written: NumberSet,
}

/// What the statements of a program read and write, and what a thread assumes from its start that no other does. Each statement is looked at twice.
pub fn uses(alloc: Global, program: &Program) -> Result<UseSets, NoMemory>
    ensures read { IfOk result (λ made. made.read ≡ table (length program.now.vars) (has_reader (plain (view.program program.now)))) }
    ensures written { IfOk result (λ made. made.written ≡ table (length program.now.vars) (has_writer (plain (view.program program.now)))) }
{
    let mut read = NumberSet::new(alloc, program.vars.len())?;
    let mut written = NumberSet::new(alloc, program.vars.len())?;
    add_headers(program.threads.as_slice(), &mut read, &mut written);
    add_threads(program.threads.as_slice(), &mut read, &mut written);
    Ok(UseSets { read, written })
}

/// Adds what threads assume that no other reads, and that no other writes.
fn add_headers(threads: &[ThreadDecl], read: &mut NumberSet, written: &mut NumberSet)
    ensures read { read.new ≡ with_all read.old (flat_map (λ t. t.modes.assume_hide) (map view.thread threads.now)) }
    ensures written { written.new ≡ with_all written.old (flat_map (λ t. t.modes.assume_nowrite ++ t.modes.assume_hide) (map view.thread threads.now)) }
{
    for thread in threads {
        read.insert_all(thread.modes.assume_hide.as_slice());
        written.insert_all(thread.modes.assume_nowrite.as_slice());
        written.insert_all(thread.modes.assume_hide.as_slice());
    }
}

/// Adds what the statements of threads read and write.
fn add_threads(threads: &[ThreadDecl], read: &mut NumberSet, written: &mut NumberSet)
    ensures read { read.new ≡ with_all read.old (flat_map (λ t. block_reads t.body) (map view.thread threads.now)) }
    ensures written { written.new ≡ with_all written.old (flat_map (λ t. block_writes t.body) (map view.thread threads.now)) }
{
    for thread in threads {
        add_block(thread.body.as_slice(), read);
        add_assigned(thread.body.as_slice(), written);
    }
}

/// Adds what the statements of a block read.
#[cycle(blocks)]
pub fn add_block(body: &[Stmt], read: &mut NumberSet)
    ensures { read.new ≡ with_all read.old (block_reads (view.block body.now)) }
{
    for stmt in body {
        add_kind(&stmt.kind, read);
    }
}

/// Adds what a statement and those in its blocks read.
#[cycle(blocks)]
fn add_kind(kind: &StmtKind, read: &mut NumberSet)
    ensures { read.new ≡ with_all read.old (stm_reads (view.kind kind.now)) }
{
    match kind {
        StmtKind::Assign(_, e, _, _) => add_read(e, read),
        StmtKind::If(e, a, b, _) => {
            add_read(e, read);
            add_block(a.as_slice(), read);
            add_block(b.as_slice(), read);
        }
        StmtKind::While(e, _, b) => {
            add_read(e, read);
            add_block(b.as_slice(), read);
        }
        StmtKind::Output(e) => add_read(e, read),
        _ => {}
    }
}

/// Adds the variables of an expression that is evaluated.
fn add_read(e: &Expr, read: &mut NumberSet)
    ensures { read.new ≡ with_all read.old (occurrences (term e.now)) }
{
    match e {
        Expr::Const(_) => {}
        Expr::Var(x) => read.put(*x, true),
        Expr::Not(a) => add_read(a, read),
        Expr::Bin(_, a, b) => {
            add_read(a, read);
            add_read(b, read);
        }
    }
}
