//! Statements as they are spelled, with their indentation and proofs.

ghost use Rattle.std.specs.Prelude.{◌≡◌, ◌++◌, OnOk, IfOk, map, codes, flat_map, option_map};
ghost use Rattle.cov_expr.specs.View.{term};
ghost use Rattle.cov_ast.specs.View as view;
ghost use Rattle.cov_print.specs.Spelling as spec;

use crate::cert::add_proofs;
use crate::expr::{add_expr, add_option};
use crate::state::{add_state, add_stated};
use crate::text::add_name;
use cov_ast::{NameTable, Proof, Retype, State, Stmt, StmtKind};
use cov_expr::{Expr, List, NoMemory};
use std::alloc::Global;

/// Adds new types of variables.
fn add_retypes(names: &NameTable, retypes: &[Retype], out: &mut List<u8>) -> Result<(), NoMemory>
    ensures { OnOk result (out.new ≡ out.old ++ flat_map (spec.retype names.now) (map view.retype retypes.now)) }
{
    for r in retypes {
        out.extend_from_slice(b" retype ")?;
        add_name(names, r.var, out)?;
        out.extend_from_slice(b" as ")?;
        add_expr(names, false, &r.class, out)?;
    }
    Ok(())
}

/// Adds the proofs of a statement and the semicolon behind them.
fn end_statement(names: &NameTable, proofs: &[Proof], out: &mut List<u8>) -> Result<(), NoMemory>
    ensures { OnOk result (out.new ≡ out.old ++ (spec.by names.now (map view.proof proofs.now) ++ codes ";")) }
{
    add_proofs(names, proofs, out)?;
    out.extend_from_slice(b";")
}

/// Adds an assignment up to its value.
fn begin_assignment(names: &NameTable, x: u32, e: &Expr, out: &mut List<u8>) -> Result<(), NoMemory>
    ensures { OnOk result (out.new ≡ out.old ++ (spec.name names.now x ++ codes " := " ++ spec.whole names.now (term e.now))) }
{
    add_name(names, x, out)?;
    out.extend_from_slice(b" := ")?;
    add_expr(names, false, e, out)
}

/// Adds an assignment with its proofs.
fn add_assignment(
    names: &NameTable,
    x: u32,
    e: &Expr,
    part: &Option<Expr>,
    retypes: &[Retype],
    proofs: &[Proof],
    out: &mut List<u8>,
) -> Result<(), NoMemory>
    ensures { OnOk result (out.new ≡ out.old
        ++ (spec.name names.now x ++ codes " := " ++ spec.whole names.now (term e.now) ++ spec.maybe names.now (codes " as ") (option_map term part.now)
        ++ flat_map (spec.retype names.now) (map view.retype retypes.now) ++ spec.by names.now (map view.proof proofs.now) ++ codes ";")) }
{
    begin_assignment(names, x, e, out)?;
    add_option(names, b" as ", part, out)?;
    add_retypes(names, retypes, out)?;
    end_statement(names, proofs, out)
}

/// Adds a word and the name behind it.
fn add_word_and_name(
    names: &NameTable,
    word: &[u8],
    id: u32,
    out: &mut List<u8>,
) -> Result<(), NoMemory>
    ensures { OnOk result (out.new ≡ out.old ++ word.now ++ spec.name names.now id) }
{
    out.extend_from_slice(word)?;
    add_name(names, id, out)
}

/// Adds the taking of a lock.
fn add_lock(names: &NameTable, l: u32, out: &mut List<u8>) -> Result<(), NoMemory>
    ensures { OnOk result (out.new ≡ out.old ++ (codes "lock " ++ spec.name names.now l ++ codes ";")) }
{
    add_word_and_name(names, b"lock ", l, out)?;
    out.extend_from_slice(b";")
}

/// Adds the freeing of a lock with its proofs.
fn add_unlock(
    names: &NameTable,
    l: u32,
    proofs: &[Proof],
    out: &mut List<u8>,
) -> Result<(), NoMemory>
    ensures { OnOk result (out.new ≡ out.old ++ (codes "unlock " ++ spec.name names.now l ++ spec.by names.now (map view.proof proofs.now) ++ codes ";")) }
{
    add_word_and_name(names, b"unlock ", l, out)?;
    end_statement(names, proofs, out)
}

/// Adds a note with its proofs.
fn add_note(
    names: &NameTable,
    j: &State,
    proofs: &[Proof],
    out: &mut List<u8>,
) -> Result<(), NoMemory>
    ensures { OnOk result (out.new ≡ out.old ++ (codes "note " ++ spec.state names.now (view.state j.now) ++ spec.by names.now (map view.proof proofs.now) ++ codes ";")) }
{
    out.extend_from_slice(b"note ")?;
    add_state(names, j, out)?;
    end_statement(names, proofs, out)
}

/// Adds an output with its proofs.
fn add_output(
    names: &NameTable,
    e: &Expr,
    proofs: &[Proof],
    out: &mut List<u8>,
) -> Result<(), NoMemory>
    ensures { OnOk result (out.new ≡ out.old ++ (codes "output " ++ spec.whole names.now (term e.now) ++ spec.by names.now (map view.proof proofs.now) ++ codes ";")) }
{
    out.extend_from_slice(b"output ")?;
    add_expr(names, false, e, out)?;
    end_statement(names, proofs, out)
}

/// Adds an `if` before its first block.
fn begin_if(names: &NameTable, e: &Expr, out: &mut List<u8>) -> Result<(), NoMemory>
    ensures { OnOk result (out.new ≡ out.old ++ (codes "if " ++ spec.whole names.now (term e.now) ++ codes " {\n")) }
{
    out.extend_from_slice(b"if ")?;
    add_expr(names, false, e, out)?;
    out.extend_from_slice(b" {\n")
}

/// Adds what stands between the blocks of an `if`.
fn add_else(margin: &[u8], out: &mut List<u8>) -> Result<(), NoMemory>
    ensures { OnOk result (out.new ≡ out.old ++ (margin.now ++ codes "} else {\n")) }
{
    out.extend_from_slice(margin)?;
    out.extend_from_slice(b"} else {\n")
}

/// Adds what stands behind the second block of an `if`.
fn end_if(
    names: &NameTable,
    margin: &[u8],
    join: &State,
    proofs: &[Proof],
    out: &mut List<u8>,
) -> Result<(), NoMemory>
    ensures { OnOk result (out.new ≡ out.old ++ (margin.now ++ codes "}" ++ spec.stated names.now (codes " join ") (view.state join.now) ++ spec.by names.now (map view.proof proofs.now))) }
{
    out.extend_from_slice(margin)?;
    out.extend_from_slice(b"}")?;
    add_stated(names, b" join ", join, out)?;
    add_proofs(names, proofs, out)
}

/// Adds a `while` before its block.
fn begin_while(names: &NameTable, e: &Expr, inv: &State, out: &mut List<u8>) -> Result<(), NoMemory>
    ensures { OnOk result (out.new ≡ out.old ++ (codes "while " ++ spec.whole names.now (term e.now) ++ spec.stated names.now (codes " inv ") (view.state inv.now) ++ codes " {\n")) }
{
    out.extend_from_slice(b"while ")?;
    add_expr(names, false, e, out)?;
    add_stated(names, b" inv ", inv, out)?;
    out.extend_from_slice(b" {\n")
}

/// Adds what stands behind the block of a `while`.
fn end_while(
    names: &NameTable,
    margin: &[u8],
    proofs: &[Proof],
    out: &mut List<u8>,
) -> Result<(), NoMemory>
    ensures { OnOk result (out.new ≡ out.old ++ (margin.now ++ codes "}" ++ spec.by names.now (map view.proof proofs.now))) }
{
    out.extend_from_slice(margin)?;
    out.extend_from_slice(b"}")?;
    add_proofs(names, proofs, out)
}

/// A margin of two blanks more.
pub fn deeper(alloc: Global, margin: &[u8]) -> Result<List<u8>, NoMemory>
    ensures { IfOk result (λ made. made ≡ spec.deeper margin.now) }
{
    let mut made = List::new(alloc);
    made.extend_from_slice(margin)?;
    made.extend_from_slice(b"  ")?;
    Ok(made)
}

/// Adds the lines of statements, each of which begins with the margin.
#[cycle(statements)]
pub fn add_block(
    alloc: Global,
    names: &NameTable,
    margin: &[u8],
    body: &[Stmt],
    out: &mut List<u8>,
) -> Result<(), NoMemory>
    ensures { OnOk result (out.new ≡ out.old ++ spec.block names.now margin.now (view.block body.now)) }
{
    for s in body {
        out.extend_from_slice(margin)?;
        add_statement(alloc, names, margin, &s.kind, s.proofs.as_slice(), out)?;
        out.extend_from_slice(b"\n")?;
    }
    Ok(())
}

/// Adds an `if` up to its second block. The lines of the first one begin with the margin `inside`.
#[cycle(statements)]
fn add_then_branch(
    alloc: Global,
    names: &NameTable,
    margin: &[u8],
    inside: &[u8],
    body: &[Stmt],
    e: &Expr,
    out: &mut List<u8>,
) -> Result<(), NoMemory>
    ensures { OnOk result (out.new ≡ out.old
        ++ (codes "if " ++ spec.whole names.now (term e.now) ++ codes " {\n" ++ spec.block names.now inside.now (view.block body.now) ++ margin.now ++ codes "} else {\n")) }
{
    begin_if(names, e, out)?;
    add_block(alloc, names, inside, body, out)?;
    add_else(margin, out)
}

/// Adds the second block of an `if`, and what stands behind it.
#[cycle(statements)]
fn add_else_branch(
    alloc: Global,
    names: &NameTable,
    margin: &[u8],
    inside: &[u8],
    body: &[Stmt],
    join: &State,
    proofs: &[Proof],
    out: &mut List<u8>,
) -> Result<(), NoMemory>
    ensures { OnOk result (out.new ≡ out.old
        ++ (spec.block names.now inside.now (view.block body.now) ++ margin.now ++ codes "}" ++ spec.stated names.now (codes " join ") (view.state join.now)
        ++ spec.by names.now (map view.proof proofs.now))) }
{
    add_block(alloc, names, inside, body, out)?;
    end_if(names, margin, join, proofs, out)
}

/// Adds a `while` with its proofs.
#[cycle(statements)]
fn add_while(
    alloc: Global,
    names: &NameTable,
    margin: &[u8],
    body: &[Stmt],
    e: &Expr,
    inv: &State,
    proofs: &[Proof],
    out: &mut List<u8>,
) -> Result<(), NoMemory>
    ensures { OnOk result (out.new ≡ out.old
        ++ (codes "while " ++ spec.whole names.now (term e.now) ++ spec.stated names.now (codes " inv ") (view.state inv.now) ++ codes " {\n"
        ++ spec.block names.now (spec.deeper margin.now) (view.block body.now) ++ margin.now ++ codes "}" ++ spec.by names.now (map view.proof proofs.now))) }
{
    begin_while(names, e, inv, out)?;
    let inside = deeper(alloc, margin)?;
    add_block(alloc, names, inside.as_slice(), body, out)?;
    end_while(names, margin, proofs, out)
}

/// Adds a statement with its proofs, without the margin before its first line.
#[cycle(statements)]
fn add_statement(
    alloc: Global,
    names: &NameTable,
    margin: &[u8],
    kind: &StmtKind,
    proofs: &[Proof],
    out: &mut List<u8>,
) -> Result<(), NoMemory>
    ensures { OnOk result (out.new ≡ out.old ++ spec.stm names.now margin.now (view.kind kind.now) (map view.proof proofs.now)) }
{
    match kind {
        StmtKind::Skip => out.extend_from_slice(b"skip;"),
        StmtKind::Assign(x, e, part, retypes) => {
            add_assignment(names, *x, e, part, retypes.as_slice(), proofs, out)
        }
        StmtKind::Lock(l) => add_lock(names, *l, out),
        StmtKind::Unlock(l) => add_unlock(names, *l, proofs, out),
        StmtKind::If(e, a, b, join) => {
            let inside = deeper(alloc, margin)?;
            let (a, b) = (a.as_slice(), b.as_slice());
            add_then_branch(alloc, names, margin, inside.as_slice(), a, e, out)?;
            add_else_branch(
                alloc,
                names,
                margin,
                inside.as_slice(),
                b,
                join,
                proofs,
                out,
            )
        }
        StmtKind::While(e, inv, body) => {
            add_while(alloc, names, margin, body.as_slice(), e, inv, proofs, out)
        }
        StmtKind::Note(j) => add_note(names, j, proofs, out),
        StmtKind::Output(e) => add_output(names, e, proofs, out),
    }
}
