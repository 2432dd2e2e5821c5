//! What calls of the product answer that no command makes.
ghost use Rattle.std.specs.Prelude.{◌<◌, ◌≤◌, IsTrue, length};
ghost use Rattle.cov_expr.specs.declared.limits.TheConstants.{MOST_BYTES};
ghost use Rattle.cov_ast.specs.Obligations.{all_hold};
ghost use Rattle.cov_ast.specs.View as view;
ghost use Rattle.cov_ast.specs.WellFormed.{IsWellFormed};
ghost use Rattle.mode_compat.specs.Declared.{declaration_obligations};

use crate::failure::Failure;
use crate::parts::add_text;
use cov_ast::{Program, plain};
use cov_expr::{Blob, Expr, vars};
use cov_parse::{parse, parse_expr};
use entail_ring::normal;
use policy_class::resolve;
use std::alloc::Global;
use typing_rules::entailments;
use verify::check_declared;

/// Adds how many statements the first thread of a text has of its own without its notes, and of each of its entailments the place, the
/// number and how many hypotheses it has.
pub fn add_entailments(alloc: Global, text: &[u8], out: &mut Blob) -> Result<(), Failure>
    requires { length text.now ≤ MOST_BYTES }
{
    let Ok(parsed) = parse(alloc, text) else {
        return Err(Failure::Usage);
    };
    match resolve(alloc, parsed) {
        Ok(program) => add_declared(alloc, &program, out),
        Err(_) => Err(Failure::Usage),
    }
}

#[tactic(auto, using(cov_ast::proofs::ObligationLaws::none_refused))]
fn add_declared(alloc: Global, p: &Program, out: &mut Blob) -> Result<(), Failure>
    requires { IsWellFormed (view.program p.now) }
{
    if p.threads.is_empty() {
        return Err(Failure::Usage);
    }
    match check_declared(alloc, p) {
        Ok(()) => add_listed(alloc, p, out),
        Err(_) => Err(Failure::Usage),
    }
}

fn add_listed(alloc: Global, p: &Program, out: &mut Blob) -> Result<(), Failure>
    requires formed { IsWellFormed (view.program p.now) }
    requires declared { IsTrue (all_hold (declaration_obligations (view.program p.now))) }
    requires thread { 0 < length p.now.threads }
{
    add_plain(&plain(alloc, p)?, alloc, out)?;
    for found in entailments(alloc, p, 0)?.as_slice() {
        add_text(
            format!(in alloc; "{} {} {}\n", found.place, found.number, found.hyps.len()),
            out,
        )?;
    }
    Ok(())
}

fn add_plain(bare: &Program, alloc: Global, out: &mut Blob) -> Result<(), Failure> {
    match bare.threads.as_slice() {
        [thread, ..] => add_text(format!(in alloc; "{} plain\n", thread.body.len()), out),
        [] => Err(Failure::Usage),
    }
}

/// Adds the variables of an expression, and how many terms it has as a polynomial.
pub fn add_expression(alloc: Global, text: &[u8], out: &mut Blob) -> Result<(), Failure>
    requires { length text.now ≤ MOST_BYTES }
{
    match parse_expr(alloc, text) {
        Ok(read) => add_read(alloc, &read.expr, out),
        Err(_) => Err(Failure::Usage),
    }
}

fn add_read(alloc: Global, e: &Expr, out: &mut Blob) -> Result<(), Failure> {
    for x in vars(alloc, e)?.as_slice() {
        add_text(format!(in alloc; "variable {x}\n"), out)?;
    }
    match normal(alloc, e)? {
        Some(found) => add_text(format!(in alloc; "{} terms\n", found.terms.len()), out),
        None => Err(Failure::TooLong),
    }
}
