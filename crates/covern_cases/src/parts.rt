//! Parts of the product by themselves.
ghost use Rattle.std.specs.Prelude.{◌≤◌, length};
ghost use Rattle.cov_expr.specs.declared.limits.TheConstants.{MOST_BYTES, MOST_LISTING_BYTES};
ghost use Rattle.cov_ast.specs.View as view;
ghost use Rattle.cov_ast.specs.Ready.{IsReady};

use crate::calls::{add_entailments, add_expression};
use crate::certificates::add_claims;
use crate::failure::Failure;
use crate::replaced::add_replaced;
use code_text::{CodeFault, list, read_code};
use cov_ast::{CheckFault, Parsed};
use cov_expr::{Blob, MOST_BYTES, MOST_LISTING_BYTES};
use cov_lex::{LexFault, lex};
use cov_parse::parse;
use cov_text::ParseFault;
use lock_spec::check_locks;
use mode_compat::check_modes;
use policy_class::{check_policy, resolve};
use risc_machine::{Code, CodeBad};
use std::alloc::{AllocError, Global};

/// Adds what a part of the product shows of a text. What is measured is done so many times, and at least once.
///
/// - `tokens`: a line for each token, with its kind and the places of its first byte and of the one behind it; or the fault.
/// - `parsed`: that it spells a program, or its first fault, with what there is too much of.
/// - `declared`: whether the rules of declarations hold. Those of modes are measured.
/// - `certificates`: of each note with a proof whether the certificate is valid, or the path of the first node that fails, `top` for
///   the root. The check of a certificate is measured.
/// - `entailments`, `expression`: what calls answer that no command makes, as `calls.rt` has them.
/// - `replaced`: the verdict after the first thread of a text was replaced by itself a thousand times, as `replaced.rt` has it.
/// - `listing`: the listing of the code that the text lists, or the fault. Reading is measured.
pub fn add_part(
    alloc: Global,
    part: &str,
    times: u32,
    text: &[u8],
    out: &mut Blob,
) -> Result<(), Failure> {
    if part == "listing" {
        return add_listing(alloc, times, text, out);
    }
    if text.len() > MOST_BYTES {
        return Err(Failure::TooLong);
    }
    match part {
        "tokens" => add_tokens(alloc, text, out),
        "parsed" => add_parsed(alloc, text, out),
        "declared" => add_declared(alloc, times, text, out),
        "certificates" => add_claims(alloc, times, text, out),
        "entailments" => add_entailments(alloc, text, out),
        "expression" => add_expression(alloc, text, out),
        "replaced" => add_replaced(alloc, text, out),
        _ => Ok(out.extend_from_slice(b"no such part\n")?),
    }
}

fn add_tokens(alloc: Global, text: &[u8], out: &mut Blob) -> Result<(), Failure>
    requires { length text.now ≤ MOST_BYTES }
{
    match lex(alloc, text) {
        Ok(tokens) => {
            for token in tokens.as_slice() {
                add_text(
                    format!(in alloc; "{:?} {} {}\n", token.kind, token.at, token.end),
                    out,
                )?;
            }
            Ok(())
        }
        Err(LexFault::NoMemory) => Err(Failure::NoMemory),
        Err(fault) => add_text(format!(in alloc; "{fault:?}\n"), out),
    }
}

fn add_listing(alloc: Global, times: u32, text: &[u8], out: &mut Blob) -> Result<(), Failure> {
    if text.len() > MOST_LISTING_BYTES {
        return Err(Failure::TooLong);
    }
    for _ in 1..times {
        let _ = read_code(alloc, text);
    }
    let found = read_code(alloc, text);
    add_code(alloc, &found, out)
}

fn add_code(alloc: Global, found: &Result<Code, CodeFault>, out: &mut Blob) -> Result<(), Failure> {
    match found {
        Ok(code) => Ok(out.extend_from_slice(list(alloc, code)?.as_slice())?),
        Err(CodeFault::NoMemory) => Err(Failure::NoMemory),
        Err(CodeFault::Bad(CodeBad::SameName(name))) => {
            out.extend_from_slice(b"SameName ")?;
            out.extend_from_slice(name.text())?;
            Ok(out.extend_from_slice(b"\n")?)
        }
        Err(fault) => add_text(format!(in alloc; "{fault:?}\n"), out),
    }
}

fn add_parsed(alloc: Global, text: &[u8], out: &mut Blob) -> Result<(), Failure>
    requires { length text.now ≤ MOST_BYTES }
{
    match parse(alloc, text).err() {
        None => Ok(out.extend_from_slice(b"parsed\n")?),
        Some(ParseFault::NoMemory) => Err(Failure::NoMemory),
        Some(fault) => add_text(format!(in alloc; "{fault:?}\n"), out),
    }
}

fn add_declared(alloc: Global, times: u32, text: &[u8], out: &mut Blob) -> Result<(), Failure>
    requires { length text.now ≤ MOST_BYTES }
{
    let said: &[u8] = match parse(alloc, text) {
        Ok(parsed) => match declare(alloc, times, parsed) {
            Ok(()) => b"declared\n",
            Err(CheckFault::Refused(_)) => b"refused\n",
            Err(CheckFault::NoMemory) => return Err(Failure::NoMemory),
        },
        Err(ParseFault::NoMemory) => return Err(Failure::NoMemory),
        Err(_) => b"malformed\n",
    };
    Ok(out.extend_from_slice(said)?)
}

/// Tries the rules of declarations.
fn declare(alloc: Global, times: u32, parsed: Parsed) -> Result<(), CheckFault>
    requires { IsReady (view.parsed parsed) }
{
    let program = resolve(alloc, parsed)?;
    check_policy(alloc, &program)?;
    check_locks(alloc, &program)?;
    for _ in 1..times {
        check_modes(alloc, &program)?;
    }
    check_modes(alloc, &program)
}

/// Adds a text that was made.
pub fn add_text(text: Result<String, AllocError>, out: &mut Blob) -> Result<(), Failure> {
    Ok(out.extend_from_slice(text?.as_bytes())?)
}
