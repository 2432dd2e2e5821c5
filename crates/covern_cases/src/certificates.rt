//! What the certificates of a text are worth, a line for each.
ghost use Rattle.std.specs.Prelude.{◌≡◌, ◌++◌, ◌≤◌, OnOk, length, map};
ghost use Rattle.cov_expr.specs.declared.limits.TheConstants.{MOST_BYTES};
ghost use Rattle.cov_ast.specs.View as view;
ghost use Rattle.covern_cases.specs.Views.{claim as said};
ghost use Rattle.covern_cases.specs.Claims as spec;

use crate::claim::{Claim, claim_of};
use crate::failure::Failure;
use cov_ast::{Stmt, ThreadDecl};
use cov_expr::{Blob, NoMemory};
use cov_parse::parse;
use cov_text::ParseFault;
use entail_cert::{CertFault, check_cert};
use itoa::Buffer;
use std::alloc::Global;

/// Adds what the certificates of a text's notes are worth, a line each, or one that says that the text spells no program. Each
/// certificate is checked so many times, and at least once.
#[tactic(auto, using(crate::proofs::Additions::adds_lines))]
pub fn add_claims(alloc: Global, times: u32, text: &[u8], out: &mut Blob) -> Result<(), Failure>
    requires { length text.now ≤ MOST_BYTES }
    ensures { OnOk result (spec.AddsLines text.now out.old out.new) }
{
    match parse(alloc, text) {
        Ok(parsed) => Ok(add_threads(alloc, times, parsed.threads.as_slice(), out)?),
        Err(ParseFault::NoMemory) => Err(Failure::NoMemory),
        Err(_) => Ok(out.extend_from_slice(b"malformed\n")?),
    }
}

fn add_threads(
    alloc: Global,
    times: u32,
    threads: &[ThreadDecl],
    out: &mut Blob,
) -> Result<(), NoMemory>
    ensures { OnOk result (out.new ≡ out.old ++ spec.thread_lines (map view.thread threads.now)) }
{
    for thread in threads {
        add_block(alloc, times, thread.body.as_slice(), out)?;
    }
    Ok(())
}

fn add_block(alloc: Global, times: u32, body: &[Stmt], out: &mut Blob) -> Result<(), NoMemory>
    ensures { OnOk result (out.new ≡ out.old ++ spec.block_lines (view.block body.now)) }
{
    for stmt in body {
        if let Some(claim) = claim_of(alloc, stmt)? {
            add_claim(alloc, times, &claim, out)?;
        }
    }
    Ok(())
}

/// Adds the line of a claim.
fn add_claim(alloc: Global, times: u32, claim: &Claim<'_>, out: &mut Blob) -> Result<(), NoMemory>
    ensures { OnOk result (out.new ≡ out.old ++ spec.claim_lines (Some (said claim.now))) }
{
    for _ in 1..times {
        let _ = check_cert(alloc, &claim.hyps, claim.goal, claim.cert);
    }
    match check_cert(alloc, &claim.hyps, claim.goal, claim.cert) {
        Ok(()) => out.extend_from_slice(b"valid\n"),
        Err(CertFault::Invalid(path)) => {
            out.extend_from_slice(b"invalid at")?;
            add_path(path.as_slice(), out)?;
            out.extend_from_slice(b"\n")
        }
        Err(CertFault::NoMemory) => Err(NoMemory),
    }
}

/// Adds the path to a node.
fn add_path(path: &[u8], out: &mut Blob) -> Result<(), NoMemory>
    ensures { OnOk result (out.new ≡ out.old ++ spec.path_text path.now) }
{
    match path {
        [] => out.extend_from_slice(b" top"),
        [_, ..] => add_steps(path, out),
    }
}

/// Adds numbers, with a blank before each.
fn add_steps(steps: &[u8], out: &mut Blob) -> Result<(), NoMemory>
    ensures { OnOk result (out.new ≡ out.old ++ spec.steps steps.now) }
{
    for step in steps {
        let mut buffer = Buffer::new();
        out.extend_from_slice(b" ")?;
        out.extend_from_slice(buffer.format(*step).as_bytes())?;
    }
    Ok(())
}
