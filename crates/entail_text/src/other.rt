//! Certificates that a statement gives for others of its entailments.

ghost use Rattle.std.specs.Prelude.{◌≡◌, ◌++◌, map, IfOk, OnOk};
ghost use Rattle.cov_expr.specs.View.{term};
ghost use Rattle.cov_ast.specs.View as view;
ghost use Rattle.entail_cert.specs.Valid.{is_valid};
ghost use Rattle.entail_text.specs.OtherCertificates as spec;

use cov_ast::{Cert, Proof};
use cov_expr::{Blob, Expr, List, NoMemory};
use entail_cert::{CertFault, check_cert};
use std::alloc::Global;
use text_parts::add_number;

/// Adds a line of the first certificate, of those that a statement gives for other numbers, that would show the entailment of a number. Nothing
/// is added where none would. It takes the time and the memory of a check of each of them.
pub fn add_other(
    alloc: Global,
    proofs: &[Proof],
    number: u32,
    hyps: &List<Expr>,
    goal: &Expr,
    text: &mut Blob,
) -> Result<(), NoMemory>
    ensures { OnOk result (text.new ≡ text.old ++ spec.other_line (map view.proof proofs.now) number (map term hyps.now) (term goal.now)) }
{
    match first_valid(alloc, proofs, number, hyps, goal)? {
        Some(other) => add_line_of(other, text),
        None => Ok(()),
    }
}

/// The other number for which the first certificate is given that is valid for the entailment of a number.
fn first_valid(
    alloc: Global,
    proofs: &[Proof],
    number: u32,
    hyps: &List<Expr>,
    goal: &Expr,
) -> Result<Option<u32>, NoMemory>
    ensures { IfOk result (λ found. found ≡ spec.first_valid (map view.proof proofs.now) number (map term hyps.now) (term goal.now)) }
{
    for proof in proofs {
        if proof.number != number && is_shown_by(alloc, hyps, goal, &proof.cert)? {
            return Ok(Some(proof.number));
        }
    }
    Ok(None)
}

/// Whether a certificate is valid for an entailment.
fn is_shown_by(alloc: Global, hyps: &List<Expr>, goal: &Expr, cert: &Cert) -> Result<bool, NoMemory>
    ensures { IfOk result (λ valid. valid ≡ is_valid (map term hyps.now) (term goal.now) (view.cert cert.now)) }
{
    match check_cert(alloc, hyps, goal, cert) {
        Ok(()) => Ok(true),
        Err(CertFault::Invalid(_)) => Ok(false),
        Err(CertFault::NoMemory) => Err(NoMemory),
    }
}

/// Adds the line of the number of a certificate.
fn add_line_of(number: u32, text: &mut Blob) -> Result<(), NoMemory>
    ensures { OnOk result (text.new ≡ text.old ++ spec.line_of number) }
{
    text.extend_from_slice(b"  the certificate that is given for ")?;
    add_number(number as usize, text)?;
    text.extend_from_slice(b" would show it: one is wanted here too, or numbers have moved\n")
}
