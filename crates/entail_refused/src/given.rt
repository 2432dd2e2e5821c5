//! The certificates that a statement gives, for an entailment and for others, and what is found for one.

ghost use Rattle.std.specs.Prelude.{◌≡◌, ◌<◌, ◌++◌, IfOk, OnOk, flat_map, length, map, option_map};
ghost use Rattle.cov_ast.specs.View as view;
ghost use Rattle.cov_ast.specs.WellFormed.{IsWellFormed};
ghost use Rattle.entail_text.specs.Findings.{seen};
ghost use Rattle.mode_compat.specs.Compatible.{numbered};
ghost use Rattle.typing_law.specs.ThreadEntailments.{view_entail};
ghost use Rattle.entail_refused.specs.GivenCertificates as certificates;
ghost use Rattle.entail_refused.specs.GivenElsewhere as spec;

use cov_ast::{Cert, Program, Proof};
use cov_expr::{Blob, NoMemory};
use entail_text::{Finding, add_finding, add_other, cert_for};
use statement_paths::way_to;
use std::alloc::Global;
use text_parts::{add_number, variable_names};
use typing_law::Entail;

/// The certificate that a thread gives for an entailment. `None` comes where it gives none.
pub fn cert_of<'p>(
    alloc: Global,
    p: &'p Program,
    t: u32,
    e: &Entail,
) -> Result<Option<&'p Cert>, NoMemory>
    requires thread { t < length p.now.threads }
    ensures { IfOk result (λ found. option_map (λ c. view.cert c.now) found ≡ certificates.cert_of (numbered (view.program p.now) t).body e.now.place e.now.number) }
{
    match way_to(alloc, p.body_of(t), e.place)? {
        Some(way) => Ok(cert_for(way.stmt.proofs.as_slice(), e.number)),
        None => Ok(None),
    }
}

/// Adds what the statement of an entailment of a thread gives for others: for which certificates are given, where none is given for this one,
/// and which of these would show it. Then adds what is found for it.
pub fn add_given(
    alloc: Global,
    p: &Program,
    t: u32,
    e: &Entail,
    found: &Finding,
    text: &mut Blob,
) -> Result<(), NoMemory>
    requires formed { IsWellFormed (view.program p.now) }
    requires thread { t < length p.now.threads }
    ensures { OnOk result (text.new ≡ text.old ++ spec.given_lines (view.program p.now) t (seen found.now) (view_entail e.now)) }
{
    match way_to(alloc, p.body_of(t), e.place)? {
        Some(way) => {
            let names = variable_names(alloc, p)?;
            let proofs = way.stmt.proofs.as_slice();
            if !is_given(proofs, e.number) {
                add_numbers(proofs, text)?;
            }
            add_other(alloc, proofs, e.number, &e.hyps, &e.goal, text)?;
            add_finding(&names, proofs, e.number, &e.goal, found, text)
        }
        None => Ok(()),
    }
}

/// Whether a certificate is given for a number.
fn is_given(proofs: &[Proof], number: u32) -> bool
    ensures { result ≡ spec.is_given (map view.proof proofs.now) number }
{
    for proof in proofs {
        if proof.number == number {
            return true;
        }
    }
    false
}

/// Adds the line of the numbers of certificates, if there are some.
fn add_numbers(proofs: &[Proof], text: &mut Blob) -> Result<(), NoMemory>
    ensures { OnOk result (text.new ≡ text.old ++ spec.numbers_line (map view.proof proofs.now)) }
{
    if proofs.is_empty() {
        return Ok(());
    }
    text.extend_from_slice(b"  given for:   ")?;
    add_each(proofs, text)?;
    text.extend_from_slice(b"\n")
}

/// Adds the number of each certificate.
fn add_each(proofs: &[Proof], text: &mut Blob) -> Result<(), NoMemory>
    ensures { OnOk result (text.new ≡ text.old ++ flat_map spec.number_text (map view.proof proofs.now)) }
{
    for proof in proofs {
        text.extend_from_slice(b" ")?;
        add_number(proof.number as usize, text)?;
    }
    Ok(())
}
