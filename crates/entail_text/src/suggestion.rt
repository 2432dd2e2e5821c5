//! What is told of what is found for an entailment: a certificate, and where it is to be written, or a memory that breaks it.

ghost use Rattle.std.specs.Prelude.{◌≡◌, ◌++◌, OnOk, map};
ghost use Rattle.cov_expr.specs.View.{term};
ghost use Rattle.cov_ast.specs.View as view;
ghost use Rattle.entail_text.specs.Findings.{seen};
ghost use Rattle.entail_text.specs.Suggestions as spec;

use crate::broken::{add_broken, add_neither};
use crate::finding::Finding;
use crate::given::cert_for;
use cov_ast::{Cert, NameTable, Proof};
use cov_expr::{Blob, Expr, NoMemory};
use cov_print::add_cert;
use text_parts::add_number;

/// Adds what is found for the entailment of a number, whose goal is `goal`: the certificate, in its canonical spelling, and where it is to be written, by what the statement
/// gives; or a memory in which all hypotheses hold and the goal doesn't; or that neither is found. Each line begins with two blanks.
///
/// `names` are those of the variables, `proofs` what the statement gives. It takes time and memory in proportion to what is added.
pub fn add_finding(
    names: &NameTable,
    proofs: &[Proof],
    number: u32,
    goal: &Expr,
    found: &Finding,
    text: &mut Blob,
) -> Result<(), NoMemory>
    ensures { OnOk result (text.new ≡ text.old ++ spec.finding_lines names.now (map view.proof proofs.now) number (term goal.now) (seen found.now)) }
{
    match found {
        Finding::Shown(cert) => {
            text.extend_from_slice(b"  suggestion:   ")?;
            add_found(names, proofs, number, cert, text)
        }
        Finding::Broken(m) => add_broken(names, goal, m.as_slice(), text),
        Finding::Neither => add_neither(goal, text),
    }
}

/// Adds what is to be done with a certificate that is found.
fn add_found(
    names: &NameTable,
    proofs: &[Proof],
    number: u32,
    cert: &Cert,
    text: &mut Blob,
) -> Result<(), NoMemory>
    ensures { OnOk result (text.new ≡ text.old ++ spec.found_lines names.now (map view.proof proofs.now) number (view.cert cert.now)) }
{
    if matches!(cert, Cert::Auto) {
        text.extend_from_slice(b"take the certificate of ")?;
        add_number(number as usize, text)?;
        return text.extend_from_slice(
            b" away: `auto` shows it, which stands where none is given\n",
        );
    }
    if cert_for(proofs, number).is_some() {
        add_entry(names, number, cert, text)?;
        return text.extend_from_slice(
            b"\n                it is valid: write it in the place of the one that is given\n",
        );
    }
    if proofs.is_empty() {
        text.extend_from_slice(b"by { ")?;
        add_entry(names, number, cert, text)?;
        text.extend_from_slice(
            b" }\n                it is valid: write it at the end of the statement, in front of its `;` if it has one; all of a statement stand in one `by`, with commas\n",
        )
    } else {
        text.extend_from_slice(b", ")?;
        add_entry(names, number, cert, text)?;
        text.extend_from_slice(
            b"\n                it is valid: write it last in the `by` of the statement\n",
        )
    }
}

/// Adds a number and its certificate, as `by` gives them.
fn add_entry(names: &NameTable, number: u32, cert: &Cert, text: &mut Blob) -> Result<(), NoMemory>
    ensures { OnOk result (text.new ≡ text.old ++ spec.entry names.now number (view.cert cert.now)) }
{
    add_number(number as usize, text)?;
    text.extend_from_slice(b": ")?;
    add_cert(names, cert, text)
}
