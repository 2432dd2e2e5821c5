//! The certificate that is found for the entailment for which a program is refused, as `by` gives it; and refusals by whether one is found.

ghost use Rattle.std.specs.Prelude.{◌≡◌, IfOk, Some};
ghost use Rattle.cov_ast.specs.View as view;
ghost use Rattle.cov_ast.specs.WellFormed.{IsWellFormed};
ghost use Rattle.entail_text.specs.Suggestions as text;
ghost use Rattle.entail_refused.specs.Suggested as spec;

use crate::entailment::entailment_in;
use cov_ast::{Cert, Detail, NameTable, Program, Refusal, Rule};
use cov_expr::{Blob, List, NoMemory};
use cov_print::add_cert;
use entail_text::{Finding, found_for};
use std::alloc::Global;
use text_parts::{add_number, variable_names};

/// A refusal, and the certificate that is found for what was asked, behind its number, as `by` gives it.
#[derive(Drop)]
pub struct Found {
    pub refusal: Refusal,
    pub entry: Blob,
}

/// Refusals by whether a certificate is found for what was asked.
#[derive(Drop)]
pub struct Sorted {
    /// Those for which none is found, and those by another rule than V9.
    pub open: List<Refusal>,
    /// The others.
    pub found: List<Found>,
}

/// Refusals of a program, by whether a certificate is found for what was asked: each kind in the order in which they stand. For each it takes the time of a walk over the thread, and that
/// of the searches of `found_for`.
#[tactic(auto, unfolding(crate::specs::Suggested::suggested_entry))]
pub fn sort_refusals(alloc: Global, p: &Program, refusals: &[Refusal]) -> Result<Sorted, NoMemory>
    requires { IsWellFormed (view.program p.now) }
    ensures open { IfOk result (λ made. made.open ≡ spec.open_among (view.program p.now) refusals.now) }
    ensures found { IfOk result (λ made. made.found ≡ spec.found_among (view.program p.now) refusals.now) }
{
    let mut made = Sorted {
        open: List::new(alloc),
        found: List::new(alloc),
    };
    for refusal in refusals {
        let suggested_entry = match (refusal.rule, refusal.thread, refusal.detail) {
            (Rule::V9, Some(t), Detail::Number(n)) => entry_of(alloc, p, t, refusal.place, n)?,
            _ => None,
        };
        match suggested_entry {
            Some(entry) => made.found.push(Found {
                refusal: *refusal,
                entry,
            })?,
            None => made.open.push(*refusal)?,
        }
    }
    Ok(made)
}

/// The same of an entailment of a thread, where there is that thread and the declarations keep the rules.
fn entry_of(
    alloc: Global,
    p: &Program,
    t: u32,
    place: u32,
    number: u32,
) -> Result<Option<Blob>, NoMemory>
    requires { IsWellFormed (view.program p.now) }
    ensures { IfOk result (λ found. found ≡ spec.entry_of (view.program p.now) t place number) }
{
    if t as usize >= p.threads.len() {
        return Ok(None);
    }
    match entailment_in(alloc, p, t, place, number)? {
        Some(e) => match found_for(alloc, &e.hyps, &e.goal)? {
            Finding::Shown(cert) => {
                let names = variable_names(alloc, p)?;
                let made = entry(alloc, &names, e.number, &cert)?;
                Ok(Some(made))
            }
            Finding::Broken(_) | Finding::Neither => Ok(None),
        },
        None => Ok(None),
    }
}

/// A number and its certificate.
fn entry(alloc: Global, names: &NameTable, number: u32, cert: &Cert) -> Result<Blob, NoMemory>
    ensures { IfOk result (λ made. made ≡ text.entry names.now number (view.cert cert.now)) }
{
    let mut made = List::new(alloc);
    add_number(number as usize, &mut made)?;
    made.extend_from_slice(b": ")?;
    add_cert(names, cert, &mut made)?;
    Ok(made)
}
