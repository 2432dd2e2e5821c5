//! Whether entailments are small, whether each has a valid certificate (V9), and whether the numbers of proofs are theirs (V13).

ghost use Rattle.std.specs.Prelude.{◌≡◌, ◌<◌, ◌+◌, ◌^◌, ◌==◌, ℕ, List, [], IfOk, length, map, count_by};
ghost use Rattle.std.specs.List.{list_all};
ghost use Rattle.cov_expr.specs.View.{term};
ghost use Rattle.cov_ast.specs.Obligations.{Decides};
ghost use Rattle.cov_ast.specs.Plain.{Plain, plain};
ghost use Rattle.cov_ast.specs.Syntax.{auto};
ghost use Rattle.cov_ast.specs.Syntax as syntax;
ghost use Rattle.cov_ast.specs.View as view;
ghost use Rattle.entail_cert.specs.Answers.{Answers};
ghost use Rattle.entail_cert.specs.Valid.{first_bad, is_valid};
ghost use Rattle.typing_law.specs.Entailments as spec;
ghost use Rattle.typing_law.specs.ThreadObligations as rule;
ghost use Rattle.typing_rules.specs.Keeping.{looked_at};
ghost use Rattle.typing_state.specs.KeptPoints.{AtPoint};
ghost use Rattle.typing_rules.specs.Unproved as found;
ghost use Rattle.typing_rules.specs.Listed.{entailment_of, entailments_of};
ghost use Rattle.typing_rules.specs.declared.purpose.Purpose.{Purpose};

use crate::asked::Entailment;
use crate::known::is_seen;
use cov_ast::{Cert, CheckFault, Detail, Program, Proof, Rule};
use cov_expr::{Expr, MOST_NODES, NoMemory, nodes_at_most};
use entail_cert::{CertFault, check_cert, check_cert_with};
use std::alloc::Global;
use typing_law::{Site, refused_at};
use typing_state::Point;

/// Whether no entailment has a hypothesis or a goal of more than 1,000 nodes. The point knows it of its predicates.
pub fn are_small(point: &Point, entailments: &[Entailment<'_>]) -> bool
    ensures { (p : Plain) → (t : ℕ) → AtPoint p t point.now (λ a. result ≡ list_all spec.is_small_entailment (entailments_of a.preds entailments.now)) }
{
    if entailments.is_empty() {
        return true;
    }
    point.has_small_preds() && are_small_entailments(entailments)
}

/// Whether what entailments have beside predicates is small.
fn are_small_entailments(entailments: &[Entailment<'_>]) -> bool
    ensures { result ≡ list_all (λ c. spec.is_small_entailment (entailment_of [] c)) entailments.now }
{
    entailments.iter().all(is_small)
}

/// Whether what an entailment has beside predicates is small.
fn is_small(entailment: &Entailment<'_>) -> bool
    ensures { result ≡ spec.is_small_entailment (entailment_of [] entailment.now) }
{
    let small_more = match &entailment.more {
        Some(more) => nodes_at_most(more.expr(), MOST_NODES),
        None => true,
    };
    small_more && nodes_at_most(entailment.goal.expr(), MOST_NODES)
}

/// The number of the first entailment without a valid certificate, if there is one (V9). They are numbered from a number on.
pub fn first_unproved(
    alloc: Global,
    point: &Point,
    proofs: &[Proof],
    from: u32,
    entailments: &[Entailment<'_>],
) -> Result<Option<u32>, NoMemory>
    requires { from + length entailments.now < 2 ^ 32 }
    ensures { IfOk result (λ unproved. (p : Plain) → (t : ℕ) → AtPoint p t point.now (λ a.
        unproved ≡ found.first_unproved (map view.proof proofs.now) from (entailments_of a.preds entailments.now))) }
{
    let mut number = from;
    let mut next = 0;
    for entailment in entailments {
        if !is_proved(alloc, point, proofs, number, entailment, &mut next)? {
            return Ok(Some(number));
        }
        number += 1;
    }
    Ok(None)
}

/// Each entailment that a walk looks at has a valid certificate (V9), unless this is the number of the first without one.
pub fn require_proved(site: Site, unproved: Option<u32>) -> Result<(), CheckFault>
    ensures { (u : Purpose) → (p : Plain) → (proofs : List syntax.Proof) → (n : ℕ) → (gs : List spec.Entailment) → unproved ≡ found.unproved_for u proofs n gs
        → Decides (looked_at u (rule.proved p site.thread site.place proofs n gs)) result }
{
    match unproved {
        Some(number) => Err(refused_at(site, Rule::V9, Detail::Number(number))),
        None => Ok(()),
    }
}

/// Whether the certificate that is given for the number of an entailment is valid, else `auto`. The predicate at the place
/// `next` is looked at first.
pub fn is_proved(
    alloc: Global,
    point: &Point,
    proofs: &[Proof],
    number: u32,
    entailment: &Entailment<'_>,
    next: &mut usize,
) -> Result<bool, NoMemory>
    ensures { IfOk result (λ proved. (p : Plain) → (t : ℕ) → AtPoint p t point.now (λ a.
        proved ≡ spec.is_proved (map view.proof proofs.now) number (entailment_of a.preds entailment.now))) }
{
    is_proved_by(
        alloc,
        point,
        entailment,
        cert_for(proofs, number, &Cert::Auto),
        next,
    )
}

/// Whether a certificate is valid for an entailment. Where it is `auto`, what is seen to hold needs no walk.
fn is_proved_by(
    alloc: Global,
    point: &Point,
    entailment: &Entailment<'_>,
    cert: &Cert,
    next: &mut usize,
) -> Result<bool, NoMemory>
    ensures { IfOk result (λ proved. (p : Plain) → (t : ℕ) → AtPoint p t point.now (λ a.
        proved ≡ is_valid (entailment_of a.preds entailment.now).hyps (entailment_of a.preds entailment.now).goal (view.cert cert.now))) }
{
    if let Cert::Auto = cert {
        if is_seen(alloc, point, entailment, next)? {
            return Ok(true);
        }
    }
    match walk_entailment(alloc, point, entailment, cert) {
        Ok(()) => Ok(true),
        Err(CertFault::Invalid(_)) => Ok(false),
        Err(CertFault::NoMemory) => Err(NoMemory),
    }
}

/// Walks over a certificate of an entailment.
fn walk_entailment(
    alloc: Global,
    point: &Point,
    entailment: &Entailment<'_>,
    cert: &Cert,
) -> Result<(), CertFault>
    ensures { (p : Plain) → (t : ℕ) → AtPoint p t point.now (λ a.
        Answers (first_bad (entailment_of a.preds entailment.now).hyps (entailment_of a.preds entailment.now).goal (view.cert cert.now)) result) }
{
    let goal = entailment.goal.expr();
    match &entailment.more {
        Some(more) => check_cert_with(alloc, point.preds(), more.expr(), goal, cert),
        None => check_cert(alloc, point.preds(), goal, cert),
    }
}

/// The first certificate that is given for a number, else the one that is handed in.
fn cert_for<'a>(proofs: &'a [Proof], number: u32, other: &'a Cert) -> &'a Cert
    requires { view.cert other.now ≡ auto }
    ensures { view.cert result.now ≡ spec.cert_for (map view.proof proofs.now) number }
{
    for proof in proofs {
        if proof.number == number {
            return &proof.cert;
        }
    }
    other
}

/// Each number of a proof is that of one of so many entailments, and no other proof has it (V13).
pub fn check_numbers(
    p: &Program,
    site: Site,
    count: usize,
    proofs: &[Proof],
) -> Result<(), CheckFault>
    ensures { Decides (rule.numbers (plain (view.program p.now)) site.thread site.place count (map view.proof proofs.now)) result }
{
    for proof in proofs {
        if !is_number(count, proofs, proof.number) {
            return Err(refused_at(site, Rule::V13, Detail::Number(proof.number)));
        }
    }
    Ok(())
}

/// Whether a number is that of one of so many entailments, and one proof has it.
fn is_number(count: usize, proofs: &[Proof], number: u32) -> bool
    ensures { result ≡ rule.is_number count (map view.proof proofs.now) number }
{
    1 <= number && number as usize <= count && times_given(proofs, number) == 1
}

/// How many proofs have a number.
fn times_given(proofs: &[Proof], number: u32) -> usize
    ensures { result ≡ count_by (λ q. q.number == number) proofs.now }
{
    proofs.iter().filter(|q| q.number == number).count()
}
