//! Certificates put among the proofs of the statements of a text, which are changed in place.

ghost use Rattle.std.specs.Prelude.{◌≡◌, ◌≤◌, ◌++◌, length, map, IfOk, OnOk};
ghost use Rattle.cov_ast.specs.View as view;
ghost use Rattle.annotate.specs.Inside.Choosing.{chosen_at, chosen_in, lent_choice, view_choice};
ghost use Rattle.annotate.specs.Inside.Putting.{put_in_stmt, with_chosen};
ghost use Rattle.annotate.specs.WithCertificates as spec;

use crate::choices::{Choice, ThreadChoices};
use crate::placing::{chosen_for, for_others, lent_choices};
use cov_ast::{Proof, Stmt, StmtKind, ThreadDecl};
use cov_expr::{List, NoMemory};
use std::alloc::Global;
use tree_copies::copy_cert;

/// Puts what is chosen for each thread into it.
pub fn put_in_threads(
    alloc: Global,
    chosen: &[ThreadChoices],
    threads: &mut [ThreadDecl],
) -> Result<(), NoMemory>
    requires { length threads.old ≤ length chosen.now }
    ensures { OnOk result (map view.thread threads.new ≡ spec.put_in_threads (chosen_in chosen.now) 0 (map view.thread threads.old)) }
{
    for t in 0..threads.len() {
        put_in_thread(alloc, &chosen[t], &mut threads[t])?;
    }
    Ok(())
}

fn put_in_thread(
    alloc: Global,
    chosen: &ThreadChoices,
    thread: &mut ThreadDecl,
) -> Result<(), NoMemory>
    ensures { OnOk result (view.thread thread.new ≡ spec.put_in_thread (chosen_at chosen.now) (view.thread thread.old)) }
{
    put_in_block(alloc, chosen, thread.body.as_mut_slice())
}

#[cycle(blocks)]
fn put_in_block(alloc: Global, chosen: &ThreadChoices, body: &mut [Stmt]) -> Result<(), NoMemory>
    ensures { OnOk result (view.block body.new ≡ spec.put_in (chosen_at chosen.now) (view.block body.old)) }
{
    for i in 0..body.len() {
        put_in_stmt(alloc, chosen, &mut body[i])?;
    }
    Ok(())
}

#[cycle(blocks)]
fn put_in_stmt(alloc: Global, chosen: &ThreadChoices, stmt: &mut Stmt) -> Result<(), NoMemory>
    ensures { OnOk result (view.stmt stmt.new ≡ put_in_stmt (chosen_at chosen.now) (view.stmt stmt.old)) }
{
    put_in_kind(alloc, chosen, &mut stmt.kind)?;
    put_among(alloc, chosen.at(stmt.at), &mut stmt.proofs)
}

#[cycle(blocks)]
fn put_in_kind(alloc: Global, chosen: &ThreadChoices, kind: &mut StmtKind) -> Result<(), NoMemory>
    ensures { OnOk result (view.kind kind.new ≡ spec.put_in_stm (chosen_at chosen.now) (view.kind kind.old)) }
{
    match kind {
        StmtKind::If(_, yes, no, _) => {
            put_in_block(alloc, chosen, yes.as_mut_slice())?;
            put_in_block(alloc, chosen, no.as_mut_slice())
        }
        StmtKind::While(_, _, turn) => put_in_block(alloc, chosen, turn.as_mut_slice()),
        _ => Ok(()),
    }
}

/// Puts chosen certificates among the proofs of a statement: each in the place of the first proof of its number, or else behind all. It goes over what is chosen for
/// each proof, and for a statement that is never more than the entailments that one may have.
fn put_among(alloc: Global, chosen: &[Choice], proofs: &mut List<Proof>) -> Result<(), NoMemory>
    ensures { OnOk result (map view.proof proofs.new ≡ spec.with_certs (map view_choice chosen.now) (map view.proof proofs.old)) }
{
    let left = replace_each(alloc, chosen, proofs.as_mut_slice())?;
    add_behind(alloc, left.as_slice(), proofs)
}

/// Puts chosen certificates in the place of those of proofs. What is chosen for numbers without a proof.
fn replace_each<'c>(
    alloc: Global,
    chosen: &'c [Choice],
    proofs: &mut [Proof],
) -> Result<List<&'c Choice>, NoMemory>
    ensures { IfOk result (λ left. map view.proof proofs.new ++ map spec.proof_of (map lent_choice left)
        ≡ spec.with_certs (map view_choice chosen.now) (map view.proof proofs.old)) }
{
    let mut left = lent_choices(alloc, chosen)?;
    for proof in proofs.iter_mut() {
        left = replace_one(alloc, left, proof)?;
    }
    Ok(left)
}

/// Puts what is chosen for the number of a proof in the place of its certificate. What is chosen for other numbers.
fn replace_one<'c>(
    alloc: Global,
    left: List<&'c Choice>,
    proof: &mut Proof,
) -> Result<List<&'c Choice>, NoMemory>
    ensures { IfOk result (λ now. (map lent_choice now ≡ spec.for_others proof.old.number (map lent_choice left.entry))
        × (view.proof proof.new ≡ with_chosen (map lent_choice left.entry) (view.proof proof.old))) }
{
    match chosen_for(left.as_slice(), proof.number) {
        Some(cert) => {
            proof.cert = copy_cert(alloc, cert)?;
            for_others(alloc, proof.number, left.as_slice())
        }
        None => Ok(left),
    }
}

/// Adds proofs with what is chosen behind others.
fn add_behind(alloc: Global, rest: &[&Choice], proofs: &mut List<Proof>) -> Result<(), NoMemory>
    ensures { OnOk result (map view.proof proofs.new ≡ map view.proof proofs.old ++ map spec.proof_of (map lent_choice rest.now)) }
{
    for choice in rest {
        let cert = copy_cert(alloc, &choice.cert)?;
        proofs.push(Proof {
            number: choice.number,
            cert,
        })?;
    }
    Ok(())
}
