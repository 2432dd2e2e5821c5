//! Proofs, types and states as callers get them, without places.

ghost use Rattle.std.specs.Prelude.{◌≡◌, [], ◌∷◌, ◌++◌, map, option_map, IfOk, OnOk};
ghost use Rattle.cov_ast.specs.View as ast;
ghost use Rattle.cov_text.specs.GivenTrees as spec;
ghost use Rattle.cov_read.specs.StateViews as states;

use crate::certs::cert_of;
use crate::exprs::{expr_of, exprs_of};
use crate::turned::turned;
use cov_expr::{Expr, List, NoMemory};
use cov_read::{PlacedProof, PlacedState, Typed};
use std::alloc::Global;

/// A proof without its place.
fn proof_of(alloc: Global, proof: PlacedProof) -> Result<cov_ast::Proof, NoMemory>
    ensures { IfOk result (λ made. ast.proof made ≡ spec.proof_of (states.proof proof)) }
{
    let PlacedProof {
        number,
        at: _,
        cert,
    } = proof;
    let cert = cert_of(alloc, cert)?;
    Ok(cov_ast::Proof { number, cert })
}

fn add_proof(
    alloc: Global,
    proof: PlacedProof,
    made: &mut List<cov_ast::Proof>,
) -> Result<(), NoMemory>
    ensures { OnOk result (map ast.proof made.new ≡ map ast.proof made.old ++ spec.proof_of (states.proof proof) ∷ []) }
{
    let proof = proof_of(alloc, proof)?;
    made.push(proof)
}

/// The proofs of a statement.
pub fn proofs_of(alloc: Global, proofs: List<PlacedProof>) -> Result<List<cov_ast::Proof>, NoMemory>
    ensures { IfOk result (λ made. map ast.proof made ≡ map spec.proof_of (map states.proof proofs)) }
{
    let mut rest = turned(proofs);
    let mut made = List::with_capacity(alloc, rest.len())?;
    while let Some(proof) = rest.pop() {
        add_proof(alloc, proof, &mut made)?;
    }
    Ok(made)
}

/// A new type of a variable.
fn retype_of(pair: Typed) -> cov_ast::Retype
    ensures { ast.retype result ≡ spec.pair_of (states.typed pair) }
{
    cov_ast::Retype {
        var: pair.name,
        class: expr_of(pair.class),
    }
}

/// New types of variables.
fn retypes_of(alloc: Global, pairs: List<Typed>) -> Result<List<cov_ast::Retype>, NoMemory>
    ensures { IfOk result (λ made. map ast.retype made ≡ map spec.pair_of (map states.typed pairs)) }
{
    let mut rest = turned(pairs);
    let mut made = List::with_capacity(alloc, rest.len())?;
    while let Some(pair) = rest.pop() {
        made.push(retype_of(pair))?;
    }
    Ok(made)
}

/// The type of a variable.
fn type_of(pair: Typed) -> (u32, Expr)
    ensures { ast.typed result ≡ spec.pair_of (states.typed pair) }
{
    (pair.name, expr_of(pair.class))
}

/// Types of variables.
fn types_of(alloc: Global, pairs: List<Typed>) -> Result<List<(u32, Expr)>, NoMemory>
    ensures { IfOk result (λ made. map ast.typed made ≡ map spec.pair_of (map states.typed pairs)) }
{
    let mut rest = turned(pairs);
    let mut made = List::with_capacity(alloc, rest.len())?;
    while let Some(pair) = rest.pop() {
        made.push(type_of(pair))?;
    }
    Ok(made)
}

/// A state without places.
pub fn state_of(alloc: Global, state: PlacedState) -> Result<cov_ast::State, NoMemory>
    ensures { IfOk result (λ made. ast.state made ≡ spec.state_of (states.state state)) }
{
    let PlacedState {
        at: _,
        preds,
        types,
    } = state;
    Ok(cov_ast::State {
        preds: exprs_of(alloc, preds)?,
        types: types_of(alloc, types)?,
    })
}

/// A state, or one that says nothing.
fn state_or_none(alloc: Global, state: Option<Box<PlacedState>>) -> Result<cov_ast::State, NoMemory>
    ensures { IfOk result (λ made. ast.state made ≡ spec.state_or_none (option_map (λ j. states.state j.value) state)) }
{
    match state {
        Some(state) => state_of(alloc, Box::into_inner(state)),
        None => Ok(cov_ast::State {
            preds: List::new(alloc),
            types: List::new(alloc),
        }),
    }
}

/// What is stated behind a statement, and its proofs.
pub fn stated_of(
    alloc: Global,
    state: Option<Box<PlacedState>>,
    proofs: List<PlacedProof>,
) -> Result<(cov_ast::State, List<cov_ast::Proof>), NoMemory>
    ensures state { IfOk result (λ made. ast.state made.0 ≡ spec.state_or_none (option_map (λ j. states.state j.value) state)) }
    ensures proofs { IfOk result (λ made. map ast.proof made.1 ≡ map spec.proof_of (map states.proof proofs)) }
{
    let state = state_or_none(alloc, state)?;
    let proofs = proofs_of(alloc, proofs)?;
    Ok((state, proofs))
}

/// New types of variables behind a statement, and its proofs.
pub fn retyped_of(
    alloc: Global,
    pairs: List<Typed>,
    proofs: List<PlacedProof>,
) -> Result<(List<cov_ast::Retype>, List<cov_ast::Proof>), NoMemory>
    ensures retypes { IfOk result (λ made. map ast.retype made.0 ≡ map spec.pair_of (map states.typed pairs)) }
    ensures proofs { IfOk result (λ made. map ast.proof made.1 ≡ map spec.proof_of (map states.proof proofs)) }
{
    let retypes = retypes_of(alloc, pairs)?;
    let proofs = proofs_of(alloc, proofs)?;
    Ok((retypes, proofs))
}
