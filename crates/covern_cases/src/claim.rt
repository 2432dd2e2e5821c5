//! What a note with a proof claims.
ghost use Rattle.std.specs.Prelude.{◌≡◌, IfOk, map, option_map};
ghost use Rattle.cov_expr.specs.View.{term};
ghost use Rattle.cov_ast.specs.View as view;
ghost use Rattle.covern_cases.specs.Claims.{claimed, sides, untyped_sides};
ghost use Rattle.covern_cases.specs.Views.{claim};

use cov_ast::{Cert, State, Stmt, StmtKind};
use cov_expr::{Expr, List, NoMemory, copy};
use std::alloc::Global;

/// That a goal follows from hypotheses, and why.
#[derive(Drop)]
pub struct Claim<'p> {
    pub hyps: List<Expr>,
    pub goal: &'p Expr,
    pub cert: &'p Cert,
}

/// What a note with a proof claims. `None` comes for other statements, and for a note that states nothing.
pub fn claim_of(alloc: Global, stmt: &Stmt) -> Result<Option<Claim<'_>>, NoMemory>
    ensures { IfOk result (λ found. option_map claim found ≡ claimed (view.stmt stmt.now).stm (view.stmt stmt.now).proofs) }
{
    let (StmtKind::Note(state), [proof, ..]) = (&stmt.kind, stmt.proofs.as_slice()) else {
        return Ok(None);
    };
    let Some((hyps, goal)) = sides_of(state) else {
        return Ok(None);
    };
    Ok(Some(Claim {
        hyps: copies(alloc, hyps)?,
        goal,
        cert: &proof.cert,
    }))
}

/// The hypotheses and the goal: the predicates and the expression of the first type, or, where there is no type, the predicates
/// but the last, and the last.
fn sides_of(state: &State) -> Option<(&[Expr], &Expr)>
    ensures { option_map (λ found. (map term found.0.now, term found.1.now)) result ≡ sides (view.state state.now) }
{
    match state.types.as_slice() {
        [(_, goal), ..] => Some((state.preds.as_slice(), goal)),
        [] => untyped_sides(state.preds.as_slice()),
    }
}

#[tactic(auto, using(crate::proofs::Sides::sides_are))]
fn untyped_sides(preds: &[Expr]) -> Option<(&[Expr], &Expr)>
    ensures { option_map (λ found. (map term found.0.now, term found.1.now)) result ≡ untyped_sides (map term preds.now) }
{
    let (goal, hyps) = preds.split_last()?;
    Some((hyps, goal))
}

fn copies(alloc: Global, es: &[Expr]) -> Result<List<Expr>, NoMemory>
    ensures { IfOk result (λ copied. map term copied ≡ map term es.now) }
{
    let mut copied = List::new(alloc);
    for e in es {
        copied.push(copy(alloc, e)?)?;
    }
    Ok(copied)
}
