//! What a state left out.

ghost use Rattle.std.specs.Prelude.{◌≡◌, OnOk, map};
ghost use Rattle.cov_expr.specs.Trees.{has_term};
ghost use Rattle.cov_expr.specs.View.{term};
ghost use Rattle.cov_ast.specs.Plain.{plain};
ghost use Rattle.cov_ast.specs.Tables.{has};
ghost use Rattle.cov_ast.specs.View as view;
ghost use Rattle.entail_origins.specs.GivenViews.{given};
ghost use Rattle.statement_paths.specs.Paths as paths;
ghost use Rattle.point_law.specs.Terms.{each_variable};
ghost use Rattle.entail_losses.specs.LeftOut as spec;

use crate::left_out_states::{StateAt, States};
use cov_ast::{NumberSet, Program};
use cov_expr::{Expr, List, NoMemory, Op, closed, has_same, mentions, same};
use entail_origins::{Given, HypothesisSource, Origin, add_given};
use statement_paths::Step;
use std::alloc::Global;

/// How many predicates are shown at most, and how many parts of those that stores forgot.
pub const MOST_FOUND: usize = 8;

/// A predicate that was left out, with what gives it, and the first state behind that, which doesn't list it; where further states come behind that, with the last.
#[derive(Drop)]
pub struct LeftOut {
    pub term: Expr,
    pub origin: Origin,
    pub state: StateAt,
    pub last: Option<StateAt>,
}

/// Adds what a step gives that the states behind it left out, if there are some. `kept` are the variables that the steps behind it keep.
pub fn add_of_step<'p>(
    alloc: Global,
    p: &'p Program,
    hypotheses: &[Expr],
    kept: &NumberSet,
    step: &Step<'p>,
    states: Option<States>,
    found: &mut List<LeftOut>,
) -> Result<(), NoMemory>
    ensures { OnOk result (map spec.seen found.new ≡ spec.with_step (plain (view.program p.now)) (map term hypotheses.now) kept.now (paths.step step.now) states (map spec.seen found.old)) }
{
    match states {
        Some(states) => {
            let mut all = List::new(alloc);
            add_given(p, step, &mut all)?;
            let at = step.place();
            add_each(alloc, hypotheses, kept, at, states, all.as_slice(), found)
        }
        None => Ok(()),
    }
}

/// Adds those of some predicates that the first of some states left out.
fn add_each(
    alloc: Global,
    hypotheses: &[Expr],
    kept: &NumberSet,
    at: u32,
    states: States,
    all: &[Given<'_>],
    found: &mut List<LeftOut>,
) -> Result<(), NoMemory>
    ensures { OnOk result (map spec.seen found.new ≡ spec.with_each (map term hypotheses.now) kept.now at states (map given all.now) (map spec.seen found.old)) }
{
    for one in all {
        let term = one.term.made(alloc)?;
        let source = one.source;
        if !gives_nothing(source, &term)
            && found.len() < MOST_FOUND
            && !closed(&term)
            && is_over(kept, &term)
            && !is_known(hypotheses, &term)
            && !is_found(found.as_slice(), &term)
        {
            let origin = Origin { source, at };
            found.push(LeftOut {
                term,
                origin,
                state: states.first,
                last: states.last,
            })?;
        }
    }
    Ok(())
}

/// Whether a predicate is a hypothesis, or both sides of an `&&` are known.
pub fn is_known(hypotheses: &[Expr], e: &Expr) -> bool
    ensures { result ≡ spec.is_known (map term hypotheses.now) (term e.now) }
{
    match e {
        Expr::Bin(Op::Both, a, b) => {
            has_same(hypotheses, e) || (is_known(hypotheses, a) && is_known(hypotheses, b))
        }
        Expr::Const(_) | Expr::Var(_) | Expr::Not(_) | Expr::Bin(..) => has_same(hypotheses, e),
    }
}

/// Whether each variable of an expression is in a set.
pub fn is_over(set: &NumberSet, e: &Expr) -> bool
    ensures { result ≡ each_variable (has set.now) (term e.now) }
{
    match e {
        Expr::Const(_) => true,
        Expr::Var(x) => set.has(*x),
        Expr::Not(a) => is_over(set, a),
        Expr::Bin(_, a, b) => is_over(set, a) && is_over(set, b),
    }
}

/// Whether an assignment gives a variable a value over itself, and so no equation.
pub fn gives_nothing(source: HypothesisSource, e: &Expr) -> bool
    ensures { result ≡ spec.gives_nothing source (term e.now) }
{
    match source {
        HypothesisSource::Assigned => {
            match e {
                Expr::Bin(Op::Eq, a, b) => is_own_value(a, b),
                Expr::Const(_) | Expr::Var(_) | Expr::Not(_) | Expr::Bin(..) => false,
            }
        }
        HypothesisSource::Invariant(_)
        | HypothesisSource::Join
        | HypothesisSource::LoopLeft
        | HypothesisSource::LoopState
        | HypothesisSource::Noted
        | HypothesisSource::GuardHolds
        | HypothesisSource::GuardFails => false,
    }
}

/// Whether an expression is a variable that a value mentions.
fn is_own_value(e: &Expr, value: &Expr) -> bool
    ensures { result ≡ spec.is_own_value (term e.now) (term value.now) }
{
    match e {
        Expr::Var(x) => mentions(value, *x),
        Expr::Const(_) | Expr::Not(_) | Expr::Bin(..) => false,
    }
}

/// Whether a predicate was found already.
pub fn is_found(found: &[LeftOut], e: &Expr) -> bool
    ensures { result ≡ has_term (map (λ o. o.term) (map spec.seen found.now)) (term e.now) }
{
    for one in found {
        if same(&one.term, e) {
            return true;
        }
    }
    false
}
