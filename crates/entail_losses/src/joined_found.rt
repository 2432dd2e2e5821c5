//! What the joins of branches leave out of what both blocks give.

ghost use Rattle.std.specs.Prelude.{◌≡◌, OnOk, map};
ghost use Rattle.cov_expr.specs.View.{term};
ghost use Rattle.cov_ast.specs.Plain.{plain};
ghost use Rattle.cov_ast.specs.View as view;
ghost use Rattle.entail_losses.specs.Joined as spec;
ghost use Rattle.entail_losses.specs.LeftOut as left;
ghost use Rattle.statement_paths.specs.Paths as paths;

use crate::joined_given::{StillGiven, is_given_too, still_given};
use crate::left_out_found::{LeftOut, is_found, is_known};
use crate::left_out_states::{StateAt, StateKind, States, last_state, states_from};
use crate::left_out_touched::keep_untouched;
use cov_ast::{NumberSet, Program, Stmt, StmtKind};
use cov_expr::{Expr, List, NoMemory, closed, copy, has_same};
use statement_paths::{Step, add_to_first_end, add_to_second_end};
use std::alloc::Global;

/// How many predicates that states left out are shown at most, those that joins left out of what both blocks give among them.
pub const MOST_LEFT_OUT: usize = 16;

/// Adds what the joins of branches left out of what both blocks give, on the way to a point with some hypotheses, where some variables are stable. Each step is looked at once, and
/// each statement in the blocks of a branch that is passed.
pub fn add_joined(
    alloc: Global,
    p: &Program,
    hypotheses: &[Expr],
    stable: &NumberSet,
    steps: &[Step<'_>],
    found: &mut List<LeftOut>,
) -> Result<(), NoMemory>
    ensures { OnOk result (map left.seen found.new ≡ spec.with_joined (map term hypotheses.now) (plain (view.program p.now)) (map left.seen found.old) stable.now (map paths.step steps.now)) }
{
    let mut kept = stable.copy(alloc)?;
    let mut states = None;
    for i in (0..steps.len()).rev() {
        let step = &steps[i];
        add_of_step(alloc, p, hypotheses, &kept, states, step, found)?;
        keep_untouched(p, true, step, &mut kept);
        states = states_from(step, states);
    }
    Ok(())
}

/// Adds what the join of a step left out, if it passes a branch. `behind` are the states of the steps behind it.
fn add_of_step<'p>(
    alloc: Global,
    p: &'p Program,
    hypotheses: &[Expr],
    kept: &NumberSet,
    behind: Option<States>,
    step: &Step<'p>,
    found: &mut List<LeftOut>,
) -> Result<(), NoMemory>
    ensures { OnOk result (map left.seen found.new ≡ spec.with_joined_step (map term hypotheses.now) (plain (view.program p.now)) kept.now behind (paths.step step.now) (map left.seen found.old)) }
{
    match step {
        Step::Passed(stmt) => add_of_statement(alloc, p, hypotheses, kept, behind, stmt, found),
        Step::Yes(_, _) | Step::No(_, _) | Step::Head(_, _) => Ok(()),
    }
}

/// Adds what the join of a statement left out, if it is a branch.
fn add_of_statement<'p>(
    alloc: Global,
    p: &'p Program,
    hypotheses: &[Expr],
    kept: &NumberSet,
    behind: Option<States>,
    stmt: &'p Stmt,
    found: &mut List<LeftOut>,
) -> Result<(), NoMemory>
    ensures { OnOk result (map left.seen found.new ≡ spec.with_branch (map term hypotheses.now) (plain (view.program p.now)) kept.now behind stmt.now.at (view.kind stmt.now.kind) (map left.seen found.old)) }
{
    match &stmt.kind {
        StmtKind::If(_, _, _, join) => {
            let mut first = List::new(alloc);
            add_to_first_end(stmt.at, &stmt.kind, &mut first)?;
            let mut second = List::new(alloc);
            add_to_second_end(stmt.at, &stmt.kind, &mut second)?;
            let firsts = still_given(alloc, p, kept, first.as_slice())?;
            let seconds = still_given(alloc, p, kept, second.as_slice())?;
            let branch = Branch {
                second: seconds.as_slice(),
                listed: join.preds.as_slice(),
                states: from_join(stmt.at, behind),
            };
            add_unjoined(alloc, hypotheses, branch, firsts.as_slice(), found)
        }
        _ => Ok(()),
    }
}

/// A branch: what its second block still gives, what its join lists, and that join as the first of the states from there on.
#[derive(Clone, Copy)]
struct Branch<'a> {
    second: &'a [StillGiven],
    listed: &'a [Expr],
    states: States,
}

/// The join of the branch at a place, with the last state behind it, if there is one.
fn from_join(at: u32, behind: Option<States>) -> States
    ensures { result ≡ spec.from_join at behind }
{
    let first = StateAt {
        kind: StateKind::Join,
        at,
    };
    let last = last_state(behind);
    States { first, last }
}

/// Adds those of some predicates, which the first block of a branch still gives, that its join left out.
fn add_unjoined(
    alloc: Global,
    hypotheses: &[Expr],
    branch: Branch<'_>,
    first: &[StillGiven],
    found: &mut List<LeftOut>,
) -> Result<(), NoMemory>
    ensures { OnOk result (map left.seen found.new ≡ spec.with_unjoined (map term hypotheses.now) (map (λ g. g.term) (map spec.seen branch.entry.second.now)) (map term branch.entry.listed.now) branch.entry.states (map spec.seen first.now) (map left.seen found.old)) }
{
    for one in first {
        if found.len() < MOST_LEFT_OUT
            && !closed(&one.term)
            && is_given_too(branch.second, &one.term)
            && !has_same(branch.listed, &one.term)
            && !is_known(hypotheses, &one.term)
            && !is_found(found.as_slice(), &one.term)
        {
            let term = copy(alloc, &one.term)?;
            found.push(LeftOut {
                term,
                origin: one.origin,
                state: branch.states.first,
                last: branch.states.last,
            })?;
        }
    }
    Ok(())
}
