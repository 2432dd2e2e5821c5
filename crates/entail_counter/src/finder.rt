//! The counterexample that a search comes to.

ghost use Rattle.std.specs.Prelude.{◌≡◌, ◌+◌, ◌<◌, IfOk, IsTrue, MatchOption, ◌^◌, map, nat_lt, not};
ghost use Rattle.std.specs.List.{list_any};
ghost use Rattle.cov_expr.specs.Trees.{nodes};
ghost use Rattle.cov_expr.specs.View.{term};
ghost use Rattle.entail_counter.specs.Counterexamples as spec;
ghost use Rattle.entail_counter.specs.Known as what;
ghost use Rattle.entail_counter.specs.Searching as search;

use crate::binding::Binding;
use crate::candidates::common;
use crate::known::known;
use crate::search::{MOST_BINDINGS, MOST_VISITED, is_other, is_zero, search};
use cov_expr::{Expr, List, NoMemory, nodes_left};
use std::alloc::Global;

/// A memory in which all hypotheses hold and the goal doesn't, as bindings of the variables that occur. `None` comes where the search, whose work is
/// bounded, comes to none: that says nothing of the entailment.
///
/// Its trials visit [`MOST_VISITED`] nodes of expressions at most; to choose a variable and its values it visits some three times as many besides. It takes memory for the bindings and
/// the values that it tries. It is a search with backtracking (Bitner and Reingold 1975): an expression in which one variable is free comes before those in which several are.
#[tactic(auto, unfolding(crate::specs::Counterexamples::counterexample))]
pub fn counterexample(
    alloc: Global,
    hyps: &[Expr],
    goal: &Expr,
) -> Result<Option<List<Binding>>, NoMemory>
    ensures { IfOk result (λ found. found ≡ spec.counterexample (map term hyps.now) (term goal.now)) }
{
    let more = common(alloc, hyps, goal)?;
    let mut left = trials(hyps, goal);
    let found = search(
        alloc,
        hyps,
        goal,
        more.as_slice(),
        MOST_BINDINGS,
        &[],
        &mut left,
    )?;
    Ok(only_breaking(hyps, goal, found))
}

/// How many trials there are.
fn trials(hyps: &[Expr], goal: &Expr) -> u32
    ensures { result ≡ search.trials (map term hyps.now) (term goal.now) }
{
    match nodes_left_by(hyps, goal, MOST_VISITED) {
        Some(left) => MOST_VISITED / (MOST_VISITED - left + 1),
        None => 0,
    }
}

/// How many of some nodes hypotheses and a goal leave, and `None` where they have more. It looks at no more nodes than these, and one.
pub fn nodes_left_by(hyps: &[Expr], goal: &Expr, most: u32) -> Option<u32>
    ensures { MatchOption result (most < nodes (term goal.now) + search.total (map term hyps.now))
        (λ left. left + nodes (term goal.now) + search.total (map term hyps.now) ≡ most) }
{
    let mut left = nodes_left(goal, most)?;
    for h in hyps {
        left = nodes_left(h, left)?;
    }
    Some(left)
}

/// Bindings that settle that all hypotheses hold and the goal doesn't.
fn only_breaking(hyps: &[Expr], goal: &Expr, found: Option<List<Binding>>) -> Option<List<Binding>>
    ensures { result ≡ spec.only_breaking (map term hyps.now) (term goal.now) found }
{
    match found {
        Some(m) => {
            have_words(m.as_slice());
            if does_break(hyps, goal, m.as_slice()) {
                Some(m)
            } else {
                None
            }
        }
        None => None,
    }
}

/// The values of bindings are words.
fn have_words(m: &[Binding])
    ensures { IsTrue (spec.are_words m.now) }
{
    for b in m {
        has_word(b.value);
    }
}

/// A number of the code is a word.
fn has_word(_value: u32)
    ensures { IsTrue (nat_lt _value (2 ^ 32)) }
{}

/// Whether bindings settle that all hypotheses hold and that the goal doesn't.
fn does_break(hyps: &[Expr], goal: &Expr, m: &[Binding]) -> bool
    ensures { result ≡ spec.does_break (map term hyps.now) (term goal.now) m.now }
{
    is_zero(known(goal, m)) && !is_open(hyps, m)
}

/// Whether they leave it open that a hypothesis holds.
fn is_open(hyps: &[Expr], m: &[Binding]) -> bool
    ensures { result ≡ list_any (λ h. not (search.is_other (what.known h m.now))) (map term hyps.now) }
{
    for h in hyps {
        if !is_other(known(h, m)) {
            return true;
        }
    }
    false
}
