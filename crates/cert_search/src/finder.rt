//! The search for a valid certificate of a class.

ghost use Rattle.std.specs.Prelude.{◌≡◌, ◌≤◌, IfOk, map, option_map};
ghost use Rattle.cov_expr.specs.View.{term};
ghost use Rattle.cov_ast.specs.View as view;
ghost use Rattle.entail_range.specs.Range.{lent};
ghost use Rattle.cert_search.specs.Classes.{Finds};
ghost use Rattle.cert_search.specs.Searching as spec;

use crate::search::search;
use cov_ast::Cert;
use cov_expr::{Expr, List, NoMemory};
use std::alloc::Global;

/// The greatest depth of a search: how many steps stand above each other in a certificate, at most.
pub const MOST_DEPTH: u32 = 2;

/// A valid certificate of the class of a depth, for the claim that a goal holds in every memory in which all hypotheses hold.
///
/// `None` comes exactly where no certificate of the class is valid. That doesn't make the claim false, and a certificate that isn't of the class may
/// still be valid. Of several the first comes, in the order of an iterative deepening (Korf 1985): those of fewer steps one above the other before those of
/// more.
///
/// With n hypotheses it looks at some n * n steps at depth 1 at most, and at as many behind each of these at depth 2. It takes memory for pointers to
/// the hypotheses, once for each step on the way to where it looks, and for the expressions that these steps make. Want of memory may come in the place of
/// each answer, and does where a hypothesis would be named whose number is past 4294967295.
pub fn find(
    alloc: Global,
    hyps: &List<Expr>,
    goal: &Expr,
    depth: u32,
) -> Result<Option<Cert>, NoMemory>
    requires { depth ≤ MOST_DEPTH }
    ensures finds { Finds depth (map term hyps.now) (term goal.now) result }
    // Of several the one that comes first in a stated order.
    ensures first { IfOk result (λ found. option_map view.cert found ≡ spec.search depth (map term hyps.now) (term goal.now)) }
{
    let given = lent_each(alloc, hyps.as_slice())?;
    find_lent(alloc, given.as_slice(), goal, depth)
}

/// The same of hypotheses that are lent one by one, for each depth. At a greater one it looks at as many steps more behind each.
#[tactic(auto, using(crate::proofs::Told::told))]
pub fn find_lent(
    alloc: Global,
    hyps: &[&Expr],
    goal: &Expr,
    depth: u32,
) -> Result<Option<Cert>, NoMemory>
    ensures finds { Finds depth (map lent hyps.now) (term goal.now) result }
    ensures first { IfOk result (λ found. option_map view.cert found ≡ spec.search depth (map lent hyps.now) (term goal.now)) }
{
    search(alloc, hyps, 0, goal, depth)
}

/// Expressions, each lent.
pub fn lent_each<'a>(alloc: Global, exprs: &'a [Expr]) -> Result<List<&'a Expr>, NoMemory>
    ensures { IfOk result (λ made. map lent made ≡ map term exprs.now) }
{
    let mut made = List::with_capacity(alloc, exprs.len())?;
    for e in exprs {
        made.push(e)?;
    }
    Ok(made)
}
