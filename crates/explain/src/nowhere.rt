//! Expressions that hold in no memory of words.

ghost use Rattle.std.specs.Prelude.{◌≡◌, ◌++◌, IfOk, OnOk, map};
ghost use Rattle.std.specs.List.{list_any};
ghost use Rattle.cov_expr.specs.Trees.{conjuncts};
ghost use Rattle.cov_expr.specs.View.{term};
ghost use Rattle.explain.specs.HoldsNowhere as spec;

use cert_search::find;
use cov_expr::{Expr, List, NoMemory, Op, copy};
use entail_cert::expressions_are_of_words;
use entail_range::{Bound, bound};
use std::alloc::Global;

/// Whether bounds, or a certificate of one node, show that the parts which `&&` joins in an expression can't all hold. It takes memory for a copy of
/// them, and compares each node, and each part, with each part.
#[tactic(auto, unfolding(crate::specs::HoldsNowhere::holds_nowhere))]
pub fn holds_nowhere(alloc: Global, e: &Expr) -> Result<bool, NoMemory>
    ensures { IfOk result (λ found. found ≡ spec.holds_nowhere (term e.now)) }
{
    let mut parts = List::new(alloc);
    add_conjuncts(alloc, e, &mut parts)?;
    if have_no_value(&parts) {
        return Ok(true);
    }
    let found = find(alloc, &parts, &Expr::Const(0), 0)?;
    Ok(found.is_some())
}

/// Whether the bounds that expressions give leave no value to one of them.
fn have_no_value(hyps: &List<Expr>) -> bool
    ensures { result ≡ list_any (spec.has_no_value (map term hyps.now)) (map term hyps.now) }
{
    for h in hyps.as_slice() {
        expressions_are_of_words(h);
        if matches!(bound(hyps, h), Bound::Empty) {
            return true;
        }
    }
    false
}

/// Adds copies of the parts that `&&` joins in an expression, from left to right.
fn add_conjuncts(alloc: Global, e: &Expr, parts: &mut List<Expr>) -> Result<(), NoMemory>
    ensures { OnOk result (map term parts.new ≡ map term parts.old ++ conjuncts (term e.now)) }
{
    match e {
        Expr::Bin(Op::Both, a, b) => {
            add_conjuncts(alloc, a, parts)?;
            add_conjuncts(alloc, b, parts)
        }
        Expr::Const(_) | Expr::Var(_) | Expr::Not(_) | Expr::Bin(..) => {
            let part = copy(alloc, e)?;
            parts.push(part)
        }
    }
}
