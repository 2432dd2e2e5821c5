//! Parts of expressions: their variables, and the conjuncts of a conjunction.

ghost use Rattle.std.specs.Prelude.{◌≡◌, [], ◌∷◌, OnOk, IfOk, map};
ghost use Rattle.cov_expr.specs.Trees as tree;
ghost use Rattle.cov_expr.specs.View.{term};

use crate::expr::{Expr, Op, same};
use crate::list::{List, NoMemory};
use std::alloc::Global;

/// Whether there is no variable.
pub fn closed(e: &Expr) -> bool
    ensures { result ≡ tree.is_closed (term e.now) }
{
    match e {
        Expr::Const(_) => true,
        Expr::Var(_) => false,
        Expr::Not(a) => closed(a),
        Expr::Bin(_, a, b) => closed(a) && closed(b),
    }
}

/// Whether a variable occurs.
pub fn mentions(e: &Expr, x: u32) -> bool
    ensures { result ≡ tree.mentions (term e.now) x }
{
    match e {
        Expr::Const(_) => false,
        Expr::Var(y) => *y == x,
        Expr::Not(a) => mentions(a, x),
        Expr::Bin(_, a, b) => mentions(a, x) || mentions(b, x),
    }
}

/// Whether one of the parts that `&&` joins in an expression equals another expression. Where the whole is no `&&`,
/// it is its only such part.
#[tactic(auto, using(crate::proofs::Trees::has_term_append))]
pub fn has_conjunct(e: &Expr, c: &Expr) -> bool
    ensures { result ≡ tree.has_conjunct (term e.now) (term c.now) }
{
    match e {
        Expr::Bin(Op::Both, a, b) => has_conjunct(a, c) || has_conjunct(b, c),
        Expr::Const(_) | Expr::Var(_) | Expr::Not(_) | Expr::Bin(..) => same(e, c),
    }
}

/// The variables, each once, by first occurrence. It takes time in proportion to the occurrences and, for each of
/// them, to the variables that stand before it.
pub fn vars(alloc: Global, e: &Expr) -> Result<List<u32>, NoMemory>
    ensures { IfOk result (λ found. found ≡ tree.vars (term e.now)) }
{
    let mut found = List::new(alloc);
    add_vars(e, &mut found)?;
    Ok(found)
}

/// Adds the variables that aren't there yet, by first occurrence.
fn add_vars(e: &Expr, found: &mut List<u32>) -> Result<(), NoMemory>
    ensures { OnOk result (found.new ≡ tree.add_new found.old (tree.occurrences (term e.now))) }
{
    match e {
        Expr::Const(_) => Ok(()),
        Expr::Var(x) => add_var(*x, found),
        Expr::Not(a) => add_vars(a, found),
        Expr::Bin(_, a, b) => {
            add_vars(a, found)?;
            add_vars(b, found)?;
            Ok(())
        }
    }
}

/// Adds a variable where it isn't there yet.
fn add_var(x: u32, found: &mut List<u32>) -> Result<(), NoMemory>
    ensures { OnOk result (found.new ≡ tree.add_new found.old (x ∷ [])) }
{
    if has_number(found.as_slice(), x) {
        return Ok(());
    }
    found.push(x)
}

/// Whether a number stands in a list.
pub fn has_number(numbers: &[u32], x: u32) -> bool
    ensures { result ≡ tree.has_number numbers.now x }
{
    numbers.iter().any(|y| *y == x)
}

/// Whether an expression is one of a list, tree for tree.
pub fn has_same(all: &[Expr], e: &Expr) -> bool
    ensures { result ≡ tree.has_term (map term all.now) (term e.now) }
{
    for one in all {
        if same(one, e) {
            return true;
        }
    }
    false
}
