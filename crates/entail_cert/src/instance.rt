//! Axioms with expressions for their letters, by number.

ghost use Rattle.std.specs.Prelude.{◌≡◌, [], ◌∷◌, Err, MatchResult, Ok, Some, map};
ghost use Rattle.cov_expr.specs.View.{term};
ghost use Rattle.entail_cert.specs.Axioms.{axiom_for};
ghost use Rattle.entail_cert.specs.Makes.{MakesAny};

use crate::shapes as shape;
use cov_expr::{Expr, NoMemory, Op};
use std::alloc::Global;

/// The axiom of a number, with these expressions for its letters. `None` comes where the number is no axiom's, or where
/// there are more or fewer expressions than letters.
pub fn axiom_for(alloc: Global, number: u32, args: &[Expr]) -> Result<Option<Expr>, NoMemory>
    ensures { MakesAny (axiom_for number (map term args.now)) result }
{
    match args {
        [] => Ok(None),
        [a] => axiom_of_one(alloc, number, a),
        [a, b] => axiom_of_two(alloc, number, a, b),
        [a, b, c] => axiom_of_three(alloc, number, a, b, c),
        [_, _, _, _, ..] => Ok(None),
    }
}

/// An axiom of one letter.
fn axiom_of_one(alloc: Global, number: u32, a: &Expr) -> Result<Option<Expr>, NoMemory>
    ensures { MakesAny (axiom_for number (term a.now ∷ [])) result }
{
    match number {
        7 => some(shape::irreflexive(alloc, a)),
        14 => some(shape::least(alloc, a)),
        15 => some(shape::greatest(alloc, a)),
        18 => some(shape::annihilates(alloc, Op::Sub, a)),
        19 => some(shape::annihilates(alloc, Op::Xor, a)),
        22 => some(shape::zero_or_positive(alloc, a)),
        24 => some(shape::false_or_nonzero(alloc, a)),
        _ => Ok(None),
    }
}

/// An axiom of two letters.
fn axiom_of_two(alloc: Global, number: u32, a: &Expr, b: &Expr) -> Result<Option<Expr>, NoMemory>
    ensures { MakesAny (axiom_for number (term a.now ∷ term b.now ∷ [])) result }
{
    match number {
        1 => some(shape::decided(alloc, a, b)),
        2 => some(shape::symmetric(alloc, Op::Eq, a, b)),
        3 => some(shape::symmetric(alloc, Op::Ne, a, b)),
        4 => some(shape::exclusive(alloc, a, b)),
        6 => some(shape::total(alloc, a, b)),
        9 => some(shape::implied(alloc, Op::Lt, Op::Le, a, b)),
        10 => some(shape::less_or_equal(alloc, a, b)),
        11 => some(shape::implied(alloc, Op::Eq, Op::Le, a, b)),
        13 => some(shape::antisymmetric(alloc, a, b)),
        16 => some(shape::commutative(alloc, Op::Add, a, b)),
        17 => some(shape::cancelled(alloc, a, b)),
        20 => some(shape::and_below(alloc, a, b)),
        21 => some(shape::or_above(alloc, a, b)),
        23 => some(shape::commutative(alloc, Op::And, a, b)),
        _ => Ok(None),
    }
}

/// An axiom of three letters.
fn axiom_of_three(
    alloc: Global,
    number: u32,
    a: &Expr,
    b: &Expr,
    c: &Expr,
) -> Result<Option<Expr>, NoMemory>
    ensures { MakesAny (axiom_for number (term a.now ∷ term b.now ∷ term c.now ∷ [])) result }
{
    match number {
        5 => some(shape::transitive(alloc, Op::Eq, a, b, c)),
        8 => some(shape::transitive(alloc, Op::Lt, a, b, c)),
        12 => some(shape::transitive(alloc, Op::Le, a, b, c)),
        _ => Ok(None),
    }
}

fn some(made: Result<Expr, NoMemory>) -> Result<Option<Expr>, NoMemory>
    ensures { MatchResult made (λ e. result ≡ Ok (Some e)) (λ e. result ≡ Err e) }
{
    Ok(Some(made?))
}
