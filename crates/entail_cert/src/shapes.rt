//! The shapes of the axioms, built of copies of their letters.

ghost use Rattle.cov_expr.specs.declared.expr.Op.TheVariants.{Add, And, Both, Either, Eq, Le, Lt, Ne, Or, Sub};
ghost use Rattle.cov_expr.specs.Term as spec;
ghost use Rattle.cov_expr.specs.View.{term};
ghost use Rattle.cov_expr.specs.Words.{HasWords};
ghost use Rattle.entail_cert.specs.Makes.{Makes};

use cov_expr::{Expr, NoMemory, Op, boxed, copy};
use std::alloc::Global;

/// `!(a < a)`.
pub fn irreflexive(alloc: Global, a: &Expr) -> Result<Expr, NoMemory>
    ensures { Makes (spec.neg (spec.bin Lt (term a.now) (term a.now))) result }
{
    not_pair(alloc, Op::Lt, a, a)
}

/// `0 <= a`.
pub fn least(alloc: Global, a: &Expr) -> Result<Expr, NoMemory>
    ensures { Makes (spec.bin Le (spec.const 0) (term a.now)) result }
{
    from_zero(alloc, Op::Le, a)
}

/// `a <= 4294967295`.
pub fn greatest(alloc: Global, a: &Expr) -> Result<Expr, NoMemory>
    ensures { Makes (spec.bin Le (term a.now) (spec.const 4294967295)) result }
{
    join(alloc, Op::Le, copy(alloc, a)?, Expr::Const(4294967295))
}

/// `(a op a) == 0`.
pub fn annihilates(alloc: Global, op: Op, a: &Expr) -> Result<Expr, NoMemory>
    ensures { Makes (spec.bin Eq (spec.bin op (term a.now) (term a.now)) (spec.const 0)) result }
{
    join(alloc, Op::Eq, pair(alloc, op, a, a)?, Expr::Const(0))
}

/// `a == 0 || 0 < a`.
pub fn zero_or_positive(alloc: Global, a: &Expr) -> Result<Expr, NoMemory>
    ensures { Makes (spec.bin Either (spec.bin Eq (term a.now) (spec.const 0)) (spec.bin Lt (spec.const 0) (term a.now))) result }
{
    let zero = to_zero(alloc, Op::Eq, a)?;
    join(alloc, Op::Either, zero, from_zero(alloc, Op::Lt, a)?)
}

/// `!a || a != 0`.
pub fn false_or_nonzero(alloc: Global, a: &Expr) -> Result<Expr, NoMemory>
    ensures { Makes (spec.bin Either (spec.neg (term a.now)) (spec.bin Ne (term a.now) (spec.const 0))) result }
{
    unless(alloc, copy(alloc, a)?, to_zero(alloc, Op::Ne, a)?)
}

/// `a == b || a != b`.
pub fn decided(alloc: Global, a: &Expr, b: &Expr) -> Result<Expr, NoMemory>
    ensures { Makes (spec.bin Either (spec.bin Eq (term a.now) (term b.now)) (spec.bin Ne (term a.now) (term b.now))) result }
{
    either(alloc, Op::Eq, Op::Ne, a, b)
}

/// `!(a op b) || b op a`.
pub fn symmetric(alloc: Global, op: Op, a: &Expr, b: &Expr) -> Result<Expr, NoMemory>
    ensures { Makes (spec.bin Either (spec.neg (spec.bin op (term a.now) (term b.now))) (spec.bin op (term b.now) (term a.now))) result }
{
    let from = pair(alloc, op, a, b)?;
    unless(alloc, from, pair(alloc, op, b, a)?)
}

/// `!(a == b) || !(a != b)`.
pub fn exclusive(alloc: Global, a: &Expr, b: &Expr) -> Result<Expr, NoMemory>
    ensures { Makes (spec.bin Either (spec.neg (spec.bin Eq (term a.now) (term b.now))) (spec.neg (spec.bin Ne (term a.now) (term b.now)))) result }
{
    let equal = pair(alloc, Op::Eq, a, b)?;
    unless(alloc, equal, not_pair(alloc, Op::Ne, a, b)?)
}

/// `a < b || a == b || b < a`.
pub fn total(alloc: Global, a: &Expr, b: &Expr) -> Result<Expr, NoMemory>
    ensures { Makes (spec.bin Either (spec.bin Either (spec.bin Lt (term a.now) (term b.now)) (spec.bin Eq (term a.now) (term b.now))) (spec.bin Lt (term b.now) (term a.now))) result }
{
    let most = either(alloc, Op::Lt, Op::Eq, a, b)?;
    join(alloc, Op::Either, most, pair(alloc, Op::Lt, b, a)?)
}

/// `!(a from b) || a to b`.
pub fn implied(alloc: Global, from: Op, to: Op, a: &Expr, b: &Expr) -> Result<Expr, NoMemory>
    ensures { Makes (spec.bin Either (spec.neg (spec.bin from (term a.now) (term b.now))) (spec.bin to (term a.now) (term b.now))) result }
{
    let premise = pair(alloc, from, a, b)?;
    unless(alloc, premise, pair(alloc, to, a, b)?)
}

/// `!(a <= b) || a < b || a == b`.
pub fn less_or_equal(alloc: Global, a: &Expr, b: &Expr) -> Result<Expr, NoMemory>
    ensures { Makes (spec.bin Either (spec.bin Either (spec.neg (spec.bin Le (term a.now) (term b.now))) (spec.bin Lt (term a.now) (term b.now))) (spec.bin Eq (term a.now) (term b.now))) result }
{
    let less = implied(alloc, Op::Le, Op::Lt, a, b)?;
    join(alloc, Op::Either, less, pair(alloc, Op::Eq, a, b)?)
}

/// `!(a <= b && b <= a) || a == b`.
pub fn antisymmetric(alloc: Global, a: &Expr, b: &Expr) -> Result<Expr, NoMemory>
    ensures { Makes (spec.bin Either (spec.neg (spec.bin Both (spec.bin Le (term a.now) (term b.now)) (spec.bin Le (term b.now) (term a.now)))) (spec.bin Eq (term a.now) (term b.now))) result }
{
    let both = chained(alloc, Op::Le, a, b, a)?;
    unless(alloc, both, pair(alloc, Op::Eq, a, b)?)
}

/// `(a op b) == (b op a)`.
pub fn commutative(alloc: Global, op: Op, a: &Expr, b: &Expr) -> Result<Expr, NoMemory>
    ensures { Makes (spec.bin Eq (spec.bin op (term a.now) (term b.now)) (spec.bin op (term b.now) (term a.now))) result }
{
    let given = pair(alloc, op, a, b)?;
    join(alloc, Op::Eq, given, pair(alloc, op, b, a)?)
}

/// `(a + b) - b == a`.
pub fn cancelled(alloc: Global, a: &Expr, b: &Expr) -> Result<Expr, NoMemory>
    ensures { Makes (spec.bin Eq (spec.bin Sub (spec.bin Add (term a.now) (term b.now)) (term b.now)) (term a.now)) result }
{
    let back = added_and_taken(alloc, a, b)?;
    join(alloc, Op::Eq, back, copy(alloc, a)?)
}

/// `(a & b) <= a`.
pub fn and_below(alloc: Global, a: &Expr, b: &Expr) -> Result<Expr, NoMemory>
    ensures { Makes (spec.bin Le (spec.bin And (term a.now) (term b.now)) (term a.now)) result }
{
    join(alloc, Op::Le, pair(alloc, Op::And, a, b)?, copy(alloc, a)?)
}

/// `a <= (a | b)`.
pub fn or_above(alloc: Global, a: &Expr, b: &Expr) -> Result<Expr, NoMemory>
    ensures { Makes (spec.bin Le (term a.now) (spec.bin Or (term a.now) (term b.now))) result }
{
    join(alloc, Op::Le, copy(alloc, a)?, pair(alloc, Op::Or, a, b)?)
}

/// `!(a op b && b op c) || a op c`.
pub fn transitive(alloc: Global, op: Op, a: &Expr, b: &Expr, c: &Expr) -> Result<Expr, NoMemory>
    ensures { Makes (spec.bin Either (spec.neg (spec.bin Both (spec.bin op (term a.now) (term b.now)) (spec.bin op (term b.now) (term c.now)))) (spec.bin op (term a.now) (term c.now))) result }
{
    let both = chained(alloc, op, a, b, c)?;
    unless(alloc, both, pair(alloc, op, a, c)?)
}

/// `a op b && b op c`.
fn chained(alloc: Global, op: Op, a: &Expr, b: &Expr, c: &Expr) -> Result<Expr, NoMemory>
    ensures { Makes (spec.bin Both (spec.bin op (term a.now) (term b.now)) (spec.bin op (term b.now) (term c.now))) result }
{
    let first = pair(alloc, op, a, b)?;
    join(alloc, Op::Both, first, pair(alloc, op, b, c)?)
}

/// `a first b || a second b`.
fn either(alloc: Global, first: Op, second: Op, a: &Expr, b: &Expr) -> Result<Expr, NoMemory>
    ensures { Makes (spec.bin Either (spec.bin first (term a.now) (term b.now)) (spec.bin second (term a.now) (term b.now))) result }
{
    let left = pair(alloc, first, a, b)?;
    join(alloc, Op::Either, left, pair(alloc, second, a, b)?)
}

/// `(a + b) - b`.
fn added_and_taken(alloc: Global, a: &Expr, b: &Expr) -> Result<Expr, NoMemory>
    ensures { Makes (spec.bin Sub (spec.bin Add (term a.now) (term b.now)) (term b.now)) result }
{
    let sum = pair(alloc, Op::Add, a, b)?;
    join(alloc, Op::Sub, sum, copy(alloc, b)?)
}

/// `!(a op b)`.
fn not_pair(alloc: Global, op: Op, a: &Expr, b: &Expr) -> Result<Expr, NoMemory>
    ensures { Makes (spec.neg (spec.bin op (term a.now) (term b.now))) result }
{
    not(alloc, pair(alloc, op, a, b)?)
}

/// `0 op a`.
fn from_zero(alloc: Global, op: Op, a: &Expr) -> Result<Expr, NoMemory>
    ensures { Makes (spec.bin op (spec.const 0) (term a.now)) result }
{
    join(alloc, op, Expr::Const(0), copy(alloc, a)?)
}

/// `a op 0`.
fn to_zero(alloc: Global, op: Op, a: &Expr) -> Result<Expr, NoMemory>
    ensures { Makes (spec.bin op (term a.now) (spec.const 0)) result }
{
    join(alloc, op, copy(alloc, a)?, Expr::Const(0))
}

/// An operator between copies.
fn pair(alloc: Global, op: Op, a: &Expr, b: &Expr) -> Result<Expr, NoMemory>
    ensures { Makes (spec.bin op (term a.now) (term b.now)) result }
{
    join(alloc, op, copy(alloc, a)?, copy(alloc, b)?)
}

/// `!a || b`.
fn unless(alloc: Global, a: Expr, b: Expr) -> Result<Expr, NoMemory>
    requires a_words { HasWords (term a) }
    requires b_words { HasWords (term b) }
    ensures { Makes (spec.bin Either (spec.neg (term a)) (term b)) result }
{
    join(alloc, Op::Either, not(alloc, a)?, b)
}

fn join(alloc: Global, op: Op, a: Expr, b: Expr) -> Result<Expr, NoMemory>
    requires a_words { HasWords (term a) }
    requires b_words { HasWords (term b) }
    ensures { Makes (spec.bin op (term a) (term b)) result }
{
    let left = boxed(alloc, a)?;
    let right = boxed(alloc, b)?;
    Ok(Expr::Bin(op, left, right))
}

fn not(alloc: Global, a: Expr) -> Result<Expr, NoMemory>
    requires { HasWords (term a) }
    ensures { Makes (spec.neg (term a)) result }
{
    Ok(Expr::Not(boxed(alloc, a)?))
}
