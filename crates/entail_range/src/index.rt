//! Keys of expressions, and the slots at which hypotheses are found by them.

ghost use Rattle.std.specs.Prelude.{◌≡◌, ◌<◌, [], ◌++◌, ◌%◌, IfOk, IfSome, OnOk, map, option_map, vec_len};
ghost use Rattle.cov_expr.specs.Trees.{op_number};
ghost use Rattle.cov_expr.specs.View.{term};
ghost use Rattle.entail_range.specs.Inside.Index.{FindsAll, Gains, added, terms};
ghost use Rattle.entail_range.specs.Inside.Slots as spec;
ghost use Rattle.entail_range.specs.Range.{lent};

use crate::bounds::is_number;
use cov_expr::{Expr, List, NoMemory, Op};
use std::alloc::Global;

/// What stands for a variable and for `!` in a key, where an operator's number stands for that: those are below 12.
const VARIABLE: u32 = 12;

const NEGATION: u32 = 13;

/// An odd number without a pattern, 2^32 over the golden ratio.
const FACTOR: u32 = 2_654_435_761;

/// A word of two numbers, mostly another one of others.
fn mixed(a: u32, b: u32) -> u32
    ensures { result ≡ spec.mixed a b }
{
    a.wrapping_mul(FACTOR).wrapping_add(b)
}

/// The key of a variable.
pub fn key_of_var(x: u32) -> u32
    ensures { result ≡ spec.mixed 12 x }
{
    mixed(VARIABLE, x)
}

/// The key of the negation of an expression with this key.
pub fn key_of_not(a: u32) -> u32
    ensures { result ≡ spec.mixed 13 a }
{
    mixed(NEGATION, a)
}

/// The key of an operator between expressions with these keys.
pub fn key_of_bin(op: Op, a: u32, b: u32) -> u32
    ensures { result ≡ spec.mixed (spec.mixed a b) (op_number op) }
{
    mixed(mixed(a, b), op as u32)
}

/// A word of an expression, mostly another one of another expression.
fn key(e: &Expr) -> u32
    ensures { result ≡ spec.key (term e.now) }
{
    match e {
        Expr::Const(k) => *k,
        Expr::Var(x) => key_of_var(*x),
        Expr::Not(a) => key_of_not(key(a)),
        Expr::Bin(op, a, b) => key_of_bin(*op, key(a), key(b)),
    }
}

/// The slot of an expression with this key, among so many.
pub fn slot(count: usize, key: u32) -> usize
    requires { 0 < count }
    ensures { result ≡ key % count }
{
    key as usize % count
}

/// The side of a hypothesis that a number on the right may bound.
fn left_side(h: &Expr) -> Option<&Expr>
    ensures { option_map (λ e. term e.now) result ≡ spec.left_side (term h.now) }
{
    match h {
        Expr::Bin(_, a, b) if is_number(b) => Some(a),
        Expr::Bin(..) | Expr::Const(_) | Expr::Var(_) | Expr::Not(_) => None,
    }
}

/// The side of a hypothesis that a number on the left may bound.
fn right_side(h: &Expr) -> Option<&Expr>
    ensures { option_map (λ e. term e.now) result ≡ spec.right_side (term h.now) }
{
    match h {
        Expr::Bin(_, a, b) if is_number(a) => Some(b),
        Expr::Bin(..) | Expr::Const(_) | Expr::Var(_) | Expr::Not(_) => None,
    }
}

/// The slot of a side, if there is one, among so many.
fn slot_of(count: usize, side: Option<&Expr>) -> Option<usize>
    requires { 0 < count }
    ensures slot { result ≡ option_map (spec.slot count) (option_map (λ e. term e.now) side.entry) }
    ensures within { IfSome result (λ i. i < count) }
{
    match side {
        Some(e) => Some(slot(count, key(e))),
        None => None,
    }
}

/// The hypotheses that may bound an expression, each at the slot of that expression, among as many slots as there are hypotheses.
pub fn buckets_of<'a>(
    alloc: Global,
    given: &'a [Expr],
    more: &[&'a Expr],
) -> Result<Vec<List<&'a Expr>>, NoMemory>
    ensures { IfOk result (λ made. FindsAll (terms made.items) (map term given.now ++ map lent more.now)) }
{
    let mut buckets = empty(alloc, given.len().saturating_add(more.len()).max(1))?;
    for h in given {
        put(&mut buckets, h)?;
    }
    for h in more {
        put(&mut buckets, h)?;
    }
    Ok(buckets)
}

/// So many slots, at least one, with nothing there.
fn empty<'a>(alloc: Global, count: usize) -> Result<Vec<List<&'a Expr>>, NoMemory>
    requires { 0 < count }
    ensures { IfOk result (λ made. FindsAll (terms made.items) []) }
{
    let mut buckets = Vec::new(alloc);
    'slots: while buckets.len() < count {
        buckets.push(List::new(alloc))?;
    }
    Ok(buckets)
}

/// Puts a hypothesis at the slot of each side that it may bound.
fn put<'a>(buckets: &mut Vec<List<&'a Expr>>, h: &'a Expr) -> Result<(), NoMemory>
    requires { 0 < vec_len buckets.old }
    ensures { OnOk result (Gains (terms buckets.old.items) (terms buckets.new.items) (term h.now)) }
{
    let left = slot_of(buckets.len(), left_side(h));
    let right = slot_of(buckets.len(), right_side(h));
    put_at(buckets, left, h)?;
    if right == left {
        return Ok(());
    }
    put_at(buckets, right, h)
}

/// Puts a hypothesis at a slot, if there is one.
fn put_at<'a>(
    buckets: &mut Vec<List<&'a Expr>>,
    slot: Option<usize>,
    h: &'a Expr,
) -> Result<(), NoMemory>
    requires { IfSome slot (λ i. i < vec_len buckets.old) }
    ensures ok { OnOk result (terms buckets.new.items ≡ added (terms buckets.old.items) slot (term h.now)) }
    ensures length { vec_len buckets.new ≡ vec_len buckets.old }
{
    if let Some(i) = slot {
        buckets[i].push(h)?;
    }
    Ok(())
}
