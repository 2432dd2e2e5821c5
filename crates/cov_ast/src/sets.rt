//! Sets of numbers of variables and locks, as one truth value for each.

ghost use Rattle.std.specs.Prelude.{◌≡◌, ◌<◌, ◌||◌, ◌++◌, length, map, set, replicate, true, false, IfOk};
ghost use Rattle.cov_expr.specs.Trees.{occurrences};
ghost use Rattle.cov_expr.specs.Trees as tree;
ghost use Rattle.cov_expr.specs.View.{term};
ghost use Rattle.cov_ast.specs.Tables.{table, has, with_all};
ghost use Rattle.cov_ast.specs.Tables as spec;

use cov_expr::{Expr, List, NoMemory};
use std::alloc::Global;
use std::marker::Model;

/// A set of numbers below a bound, which keeps a truth value for each. Contracts see the list of these.
#[derive(Drop)]
pub struct NumberSet {
    marks: List<bool>,
}

impl Model for NumberSet {
    ghost use Rattle.std.specs.Prelude.{List, Bool};

    ghost Value = { List Bool };

    ghost view = { λ s. s.marks };
}

impl NumberSet {
    /// The empty set.
    pub fn new(alloc: Global, bound: usize) -> Result<Self, NoMemory>
        ensures { IfOk result (λ made. made ≡ replicate bound false) }
    {
        let mut marks = List::new(alloc);
        for _ in 0..bound {
            marks.push(false)?;
        }
        Ok(NumberSet { marks })
    }

    /// The set of the numbers at which a truth value stands that is true.
    pub fn from_marks(marks: List<bool>) -> Self
        ensures { result ≡ marks }
    {
        NumberSet { marks }
    }

    /// The set of these numbers; those past the bound are left out.
    #[tactic(auto, using(crate::proofs::TableLaws::with_all_none))]
    pub fn of(alloc: Global, bound: usize, numbers: &[u32]) -> Result<Self, NoMemory>
        ensures { IfOk result (λ made. made ≡ table bound (tree.has_number numbers.now)) }
    {
        let mut made = NumberSet::new(alloc, bound)?;
        made.insert_all(numbers);
        Ok(made)
    }

    /// The set of the numbers of two lists; those past the bound are left out.
    #[tactic(auto, using(crate::proofs::TableLaws::with_all_both))]
    pub fn of_both(
        alloc: Global,
        bound: usize,
        first: &[u32],
        second: &[u32],
    ) -> Result<Self, NoMemory>
        ensures { IfOk result (λ made. made ≡ table bound (λ x. tree.has_number first.now x || tree.has_number second.now x)) }
    {
        let mut made = NumberSet::new(alloc, bound)?;
        made.insert_all(first);
        made.insert_all(second);
        Ok(made)
    }

    /// An equal set.
    pub fn copy(&self, alloc: Global) -> Result<Self, NoMemory>
        ensures { IfOk result (λ made. made ≡ self.now) }
    {
        let mut marks = List::new(alloc);
        marks.extend_from_slice(self.marks.as_slice())?;
        Ok(NumberSet { marks })
    }

    /// Adds numbers; those past the bound are left out.
    pub fn insert_all(&mut self, numbers: &[u32])
        ensures { self.new ≡ with_all self.old numbers.now }
    {
        for x in numbers {
            self.put(*x, true);
        }
    }

    /// Adds a number, or takes it out. One past the bound is left out.
    pub fn put(&mut self, x: u32, member: bool)
        ensures { self.new ≡ set self.old x member }
    {
        if (x as usize) < self.marks.len() {
            self.marks.set(x as usize, member);
        }
    }

    /// Whether a number is there. None past the bound is.
    pub fn has(&self, x: u32) -> bool
        ensures { result ≡ has self.now x }
    {
        self.has_index(x as usize)
    }

    /// The same of a number that counts items of a list.
    pub fn has_index(&self, x: usize) -> bool
        ensures { result ≡ has self.now x }
    {
        match self.marks.as_slice().get(x) {
            Some(mark) => *mark,
            None => false,
        }
    }

    /// One more than the largest number that the set can have.
    pub fn bound(&self) -> usize
        ensures { result ≡ length self.now }
    {
        self.marks.len()
    }
}

/// The first occurrence in an expression of a variable outside a set. `None` comes where each variable is in the set.
pub fn first_outside(e: &Expr, set: &NumberSet) -> Option<u32>
    ensures { result ≡ spec.first_outside set.now (occurrences (term e.now)) }
{
    match e {
        Expr::Const(_) => None,
        Expr::Var(x) if set.has(*x) => None,
        Expr::Var(x) => Some(*x),
        Expr::Not(a) => first_outside(a, set),
        Expr::Bin(_, a, b) => match first_outside(a, set) {
            Some(c) => Some(c),
            None => first_outside(b, set),
        },
    }
}
