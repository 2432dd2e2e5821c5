//! Sets of variables, each as four words.

ghost use Rattle.std.specs.Prelude.{◌≡◌, ℕ, ◌||◌, ◌<◌, ◌≤◌, false, length, replicate, set, IfSome};
ghost use Rattle.cov_expr.specs.Trees as tree;
ghost use Rattle.cov_expr.specs.declared.limits.TheConstants.{MOST_VARIABLES};
ghost use Rattle.cov_ast.specs.Tables.{table, has, with_all};
ghost use Rattle.mode_state.specs.Bits.{in_words, IsNext};

use crate::bits::{has_bit, next_bit, with_bit};
use std::marker::Model;

/// A set of numbers below a bound, which is at most that of the variables of a program, as four words.
#[derive(Drop)]
pub struct Mask {
    words: [u64; 4],
    bound: u32,
}

impl Model for Mask {
    ghost use Rattle.std.specs.Prelude.{List, Bool, ◌≤◌};
    ghost use Rattle.cov_expr.specs.declared.limits.TheConstants.{MOST_VARIABLES};
    ghost use Rattle.cov_ast.specs.Tables.{table};
    ghost use Rattle.mode_state.specs.Bits.{in_words};

    ghost Value = { List Bool };

    ghost view = { λ s. table s.bound (in_words s.words) };

    ghost invariant = { λ s. s.bound ≤ MOST_VARIABLES };
}

impl Mask {
    /// The empty set.
    pub fn new(bound: u32) -> Self
        requires { bound ≤ MOST_VARIABLES }
        ensures { result ≡ replicate bound false }
    {
        Mask {
            words: [0; 4],
            bound,
        }
    }

    /// The set of these numbers; those past the bound are left out.
    #[tactic(auto, using(crate::proofs::MaskLaws::none_with))]
    pub fn of(bound: u32, numbers: &[u32]) -> Self
        requires { bound ≤ MOST_VARIABLES }
        ensures { result ≡ table bound (tree.has_number numbers.now) }
    {
        let mut made = Mask::new(bound);
        made.insert_all(numbers);
        made
    }

    /// The set of the numbers of two lists; those past the bound are left out.
    #[tactic(auto, using(crate::proofs::MaskLaws::none_with_both))]
    pub fn of_both(bound: u32, first: &[u32], second: &[u32]) -> Self
        requires { bound ≤ MOST_VARIABLES }
        ensures { result ≡ table bound (λ x. tree.has_number first.now x || tree.has_number second.now x) }
    {
        let mut made = Mask::new(bound);
        made.insert_all(first);
        made.insert_all(second);
        made
    }

    /// An equal set.
    pub fn copy(&self) -> Self
        ensures { result ≡ self.now }
    {
        Mask {
            words: self.words,
            bound: self.bound,
        }
    }

    /// Adds numbers; those past the bound are left out.
    pub fn insert_all(&mut self, numbers: &[u32])
        ensures { self.new ≡ with_all self.old numbers.now }
    {
        for x in numbers {
            self.put(*x, true);
        }
    }

    /// Adds a number, or takes it out. One past the bound is left out.
    pub fn put(&mut self, x: u32, member: bool)
        ensures { self.new ≡ set self.old x member }
    {
        if x < self.bound {
            let word = (x / 64) as usize;
            self.words[word] = with_bit(self.words[word], x % 64, member);
        }
    }

    /// Adds the numbers of another set below the same bound.
    pub fn insert_set(&mut self, other: &Mask)
        requires { length other.now ≡ length self.old }
        ensures length { length self.new ≡ length self.old }
        ensures numbers { (x : ℕ) → has self.new x ≡ (has self.old x || has other.now x) }
    {
        self.words = joined(&self.words, &other.words);
    }

    /// Whether a number is there. None past the bound is.
    pub fn has(&self, x: u32) -> bool
        ensures { result ≡ has self.now x }
    {
        x < self.bound && has_bit(self.words[(x / 64) as usize], x % 64)
    }

    /// The first number of the set from a number on.
    pub fn next_from(&self, from: u32) -> Option<u32>
        ensures next { IsNext (has self.now) from (length self.now) result }
        ensures small { IfSome result (λ x. x < MOST_VARIABLES) }
    {
        match next_in(&self.words, from) {
            Some(x) if x < self.bound => Some(x),
            _ => None,
        }
    }
}

/// Four words with the numbers of both.
fn joined(a: &[u64; 4], b: &[u64; 4]) -> [u64; 4]
    ensures { (x : ℕ) → x < MOST_VARIABLES → in_words result x ≡ (in_words a.now x || in_words b.now x) }
{
    [a[0] | b[0], a[1] | b[1], a[2] | b[2], a[3] | b[3]]
}

/// The first number of four words from a number on.
fn next_in(words: &[u64; 4], from: u32) -> Option<u32>
    ensures { IsNext (in_words words.now) from MOST_VARIABLES result }
{
    for word in (from / 64)..4 {
        let first = from.saturating_sub(word * 64);
        if let Some(k) = next_bit(words[word as usize], first) {
            return Some(word * 64 + k);
        }
    }
    None
}
