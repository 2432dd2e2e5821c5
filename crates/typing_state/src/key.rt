//! Keys of expressions, by which equal ones are found by hashing.

ghost use Rattle.std.specs.Prelude.{◌≡◌, ◌+◌, [], ◌∷◌, ◌++◌, length, min, IfOk, OnOk};
ghost use Rattle.cov_expr.specs.Trees.{op_number};
ghost use Rattle.cov_expr.specs.View.{term};
ghost use Rattle.typing_state.specs.Keys.{digest_from, key};

use cov_expr::{Expr, NoMemory, Op};
use std::alloc::{AllocError, Global};
use std::hash::{Hash, Hasher};
use std::marker::Model;

/// The key of an expression: its words in pre-order. Equal expressions have equal keys, and no others do. Contracts see it as the
/// list of the words.
#[derive(Drop)]
pub struct Key {
    words: Vec<u32>,
}

impl Model for Key {
    ghost use Rattle.std.specs.Prelude.{List, ℕ};

    ghost Value = { List ℕ };

    ghost view = { λ k. k.words.items };
}

impl Clone for Key {
    ghost use Rattle.std.specs.Prelude.{◌≡◌};

    ghost is_clone = { λ k l. l ≡ k };

    fn clone(&self) -> Result<Key, AllocError> {
        Ok(Key {
            words: self.words.clone()?,
        })
    }
}

impl PartialEq for Key {
    ghost use Rattle.std.specs.Str.{bytes_eq};
    ghost use Rattle.std.proofs.Common.{rules};
    ghost use Rattle.std.specs.Cmp.Rules.{comparing};

    ghost eq = { bytes_eq };

    ghost laws = { Prim.search (comparing, rules) };

    fn eq(&self, other: &Key) -> bool {
        self.words == other.words
    }
}

impl Eq for Key {
    ghost use Rattle.std.proofs.Common.{rules};
    ghost use Rattle.std.specs.Cmp.Rules.{comparing};

    ghost laws = { Prim.search (comparing, rules) };
}

impl Hash for Key {
    ghost use Rattle.std.proofs.Common.{ap};
    ghost use Rattle.std.specs.Cmp.Lexicographic.{bytes_decides};
    ghost use Rattle.std.specs.Hash as fed;
    ghost use Rattle.typing_state.specs.Keys.{digest_from};

    ghost hash_input = { λ k. fed.u64 (digest_from 0 k) };

    ghost respects_eq = { λ x y h. ap (λ k. fed.u64 (digest_from 0 k)) ((bytes_decides x y).0 h) };

    fn hash<H: Hasher>(&self, state: &mut H) {
        state.write_u64(digest(self.words.as_slice()));
    }
}

/// One number for the words of a key. Other keys may have the same.
fn digest(words: &[u32]) -> u64
    ensures { result ≡ digest_from 0 words.now }
{
    let mut number = 0_u64;
    for word in words {
        number = number
            .wrapping_mul(2_654_435_761)
            .wrapping_add(*word as u64);
    }
    number
}

/// The key of an expression.
pub fn key_of(alloc: Global, e: &Expr) -> Result<Key, NoMemory>
    ensures { IfOk result (λ made. made ≡ key (term e.now)) }
{
    let mut words = Vec::with_capacity(alloc, key_len(e))?;
    add_words(e, &mut words)?;
    Ok(Key { words })
}

/// How many words the key of an expression has, up to the largest number.
fn key_len(e: &Expr) -> usize
    ensures { result ≡ min (length (key (term e.now))) 18446744073709551615 }
{
    match e {
        Expr::Const(_) | Expr::Var(_) => 2,
        Expr::Not(a) => key_len(a).saturating_add(1),
        Expr::Bin(_, a, b) => key_len(a).saturating_add(key_len(b)).saturating_add(1),
    }
}

/// Adds the words of an expression at the end.
fn add_words(e: &Expr, words: &mut Vec<u32>) -> Result<(), NoMemory>
    ensures { OnOk result (words.new.items ≡ words.old.items ++ key (term e.now)) }
{
    match e {
        Expr::Const(k) => add_leaf(0, *k, words),
        Expr::Var(x) => add_leaf(1, *x, words),
        Expr::Not(a) => {
            words.push(2)?;
            add_words(a, words)
        }
        Expr::Bin(op, a, b) => {
            words.push(op_word(*op))?;
            add_words(a, words)?;
            add_words(b, words)
        }
    }
}

/// Adds the words of an expression without parts: its kind, and its number.
fn add_leaf(kind: u32, number: u32, words: &mut Vec<u32>) -> Result<(), NoMemory>
    ensures { OnOk result (words.new.items ≡ words.old.items ++ kind ∷ number ∷ []) }
{
    words.push(kind)?;
    words.push(number)?;
    Ok(())
}

/// The word of an operator: its index among the operators, from 3 on.
fn op_word(op: Op) -> u32
    ensures { result ≡ op_number op + 3 }
{
    match op {
        Op::Add => 3,
        Op::Sub => 4,
        Op::Mul => 5,
        Op::And => 6,
        Op::Or => 7,
        Op::Xor => 8,
        Op::Eq => 9,
        Op::Ne => 10,
        Op::Lt => 11,
        Op::Le => 12,
        Op::Both => 13,
        Op::Either => 14,
    }
}
