//! Multisets of a few atoms, and their union.

ghost use Rattle.std.specs.Prelude.{◌≡◌, ◌+◌, ◌<◌, ◌≤◌, [], ◌∷◌, ◌++◌, length};
ghost use Rattle.entail_ring.specs.Polys as spec;

use std::marker::Model;

/// A multiset of at most 16 atoms, as the product of two terms of normal forms has: the number of each, as often as it is a factor.
/// Contracts see it as the list of these numbers.
#[derive(Drop)]
pub struct Multiset {
    numbers: [u32; 16],
    len: u8,
}

impl Model for Multiset {
    ghost use Rattle.std.specs.Prelude.{◌≤◌, List, ℕ, take};

    ghost Value = { List ℕ };

    ghost view = { λ a. take a.len a.numbers };

    ghost invariant = { λ a. a.len ≤ 16 };
}

impl Multiset {
    /// No atoms.
    pub fn new() -> Self
        ensures { result ≡ [] }
    {
        Multiset {
            numbers: [0; 16],
            len: 0,
        }
    }

    /// Adds an atom at the end.
    pub fn push(&mut self, number: u32)
        requires { length self.old < 16 }
        ensures { self.new ≡ self.old ++ number ∷ [] }
    {
        self.numbers[self.len as usize] = number;
        self.len += 1;
    }

    /// The numbers of the atoms.
    pub fn as_slice(&self) -> &[u32]
        ensures { result.now ≡ self.now }
    {
        &self.numbers[..self.len as usize]
    }

    /// The same multiset once more.
    pub fn copy(&self) -> Multiset
        ensures { result ≡ self.now }
    {
        Multiset {
            numbers: self.numbers,
            len: self.len,
        }
    }
}

/// Two multisets together.
pub fn together(a: &[u32], b: &[u32]) -> Multiset
    requires { length a.now + length b.now ≤ 16 }
    ensures { result ≡ spec.together a.now b.now }
{
    let mut made = Multiset::new();
    add_together(a, b, &mut made);
    made
}

/// Adds two multisets together behind others. It goes as deep as they have atoms.
fn add_together(a: &[u32], b: &[u32], made: &mut Multiset)
    requires { length made.old + (length a.now + length b.now) ≤ 16 }
    ensures { made.new ≡ made.old ++ spec.together a.now b.now }
{
    match a {
        [] => add_all(b, made),
        [x, a_rest @ ..] => match b {
            [] => add_all(a, made),
            [y, b_rest @ ..] => {
                if *x <= *y {
                    made.push(*x);
                    add_together(a_rest, b, made)
                } else {
                    made.push(*y);
                    add_together(a, b_rest, made)
                }
            }
        },
    }
}

/// Adds atoms behind others.
fn add_all(numbers: &[u32], made: &mut Multiset)
    requires { length made.old + length numbers.now ≤ 16 }
    ensures { made.new ≡ made.old ++ numbers.now }
{
    for number in numbers {
        made.push(*number);
    }
}
