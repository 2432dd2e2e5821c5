//! Names of variables, locks and threads, and which texts are names.

ghost use Rattle.std.specs.Prelude.{◌≡◌, IfSome, IsSome, ◌↔◌, IsTrue};
ghost use Rattle.std.specs.List.{list_all};
ghost use Rattle.cov_expr.specs.Bytes as class;
ghost use Rattle.cov_expr.specs.Names.{IsName};
ghost use Rattle.cov_expr.specs.Names as spec;

use crate::byte::{is_lower, is_word};
use crate::limits::MOST_NAME_BYTES;
use crate::spelling::is_keyword;
use std::marker::Model;

/// A name of a variable, a lock or a thread: a text of 1 to 32 bytes, of the form `[a-z][a-z0-9_]*` and no keyword.
/// Contracts see it as these bytes.
#[derive(Clone, Copy, Debug, Eq, Hash)]
pub struct Name {
    bytes: [u8; MOST_NAME_BYTES],
    len: u8,
}

impl Model for Name {
    ghost use Rattle.std.specs.Prelude.{◌≡◌, ◌++◌, ◌-◌, List, ℕ, length, replicate, take};
    ghost use Rattle.std.proofs.Common.{arith};
    ghost use Rattle.cov_expr.specs.Names.{IsName, padded};

    ghost Value = { List ℕ };

    ghost view = { λ a. take a.len a.bytes };

    ghost invariant = { λ a. IsName (take a.len a.bytes) × (a.bytes ≡ padded (take a.len a.bytes)) × (a.len ≡ length (take a.len a.bytes)) };

    ghost inverse = { λ d. record { bytes = padded d; len = length d } };
}

impl PartialEq for Name {
    ghost use Rattle.std.specs.Str.{bytes_eq};
    ghost use Rattle.std.proofs.Common.{rules};
    ghost use Rattle.std.specs.Cmp.Rules.{comparing};

    ghost eq = { bytes_eq };

    ghost laws = { Prim.search (comparing, rules) };

    fn eq(&self, other: &Name) -> bool {
        self.text() == other.text()
    }
}

impl Name {
    /// The name that these bytes are. `None` comes where they are no name.
    pub fn new(text: &[u8]) -> Option<Name>
        ensures found { IsSome result ↔ IsName text.now }
        ensures text { IfSome result (λ name. name ≡ text.now) }
    {
        if is_name(text) {
            Some(Name::known(text))
        } else {
            None
        }
    }

    /// The name that these bytes are, where the caller knows that they are one, as the token of a name.
    pub fn known(text: &[u8]) -> Name
        requires { IsName text.now }
        ensures { result ≡ text.now }
    {
        let mut bytes = [0; MOST_NAME_BYTES];
        bytes[..text.len()].copy_from_slice(text);
        Name {
            bytes,
            len: text.len() as u8,
        }
    }

    /// Its bytes.
    pub fn text(&self) -> &[u8]
        ensures text { result.now ≡ self.now }
        ensures name { IsName self.now }
    {
        &self.bytes[..self.len as usize]
    }
}

/// Whether a text is a name.
fn is_name(text: &[u8]) -> bool
    ensures { IsTrue result ↔ IsName text.now }
{
    text.len() <= MOST_NAME_BYTES && is_word_text(text) && !is_keyword(text)
}

/// Whether a text is a lower-case letter and then letters, digits and underscores.
fn is_word_text(text: &[u8]) -> bool
    ensures { result ≡ spec.is_word_text text.now }
{
    match text {
        [] => false,
        [first, rest @ ..] => is_lower(*first) && are_word_bytes(rest),
    }
}

fn are_word_bytes(text: &[u8]) -> bool
    ensures { result ≡ list_all class.is_word text.now }
{
    for byte in text {
        if !is_word(*byte) {
            return false;
        }
    }
    true
}
