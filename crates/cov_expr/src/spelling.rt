//! The table of keywords and signs, each with its kind, and how a text is looked up there.

ghost use Rattle.std.specs.Prelude.{◌≡◌, ◌∷◌, ◌+◌, ◌<◌, ◌≤◌, ℕ, List, map};
ghost use Rattle.cov_expr.specs.Inside.{start_of};
ghost use Rattle.cov_expr.specs.Spellings as spec;

use crate::byte::is_lower;
use crate::kind::Kind;

/// The keywords and the signs, each with its kind: by first byte, and of signs that begin alike the longer first.
pub const SPELLINGS: [(&[u8], Kind); 69] = [
    (b"!=", Kind::Differs),
    (b"!", Kind::Bang),
    (b"&&", Kind::Both),
    (b"&", Kind::Ampersand),
    (b"(", Kind::OpenParen),
    (b")", Kind::CloseParen),
    (b"*", Kind::Star),
    (b"+", Kind::Plus),
    (b",", Kind::Comma),
    (b"-", Kind::Minus),
    (b":=", Kind::Assign),
    (b":", Kind::Colon),
    (b";", Kind::Semicolon),
    (b"<=", Kind::AtMost),
    (b"<", Kind::Less),
    (b"==", Kind::Equal),
    (b"[", Kind::OpenBracket),
    (b"]", Kind::CloseBracket),
    (b"^", Kind::Caret),
    (b"_", Kind::Hole),
    (b"absurd", Kind::Absurd),
    (b"and", Kind::And),
    (b"as", Kind::As),
    (b"assume", Kind::Assume),
    (b"auto", Kind::Auto),
    (b"axiom", Kind::Axiom),
    (b"by", Kind::By),
    (b"calc", Kind::Calc),
    (b"cases", Kind::Cases),
    (b"clash", Kind::Clash),
    (b"contra", Kind::Contra),
    (b"else", Kind::Else),
    (b"fwd", Kind::Fwd),
    (b"guarantee", Kind::Guarantee),
    (b"have", Kind::Have),
    (b"hide", Kind::Hide),
    (b"high", Kind::High),
    (b"hyp", Kind::Hyp),
    (b"if", Kind::If),
    (b"inv", Kind::Inv),
    (b"join", Kind::Join),
    (b"left", Kind::Left),
    (b"level", Kind::Level),
    (b"lock", Kind::Lock),
    (b"low", Kind::Low),
    (b"not", Kind::Not),
    (b"note", Kind::Note),
    (b"nowrite", Kind::Nowrite),
    (b"output", Kind::Output),
    (b"range", Kind::Range),
    (b"refl", Kind::Refl),
    (b"retype", Kind::Retype),
    (b"rev", Kind::Rev),
    (b"right", Kind::Right),
    (b"ring", Kind::Ring),
    (b"seen", Kind::Seen),
    (b"skip", Kind::Skip),
    (b"split", Kind::Split),
    (b"thread", Kind::Thread),
    (b"unlock", Kind::Unlock),
    (b"use", Kind::Use),
    (b"var", Kind::Var),
    (b"version", Kind::Version),
    (b"when", Kind::When),
    (b"while", Kind::While),
    (b"{", Kind::OpenBrace),
    (b"||", Kind::Either),
    (b"|", Kind::Bar),
    (b"}", Kind::CloseBrace),
];

/// How many spellings begin with a byte below each of these.
const STARTS: [u8; 129] = [
    0, 0, 0, 0, 0, 0, 0, 0, 0, 0, 0, 0, 0, 0, 0, 0, 0, 0, 0, 0, 0, 0, 0, 0, 0, 0, 0, 0, 0, 0, 0, 0,
    0, 0, 2, 2, 2, 2, 2, 4, 4, 5, 6, 7, 8, 9, 10, 10, 10, 10, 10, 10, 10, 10, 10, 10, 10, 10, 10,
    12, 13, 15, 16, 16, 16, 16, 16, 16, 16, 16, 16, 16, 16, 16, 16, 16, 16, 16, 16, 16, 16, 16, 16,
    16, 16, 16, 16, 16, 16, 16, 16, 16, 17, 17, 18, 19, 20, 20, 26, 27, 31, 31, 32, 33, 34, 38, 40,
    41, 41, 45, 45, 48, 49, 49, 49, 55, 58, 59, 61, 63, 65, 65, 65, 65, 66, 68, 69, 69, 69,
];

/// The kind of a keyword or a sign. `None` comes where a text is neither.
#[tactic(auto, using(crate::proofs::Spellings::empty_is_none))]
pub fn kind_of(text: &[u8]) -> Option<Kind>
    ensures { result ≡ spec.kind_of text.now }
{
    match text {
        [] => None,
        [first, ..] => kind_among(beginning_with(&SPELLINGS, *first), text),
    }
}

/// Those of all spellings that begin with a byte. Each text that begins with it is looked up among them.
fn beginning_with<'t>(all: &'t [(&'t [u8], Kind)], first: u8) -> &'t [(&'t [u8], Kind)]
    requires { map (λ s. (s.0.now, s.1)) all.now ≡ spec.spellings }
    ensures { (rest : List ℕ) → spec.kind_among (map (λ s. (s.0.now, s.1)) result.now) (first ∷ rest) ≡ spec.kind_of (first ∷ rest) }
{
    if first >= 128 {
        return &[];
    }
    let start = start_of(first);
    let end = start_of(first + 1);
    &all[start..end]
}

/// How many spellings begin with a byte below this one, which is at most 128.
fn start_of(byte: u8) -> usize
    requires { byte ≤ 128 }
    ensures start { result ≡ start_of byte }
    ensures within { result ≤ 69 }
    ensures in_order { byte < 128 → result ≤ start_of (byte + 1) }
{
    STARTS[byte as usize] as usize
}

fn kind_among(spellings: &[(&[u8], Kind)], text: &[u8]) -> Option<Kind>
    ensures { result ≡ spec.kind_among (map (λ s. (s.0.now, s.1)) spellings.now) text.now }
{
    for (spelling, kind) in spellings {
        if text == *spelling {
            return Some(*kind);
        }
    }
    None
}

/// Whether a text is a keyword.
#[tactic(auto, unfolding(crate::specs::Spellings::is_keyword))]
pub fn is_keyword(text: &[u8]) -> bool
    ensures { result ≡ spec.is_keyword text.now }
{
    begins_with_letter(text) && kind_of(text).is_some()
}

fn begins_with_letter(text: &[u8]) -> bool
    ensures { result ≡ spec.begins_with_letter text.now }
{
    match text {
        [] => false,
        [first, ..] => is_lower(*first),
    }
}
