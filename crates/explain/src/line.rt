//! The lines that say what could stand at a place.

ghost use Rattle.std.specs.Prelude.{◌≡◌, ◌≤◌, ◌++◌, length, map, OnOk};
ghost use Rattle.std.specs.List.{list_any};
ghost use Rattle.cov_expr.specs.declared.limits.TheConstants.{MOST_BYTES};
ghost use Rattle.explain.specs.ExpectedLines as spec;

use crate::next::Next;
use crate::places::{expected, is_behind_version};
use cov_expr::{Blob, Kind, NoMemory, SPELLINGS, is_lower};
use cov_grammar::is;
use std::alloc::Global;
use text_parts::halves;

/// Adds a line that says what could stand at a place of a text of at most 1 MiB, and none where nothing could; in front of it one that says that a `;` may be missing.
pub fn add_expected(alloc: Global, bytes: &[u8], at: u32, text: &mut Blob) -> Result<(), NoMemory>
    requires { length bytes.now ≤ MOST_BYTES }
    ensures { OnOk result (text.new ≡ text.old ++ spec.expected_line bytes.now at) }
{
    let of_version = is_behind_version(alloc, bytes, at)?;
    let found = expected(alloc, bytes, at)?;
    let (_, rest) = halves(bytes, at as usize);
    add_semicolon_line(rest, found.as_slice(), text)?;
    match found.as_slice() {
        [] => Ok(()),
        [first, others @ ..] => {
            add_line_front(text)?;
            add_phrase(of_version, *first, text)?;
            for next in others {
                text.extend_from_slice(b", ")?;
                add_phrase(of_version, *next, text)?;
            }
            text.extend_from_slice(b"\n")
        }
    }
}

/// Adds that a `;` may be missing in front of a token with which a text goes on, where it is a word, a `}` or the end and a `;` is among what could stand there.
fn add_semicolon_line(rest: &[u8], nexts: &[Next], text: &mut Blob) -> Result<(), NoMemory>
    ensures { OnOk result (text.new ≡ text.old ++ spec.semicolon_line rest.now nexts.now) }
{
    let begins_behind = match rest {
        [] => true,
        [first, ..] => is_lower(*first) || *first == b'}',
    };
    if begins_behind && has_semicolon(nexts) {
        text.extend_from_slice(b"  a `;` may be missing in front of it\n")
    } else {
        Ok(())
    }
}

/// Whether a `;` is among what could stand at a place.
fn has_semicolon(nexts: &[Next]) -> bool
    ensures { result ≡ list_any spec.is_semicolon nexts.now }
{
    for next in nexts {
        let is_semicolon = match *next {
            Next::Token(kind) => is(Kind::Semicolon, kind),
            Next::End => false,
        };
        if is_semicolon {
            return true;
        }
    }
    false
}

/// Adds what the line begins with.
#[tactic(auto, unfolding(crate::specs::ExpectedLines::line_front))]
fn add_line_front(text: &mut Blob) -> Result<(), NoMemory>
    ensures { OnOk result (text.new ≡ text.old ++ spec.line_front) }
{
    text.extend_from_slice(b"  here could stand: ")
}

/// Adds the words for what could stand at a place.
fn add_phrase(of_version: bool, next: Next, text: &mut Blob) -> Result<(), NoMemory>
    ensures { OnOk result (text.new ≡ text.old ++ spec.phrase of_version next) }
{
    match next {
        Next::Token(kind) => {
            if is(Kind::Name, kind) {
                return text.extend_from_slice(b"a name");
            }
            if is(Kind::Number, kind) {
                let number_phrase = if of_version {
                    "the number 2"
                } else {
                    "a number"
                };
                return text.extend_from_slice(number_phrase.as_bytes());
            }
            text.extend_from_slice(b"`")?;
            text.extend_from_slice(spelling_of(kind))?;
            text.extend_from_slice(b"`")
        }
        Next::End => text.extend_from_slice(b"the end of the text"),
    }
}

/// The spelling of a keyword or a sign.
fn spelling_of(kind: Kind) -> &'static [u8]
    ensures { result.now ≡ spec.spelling_of kind }
{
    spelling_among(&SPELLINGS, kind)
}

/// The first of these spellings that is of a kind; nothing where none is.
fn spelling_among<'t>(spellings: &[(&'t [u8], Kind)], kind: Kind) -> &'t [u8]
    ensures { result.now ≡ spec.spelling_among (map (λ s. (s.0.now, s.1)) spellings.now) kind }
{
    for (spelling, other) in spellings {
        if is(*other, kind) {
            return *spelling;
        }
    }
    &[]
}
