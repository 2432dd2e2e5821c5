//! What a text may hide from who reads it in an editor.

ghost use Rattle.std.specs.Prelude.{◌≡◌, ◌<◌, ◌≤◌, ◌^◌, drop, length, IfOk};
ghost use Rattle.explain.specs.HiddenText as spec;

use crate::warning::{Cause, Warning};
use cov_expr::{List, NoMemory};
use std::alloc::Global;

/// How many characters that an editor may show as another text are told of one by one.
pub const MOST_SHOWN: usize = 10;

/// What is warned of in bytes alone, of which there are fewer than 2^32: characters that an editor may show as another text, or not at all.
pub fn text_warnings(alloc: Global, bytes: &[u8]) -> Result<List<Warning>, NoMemory>
    requires { length bytes.now < 2 ^ 32 }
    ensures { IfOk result (λ found. found ≡ spec.text_warnings bytes.now) }
{
    let mut found = List::new(alloc);
    let mut room = MOST_SHOWN;
    for i in 0..bytes.len() {
        if let Some(cause) = at_front(rest_from(bytes, i)) {
            let place = i as u32;
            if room == 0 {
                let cause = Cause::More(count_from(bytes, i));
                found.push(Warning { place, cause })?;
                return Ok(found);
            }
            found.push(Warning { place, cause })?;
            room -= 1;
        }
    }
    Ok(found)
}

/// How many characters that an editor may show as another text there are from a place on.
fn count_from(bytes: &[u8], start: usize) -> usize
    requires { start ≤ length bytes.now }
    ensures { result ≡ length (spec.hidden_from start (drop start bytes.now)) }
{
    let mut count = 0;
    for i in start..bytes.len() {
        if at_front(rest_from(bytes, i)).is_some() {
            count += 1;
        }
    }
    count
}

/// The bytes from a place on.
fn rest_from(bytes: &[u8], place: usize) -> &[u8]
    requires { place ≤ length bytes.now }
    ensures { result.now ≡ drop place bytes.now }
{
    &bytes[place..]
}

/// What stands at the front of a text, in UTF-8, that an editor may show as another text.
fn at_front(text: &[u8]) -> Option<Cause>
    ensures { result ≡ spec.at_front text.now }
{
    match text {
        [first, rest @ ..] => by_first(*first, rest),
        [] => None,
    }
}

/// The same by the first byte of a character and the bytes behind it.
fn by_first(first: u8, rest: &[u8]) -> Option<Cause>
    ensures { result ≡ spec.by_first first rest.now }
{
    match first {
        b'\r' => match rest {
            [b'\n', ..] => None,
            _ => Some(Cause::LoneReturn),
        },
        b'\t' | b'\n' => None,
        0..=31 | 127 => Some(Cause::Control(first)),
        194 => match rest {
            [byte @ 128..=159, ..] => Some(Cause::Control(*byte)),
            _ => None,
        },
        216 => match rest {
            [156, ..] => Some(Cause::Direction),
            _ => None,
        },
        226 => match rest {
            [128, rest @ ..] => {
                match rest {
                    [142..=143 | 170..=174, ..] => Some(Cause::Direction),
                    [168..=169, ..] => Some(Cause::Separator),
                    _ => None,
                }
            }
            [129, rest @ ..] => {
                match rest {
                    [166..=169, ..] => Some(Cause::Direction),
                    _ => None,
                }
            }
            _ => None,
        },
        _ => None,
    }
}
