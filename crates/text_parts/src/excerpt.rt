//! The line of a place, as it is shown, and a caret under the place.

ghost use Rattle.std.specs.Prelude.{◌≡◌, ◌++◌, ◌-◌, OnOk, drop, length, map, take};
ghost use Rattle.text_parts.specs.Excerpts as spec;

use crate::lines::{halves, since_feed, to_feed};
use cov_expr::{Blob, NoMemory};

/// How many bytes of a line are shown in front of the place.
pub const MOST_BEFORE: usize = 80;

/// How many bytes of a line are shown in all.
pub const MOST_SHOWN: usize = 120;

/// Adds the line of a place, which may be the length of the text, and a line with a caret under the place. What is past
/// the text is taken as its length.
pub fn add_excerpt(bytes: &[u8], place: usize, text: &mut Blob) -> Result<(), NoMemory>
    ensures { OnOk result (text.new ≡ text.old ++ spec.excerpt bytes.now place) }
{
    let (front, rest) = halves(bytes, place);
    let line_front = last_of(since_feed(front));
    let line_rest = front_of(to_feed(rest), MOST_SHOWN.saturating_sub(line_front.len()));
    add_shown(line_front, text)?;
    add_shown(line_rest, text)?;
    text.extend_from_slice(b"\n")?;
    add_under(line_front, text)?;
    text.extend_from_slice(b"^\n")
}

/// The end of a line.
fn last_of(line: &[u8]) -> &[u8]
    ensures { result.now ≡ drop (length line.now - 80) line.now }
{
    &line[line.len().saturating_sub(MOST_BEFORE)..]
}

/// The front of a line, so many bytes at most.
fn front_of(line: &[u8], most: usize) -> &[u8]
    ensures { result.now ≡ take most line.now }
{
    &line[..most.min(line.len())]
}

/// Adds bytes as they are shown.
fn add_shown(bytes: &[u8], text: &mut Blob) -> Result<(), NoMemory>
    ensures { OnOk result (text.new ≡ text.old ++ map spec.shown bytes.now) }
{
    for byte in bytes {
        text.push(shown(*byte))?;
    }
    Ok(())
}

/// A byte as it is shown.
fn shown(byte: u8) -> u8
    ensures { result ≡ spec.shown byte }
{
    match byte {
        b'\t' => byte,
        0..=31 | 127 => b' ',
        128..=255 => b'?',
        _ => byte,
    }
}

/// Adds what stands under bytes.
fn add_under(bytes: &[u8], text: &mut Blob) -> Result<(), NoMemory>
    ensures { OnOk result (text.new ≡ text.old ++ map spec.under bytes.now) }
{
    for byte in bytes {
        text.push(if *byte == b'\t' { b'\t' } else { b' ' })?;
    }
    Ok(())
}
