//! The comment above lines of code: the first words of a statement, or what the lines do for it.

ghost use Rattle.std.specs.Prelude.{◌≡◌, ◌++◌, OnOk};
ghost use Rattle.code_lines.specs.CodeLines as spec;

use crate::walk::Role;
use cov_expr::{Blob, NoMemory};
use text_parts::{add_number, halves};

/// How many bytes of a statement are shown.
const MOST_SOURCE: usize = 100;

/// Adds the comment above lines of the statement at a place, which begins in the line of this number.
pub fn add_comment(
    bytes: &[u8],
    role: Role,
    number: usize,
    at: usize,
    text: &mut Blob,
) -> Result<(), NoMemory>
    ensures { OnOk result (text.new ≡ text.old ++ spec.comment_with bytes.now role number at) }
{
    text.extend_from_slice(b"  // ")?;
    add_number(number, text)?;
    text.extend_from_slice(b": ")?;
    add_role(bytes, role, at, text)?;
    text.extend_from_slice(b"\n")
}

/// Adds what lines do for the statement at a place.
fn add_role(bytes: &[u8], role: Role, at: usize, text: &mut Blob) -> Result<(), NoMemory>
    ensures { OnOk result (text.new ≡ text.old ++ spec.role_words bytes.now role at) }
{
    match role {
        Role::Whole => add_source(b';', bytes, at, text),
        Role::Guard => add_source(b'{', bytes, at, text),
        Role::Past => text.extend_from_slice(b"end of the first block, past the `else` block"),
        Role::Back => text.extend_from_slice(b"end of the block, back to the guard"),
    }
}

/// Adds the first words of the statement at a place, up to a byte.
fn add_source(stop: u8, bytes: &[u8], at: usize, text: &mut Blob) -> Result<(), NoMemory>
    ensures { OnOk result (text.new ≡ text.old ++ spec.source stop bytes.now at) }
{
    let (_, rest) = halves(bytes, at);
    let (front, _) = halves(rest, MOST_SOURCE);
    let bytes = to_stop(stop, front);
    for byte in bytes {
        let shown_as = match *byte {
            b'\t' => *byte,
            0..=31 | 127 => b' ',
            128..=255 => b'?',
            _ => *byte,
        };
        text.push(shown_as)?;
    }
    Ok(())
}

/// The bytes up to this one, with it, or up to the end of the line.
fn to_stop(stop: u8, bytes: &[u8]) -> &[u8]
    ensures { result.now ≡ spec.to_stop stop bytes.now }
{
    for (i, byte) in bytes.iter().enumerate() {
        if *byte == stop {
            return &bytes[..i + 1];
        }
        if *byte == b'\n' {
            return &bytes[..i];
        }
    }
    bytes
}
