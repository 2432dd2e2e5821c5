//! The sentences of bytes that begin no token.

ghost use Rattle.std.specs.Prelude.{◌≡◌, ◌++◌, OnOk};
ghost use Rattle.explain.specs.ByteSentences as spec;

use cov_expr::{Blob, NoMemory};

/// Adds the sentence of a byte that begins no token, by the text from it on.
pub fn add_byte_sentence(rest: &[u8], text: &mut Blob) -> Result<(), NoMemory>
    ensures { OnOk result (text.new ≡ text.old ++ spec.byte_sentence rest.now) }
{
    text.extend_from_slice(b"this byte begins no token, blank or comment")?;
    text.extend_from_slice(byte_hint(rest).as_bytes())
}

/// How what is often meant by a text that begins so is written; nothing where nothing is known of it.
fn byte_hint(rest: &[u8]) -> &'static str
    ensures { result.now ≡ spec.byte_hint rest.now }
{
    match rest {
        [] => "",
        [first, others @ ..] => {
            if *first == b'>' {
                match others {
                    [second, ..] if *second == b'=' => "; `a >= b` is written `b <= a`",
                    _ => "; `a > b` is written `b < a`",
                }
            } else if *first == b'=' {
                "; an assignment is written `x := e`, and that two are equal `a == b`"
            } else if *first == b'/' {
                "; a comment begins with `//`, and nothing is divided"
            } else if is_upper(*first) {
                "; names and words have small letters"
            } else if *first == 239 && is_mark_behind(others) {
                "; it is that of a byte order mark, without which the text is to be saved"
            } else {
                ""
            }
        }
    }
}

/// Whether a byte is a capital letter.
fn is_upper(byte: u8) -> bool
    ensures { result ≡ spec.is_upper byte }
{
    byte >= 65 && byte <= 90
}

/// Whether a text goes on as a byte order mark does behind its first byte.
fn is_mark_behind(others: &[u8]) -> bool
    ensures { result ≡ spec.is_mark_behind others.now }
{
    match others {
        [second, third, ..] => *second == 187 && *third == 191,
        _ => false,
    }
}
