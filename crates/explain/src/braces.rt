//! The line that says to which brace a token mostly belongs with which no program goes on.

ghost use Rattle.std.specs.Prelude.{◌≡◌, ◌≤◌, ◌++◌, length, false, OnOk};
ghost use Rattle.cov_expr.specs.declared.limits.TheConstants.{MOST_BYTES};
ghost use Rattle.explain.specs.OpenBraces as spec;

use crate::words::word_run;
use cov_expr::{Blob, Kind, List, NoMemory};
use cov_grammar::{Token, is};
use cov_lex::LexFault;
use cov_parse::read_tokens;
use std::alloc::Global;
use text_parts::{add_number, halves, position};

/// Adds a line that says which `{` is open at a place of a text of at most 1 MiB, or which the `}` in front of it closes; none where the token there
/// tells nothing of braces.
#[tactic(auto, using(crate::proofs::BraceLaws::tokens_read, crate::proofs::BraceLaws::tokens_fault))]
pub fn add_brace_line(alloc: Global, bytes: &[u8], at: u32, text: &mut Blob) -> Result<(), NoMemory>
    requires { length bytes.now ≤ MOST_BYTES }
    ensures { OnOk result (text.new ≡ text.old ++ spec.brace_line bytes.now at) }
{
    let (front, rest) = halves(bytes, at as usize);
    let tokens = match read_tokens(alloc, front) {
        Ok(read) => read.tokens,
        Err(LexFault::NoMemory) => return Err(NoMemory),
        Err(LexFault::BadByte(_) | LexFault::NumberTooLarge(_) | LexFault::NameTooLong(_)) =>
            List::new(alloc),
    };
    add_line(bytes, rest, tokens.as_slice(), text)
}

/// Adds the line, by the text from a token on and the tokens in front of it.
fn add_line(bytes: &[u8], rest: &[u8], tokens: &[Token], text: &mut Blob) -> Result<(), NoMemory>
    ensures { OnOk result (text.new ≡ text.old ++ spec.brace_line_of bytes.now rest.now tokens.now) }
{
    let is_outside = match rest {
        [] => true,
        [_, ..] => {
            let word = word_run(rest);
            word == b"thread".as_slice()
                || word == b"lock".as_slice()
                || word == b"var".as_slice()
                || word == b"level".as_slice()
        }
    };
    if is_outside {
        return add_open(bytes, open_brace(tokens), text);
    }
    if word_run(rest) != b"else".as_slice() {
        return Ok(());
    }
    if !ends_closed(tokens) {
        return add_open(bytes, open_brace(tokens), text);
    }
    let all_but_last = if tokens.is_empty() {
        tokens
    } else {
        &tokens[..tokens.len() - 1]
    };
    match open_brace(all_but_last) {
        Some(place) => {
            let front = "  the `}` in front of it closes the `{` of line ";
            let back = ", to which no `else` belongs: a `}` may be missing between them\n";
            add_line_text(front, back, bytes, place as usize, text)
        }
        None => Ok(()),
    }
}

/// Adds a line that says that a `{` is open, by its place, if there is one.
fn add_open(bytes: &[u8], brace: Option<u32>, text: &mut Blob) -> Result<(), NoMemory>
    ensures { OnOk result (text.new ≡ text.old ++ spec.open_line bytes.now brace) }
{
    match brace {
        Some(place) => {
            let front = "  a `}` may be missing: the `{` of line ";
            add_line_text(front, " is open here\n", bytes, place as usize, text)
        }
        None => Ok(()),
    }
}

/// Adds the line of a place, between words.
fn add_line_text(
    front: &str,
    back: &str,
    bytes: &[u8],
    place: usize,
    text: &mut Blob,
) -> Result<(), NoMemory>
    ensures { OnOk result (text.new ≡ text.old ++ spec.line_text front.now back.now bytes.now place) }
{
    let position = position(bytes, place);
    text.extend_from_slice(front.as_bytes())?;
    add_number(position.line, text)?;
    text.extend_from_slice(back.as_bytes())
}

/// The place of the innermost `{` that is open behind tokens. Each token is looked at once.
fn open_brace(tokens: &[Token]) -> Option<u32>
    ensures { result ≡ spec.open_brace tokens.now }
{
    let mut closing: usize = 0;
    let mut place = None;
    for i in (0..tokens.len()).rev() {
        let token = tokens[i];
        if is(Kind::OpenBrace, token.kind) {
            if closing == 0 {
                place = match place {
                    Some(place) => Some(place),
                    None => Some(token.at),
                };
            } else {
                closing -= 1;
            }
        } else if is(Kind::CloseBrace, token.kind) {
            closing += 1;
        }
    }
    place
}

/// Whether the last of tokens is a `}`.
fn ends_closed(tokens: &[Token]) -> bool
    ensures { result ≡ spec.ends_closed false tokens.now }
{
    let mut closed = false;
    for token in tokens {
        closed = is(Kind::CloseBrace, token.kind);
    }
    closed
}
