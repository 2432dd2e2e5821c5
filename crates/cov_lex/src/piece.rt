//! What stands at the front of a text: a blank, a comment, a word, a number or a sign.

ghost use Rattle.std.specs.Prelude.{◌≡◌, ◌<◌, length, IsTrue, true, false, take, codes, unwrap_or, IfOk};
ghost use Rattle.std.specs.List.{take_while, list_all};
ghost use Rattle.std.specs.Str.{bytes_eq};
ghost use Rattle.cov_expr.specs.Bytes as class;
ghost use Rattle.cov_expr.specs.declared.kind.Kind.TheVariants as kinds;
ghost use Rattle.cov_expr.specs.Spellings as spellings;
ghost use Rattle.cov_expr.specs.Spellings.{begins_with_letter};
ghost use Rattle.cov_lex.specs.Signs as signs;
ghost use Rattle.cov_lex.specs.Lexing as spec;
ghost use Rattle.cov_lex.specs.Inside.{with_kind, is_in, one_kind, two_kind, IsWithin};

use crate::fault::LexFault;
use crate::number::digits_value;
use cov_expr::{Kind, MOST_NAME_BYTES, is_digit, is_lower, is_word, kind_of};

/// The most bytes of a keyword.
const LONGEST_KEYWORD: usize = 9;

/// What stands at the front of a text: a blank or a comment of so many bytes, or a token of a kind, with the value of a number, of so
/// many bytes.
#[derive(Clone, Copy)]
pub enum Piece {
    Gap(usize),
    Part(Kind, u32, usize),
}

/// The bytes that a run goes on over.
#[derive(Clone, Copy)]
pub enum Class {
    Word,
    Digit,
    Line,
}

/// What stands at the front of a text that begins at an offset.
pub fn front(bytes: &[u8], at: u32) -> Result<Piece, LexFault>
    requires { 0 < length bytes.now }
    ensures piece { result ≡ with_kind bytes.now (spec.piece_at at bytes.now) }
    ensures within { IfOk result (IsWithin (length bytes.now)) }
{
    let first = bytes[0];
    if is_blank(first) {
        Ok(Piece::Gap(1))
    } else if is_lower(first) {
        word(run(Class::Word, bytes), at)
    } else if is_digit(first) {
        number(run(Class::Digit, bytes), at)
    } else if is_comment(bytes) {
        Ok(Piece::Gap(run(Class::Line, bytes).len()))
    } else {
        sign(bytes, at)
    }
}

/// The longest part at the front of which each byte is of a class.
#[inline(always)]
fn run(class: Class, bytes: &[u8]) -> &[u8]
    ensures { result.now ≡ take_while (is_in class) bytes.now }
{
    for (i, byte) in bytes.iter().enumerate() {
        if !is_in(class, *byte) {
            return &bytes[..i];
        }
    }
    bytes
}

#[inline(always)]
fn is_in(class: Class, byte: u8) -> bool
    ensures { result ≡ is_in class byte }
{
    match class {
        Class::Word => is_word(byte),
        Class::Digit => is_digit(byte),
        Class::Line => byte != b'\n',
    }
}

fn is_blank(byte: u8) -> bool
    ensures { result ≡ signs.is_blank byte }
{
    byte == b' ' || byte == b'\t' || byte == b'\n' || byte == b'\r'
}

fn is_comment(bytes: &[u8]) -> bool
    ensures { result ≡ bytes_eq (take 2 bytes.now) (codes "//") }
{
    match bytes {
        [first, second, ..] => *first == b'/' && *second == b'/',
        _ => false,
    }
}

/// A word as a token, by its whole run.
fn word(run: &[u8], at: u32) -> Result<Piece, LexFault>
    requires { IsTrue (begins_with_letter run.now) }
    ensures { result ≡ with_kind run.now (spec.word_of at run.now) }
{
    if run.len() > MOST_NAME_BYTES {
        return Err(LexFault::NameTooLong(at));
    }
    Ok(Piece::Part(word_kind(run), 0, run.len()))
}

/// The kind of a word: that of a keyword, which is short, or else of a name.
#[tactic(auto, using(crate::proofs::Short::long_is_no_keyword))]
fn word_kind(run: &[u8]) -> Kind
    ensures { result ≡ unwrap_or (spellings.kind_of run.now) kinds.Name }
{
    if run.len() > LONGEST_KEYWORD {
        Kind::Name
    } else {
        kind_of(run).unwrap_or(Kind::Name)
    }
}

/// A number as a token, by its whole run.
fn number(run: &[u8], at: u32) -> Result<Piece, LexFault>
    requires { IsTrue (list_all class.is_digit run.now) }
    ensures { result ≡ with_kind run.now (spec.number_of at run.now) }
{
    match digits_value(run) {
        Some(n) => Ok(Piece::Part(Kind::Number, n, run.len())),
        None => Err(LexFault::NumberTooLarge(at)),
    }
}

/// The longest sign at the front of a text that doesn't begin with a letter.
fn sign(bytes: &[u8], at: u32) -> Result<Piece, LexFault>
    requires some { 0 < length bytes.now }
    requires no_word { begins_with_letter bytes.now ≡ false }
    ensures sign { result ≡ with_kind bytes.now (spec.sign_of at bytes.now) }
    ensures within { IfOk result (IsWithin (length bytes.now)) }
{
    if bytes.len() > 1 {
        if let Some(kind) = double(bytes[0], bytes[1]) {
            return Ok(Piece::Part(kind, 0, 2));
        }
    }
    match single(bytes[0]) {
        Some(kind) => Ok(Piece::Part(kind, 0, 1)),
        None => Err(LexFault::BadByte(at)),
    }
}

/// The sign of two bytes.
fn double(first: u8, second: u8) -> Option<Kind>
    ensures { result ≡ two_kind first second }
{
    match (first, second) {
        (b'!', b'=') => Some(Kind::Differs),
        (b'&', b'&') => Some(Kind::Both),
        (b':', b'=') => Some(Kind::Assign),
        (b'<', b'=') => Some(Kind::AtMost),
        (b'=', b'=') => Some(Kind::Equal),
        (b'|', b'|') => Some(Kind::Either),
        _ => None,
    }
}

/// The sign of one byte.
fn single(byte: u8) -> Option<Kind>
    ensures { result ≡ one_kind byte }
{
    match byte {
        b'!' => Some(Kind::Bang),
        b'&' => Some(Kind::Ampersand),
        b'(' => Some(Kind::OpenParen),
        b')' => Some(Kind::CloseParen),
        b'*' => Some(Kind::Star),
        b'+' => Some(Kind::Plus),
        b',' => Some(Kind::Comma),
        b'-' => Some(Kind::Minus),
        b':' => Some(Kind::Colon),
        b';' => Some(Kind::Semicolon),
        b'<' => Some(Kind::Less),
        b'[' => Some(Kind::OpenBracket),
        b']' => Some(Kind::CloseBracket),
        b'^' => Some(Kind::Caret),
        b'_' => Some(Kind::Hole),
        b'{' => Some(Kind::OpenBrace),
        b'|' => Some(Kind::Bar),
        b'}' => Some(Kind::CloseBrace),
        _ => None,
    }
}
