//! Fields of a row: what names, numbers, registers, weights and operators they are.

ghost use Rattle.std.specs.Prelude.{◌≡◌, ◌∷◌, ◌<◌, []};
ghost use Rattle.std.specs.List.{list_all};
ghost use Rattle.std.specs.Str.{bytes_eq};
ghost use Rattle.cov_expr.specs.Bytes as class;
ghost use Rattle.code_text.specs.Inside.ListingReading as spec;

use cov_expr::{Name, Op, is_digit};
use cov_lex::digits_value;

/// Whether a field is this word.
pub fn is(field: &[u8], word: &[u8]) -> bool
    ensures { result ≡ bytes_eq field.now word.now }
{
    field == word
}

/// The name that a field is.
pub fn name_of(field: &[u8]) -> Option<Name>
    ensures { result ≡ spec.name_of field.now }
{
    Name::new(field)
}

/// The number that a field is, without leading zeros.
pub fn number_of(field: &[u8]) -> Option<u32>
    ensures { result ≡ spec.number_of field.now }
{
    if is_number(field) {
        digits_value(field)
    } else {
        None
    }
}

fn is_number(field: &[u8]) -> bool
    ensures { result ≡ spec.is_number field.now }
{
    are_digits(field) && !field.is_empty() && (field[0] != b'0' || field.len() == 1)
}

fn are_digits(field: &[u8]) -> bool
    ensures { result ≡ list_all class.is_digit field.now }
{
    for byte in field {
        if !is_digit(*byte) {
            return false;
        }
    }
    true
}

/// The register that a field is.
pub fn register_of(field: &[u8]) -> Option<u8>
    ensures { result ≡ spec.register_of field.now }
{
    match field {
        [a, b] => {
            if *a == b'r' && is_digit_below(8, *b) {
                Some(*b - b'0')
            } else {
                None
            }
        }
        _ => None,
    }
}

/// The weight that a field is.
pub fn weight_of(field: &[u8]) -> Option<u8>
    ensures { result ≡ spec.weight_of field.now }
{
    match field {
        [b] => {
            if is_digit_below(3, *b) {
                Some(*b - b'0')
            } else {
                None
            }
        }
        _ => None,
    }
}

fn is_digit_below(n: u8, byte: u8) -> bool
    requires { n < 10 }
    ensures { result ≡ spec.digit_below n byte }
{
    b'0' <= byte && byte < b'0' + n
}

/// The operator that a field is.
pub fn op_of(field: &[u8]) -> Option<Op>
    ensures { result ≡ spec.op_of field.now }
{
    match field {
        [byte] => op_of_byte(*byte),
        [first, second] => op_of_bytes(*first, *second),
        _ => None,
    }
}

/// The operator whose sign is this byte.
fn op_of_byte(byte: u8) -> Option<Op>
    ensures { result ≡ spec.op_of (byte ∷ []) }
{
    match byte {
        b'+' => Some(Op::Add),
        b'-' => Some(Op::Sub),
        b'*' => Some(Op::Mul),
        b'&' => Some(Op::And),
        b'|' => Some(Op::Or),
        b'^' => Some(Op::Xor),
        b'<' => Some(Op::Lt),
        _ => None,
    }
}

/// The operator whose sign is these two bytes.
fn op_of_bytes(first: u8, second: u8) -> Option<Op>
    ensures { result ≡ spec.op_of (first ∷ second ∷ []) }
{
    match (first, second) {
        (b'=', b'=') => Some(Op::Eq),
        (b'!', b'=') => Some(Op::Ne),
        (b'<', b'=') => Some(Op::Le),
        (b'&', b'&') => Some(Op::Both),
        (b'|', b'|') => Some(Op::Either),
        _ => None,
    }
}
