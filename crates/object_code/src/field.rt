//! Fields of an object: bytes, numbers and names, read from the front.

ghost use Rattle.std.specs.Prelude.{◌≡◌, ℕ, ◌<◌, ◌≤◌, ◌^◌, ◌+◌, ◌-◌, List, length, take, drop, get_or, IfOk, OnOk};
ghost use Rattle.cov_expr.specs.declared.limits.TheConstants.{MOST_NAME_BYTES};
ghost use Rattle.object_code.specs.Inside.Given.{Gives};
ghost use Rattle.object_code.specs.Inside.ObjectReading as spec;

use crate::stop::Stop;
use cov_expr::{MOST_NAME_BYTES, Name, is_keyword, is_lower, is_word};

/// How many numbers have four bytes.
pub const WORDS: u64 = 4_294_967_296;

/// The byte at the front, which is from `low` to `high`.
#[tactic(auto, unfolding(crate::specs::Inside::ObjectReading::within_at))]
pub fn byte_within(low: u8, high: u8, bytes: &[u8]) -> Result<(u8, &[u8]), Stop>
    ensures { Gives (λ x. (x.0, x.1.now)) result (spec.within_at low high bytes.now) }
{
    match bytes {
        [] => Err(Stop::Left(0)),
        [byte, rest @ ..] => {
            if low <= *byte && *byte <= high {
                Ok((*byte, rest))
            } else {
                Err(Stop::Left(bytes.len()))
            }
        }
    }
}

/// The number at the front, which is below a bound.
#[tactic(auto, unfolding(crate::specs::Inside::ObjectReading::number_at))]
pub fn number_at(below: u64, bytes: &[u8]) -> Result<(u32, &[u8]), Stop>
    requires { below ≤ 2 ^ 32 }
    ensures { Gives (λ x. (x.0, x.1.now)) result (spec.number_at below bytes.now) }
{
    let (n, rest) = digit_at(below, 0, 1, bytes)?;
    let (n, rest) = digit_at(below, n, 0x100, rest)?;
    let (n, rest) = digit_at(below, n, 0x1_0000, rest)?;
    let (n, rest) = digit_at(below, n, 0x100_0000, rest)?;
    Ok((n as u32, rest))
}

/// A byte of a number, behind bytes that are worth `base`: what they are worth together.
#[tactic(auto, unfolding(crate::specs::Inside::ObjectReading::digit_at))]
fn digit_at(below: u64, base: u64, unit: u64, bytes: &[u8]) -> Result<(u64, &[u8]), Stop>
    requires base { base < 2 ^ 32 }
    requires unit { unit ≤ 16777216 }
    ensures digit { Gives (λ x. (x.0, x.1.now)) result (spec.digit_at below base unit bytes.now) }
    ensures below { IfOk result (λ x. x.0 < below) }
{
    match bytes {
        [] => Err(Stop::Left(0)),
        [byte, rest @ ..] => {
            let n = base + *byte as u64 * unit;
            if n < below {
                Ok((n, rest))
            } else {
                Err(Stop::Left(bytes.len()))
            }
        }
    }
}

/// The name at the front, and how many bytes it takes.
#[tactic(auto, unfolding(crate::specs::Inside::ObjectReading::name_at))]
pub fn name_at(bytes: &[u8]) -> Result<(Name, usize), Stop>
    ensures name { Gives (λ x. (x.0, drop x.1 bytes.now)) result (spec.name_at bytes.now) }
    ensures within { IfOk result (λ x. x.1 ≤ length bytes.now) }
{
    let (len, rest) = byte_within(1, MOST_NAME_BYTES as u8, bytes)?;
    let name = text_at(len as usize, rest)?;
    Ok((name, len as usize + 1))
}

/// What stands behind so many bytes.
pub fn past(bytes: &[u8], taken: usize) -> &[u8]
    requires { taken ≤ length bytes.now }
    ensures { result.now ≡ drop taken bytes.now }
{
    &bytes[taken..]
}

/// The name of so many bytes at the front.
fn text_at(len: usize, bytes: &[u8]) -> Result<Name, Stop>
    requires some { 0 < len }
    requires short { len ≤ MOST_NAME_BYTES }
    ensures text { Gives (λ x. (x, drop len bytes.now)) result (spec.text_at len bytes.now) }
    ensures within { OnOk result (len ≤ length bytes.now) }
{
    for i in 0..len {
        if bytes.len() <= i {
            return Err(Stop::Left(0));
        }
        if !goes_on(len, bytes, i) {
            return Err(Stop::Left(bytes.len() - i));
        }
    }
    let (text, _) = bytes.split_at(len);
    Ok(Name::known(text))
}

/// Whether a name of so many bytes goes on with the byte at an index.
fn goes_on(len: usize, bytes: &[u8], i: usize) -> bool
    requires inside { i < length bytes.now }
    requires within { i < len }
    ensures { result ≡ spec.goes_on (len - (i + 1)) (take i bytes.now) (get_or bytes.now i 0) }
{
    stands(i, bytes[i]) && (i + 1 < len || !is_keyword(&bytes[..i + 1]))
}

/// Whether a byte may stand at an index of a name.
fn stands(i: usize, byte: u8) -> bool
    ensures { (before : List ℕ) → length before ≡ i → result ≡ spec.stands before byte }
{
    if i == 0 {
        is_lower(byte)
    } else {
        is_word(byte)
    }
}
