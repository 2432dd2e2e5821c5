//! What the words of a command line ask for.

ghost use Rattle.std.specs.Prelude.{◌≡◌, map, string_bytes};
ghost use Rattle.explain.specs.FileCalls as spec;
ghost use Rattle.explain.specs.declared.manner.Beside.TheVariants as Beside;

use crate::manner::Beside;
use cov_expr::MOST_BYTES;

/// Whether words are `--first` and files.
pub fn asks_for_first(names: &[String]) -> bool
    ensures { result ≡ spec.asks_for_first (map string_bytes names.now) }
{
    1 < names.len() && names[0].as_str() == "--first"
}

/// Whether words are `--levels`, a program and levels for it.
pub fn asks_for_levels(names: &[String]) -> bool
    ensures { result ≡ spec.asks_for_levels (map string_bytes names.now) }
{
    names.len() == 3 && names[0].as_str() == "--levels"
}

/// Whether words are `--suggest` and a program.
pub fn asks_for_suggestions(names: &[String]) -> bool
    ensures { result ≡ spec.asks_for_suggestions (map string_bytes names.now) }
{
    names.len() == 2 && names[0].as_str() == "--suggest"
}

/// Whether words are `--code` and a program.
pub fn asks_for_code(names: &[String]) -> bool
    ensures { result ≡ spec.asks_for_code (map string_bytes names.now) }
{
    names.len() == 2 && names[0].as_str() == "--code"
}

/// What words ask for beside the explanation.
pub fn beside_of(names: &[String]) -> Beside
    ensures { result ≡ spec.beside_of (map string_bytes names.now) }
{
    if 1 < names.len() && names[0].as_str() == "--points" {
        if names.len() == 2 {
            return Beside::Points;
        }
        if names.len() != 3 {
            return Beside::Remarks;
        }
        match line_number(names[2].as_bytes()) {
            Some(number) => Beside::PointsOf(number),
            None => Beside::Remarks,
        }
    } else if asks_for_code(names) {
        Beside::Code
    } else {
        Beside::Remarks
    }
}

/// The number of a line that a word spells, if it spells one.
fn line_number(word: &[u8]) -> Option<usize>
    ensures { result ≡ spec.line_number word.now }
{
    if word.is_empty() {
        return None;
    }
    let mut number = 0;
    for byte in word {
        if b'0' <= *byte && *byte <= b'9' && number <= MOST_BYTES {
            number = number * 10 + (*byte - b'0') as usize;
        } else {
            return None;
        }
    }
    Some(number)
}

/// The files that words name, by what they ask for.
pub fn files_by(beside: Beside, names: &[String]) -> &[String]
    ensures { map string_bytes result.now ≡ spec.files_by beside (map string_bytes names.now) }
{
    match beside {
        Beside::Remarks => {
            if asks_for_first(names) {
                &names[1..]
            } else {
                names
            }
        }
        Beside::Points | Beside::PointsOf(_) | Beside::Code => {
            if 1 < names.len() { &names[1..2] } else { &[] }
        }
    }
}
