//! Cases are played: what each call shows is compared with what it has to show.
ghost use Rattle.std.specs.Prelude.{◌≡◌, ◌++◌, OnOk};
ghost use Rattle.covern_cases.specs.Told.{told};

use crate::case::{Call, Case, add_cases};
use crate::failure::Failure;
use crate::outside::{Outside, cut_at};
use crate::parts::add_part;
use crate::top::add_shown;
use cov_expr::{Blob, List, NoMemory};
use std::alloc::Global;
use std::str;

/// Plays the cases of a file: adds how many there are, and what differs. The answer is whether something does.
pub fn play(alloc: Global, name: &str, bytes: &[u8], out: &mut Blob) -> Result<bool, Failure> {
    let mut cases = Vec::new(alloc);
    add_cases(alloc, bytes, &mut cases)?;
    play_all(alloc, name, cases.as_slice(), out)
}

fn play_all(alloc: Global, name: &str, cases: &[Case], out: &mut Blob) -> Result<bool, Failure> {
    let count = format!(in alloc; "{name}: {} cases\n", cases.len())?;
    out.extend_from_slice(count.as_bytes())?;
    let before = out.len();
    for case in cases {
        play_case(alloc, case, out)?;
    }
    Ok(out.len() > before)
}

/// Adds what differs in a case. It also differs where it has no call.
fn play_case(alloc: Global, case: &Case, out: &mut Blob) -> Result<(), Failure> {
    if case.calls.is_empty() {
        add_difference(case.name.as_slice(), b"", b"something\n", b"nothing\n", out)?;
    }
    for call in &case.calls {
        play_call(alloc, case, call, out)?;
    }
    Ok(())
}

/// Adds what differs in a call.
fn play_call(alloc: Global, case: &Case, call: &Call, out: &mut Blob) -> Result<(), Failure> {
    let mut found = List::new(alloc);
    add_found(alloc, case, call, &mut found)?;
    let (name, words) = (case.name.as_slice(), call.words.as_slice());
    Ok(add_difference(name, words, call.due.as_slice(), found.as_slice(), out)?)
}

/// Adds what a call shows.
fn add_found(alloc: Global, case: &Case, call: &Call, found: &mut Blob) -> Result<(), Failure> {
    let words = str::from_utf8(call.words.as_slice()).or(Err(Failure::Usage))?;
    if call.is_whole {
        return add_shown(alloc, words, &case.files, found);
    }
    match case.files.first() {
        Some((_, text)) => add_part_of(alloc, words, text.as_slice(), found),
        None => Err(Failure::Usage),
    }
}

/// Adds what a part shows of a text. A word in front of its name may say that there is less of the text.
fn add_part_of(alloc: Global, words: &str, text: &[u8], found: &mut Blob) -> Result<(), Failure> {
    let mut outside = Outside::ordinary();
    let Some((front, part)) = words.split_once(' ') else {
        return add_part(alloc, words, 1, text, found);
    };
    if outside.reads(front) {
        add_part(alloc, part, 1, cut_at(text, outside.cut), found)
    } else {
        Err(Failure::Usage)
    }
}

/// Adds what a call has to show and what it shows, where they differ.
fn add_difference(
    case: &[u8],
    words: &[u8],
    due: &[u8],
    found: &[u8],
    out: &mut Blob,
) -> Result<(), NoMemory>
    ensures { OnOk result (out.new ≡ out.old ++ told case.now words.now due.now found.now) }
{
    if found == due {
        return Ok(());
    }
    out.extend_from_slice(b"//// ")?;
    out.extend_from_slice(case)?;
    out.extend_from_slice(b": ")?;
    out.extend_from_slice(words)?;
    out.extend_from_slice(b"\nhas to show\n")?;
    out.extend_from_slice(due)?;
    out.extend_from_slice(b"and shows\n")?;
    out.extend_from_slice(found)
}
