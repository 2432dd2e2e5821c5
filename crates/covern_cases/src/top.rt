//! The top call on files in memory, and what it shows.
ghost use Rattle.std.specs.Prelude.{IfOk, IsNone, IsTrue};
ghost use Rattle.cov_io.specs.Shelves.{IsDistinctByName, held};
ghost use Rattle.thread_swap.specs.MemJudges.{are_lawful};

use crate::failure::Failure;
use crate::lines::copy_of;
use crate::outside::{Outside, cut_at};
use crate::parts::add_text;
use cov_ast::{Detail, Refusal, Rule};
use cov_expr::{Blob, List, Name};
use cov_io::{MemShelf, MemSink};
use std::alloc::Global;
use thread_swap::{Judge, MemJudge, Row};
use top_call::{covern, covern_with};
use typing_law::Count;

/// Adds what the product shows when it is called with words on files: its report, and the status where it isn't 0. Words in front of a
/// command may say what fails outside of the product.
pub fn add_shown(
    alloc: Global,
    words: &str,
    files: &[(Name, Blob)],
    out: &mut Blob,
) -> Result<(), Failure> {
    let mut outside = Outside::ordinary();
    let mut given = Vec::new(alloc);
    add_words(alloc, words, &mut outside, &mut given)?;
    add_called(alloc, given.as_slice(), files, &outside, out)
}

/// Adds what the product shows of words and files, where outside of it things are as they are said to be.
fn add_called(
    alloc: Global,
    words: &[String],
    files: &[(Name, Blob)],
    outside: &Outside,
    out: &mut Blob,
) -> Result<(), Failure> {
    let mut shelf = shelf_of(alloc, files, outside)?;
    add_reply(alloc, words, &mut shelf, outside, out)
}

/// Adds what is put where the product is called with words on a shelf, and its status.
fn add_reply(
    alloc: Global,
    words: &[String],
    shelf: &mut MemShelf,
    outside: &Outside,
    out: &mut Blob,
) -> Result<(), Failure> {
    if outside.step == 0 {
        return Err(Failure::Usage);
    }
    let fails = list_of(alloc, outside.put)?;
    let mut sink = MemSink::new(alloc, outside.room, outside.step, fails)?;
    let Some((statements, entailments)) = outside.says else {
        let status = covern(alloc, words, shelf, &mut sink) as u8;
        out.extend_from_slice(sink.bytes())?;
        return add_status(alloc, status, out);
    };
    let mut judge = judge_of(alloc, statements, entailments, outside.refuses)?;
    let status = covern_with(alloc, words, shelf, &mut sink, &mut judge) as u8;
    out.extend_from_slice(sink.bytes())?;
    add_status(alloc, status, out)?;
    add_text(format!(in alloc; "judged {}\n", judge.judged()), out)
}

/// A judge in memory that says so much of each thread, but refuses those at a place.
fn judge_of(
    alloc: Global,
    statements: u32,
    entailments: u32,
    refuses: Option<u32>,
) -> Result<MemJudge, Failure> {
    let rows = rows_of(alloc, refuses)?;
    let rest = Count {
        statements: u64::from(statements),
        entailments: u64::from(entailments),
    };
    Ok(MemJudge::new(rows, rest))
}

/// The row of threads at a place, of which a rule is broken that shows nothing.
fn rows_of(alloc: Global, refuses: Option<u32>) -> Result<List<Row>, Failure>
    ensures { IfOk result (λ rows. IsTrue (are_lawful rows)) }
{
    let mut rows = List::new(alloc);
    if let Some(at) = refuses {
        let refusal = Refusal {
            rule: Rule::V3,
            thread: None,
            place: at,
            detail: Detail::Nothing,
        };
        rows.push(Row {
            at,
            said: Err(refusal),
        })?;
    }
    Ok(rows)
}

/// Adds the status, where it isn't 0.
fn add_status(alloc: Global, status: u8, out: &mut Blob) -> Result<(), Failure> {
    if status == 0 {
        return Ok(());
    }
    let line = format!(in alloc; "[{status}]\n")?;
    Ok(out.extend_from_slice(line.as_bytes())?)
}

/// Adds the words of a line: those between apostrophes, and what stands between blanks elsewhere. What they say of the outside in front of
/// the command goes there.
fn add_words(
    alloc: Global,
    line: &str,
    outside: &mut Outside,
    words: &mut Vec<String>,
) -> Result<(), Failure> {
    for (i, piece) in line.split('\'').enumerate() {
        if i % 2 == 1 {
            words.push(String::from_str(alloc, piece)?)?;
            continue;
        }
        for word in piece.split_whitespace() {
            if !words.is_empty() || !outside.reads(word) {
                words.push(String::from_str(alloc, word)?)?;
            }
        }
    }
    Ok(())
}

/// A list of at most one number.
fn list_of(alloc: Global, number: Option<u64>) -> Result<List<u64>, Failure> {
    let mut list = List::new(alloc);
    if let Some(number) = number {
        list.push(number)?;
    }
    Ok(list)
}

/// A shelf of files, no two of which have one name. What is cut, and which call fails, says the outside.
fn shelf_of(alloc: Global, files: &[(Name, Blob)], outside: &Outside) -> Result<MemShelf, Failure> {
    let fails = list_of(alloc, outside.fetch)?;
    let copies = copies_of(alloc, files, outside.cut)?;
    if !are_distinct(copies.as_slice()) {
        return Err(Failure::Usage);
    }
    Ok(MemShelf::new(copies, fails))
}

/// Copies of files, of which `p` is cut behind so many bytes.
fn copies_of(
    alloc: Global,
    files: &[(Name, Blob)],
    cut: usize,
) -> Result<List<(Name, Blob)>, Failure> {
    let mut copies = List::new(alloc);
    for (name, text) in files {
        let bytes = if name.text() == b"p".as_slice() {
            cut_at(text.as_slice(), cut)
        } else {
            text.as_slice()
        };
        copies.push((*name, copy_of(alloc, bytes)?))?;
    }
    Ok(copies)
}

/// Whether no two files have one name.
fn are_distinct(files: &[(Name, Blob)]) -> bool
    ensures { IsTrue result → IsDistinctByName files.now }
{
    match files {
        [] => true,
        [(name, _), rest @ ..] => is_missing(rest, name.text()) && are_distinct(rest),
    }
}

/// Whether no file has a name.
fn is_missing(files: &[(Name, Blob)], name: &[u8]) -> bool
    ensures { IsTrue result → IsNone (held files.now name.now) }
{
    match files {
        [] => true,
        [(other, _), rest @ ..] => other.text() != name && is_missing(rest, name),
    }
}
