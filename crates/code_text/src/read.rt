//! The code of a listing, read line by line.

ghost use Rattle.std.specs.Prelude.{◌≡◌, ℕ, ◌≤◌, ◌<◌, ◌∷◌, ◌+◌, [], length, map, take, drop, IfOk, OnOk, MatchOption};
ghost use Rattle.code_text.specs.Inside.Drafts.{AddsLine, Agrees, Ends, IsSmall};
ghost use Rattle.code_text.specs.Inside.ListingReading as spec;
ghost use Rattle.code_text.specs.Inside.ListingReading.{Draft};
ghost use Rattle.code_text.specs.Inside.Cuts.{IsCut};
ghost use Rattle.code_text.specs.Inside.Lookup.{IsRegisterOf};
ghost use Rattle.code_text.specs.Listing.{IsListingOf};
ghost use Rattle.code_text.specs.ListingAnswers.{IsReading, IsAnswerTo};
ghost use Rattle.cov_expr.specs.declared.limits.TheConstants.{MOST_LISTING_BYTES};
ghost use Rattle.risc_machine.specs.Faults.{AreCounted, repeated, names_of};
ghost use Rattle.risc_machine.specs.declared.parts.Parts.{Parts};

use crate::draft::Draft;
use crate::fault::CodeFault;
use crate::field::is;
use crate::names::Register;
use crate::row::row_of;
use arrayvec::ArrayVec;
use cov_expr::Name;
use risc_machine::{Code, CodeBad, Parts};
use std::alloc::Global;

/// Parts, and the first of their names that equals an earlier one.
#[derive(Drop)]
struct Found {
    parts: Parts,
    repeated: Option<Name>,
}

/// The code of a listing. It answers with the code exactly where the text is the listing of one, unless memory runs out.
pub fn read_code(alloc: Global, bytes: &[u8]) -> Result<Code, CodeFault>
    requires { length bytes.now ≤ MOST_LISTING_BYTES }
    ensures reading { IsReading bytes.now result }
    ensures exact { (p : Parts) → IsListingOf p bytes.now → IsAnswerTo p result }
{
    let found = read_parts(alloc, bytes)?;
    if let Some(name) = found.repeated {
        return Err(CodeFault::Bad(CodeBad::SameName(name)));
    }
    match Code::with_distinct_names(found.parts) {
        Ok(code) => Ok(code),
        Err(rejected) => Err(CodeFault::Bad(rejected.fault)),
    }
}

/// The parts of which a text is the listing, or the number of the first line with which no listing begins.
fn read_parts(alloc: Global, bytes: &[u8]) -> Result<Found, CodeFault>
    requires { length bytes.now ≤ MOST_LISTING_BYTES }
    ensures agrees { Agrees (λ found. found.parts) result (spec.read_text (spec.pieces 10 bytes.now)) }
    ensures counted { IfOk result (λ found. AreCounted found.parts) }
    ensures repeated { IfOk result (λ found. found.repeated ≡ repeated [] (names_of found.parts)) }
{
    let Some(end) = find(b'\n', bytes) else {
        return Err(CodeFault::Line(1));
    };
    match version_of(&bytes[..end]) {
        None => Err(CodeFault::Line(1)),
        Some(version) => read_lines(alloc, version, past(bytes, end)),
    }
}

/// The parts of a listing of a version, from its second line on.
fn read_lines(alloc: Global, version: u8, text: &[u8]) -> Result<Found, CodeFault>
    requires { length text.now ≤ MOST_LISTING_BYTES }
    ensures agrees { Agrees (λ found. found.parts) result (spec.read_lines (spec.pieces 10 text.now) (spec.begun version) 2) }
    ensures counted { IfOk result (λ found. AreCounted found.parts) }
    ensures repeated { IfOk result (λ found. found.repeated ≡ repeated [] (names_of found.parts)) }
{
    let mut register = Register::new(alloc);
    let parts = parts_of(alloc, version, text, &mut register)?;
    Ok(Found {
        parts,
        repeated: register.repeated(),
    })
}

/// These parts, whose names are registered.
fn parts_of(
    alloc: Global,
    version: u8,
    text: &[u8],
    register: &mut Register,
) -> Result<Parts, CodeFault>
    requires short { length text.now ≤ MOST_LISTING_BYTES }
    requires none { IsRegisterOf register.old [] }
    ensures agrees { Agrees (λ parts. parts) result (spec.read_lines (spec.pieces 10 text.now) (spec.begun version) 2) }
    ensures counted { IfOk result (λ parts. AreCounted parts) }
    ensures known { IfOk result (λ parts. IsRegisterOf register.new (names_of parts)) }
{
    let mut draft = Draft::begin(alloc, version);
    add_lines(alloc, text, &mut draft, register)?;
    Ok(draft.into_parts())
}

/// Adds the lines of a text, from the second of a listing on. Where it answers a fault the draft is to be dropped.
fn add_lines(
    alloc: Global,
    text: &[u8],
    draft: &mut Draft,
    register: &mut Register,
) -> Result<(), CodeFault>
    requires short { length text.now ≤ MOST_LISTING_BYTES }
    requires small { IsSmall 2 (draft.old).parts }
    requires known { IsRegisterOf register.old (names_of (draft.old).parts) }
    ensures ends { Ends result draft.new (spec.read_lines (spec.pieces 10 text.now) draft.old 2) }
    ensures counted { OnOk result (AreCounted (draft.new).parts) }
    ensures known { OnOk result (IsRegisterOf register.new (names_of (draft.new).parts)) }
{
    let mut rest = text;
    let mut n: u32 = 2;
    while let Some(cut) = cut_line(rest) {
        add_line(alloc, cut.fields.as_slice(), n, draft, register)?;
        rest = cut.rest;
        n += 1;
    }
    if rest.is_empty() && draft.left() == 0 {
        Ok(())
    } else {
        Err(CodeFault::Line(n))
    }
}

/// Adds the line of these fields, which has number `n`.
fn add_line(
    alloc: Global,
    fields: &[&[u8]],
    n: u32,
    draft: &mut Draft,
    register: &mut Register,
) -> Result<(), CodeFault>
    requires { IsSmall n (draft.old).parts }
    ensures line { AddsLine n draft.old (spec.row_of draft.old (map (λ f. f.now) fields.now)) draft.new result }
    ensures known { OnOk result (IsRegisterOf register.old (names_of (draft.old).parts) → IsRegisterOf register.new (names_of (draft.new).parts)) }
{
    let Some(row) = row_of(draft, fields) else {
        return Err(CodeFault::Line(n));
    };
    register.add_row(&row)?;
    draft.add(alloc, row)?;
    Ok(())
}

fn version_of(line: &[u8]) -> Option<u8>
    ensures { result ≡ spec.version_of line.now }
{
    if is(line, b"code 1") {
        Some(1)
    } else if is(line, b"code 2") {
        Some(2)
    } else {
        None
    }
}

/// Where a byte stands first.
fn find(byte: u8, text: &[u8]) -> Option<usize>
    ensures { MatchOption result (spec.pieces byte text.now ≡ text.now ∷ []) (λ i. (i < length text.now) × (spec.pieces byte text.now ≡ take i text.now ∷ spec.pieces byte (drop (i + 1) text.now))) }
{
    for (i, other) in text.iter().enumerate() {
        if *other == byte {
            return Some(i);
        }
    }
    None
}

/// What stands behind the byte at an index.
fn past(text: &[u8], i: usize) -> &[u8]
    requires inside { i < length text.now }
    requires short { length text.now ≤ MOST_LISTING_BYTES }
    ensures { result.now ≡ drop (i + 1) text.now }
{
    &text[i + 1..]
}

/// A line that was cut off a text: what stands between its blanks, and what stands behind its line feed.
#[derive(Drop)]
struct Cut<'t> {
    fields: ArrayVec<&'t [u8], 5>,
    rest: &'t [u8],
}

/// Cuts the first line off a text. `None` comes where the text has no line feed, or too many fields before it.
fn cut_line(text: &[u8]) -> Option<Cut<'_>>
    requires { length text.now ≤ MOST_LISTING_BYTES }
    ensures { MatchOption result ((d : Draft) → (n : ℕ) → spec.read_lines (spec.pieces 10 text.now) d n ≡ spec.ended d n text.now)
        (λ cut. IsCut text.now (map (λ f. f.now) cut.fields.items) cut.rest.now) }
{
    let mut fields = ArrayVec::new();
    let mut start = 0;
    for (i, byte) in text.iter().enumerate() {
        if *byte != b' ' && *byte != b'\n' {
            continue;
        }
        if fields.is_full() {
            return None;
        }
        let field = &text[start..i];
        fields.push(field);
        if *byte == b'\n' {
            let rest = past(text, i);
            return Some(Cut { fields, rest });
        }
        start = i + 1;
    }
    None
}
