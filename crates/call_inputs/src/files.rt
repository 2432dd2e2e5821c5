//! How a file is fetched, and a program read from its bytes.

ghost use Rattle.std.specs.Prelude.{◌≡◌, ◌≤◌, IfOk, IfSome, MatchResult, Some, length};
ghost use Rattle.call_inputs.specs.Programs.{IsShownFault, SpellsProgram, shown};
ghost use Rattle.call_inputs.specs.Readings.{HasRead, ended};
ghost use Rattle.call_inputs.specs.Steps as step;
ghost use Rattle.call_reports.specs.AnswerViews.{Stops};
ghost use Rattle.call_reports.specs.Replies.{malformed};
ghost use Rattle.cov_ast.specs.Ready.{IsReady};
ghost use Rattle.cov_ast.specs.View as view;
ghost use Rattle.cov_expr.specs.declared.limits.TheConstants.{MOST_BYTES};

use call_reports::{Answer, Fault, FaultKind, Stop};
use cov_ast::Parsed;
use cov_expr::{Blob, MOST_BYTES};
use cov_io::{Fetched, Shelf, ShelfFault};
use cov_parse::parse;
use cov_text::ParseFault;
use std::alloc::Global;

/// The program that a file spells.
pub fn read_program<'w, S: Shelf>(
    alloc: Global,
    name: &'w str,
    shelf: &mut S,
) -> Result<Parsed, Stop<'w>>
    ensures read { HasRead (S.shelved shelf.old) (S.shelved shelf.new) (step.program name.now) (ended view.parsed result) }
    ensures ready { IfOk result (λ p. IsReady (view.parsed p)) }
{
    let bytes = fetch(alloc, name, MOST_BYTES, shelf)?;
    read_text(alloc, name, bytes.as_slice())
}

/// The program that a text spells, which has this name in reports.
pub fn read_text<'w>(alloc: Global, name: &'w str, bytes: &[u8]) -> Result<Parsed, Stop<'w>>
    requires { length bytes.now ≤ MOST_BYTES }
    ensures read { MatchResult result (λ p. SpellsProgram bytes.now (view.parsed p))
        (Stops (λ reply. (fault : Fault) × IsShownFault bytes.now fault × (reply ≡ malformed name.now fault))) }
    ensures ready { IfOk result (λ p. IsReady (view.parsed p)) }
{
    match parse_text(alloc, bytes) {
        Ok(parsed) => Ok(parsed),
        Err(fault) => Err(unread(name, fault)),
    }
}

/// The program that a text spells, or its first fault, as reports show it; where there is none, memory ran out.
pub fn parse_text(alloc: Global, bytes: &[u8]) -> Result<Parsed, Option<Fault>>
    requires { length bytes.now ≤ MOST_BYTES }
    ensures read { MatchResult result (λ p. SpellsProgram bytes.now (view.parsed p)) (λ fault. IfSome fault (IsShownFault bytes.now)) }
    ensures ready { IfOk result (λ p. IsReady (view.parsed p)) }
{
    match parse(alloc, bytes) {
        Ok(parsed) => Ok(parsed),
        Err(fault) => Err(text_fault(fault)),
    }
}

/// The bytes of a file.
pub fn fetch<'w, S: Shelf>(
    alloc: Global,
    name: &'w str,
    most: usize,
    shelf: &mut S,
) -> Result<Blob, Stop<'w>>
    ensures read { HasRead (S.shelved shelf.old) (S.shelved shelf.new) (step.bytes name.now most) (ended (λ bytes. bytes) result) }
    ensures within { IfOk result (λ bytes. length bytes ≤ most) }
{
    match shelf.fetch(alloc, name, most) {
        Ok(Fetched::Whole(bytes)) => Ok(bytes),
        Ok(Fetched::TooLong) => Err(Stop::Answer(Answer::TooLong(name))),
        Err(ShelfFault::Failed) => Err(Stop::Answer(Answer::ReadFault(name))),
        Err(ShelfFault::NoMemory) => Err(Stop::NoMemory),
    }
}

/// What is answered where a file, or a word, has a fault; where it has none, memory ran out.
pub fn unread<'w>(name: &'w str, fault: Option<Fault>) -> Stop<'w>
    ensures { Stops (λ reply. (found : Fault) × (fault ≡ Some found) × (reply ≡ malformed name.now found)) result }
{
    match fault {
        Some(fault) => Stop::Answer(Answer::Malformed(name, fault)),
        None => Stop::NoMemory,
    }
}

/// A fault of a text, as reports show it; want of memory is none.
pub fn text_fault(fault: ParseFault) -> Option<Fault>
    ensures { result ≡ shown fault }
{
    match fault {
        ParseFault::BadByte(at) => Some(Fault::Text(FaultKind::Byte, at)),
        ParseFault::NumberTooLarge(at) => Some(Fault::Text(FaultKind::Number, at)),
        ParseFault::NameTooLong(at) => Some(Fault::Text(FaultKind::Name, at)),
        ParseFault::Unexpected(at) => Some(Fault::Text(FaultKind::Token, at)),
        ParseFault::TooMany(_, at) => Some(Fault::Text(FaultKind::Limit, at)),
        ParseFault::TooDeep(at) => Some(Fault::Text(FaultKind::Depth, at)),
        ParseFault::NoMemory => None,
    }
}
