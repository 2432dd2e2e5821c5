//! What was asked where a refusal is by V9, and what is told behind one by V9 or V13 of the other entailments for which its thread, and those behind it, would be refused, and of the first refusal of each by a rule that isn't about certificates.

ghost use Rattle.std.specs.Prelude.{◌≡◌, ◌++◌, OnOk, flat_map, take};
ghost use Rattle.cov_ast.specs.View as view;
ghost use Rattle.cov_ast.specs.WellFormed.{IsWellFormed};
ghost use Rattle.explain.specs.OtherTellings as spec;

use crate::explanation::{add_explanation, add_report, add_where};
use call_judge::check::thread_name;
use call_reports::Answer;
use cov_ast::{Program, Refusal, Rule};
use cov_expr::{Blob, NoMemory};
use entail_refused::{Found, add_asked, sort_refusals};
use refusal_names::add_names;
use std::alloc::Global;
use text_parts::{add_line_of, add_number};

/// For how many others a certificate is sought. The search of each takes some time.
const MOST_SOUGHT: usize = 32;

/// Of how many for which none is found it is told as of the first.
const MOST_TOLD: usize = 8;

/// Adds what was asked, and what is told of others beside the refusal: of those that are looked at, and how many there are besides.
pub fn add_some(
    alloc: Global,
    name: &str,
    bytes: &[u8],
    refusal: &Refusal,
    others: &[Refusal],
    program: &Program,
    text: &mut Blob,
) -> Result<(), NoMemory>
    requires { IsWellFormed (view.program program.now) }
    ensures { OnOk result (text.new ≡ text.old ++ spec.lines_of name.now bytes.now (view.program program.now) refusal.now others.now) }
{
    add_sought(
        alloc,
        name,
        bytes,
        refusal,
        first(others, MOST_SOUGHT),
        program,
        text,
    )?;
    add_unsought(others.len().saturating_sub(MOST_SOUGHT), text)
}

/// The first of some refusals, so many at the most.
fn first(all: &[Refusal], most: usize) -> &[Refusal]
    ensures { result.now ≡ take most all.now }
{
    if all.len() <= most { all } else { &all[..most] }
}

/// Adds where to look first, what was asked, and what is told of those that are looked at beside the refusal: of those for which no certificate is found, and then in short of the others.
#[tactic(auto, unfolding(crate::specs::OtherTellings::sought_lines))]
fn add_sought(
    alloc: Global,
    name: &str,
    bytes: &[u8],
    refusal: &Refusal,
    sought: &[Refusal],
    program: &Program,
    text: &mut Blob,
) -> Result<(), NoMemory>
    requires { IsWellFormed (view.program program.now) }
    ensures { OnOk result (text.new ≡ text.old ++ spec.sought_lines name.now bytes.now (view.program program.now) refusal.now sought.now) }
{
    let parts = sort_refusals(alloc, program, sought)?;
    add_look(alloc, bytes, refusal, parts.open.as_slice(), program, text)?;
    add_asked(alloc, program, bytes, refusal, text)?;
    add_open(alloc, name, bytes, parts.open.as_slice(), program, text)?;
    add_suggested(alloc, name, bytes, parts.found.as_slice(), program, text)
}

/// Adds where to look first, where nothing is wanted of a refusal but a certificate, or the number of one is wrong: at the first of those for which none is found.
#[tactic(auto, unfolding(crate::specs::OtherTellings::look_unless_open))]
fn add_look(
    alloc: Global,
    bytes: &[u8],
    refusal: &Refusal,
    open: &[Refusal],
    program: &Program,
    text: &mut Blob,
) -> Result<(), NoMemory>
    requires { IsWellFormed (view.program program.now) }
    ensures { OnOk result (text.new ≡ text.old ++ spec.look_line bytes.now (view.program program.now) refusal.now open.now) }
{
    match open {
        [] => Ok(()),
        [next, ..] => {
            let is_own = is_of_thread(next.thread, refusal.thread);
            if is_of_numbers(refusal.rule) {
                return if is_own {
                    add_look_text(bytes, is_own, refusal.place, next.place, text)
                } else {
                    Ok(())
                };
            }
            let one = [*refusal];
            let parts = sort_refusals(alloc, program, &one)?;
            if parts.found.is_empty() {
                Ok(())
            } else {
                add_look_text(bytes, is_own, refusal.place, next.place, text)
            }
        }
    }
}

/// Whether two refusals are of one thread.
fn is_of_thread(t: Option<u32>, u: Option<u32>) -> bool
    ensures { result ≡ spec.is_of_thread t u }
{
    match (t, u) {
        (Some(t), Some(u)) => t == u,
        (None, _) | (Some(_), None) => false,
    }
}

/// Whether a rule is about the numbers of certificates.
fn is_of_numbers(rule: Rule) -> bool
    ensures { result ≡ spec.is_of_numbers rule }
{
    matches!(rule, Rule::V13)
}

/// Adds another place to look at first, with whether it is of the same thread.
fn add_look_text(
    bytes: &[u8],
    is_own: bool,
    own: u32,
    place: u32,
    text: &mut Blob,
) -> Result<(), NoMemory>
    ensures { OnOk result (text.new ≡ text.old ++ spec.look_text bytes.now is_own own place) }
{
    text.extend_from_slice(b"  look first at ")?;
    add_other_place(bytes, own, place, text)?;
    add_look_end(is_own, text)
}

/// Adds why that place is to be looked at first.
fn add_look_end(is_own: bool, text: &mut Blob) -> Result<(), NoMemory>
    ensures { OnOk result (text.new ≡ text.old ++ spec.look_end is_own) }
{
    if is_own {
        text.extend_from_slice(
            b", for which no certificate is found: what is mended there may move the numbers of this one\n",
        )
    } else {
        text.extend_from_slice(b", in another thread, for which no certificate is found\n")
    }
}

/// Adds the line of a place, or that it is that of the same statement.
fn add_other_place(bytes: &[u8], own: u32, place: u32, text: &mut Blob) -> Result<(), NoMemory>
    ensures { OnOk result (text.new ≡ text.old ++ spec.other_place bytes.now own place) }
{
    if own == place {
        text.extend_from_slice(b"the next refusal of this statement")
    } else {
        text.extend_from_slice(b"line ")?;
        add_line_of(bytes, place, text)
    }
}

/// Adds what is told of refusals for which a certificate is found, if there are any.
#[tactic(auto, unfolding(crate::specs::OtherTellings::suggested_lines))]
fn add_suggested(
    alloc: Global,
    name: &str,
    bytes: &[u8],
    found: &[Found],
    program: &Program,
    text: &mut Blob,
) -> Result<(), NoMemory>
    ensures { OnOk result (text.new ≡ text.old ++ spec.suggested_lines name.now bytes.now (view.program program.now) found.now) }
{
    if found.is_empty() {
        return Ok(());
    }
    text.extend_from_slice(
        b"a certificate is found for each of these, and goes into the `by` of its statement, in the place of one that it gives for this number; `suggest` writes such into the program\n",
    )?;
    add_briefly(alloc, name, bytes, found, program, text)
}

/// Adds what is told of each in short.
fn add_briefly(
    alloc: Global,
    name: &str,
    bytes: &[u8],
    found: &[Found],
    program: &Program,
    text: &mut Blob,
) -> Result<(), NoMemory>
    ensures { OnOk result (text.new ≡ text.old ++ flat_map (spec.brief_text name.now bytes.now (view.program program.now)) found.now) }
{
    for one in found {
        add_brief(alloc, name, bytes, one, program, text)?;
    }
    Ok(())
}

/// Adds what is told of one in short: where it is, the report of `check`, and the certificate that is found.
fn add_brief(
    alloc: Global,
    name: &str,
    bytes: &[u8],
    found: &Found,
    program: &Program,
    text: &mut Blob,
) -> Result<(), NoMemory>
    ensures { OnOk result (text.new ≡ text.old ++ spec.brief_text name.now bytes.now (view.program program.now) found.now) }
{
    let thread = thread_name(program.threads.as_slice(), found.refusal.thread);
    add_where(name, bytes, found.refusal.place as usize, text)?;
    add_report(alloc, Answer::Refused(found.refusal, thread), text)?;
    text.extend_from_slice(b"  suggestion:   ")?;
    text.extend_from_slice(found.entry.as_slice())?;
    text.extend_from_slice(b"\n")
}

/// Adds what is told of the first of refusals for which no certificate is found, and how many there are besides.
#[tactic(auto, unfolding(crate::specs::OtherTellings::open_lines))]
fn add_open(
    alloc: Global,
    name: &str,
    bytes: &[u8],
    left: &[Refusal],
    program: &Program,
    text: &mut Blob,
) -> Result<(), NoMemory>
    requires { IsWellFormed (view.program program.now) }
    ensures { OnOk result (text.new ≡ text.old ++ spec.open_lines name.now bytes.now (view.program program.now) left.now) }
{
    add_each(alloc, name, bytes, first(left, MOST_TOLD), program, text)?;
    add_left(left.len().saturating_sub(MOST_TOLD), text)
}

/// Adds what is told of each of some refusals.
fn add_each(
    alloc: Global,
    name: &str,
    bytes: &[u8],
    others: &[Refusal],
    program: &Program,
    text: &mut Blob,
) -> Result<(), NoMemory>
    requires { IsWellFormed (view.program program.now) }
    ensures { OnOk result (text.new ≡ text.old ++ flat_map (spec.refusal_text name.now bytes.now (view.program program.now)) others.now) }
{
    for refusal in others {
        add_refusal(alloc, name, bytes, refusal, program, text)?;
    }
    Ok(())
}

/// Adds what is told of a refusal: the explanation, and what it is about.
fn add_refusal(
    alloc: Global,
    name: &str,
    bytes: &[u8],
    refusal: &Refusal,
    program: &Program,
    text: &mut Blob,
) -> Result<(), NoMemory>
    requires { IsWellFormed (view.program program.now) }
    ensures { OnOk result (text.new ≡ text.old ++ spec.refusal_text name.now bytes.now (view.program program.now) refusal.now) }
{
    let thread = thread_name(program.threads.as_slice(), refusal.thread);
    add_explanation(alloc, name, bytes, Answer::Refused(*refusal, thread), text)?;
    add_names(alloc, program, bytes, refusal, text)?;
    add_asked(alloc, program, bytes, refusal, text)
}

/// Adds how many more there are for which no certificate is found, if there are any.
fn add_left(count: usize, text: &mut Blob) -> Result<(), NoMemory>
    ensures { OnOk result (text.new ≡ text.old ++ spec.left_line count) }
{
    if count == 0 {
        return Ok(());
    }
    text.extend_from_slice(b"and as many more refusals: ")?;
    add_number(count, text)?;
    text.extend_from_slice(b"\n")
}

/// Adds how many more there are that weren't looked at, if there are any.
fn add_unsought(count: usize, text: &mut Blob) -> Result<(), NoMemory>
    ensures { OnOk result (text.new ≡ text.old ++ spec.unsought_line count) }
{
    if count == 0 {
        return Ok(());
    }
    text.extend_from_slice(b"and as many more that weren't looked at: ")?;
    add_number(count, text)?;
    text.extend_from_slice(b"\n")
}
