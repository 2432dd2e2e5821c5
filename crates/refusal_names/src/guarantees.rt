//! The line of W9: the thread that lacks a guarantee.

ghost use Rattle.std.specs.Prelude.{◌≡◌, ◌++◌, OnOk, map, option_map};
ghost use Rattle.std.specs.Str.{bytes_eq};
ghost use Rattle.cov_ast.specs.View as view;
ghost use Rattle.cov_ast.specs.WellFormed.{IsWellFormed};
ghost use Rattle.refusal_names.specs.MissingGuarantees as spec;

use crate::reads::add_variable;
use cov_ast::{Modes, NameTable, Program, ThreadDecl};
use cov_expr::{Blob, Name, NoMemory, has_number};
use std::alloc::Global;
use text_parts::{add_line_of, variable_names};

/// Adds where the thread stands that doesn't guarantee what another assumes of a variable, and which guarantee it lacks, by their names.
pub fn add_guarantee(
    alloc: Global,
    p: &Program,
    bytes: &[u8],
    assuming: Name,
    other: Name,
    variable: Name,
    text: &mut Blob,
) -> Result<(), NoMemory>
    requires { IsWellFormed (view.program p.now) }
    ensures { OnOk result (text.new ≡ text.old ++ spec.guarantee_line (view.program p.now) bytes.now assuming other variable) }
{
    if assuming == other {
        return Ok(());
    }
    let names = variable_names(alloc, p)?;
    let threads = p.threads.as_slice();
    let (t, u) = (
        thread_named(threads, assuming),
        thread_named(threads, other),
    );
    match names.find(variable) {
        Some(x) => {
            match t {
                Some(t) => match u {
                    Some(u) => add_missing(
                        &names,
                        bytes,
                        u,
                        missing(&t.modes, &u.modes, x),
                        x,
                        text,
                    ),
                    None => Ok(()),
                },
                None => Ok(()),
            }
        }
        None => Ok(()),
    }
}

/// The first thread of a name.
fn thread_named(threads: &[ThreadDecl], wanted: Name) -> Option<&ThreadDecl>
    ensures { option_map (λ t. view.thread t.now) result ≡ spec.thread_named wanted (map view.thread threads.now) }
{
    for t in threads {
        if is_named(t, wanted) {
            return Some(t);
        }
    }
    None
}

/// Whether a thread has a name.
fn is_named(t: &ThreadDecl, wanted: Name) -> bool
    ensures { result ≡ bytes_eq (view.thread t.now).name wanted }
{
    t.name == wanted
}

/// Adds where a thread stands and which guarantee it lacks, if it lacks one.
fn add_missing(
    names: &NameTable,
    bytes: &[u8],
    u: &ThreadDecl,
    word: Option<&[u8]>,
    x: u32,
    text: &mut Blob,
) -> Result<(), NoMemory>
    ensures { OnOk result (text.new ≡ text.old ++ spec.missing_text names.now bytes.now (view.thread u.now) (option_map (λ w. w.now) word.entry) x) }
{
    match word {
        Some(word) => {
            add_stands(bytes, u, text)?;
            text.extend_from_slice(b" and needs `guarantee ")?;
            text.extend_from_slice(word)?;
            text.extend_from_slice(b" ")?;
            add_variable(names, x, text)?;
            text.extend_from_slice(b"`\n")
        }
        None => Ok(()),
    }
}

/// The guarantee that the other lacks for what is assumed of a variable, if it lacks one.
fn missing(assuming: &Modes, other: &Modes, x: u32) -> Option<&'static [u8]>
    ensures { option_map (λ w. w.now) result ≡ spec.missing (view.modes assuming.now) (view.modes other.now) x }
{
    let hides = has_number(assuming.assume_hide.as_slice(), x);
    let assumed = has_number(assuming.assume_nowrite.as_slice(), x) || hides;
    if assumed && !is_met(hides, other, x) {
        Some(guarantee_word(hides))
    } else {
        None
    }
}

/// Whether the other guarantees what is assumed of a variable.
fn is_met(assumes_hide: bool, other: &Modes, x: u32) -> bool
    ensures { result ≡ spec.is_met assumes_hide (view.modes other.now) x }
{
    let hides = has_number(other.guarantee_hide.as_slice(), x);
    if assumes_hide {
        hides
    } else {
        has_number(other.guarantee_nowrite.as_slice(), x) || hides
    }
}

/// The guarantee that meets what is assumed of a variable.
fn guarantee_word(assumes_hide: bool) -> &'static [u8]
    ensures { result.now ≡ spec.guarantee_word assumes_hide }
{
    if assumes_hide { b"hide" } else { b"nowrite" }
}

/// Adds where a thread stands.
fn add_stands(bytes: &[u8], t: &ThreadDecl, text: &mut Blob) -> Result<(), NoMemory>
    ensures { OnOk result (text.new ≡ text.old ++ spec.stands_text bytes.now (view.thread t.now)) }
{
    text.extend_from_slice(b"  thread ")?;
    text.extend_from_slice(t.name.text())?;
    text.extend_from_slice(b" stands in line ")?;
    add_line_of(bytes, t.at, text)
}
