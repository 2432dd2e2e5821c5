//! The lines of variables of which nothing is known.

ghost use Rattle.std.specs.Prelude.{◌≡◌, ◌<◌, ◌++◌, OnOk, length, map};
ghost use Rattle.cov_expr.specs.View.{term};
ghost use Rattle.cov_ast.specs.Plain.{plain};
ghost use Rattle.cov_ast.specs.View as view;
ghost use Rattle.cov_ast.specs.WellFormed.{IsWellFormed};
ghost use Rattle.entail_losses.specs.UnknownLines as spec;
ghost use Rattle.entail_losses.specs.Unknowns as reasons;
ghost use Rattle.entail_origins.specs.LocksOver.{lock_over};
ghost use Rattle.statement_paths.specs.Paths as paths;

use crate::left_out_lines::add_origin_part;
use crate::left_out_states::StateAt;
use crate::state_words::add_kind;
use crate::unknown_reasons::{Fact, Loss, Reason, reason_of};
use crate::unknown_variables::unknown_variables;
use cov_ast::{NameTable, NumberSet, Program};
use cov_expr::{Blob, Expr, NoMemory};
use cov_print::add_expr;
use entail_origins::lock_over;
use statement_paths::Step;
use std::alloc::Global;
use text_parts::{add_lock_name, add_number, add_variable_name, position};

/// Adds a line for each of the first variables of a goal that no hypothesis mentions: why nothing is known of it behind these steps of a thread, where these variables are stable.
///
/// For each it takes time in proportion to the hypotheses, to the text, to the lists of the locks, and to the steps and what they spell, and for each step to the variables of the program.
pub fn add_unknown_lines<'p>(
    alloc: Global,
    p: &'p Program,
    t: u32,
    names: &NameTable,
    bytes: &[u8],
    stable: &NumberSet,
    steps: &[Step<'p>],
    hyps: &[Expr],
    goal: &Expr,
    text: &mut Blob,
) -> Result<(), NoMemory>
    requires formed { IsWellFormed (view.program p.now) }
    requires thread { t < length p.now.threads }
    ensures { OnOk result (text.new ≡ text.old ++ spec.unknown_lines (plain (view.program p.now)) t names.now bytes.now stable.now (map paths.step steps.now) (map term hyps.now) (term goal.now)) }
{
    let variables = unknown_variables(alloc, hyps, goal)?;
    add_lines(
        alloc,
        p,
        t,
        names,
        bytes,
        stable,
        steps,
        variables.as_slice(),
        text,
    )
}

/// Adds the line of each of some variables.
fn add_lines<'p>(
    alloc: Global,
    p: &'p Program,
    t: u32,
    names: &NameTable,
    bytes: &[u8],
    stable: &NumberSet,
    steps: &[Step<'p>],
    variables: &[u32],
    text: &mut Blob,
) -> Result<(), NoMemory>
    requires formed { IsWellFormed (view.program p.now) }
    requires thread { t < length p.now.threads }
    ensures { OnOk result (text.new ≡ text.old ++ spec.lines_of (plain (view.program p.now)) t names.now bytes.now stable.now (map paths.step steps.now) variables.now) }
{
    for x in variables {
        add_line(alloc, p, t, names, bytes, stable, steps, *x, text)?;
    }
    Ok(())
}

/// Adds the line of a variable.
fn add_line<'p>(
    alloc: Global,
    p: &'p Program,
    t: u32,
    names: &NameTable,
    bytes: &[u8],
    stable: &NumberSet,
    steps: &[Step<'p>],
    x: u32,
    text: &mut Blob,
) -> Result<(), NoMemory>
    requires formed { IsWellFormed (view.program p.now) }
    requires thread { t < length p.now.threads }
    ensures { OnOk result (text.new ≡ text.old ++ spec.unknown_line (plain (view.program p.now)) t names.now bytes.now stable.now (map paths.step steps.now) x) }
{
    if stable.has(x) {
        let reason = reason_of(alloc, p, t, x, steps)?;
        add_stable_line(alloc, p, names, bytes, x, reason, text)
    } else {
        add_label(p, x, text)?;
        add_shared(p, x, text)
    }
}

/// Adds what stands in front of the words on a variable.
fn add_label(p: &Program, x: u32, text: &mut Blob) -> Result<(), NoMemory>
    ensures { OnOk result (text.new ≡ text.old ++ spec.label (plain (view.program p.now)) x) }
{
    text.extend_from_slice(b"  about ")?;
    add_variable_name(p, x, text)?;
    text.extend_from_slice(b":  ")
}

/// Adds why a variable isn't stable.
fn add_shared(p: &Program, x: u32, text: &mut Blob) -> Result<(), NoMemory>
    ensures { OnOk result (text.new ≡ text.old ++ spec.shared_text (plain (view.program p.now)) x) }
{
    text.extend_from_slice(
        b"it isn't stable here, so that no predicate that mentions it is known: ",
    )?;
    match lock_over(x, p.locks.as_slice()) {
        Some(lock) => {
            text.extend_from_slice(b"the lock ")?;
            text.extend_from_slice(lock.name.text())?;
            text.extend_from_slice(b", that it is under, isn't held\n")
        }
        None => text.extend_from_slice(
            b"it is under no lock, and the thread doesn't assume that no other writes it\n",
        ),
    }
}

/// Adds the line of a variable that is stable, by what the steps tell of it.
fn add_stable_line(
    alloc: Global,
    p: &Program,
    names: &NameTable,
    bytes: &[u8],
    x: u32,
    reason: Reason<'_>,
    text: &mut Blob,
) -> Result<(), NoMemory>
    ensures { OnOk result (text.new ≡ text.old ++ spec.stable_line (plain (view.program p.now)) names.now bytes.now x (reasons.seen reason.entry)) }
{
    if let Reason::Known(_) = reason {
        return Ok(());
    }
    add_label(p, x, text)?;
    add_reason(alloc, p, names, bytes, reason, text)
}

/// Adds what the steps tell of a variable.
fn add_reason(
    alloc: Global,
    p: &Program,
    names: &NameTable,
    bytes: &[u8],
    reason: Reason<'_>,
    text: &mut Blob,
) -> Result<(), NoMemory>
    ensures { OnOk result (text.new ≡ text.old ++ spec.reason_text (plain (view.program p.now)) names.now bytes.now (reasons.seen reason.entry)) }
{
    match reason {
        Reason::Unmentioned => text.extend_from_slice(
            b"nothing on the way here from the start of the thread gives a predicate that mentions it\n",
        ),
        Reason::Own(at) => add_own(bytes, at, text),
        Reason::NoEquation(at, y) => add_no_equation(p, bytes, at, y, text),
        Reason::NoGuard(at, y) => {
            add_in_line(b"the guard in line ", bytes, at, text)?;
            text.extend_from_slice(b", which mentions it, gives no predicate: ")?;
            add_unstable(p, y, text)
        }
        Reason::Unlisted(state) => add_unlisted(bytes, state, text),
        Reason::Taken(at, l) => add_taken(p, bytes, at, l, text),
        Reason::Known(_) => Ok(()),
        Reason::Forgotten(fact, loss) => add_forgotten(alloc, p, names, bytes, fact, loss, text),
    }
}

/// Adds words and the line of a place.
fn add_in_line(front: &[u8], bytes: &[u8], at: u32, text: &mut Blob) -> Result<(), NoMemory>
    ensures { OnOk result (text.new ≡ text.old ++ spec.in_line front.now bytes.now at) }
{
    text.extend_from_slice(front)?;
    add_number(position(bytes, at as usize).line, text)
}

/// Adds that a store is of a value over the variable itself.
fn add_own(bytes: &[u8], at: u32, text: &mut Blob) -> Result<(), NoMemory>
    ensures { OnOk result (text.new ≡ text.old ++ spec.own_text bytes.now at) }
{
    add_in_line(b"the assignment in line ", bytes, at, text)?;
    text.extend_from_slice(
        b" gives it a value over itself, so that nothing that mentions it is known behind that; what is known of the new value can be kept by way of another variable: assign it to that, state what is known of that in a note, and assign that\n",
    )
}

/// Adds that an assignment gives no equation, since this variable isn't stable there.
fn add_no_equation(
    p: &Program,
    bytes: &[u8],
    at: u32,
    y: u32,
    text: &mut Blob,
) -> Result<(), NoMemory>
    ensures { OnOk result (text.new ≡ text.old ++ spec.no_equation_text (plain (view.program p.now)) bytes.now at y) }
{
    add_in_line(b"the assignment in line ", bytes, at, text)?;
    text.extend_from_slice(b" gives no equation: ")?;
    add_unstable(p, y, text)
}

/// Adds that another variable isn't stable at a place.
fn add_unstable(p: &Program, y: u32, text: &mut Blob) -> Result<(), NoMemory>
    ensures { OnOk result (text.new ≡ text.old ++ spec.unstable_text (plain (view.program p.now)) y) }
{
    add_variable_name(p, y, text)?;
    text.extend_from_slice(b" isn't stable there\n")
}

/// Adds that a state lists nothing of it.
fn add_unlisted(bytes: &[u8], state: StateAt, text: &mut Blob) -> Result<(), NoMemory>
    ensures { OnOk result (text.new ≡ text.old ++ spec.unlisted_text bytes.now state) }
{
    text.extend_from_slice(b"no predicate in the ")?;
    add_kind(state.kind, text)?;
    add_in_line(b", line ", bytes, state.at, text)?;
    text.extend_from_slice(b", mentions it, and only what is listed there is kept\n")
}

/// Adds that a lock that was taken says nothing of it.
fn add_taken(p: &Program, bytes: &[u8], at: u32, l: u32, text: &mut Blob) -> Result<(), NoMemory>
    ensures { OnOk result (text.new ≡ text.old ++ spec.taken_text (plain (view.program p.now)) bytes.now at l) }
{
    text.extend_from_slice(b"the lock ")?;
    add_lock_name(p, l, text)?;
    add_in_line(b", taken in line ", bytes, at, text)?;
    text.extend_from_slice(
        b", has no invariant that mentions it, and nothing since gives a predicate that does\n",
    )
}

/// Adds which predicate was known, and what forgot it.
fn add_forgotten(
    alloc: Global,
    p: &Program,
    names: &NameTable,
    bytes: &[u8],
    fact: Fact<'_>,
    loss: Loss,
    text: &mut Blob,
) -> Result<(), NoMemory>
    ensures { OnOk result (text.new ≡ text.old ++ spec.forgotten_text (plain (view.program p.now)) names.now bytes.now (reasons.fact fact.entry) loss) }
{
    let e = fact.term.made(alloc)?;
    add_expr(names, false, &e, text)?;
    add_origin_part(p, bytes, fact.origin, text)?;
    text.extend_from_slice(b" is forgotten: ")?;
    match loss {
        Loss::Stored(at, x) => {
            add_variable_name(p, x, text)?;
            add_in_line(b" is stored to, line ", bytes, at, text)?;
            text.extend_from_slice(b"\n")
        }
        Loss::Returned(at, l) => add_returned(p, bytes, at, l, text),
    }
}

/// Adds that a lock is given back.
fn add_returned(p: &Program, bytes: &[u8], at: u32, l: u32, text: &mut Blob) -> Result<(), NoMemory>
    ensures { OnOk result (text.new ≡ text.old ++ spec.returned_text (plain (view.program p.now)) bytes.now at l) }
{
    text.extend_from_slice(b"the lock ")?;
    add_lock_name(p, l, text)?;
    add_in_line(b" is given back, line ", bytes, at, text)?;
    text.extend_from_slice(b"\n")
}
