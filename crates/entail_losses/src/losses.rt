//! What is told of what was lost on the way to the point of an entailment.

ghost use Rattle.std.specs.Prelude.{◌≡◌, ◌<◌, ◌++◌, ℕ, List, [], IfOk, OnOk, if◌then◌else◌, length, map};
ghost use Rattle.cov_expr.specs.View.{term};
ghost use Rattle.cov_ast.specs.Plain.{plain};
ghost use Rattle.cov_ast.specs.View as view;
ghost use Rattle.cov_ast.specs.WellFormed.{IsWellFormed};
ghost use Rattle.entail_losses.specs.Forgotten as forgotten;
ghost use Rattle.entail_losses.specs.LeftOut as left;
ghost use Rattle.entail_losses.specs.Losses as spec;
ghost use Rattle.statement_paths.specs.Paths as paths;

use crate::forgotten_found::ForgottenPart;
use crate::forgotten_lines::{add_forgotten_line, add_forgotten_lines};
use crate::forgotten_search::forgotten_parts;
use crate::joined_found::add_joined;
use crate::left_out_found::LeftOut;
use crate::left_out_lines::{add_left_out_line, add_left_out_lines};
use crate::left_out_search::left_out;
use crate::unknown_lines::add_unknown_lines;
use cov_ast::{NameTable, Program};
use cov_expr::{Blob, Expr, List, NoMemory, copy};
use entail_text::{is_hopeless, would_help};
use statement_paths::{Step, stable_after_steps};
use std::alloc::Global;
use text_parts::variable_names;

/// Adds what is told of the predicates that were lost on the way to the point of which an entailment of a thread asks, behind these steps: a line for each of which one alone would help;
/// where there are none, and where no memory is found that breaks the entailment even with all of them, a line for each: the predicate, what gives it, and
/// the state that leaves it out, or the store that forgets it. Then a line for each of the first variables of the goal that no hypothesis mentions: why nothing is known of it. `bytes` are the text of the program.
///
/// It takes time in proportion to the steps and what they spell, times the hypotheses, and to the text, and for each loss, of which there are 24 at most, the
/// time of a search for a certificate, and that of one search for a memory.
pub fn add_losses<'p>(
    alloc: Global,
    p: &'p Program,
    t: u32,
    bytes: &[u8],
    steps: &[Step<'p>],
    e: Unshown<'_>,
    text: &mut Blob,
) -> Result<(), NoMemory>
    requires formed { IsWellFormed (view.program p.now) }
    requires thread { t < length p.now.threads }
    ensures { OnOk result (text.new ≡ text.old ++ spec.losses (view.program p.now) t bytes.now (map paths.step steps.now) (map term e.entry.known.now) (map term e.entry.hyps.now) (term e.entry.goal.now)) }
{
    let stable = stable_after_steps(alloc, p, t, steps)?;
    let names = variable_names(alloc, p)?;
    let mut found = left_out(alloc, p, e.hyps, &stable, steps)?;
    add_joined(alloc, p, e.hyps, &stable, steps, &mut found)?;
    let parts = forgotten_parts(alloc, p, e.hyps, found.as_slice(), &stable, steps)?;
    let lost = Lost {
        found: found.as_slice(),
        parts: parts.as_slice(),
    };
    add_lost(alloc, p, &names, bytes, e, lost, text)?;
    add_unknown_lines(
        alloc, p, t, &names, bytes, &stable, steps, e.hyps, e.goal, text,
    )
}

/// An entailment that isn't shown.
#[derive(Clone, Copy)]
pub struct Unshown<'a> {
    /// Its hypotheses.
    pub hyps: &'a [Expr],
    /// Those of them that are known: all but the one that is asked with the goal, where there is such a one.
    pub known: &'a [Expr],
    /// Its goal.
    pub goal: &'a Expr,
}

/// What was lost: predicates that states left out, and parts that stores forgot.
#[derive(Clone, Copy)]
struct Lost<'a> {
    found: &'a [LeftOut],
    parts: &'a [ForgottenPart],
}

/// Adds the lines of those of which one alone would help, or else those of all.
fn add_lost(
    alloc: Global,
    p: &Program,
    names: &NameTable,
    bytes: &[u8],
    e: Unshown<'_>,
    lost: Lost<'_>,
    text: &mut Blob,
) -> Result<(), NoMemory>
    ensures { OnOk result (text.new ≡ text.old ++ spec.lost_lines (plain (view.program p.now)) names.now bytes.now (map term e.entry.known.now) (map term e.entry.hyps.now) (term e.entry.goal.now) (map left.seen lost.entry.found.now) (map forgotten.seen lost.entry.parts.now)) }
{
    let before = text.len();
    add_helping(alloc, p, names, bytes, e, lost, text)?;
    if text.len() == before {
        add_unless_hopeless(alloc, p, names, bytes, e, lost, text)
    } else {
        Ok(())
    }
}

/// Adds a line for each of which one alone would help.
fn add_helping(
    alloc: Global,
    p: &Program,
    names: &NameTable,
    bytes: &[u8],
    e: Unshown<'_>,
    lost: Lost<'_>,
    text: &mut Blob,
) -> Result<(), NoMemory>
    ensures { OnOk result (text.new ≡ text.old ++ spec.helping (plain (view.program p.now)) names.now bytes.now (map term e.entry.known.now) (map term e.entry.hyps.now) (term e.entry.goal.now) (map left.seen lost.entry.found.now) (map forgotten.seen lost.entry.parts.now)) }
{
    add_helping_left_out(alloc, p, names, bytes, e, lost.found, text)?;
    add_helping_forgotten(alloc, p, names, bytes, e, lost.parts, text)
}

/// The same of predicates that states left out.
fn add_helping_left_out(
    alloc: Global,
    p: &Program,
    names: &NameTable,
    bytes: &[u8],
    e: Unshown<'_>,
    found: &[LeftOut],
    text: &mut Blob,
) -> Result<(), NoMemory>
    ensures { OnOk result (text.new ≡ text.old ++ spec.helping_left_out (plain (view.program p.now)) names.now bytes.now (map term e.entry.known.now) (map term e.entry.hyps.now) (term e.entry.goal.now) (map left.seen found.now)) }
{
    for one in found {
        add_if_left_out_helps(alloc, p, names, bytes, e, one, text)?;
    }
    Ok(())
}

/// The same of one of them.
fn add_if_left_out_helps(
    alloc: Global,
    p: &Program,
    names: &NameTable,
    bytes: &[u8],
    e: Unshown<'_>,
    one: &LeftOut,
    text: &mut Blob,
) -> Result<(), NoMemory>
    ensures { OnOk result (text.new ≡ text.old ++ spec.helping_left_out_line (plain (view.program p.now)) names.now bytes.now (map term e.entry.known.now) (map term e.entry.hyps.now) (term e.entry.goal.now) (left.seen one.now)) }
{
    if helps(alloc, e, &one.term)? {
        add_left_out_line(p, names, bytes, true, one, text)
    } else {
        Ok(())
    }
}

/// The same of parts that stores forgot.
fn add_helping_forgotten(
    alloc: Global,
    p: &Program,
    names: &NameTable,
    bytes: &[u8],
    e: Unshown<'_>,
    parts: &[ForgottenPart],
    text: &mut Blob,
) -> Result<(), NoMemory>
    ensures { OnOk result (text.new ≡ text.old ++ spec.helping_forgotten (plain (view.program p.now)) names.now bytes.now (map term e.entry.known.now) (map term e.entry.hyps.now) (term e.entry.goal.now) (map forgotten.seen parts.now)) }
{
    for one in parts {
        add_if_forgotten_helps(alloc, p, names, bytes, e, one, text)?;
    }
    Ok(())
}

/// The same of one of them.
fn add_if_forgotten_helps(
    alloc: Global,
    p: &Program,
    names: &NameTable,
    bytes: &[u8],
    e: Unshown<'_>,
    one: &ForgottenPart,
    text: &mut Blob,
) -> Result<(), NoMemory>
    ensures { OnOk result (text.new ≡ text.old ++ spec.helping_forgotten_line (plain (view.program p.now)) names.now bytes.now (map term e.entry.known.now) (map term e.entry.hyps.now) (term e.entry.goal.now) (forgotten.seen one.now)) }
{
    if helps(alloc, e, &one.part)? {
        add_forgotten_line(p, names, bytes, true, one, text)
    } else {
        Ok(())
    }
}

/// Whether a predicate alone would help, and isn't contrary to what is known: such a one would help only as it can't be.
fn helps(alloc: Global, e: Unshown<'_>, more: &Expr) -> Result<bool, NoMemory>
    ensures { IfOk result (λ helps. helps ≡ spec.helps (map term e.entry.known.now) (map term e.entry.hyps.now) (term e.entry.goal.now) (term more.now)) }
{
    if would_help(alloc, e.hyps, e.goal, more)? {
        let is_contrary = would_help(alloc, e.known, &Expr::Const(0), more)?;
        Ok(!is_contrary)
    } else {
        Ok(false)
    }
}

/// Adds a line for each, unless a memory breaks the entailment with all of them.
fn add_unless_hopeless(
    alloc: Global,
    p: &Program,
    names: &NameTable,
    bytes: &[u8],
    e: Unshown<'_>,
    lost: Lost<'_>,
    text: &mut Blob,
) -> Result<(), NoMemory>
    ensures { OnOk result (text.new ≡ text.old ++ spec.unless_hopeless (map term e.entry.hyps.now) (term e.entry.goal.now) (spec.lost_terms (map left.seen lost.entry.found.now) (map forgotten.seen lost.entry.parts.now)) (spec.all_lines (plain (view.program p.now)) names.now bytes.now (map left.seen lost.entry.found.now) (map forgotten.seen lost.entry.parts.now))) }
{
    let mut more = List::new(alloc);
    let found = lost.found;
    for one in found {
        let e = copy(alloc, &one.term)?;
        more.push(e)?;
    }
    add_parts(alloc, lost.parts, &mut more)?;
    if is_without_use(alloc, e.hyps, e.goal, more.as_slice())? {
        Ok(())
    } else {
        add_left_out_lines(p, names, bytes, lost.found, text)?;
        add_forgotten_lines(p, names, bytes, lost.parts, text)
    }
}

/// Whether there are no predicates more, or a memory breaks the entailment with all of them.
fn is_without_use(
    alloc: Global,
    hyps: &[Expr],
    goal: &Expr,
    more: &[Expr],
) -> Result<bool, NoMemory>
    ensures { IfOk result (λ none. (lines : List ℕ) → spec.unless_hopeless (map term hyps.now) (term goal.now) (map term more.now) lines ≡ (if none then [] else lines)) }
{
    if more.is_empty() {
        Ok(true)
    } else {
        is_hopeless(alloc, hyps, goal, more)
    }
}

/// Adds the parts that stores forgot.
fn add_parts(alloc: Global, parts: &[ForgottenPart], made: &mut List<Expr>) -> Result<(), NoMemory>
    ensures { OnOk result (map term made.new ≡ map term made.old ++ map (λ f. f.part) (map forgotten.seen parts.now)) }
{
    for one in parts {
        let e = copy(alloc, &one.part)?;
        made.push(e)?;
    }
    Ok(())
}
