//! A few words on each hypothesis.

ghost use Rattle.std.specs.Prelude.{◌≡◌, ◌++◌, IfOk, OnOk, map};
ghost use Rattle.cov_expr.specs.View.{term};
ghost use Rattle.cov_ast.specs.Plain.{plain};
ghost use Rattle.cov_ast.specs.View as view;
ghost use Rattle.statement_paths.specs.Paths as paths;
ghost use Rattle.entail_origins.specs.Remarks as spec;

use crate::hypothesis_origin::{HypothesisSource, Origin, origin_of};
use cov_ast::Program;
use cov_expr::{Blob, Expr, List, NoMemory};
use statement_paths::Step;
use std::alloc::Global;
use text_parts::{add_lock_name, add_number, position};

/// A remark on each hypothesis of an entailment behind steps, in their order: its origin, with the line where that stands in the
/// text of the program, or nothing where it has none. Where the last hypothesis is asked together with the goal, its remark
/// says that alone.
///
/// `bytes` are the text of the program. It takes time in proportion to the hypotheses times the steps and the text.
pub fn remarks(
    alloc: Global,
    p: &Program,
    bytes: &[u8],
    steps: &[Step<'_>],
    hypotheses: &[Expr],
    asked_with_goal: bool,
) -> Result<List<Blob>, NoMemory>
    ensures { IfOk result (λ made. made ≡ spec.remarks (plain (view.program p.now)) bytes.now (map paths.step steps.now) asked_with_goal (map term hypotheses.now)) }
{
    let mut made = List::new(alloc);
    let count = hypotheses.len();
    for (i, h) in hypotheses.iter().enumerate() {
        let asked = asked_with_goal && i + 1 == count;
        made.push(remark(alloc, p, bytes, steps, h, asked)?)?;
    }
    Ok(made)
}

/// The remark on a hypothesis behind steps, which may be asked together with the goal.
fn remark(
    alloc: Global,
    p: &Program,
    bytes: &[u8],
    steps: &[Step<'_>],
    hypothesis: &Expr,
    asked: bool,
) -> Result<Blob, NoMemory>
    ensures { IfOk result (λ made. made ≡ spec.remark (plain (view.program p.now)) bytes.now (map paths.step steps.now) asked (term hypothesis.now)) }
{
    let mut text = List::new(alloc);
    if asked {
        text.extend_from_slice(b"asked with the goal")?;
    } else {
        let origin = origin_of(alloc, p, steps, hypothesis)?;
        add_any_origin(p, bytes, origin, &mut text)?;
    }
    Ok(text)
}

/// Adds the words on an origin, if there is one.
pub fn add_any_origin(
    p: &Program,
    bytes: &[u8],
    origin: Option<Origin>,
    text: &mut Blob,
) -> Result<(), NoMemory>
    ensures { OnOk result (text.new ≡ text.old ++ spec.origin_remark (plain (view.program p.now)) bytes.now origin) }
{
    match origin {
        Some(origin) => add_origin(p, bytes, origin, text),
        None => Ok(()),
    }
}

/// Adds what an origin is, and the line of it in the text of the program, which is `bytes`.
pub fn add_origin(
    p: &Program,
    bytes: &[u8],
    origin: Origin,
    text: &mut Blob,
) -> Result<(), NoMemory>
    ensures { OnOk result (text.new ≡ text.old ++ spec.origin_text (plain (view.program p.now)) bytes.now origin) }
{
    add_source(p, origin.source, text)?;
    text.extend_from_slice(b", line ")?;
    add_number(position(bytes, origin.at as usize).line, text)
}

/// Adds what gives a hypothesis.
fn add_source(p: &Program, source: HypothesisSource, text: &mut Blob) -> Result<(), NoMemory>
    ensures { OnOk result (text.new ≡ text.old ++ spec.source_text (plain (view.program p.now)) source) }
{
    match source {
        HypothesisSource::Assigned => text.extend_from_slice(b"assignment"),
        HypothesisSource::Invariant(l) => add_invariant_of(p, l, text),
        HypothesisSource::Join => text.extend_from_slice(b"join of the `if`"),
        HypothesisSource::LoopState => text.extend_from_slice(b"inv of the `while`"),
        HypothesisSource::Noted => text.extend_from_slice(b"note"),
        HypothesisSource::LoopLeft | HypothesisSource::GuardHolds | HypothesisSource::GuardFails =>
            { text.extend_from_slice(b"guard") }
    }
}

/// Adds that it is the invariant of a lock.
fn add_invariant_of(p: &Program, l: u32, text: &mut Blob) -> Result<(), NoMemory>
    ensures { OnOk result (text.new ≡ text.old ++ spec.invariant_of (plain (view.program p.now)) l) }
{
    text.extend_from_slice(b"invariant of ")?;
    add_lock_name(p, l, text)
}
