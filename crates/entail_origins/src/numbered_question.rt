//! What is asked by the place of a statement and the number of an entailment.

ghost use Rattle.std.specs.Prelude.{◌≡◌, ◌<◌, IfOk, length, ◌-◌};
ghost use Rattle.cov_ast.specs.View as view;
ghost use Rattle.cov_ast.specs.WellFormed.{IsWellFormed};
ghost use Rattle.entail_origins.specs.Questions as spec;

use crate::kinds::{Asked, Question};
use crate::question_statements::questions;
use cov_ast::Program;
use cov_expr::NoMemory;
use statement_paths::{hidden_after_steps, way_to};
use std::alloc::Global;

/// What the entailment with a number, counted from 1, asks, of those of the statement at a place of a thread: the byte offset of the
/// statement's first token. `None` comes where the thread has no such statement or the statement no such entailment.
///
/// It takes time in proportion to the text of the thread and to the classes, and for a lock that hides variables to both together.
pub fn question(
    alloc: Global,
    p: &Program,
    t: u32,
    place: u32,
    number: u32,
) -> Result<Option<Asked>, NoMemory>
    requires formed { IsWellFormed (view.program p.now) }
    requires thread { t < length p.now.threads }
    ensures { IfOk result (λ found. found ≡ spec.asked (view.program p.now) t place number) }
{
    let Some(way) = way_to(alloc, p.body_of(t), place)? else {
        return Ok(None);
    };
    let hidden = hidden_after_steps(alloc, p, t, way.steps.as_slice())?;
    let all = questions(alloc, p, &hidden, &way.stmt.kind)?;
    Ok(asked_among(all.as_slice(), number))
}

/// The question of a number, with how many there are.
fn asked_among(all: &[Question], number: u32) -> Option<Asked>
    ensures { result ≡ spec.asked_among all.now number }
{
    let question = all.get((number as usize).checked_sub(1)?)?;
    Some(Asked {
        question: *question,
        of: all.len(),
    })
}
