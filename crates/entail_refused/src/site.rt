//! Where an entailment is asked.

ghost use Rattle.std.specs.Prelude.{◌≡◌, ◌<◌, ◌++◌, IfOk, OnOk, length, map, option_map};
ghost use Rattle.cov_ast.specs.View as view;
ghost use Rattle.cov_ast.specs.WellFormed.{IsWellFormed};
ghost use Rattle.statement_paths.specs.Paths as paths;
ghost use Rattle.entail_refused.specs.Sites as spec;

use cov_ast::{Program, StmtKind};
use cov_expr::{List, NoMemory};
use entail_origins::{End, Question, question};
use statement_paths::{
    Step, Way, add_to_body_end, add_to_first_end, add_to_head, add_to_second_end, way_to,
};
use std::alloc::Global;

/// Where an entailment is asked: the steps from the start of the thread to the point of which is asked, what is asked, and the statement.
#[derive(Drop)]
pub struct Site<'p> {
    pub steps: List<Step<'p>>,
    pub question: Question,
    pub kind: &'p StmtKind,
}

/// Where the entailment with a number is asked, of those of the statement at a place of a thread. `None` comes where the thread has no
/// such statement or the statement no such entailment.
pub fn site_of<'p>(
    alloc: Global,
    p: &'p Program,
    t: u32,
    place: u32,
    number: u32,
) -> Result<Option<Site<'p>>, NoMemory>
    requires formed { IsWellFormed (view.program p.now) }
    requires thread { t < length p.now.threads }
    ensures { IfOk result (λ found. option_map spec.site found ≡ spec.site_of (view.program p.now) t place number) }
{
    let Some(way) = way_to(alloc, p.body_of(t), place)? else {
        return Ok(None);
    };
    let Some(asked) = question(alloc, p, t, place, number)? else {
        return Ok(None);
    };
    let Way { steps, stmt } = way;
    let site = site_at(steps, asked.question, place, &stmt.kind)?;
    Ok(Some(site))
}

/// Where something is asked of a statement behind steps.
fn site_at<'p>(
    steps: List<Step<'p>>,
    question: Question,
    at: u32,
    kind: &'p StmtKind,
) -> Result<Site<'p>, NoMemory>
    ensures { IfOk result (λ made. spec.site made ≡ spec.site_at (map paths.step steps.entry) question at (view.kind kind.now)) }
{
    let mut steps = steps;
    add_steps_to_point(question, at, kind, &mut steps)?;
    Ok(Site {
        steps,
        question,
        kind,
    })
}

/// Adds the steps from a statement to the point of which is asked.
fn add_steps_to_point<'p>(
    question: Question,
    at: u32,
    kind: &'p StmtKind,
    steps: &mut List<Step<'p>>,
) -> Result<(), NoMemory>
    ensures { OnOk result (map paths.step steps.new ≡ map paths.step steps.old ++ spec.steps_to_point question at (view.kind kind.now)) }
{
    match question {
        Question::HeadGuard => add_to_head(at, kind, steps),
        Question::Predicate(end, _) | Question::TypeOf(end, _) => {
            match end {
                End::FirstBlock => add_to_first_end(at, kind, steps),
                End::SecondBlock => add_to_second_end(at, kind, steps),
                End::Body => add_to_body_end(at, kind, steps),
                End::Here | End::Entry => Ok(()),
            }
        }
        Question::Written
        | Question::Shown(_)
        | Question::Controlled(_)
        | Question::Retyped(_)
        | Question::Invariant(_)
        | Question::Freed(_)
        | Question::Guard
        | Question::Printed => Ok(()),
    }
}
