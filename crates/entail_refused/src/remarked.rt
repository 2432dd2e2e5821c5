//! Where the hypotheses of an entailment come from.

ghost use Rattle.std.specs.Prelude.{◌≡◌, ◌-◌, IfOk, length, map, option_map, take};
ghost use Rattle.cov_expr.specs.View.{term};
ghost use Rattle.cov_ast.specs.Plain.{plain};
ghost use Rattle.cov_ast.specs.View as view;
ghost use Rattle.entail_origins.specs.AskedHypotheses.{asks_more};
ghost use Rattle.entail_refused.specs.Remarked as spec;
ghost use Rattle.entail_refused.specs.Sites as sites;

use crate::site::Site;
use cov_ast::Program;
use cov_expr::{Blob, Expr, List, NoMemory};
use entail_origins::Question;
use std::alloc::Global;

/// A remark on each hypothesis of an entailment: where it comes from. `bytes` are the text of the program. There are no remarks where it
/// isn't known where the entailment is asked.
pub fn remarks_on(
    alloc: Global,
    p: &Program,
    bytes: &[u8],
    site: &Option<Site<'_>>,
    hypotheses: &[Expr],
) -> Result<List<Blob>, NoMemory>
    ensures { IfOk result (λ made. made ≡ spec.remarks_on (plain (view.program p.now)) bytes.now (option_map sites.site site.now) (map term hypotheses.now)) }
{
    match site {
        Some(site) => {
            entail_origins::remarks(
                alloc,
                p,
                bytes,
                site.steps.as_slice(),
                hypotheses,
                asks_more(site.question),
            )
        }
        None => Ok(List::new(alloc)),
    }
}

/// The hypotheses of what is asked that are known: all but the one that is asked with the goal.
pub fn known_of(question: Question, hypotheses: &[Expr]) -> &[Expr]
    ensures { map term result.now ≡ spec.known_of question (map term hypotheses.now) }
{
    if asks_more(question) {
        without_last(hypotheses)
    } else {
        hypotheses
    }
}

/// The hypothesis that is asked with the goal, if there is one.
pub fn asked_of(question: Question, hypotheses: &[Expr]) -> Option<&Expr>
    ensures { option_map (λ e. term e.now) result ≡ spec.asked_of question (map term hypotheses.now) }
{
    if asks_more(question) {
        hypotheses.get(hypotheses.len().saturating_sub(1))
    } else {
        None
    }
}

/// All but the last of some hypotheses.
fn without_last(hypotheses: &[Expr]) -> &[Expr]
    ensures { map term result.now ≡ take (length (map term hypotheses.now) - 1) (map term hypotheses.now) }
{
    let count = hypotheses.len().saturating_sub(1);
    &hypotheses[..count]
}

/// Whether an entailment follows from one expression more than the predicates, which is its last hypothesis.
fn asks_more(question: Question) -> bool
    ensures { result ≡ asks_more question }
{
    match question {
        Question::Written
        | Question::Shown(_)
        | Question::Controlled(_)
        | Question::Retyped(_)
        | Question::Freed(_)
        | Question::TypeOf(_, _) => true,
        Question::Invariant(_)
        | Question::Guard
        | Question::HeadGuard
        | Question::Printed
        | Question::Predicate(_, _) => false,
    }
}
