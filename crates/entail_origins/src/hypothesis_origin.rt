//! The step that gives a hypothesis.

ghost use Rattle.std.specs.Prelude.{◌≡◌, IfOk, map};
ghost use Rattle.cov_expr.specs.View.{term};
ghost use Rattle.cov_ast.specs.Plain.{plain};
ghost use Rattle.cov_ast.specs.View as view;
ghost use Rattle.statement_paths.specs.Paths as paths;
ghost use Rattle.entail_origins.specs.GivenViews.{given};
ghost use Rattle.entail_origins.specs.Origins as spec;

use crate::given::{Given, add_given};
use cov_ast::Program;
use cov_expr::{Expr, List, NoMemory};
use statement_paths::Step;
use std::alloc::Global;

/// What gives a hypothesis.
#[derive(Clone, Copy, PartialEq, Eq)]
pub enum HypothesisSource {
    /// An assignment: the variable equals the value that it is given.
    Assigned,
    /// This lock, which is taken: its invariant.
    Invariant(u32),
    /// A branch that is passed: a predicate of its join.
    Join,
    /// A loop that is passed: its guard doesn't hold.
    LoopLeft,
    /// A loop that is passed, or at whose head the way is: a predicate of its `inv`.
    LoopState,
    /// A note: a predicate of it.
    Noted,
    /// The start of the first block of a branch, or of the block of a loop: the guard holds.
    GuardHolds,
    /// The start of the second block of a branch: the guard doesn't hold.
    GuardFails,
}

/// Where a hypothesis comes from: what gives it, and the byte offset of the statement that does.
#[derive(Clone, Copy, PartialEq, Eq)]
pub struct Origin {
    pub source: HypothesisSource,
    pub at: u32,
}

/// Where a hypothesis comes from behind steps: the last of them that gives it. `None` comes where no step does, as of the class or
/// the type of a variable. It looks at the steps from the last on, and takes time in
/// proportion to what those give that it looks at, and memory for what one of them gives.
pub fn origin_of<'p>(
    alloc: Global,
    p: &'p Program,
    steps: &[Step<'p>],
    hypothesis: &Expr,
) -> Result<Option<Origin>, NoMemory>
    ensures { IfOk result (λ found. found ≡ spec.origin (plain (view.program p.now)) (map paths.step steps.now) (term hypothesis.now)) }
{
    for i in (0..steps.len()).rev() {
        if let Some(found) = origin_at(alloc, p, &steps[i], hypothesis)? {
            return Ok(Some(found));
        }
    }
    Ok(None)
}

/// Whether a step gives a hypothesis, and what it is in the step that does.
pub fn origin_at<'p>(
    alloc: Global,
    p: &'p Program,
    step: &Step<'p>,
    hypothesis: &Expr,
) -> Result<Option<Origin>, NoMemory>
    ensures { IfOk result (λ found. found ≡ spec.origin_at (plain (view.program p.now)) (paths.step step.now) (term hypothesis.now)) }
{
    let mut all = List::new(alloc);
    add_given(p, step, &mut all)?;
    match first_given(all.as_slice(), hypothesis) {
        Some(source) => Ok(Some(Origin {
            source,
            at: step.place(),
        })),
        None => Ok(None),
    }
}

/// The source of the first predicate that equals a hypothesis.
fn first_given(all: &[Given<'_>], hypothesis: &Expr) -> Option<HypothesisSource>
    ensures { result ≡ spec.first_given (map given all.now) (term hypothesis.now) }
{
    for one in all {
        if one.term.is(hypothesis) {
            return Some(one.source);
        }
    }
    None
}
