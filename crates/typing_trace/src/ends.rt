//! The ends of the blocks of a statement.

ghost use Rattle.std.specs.Prelude.{◌≡◌, ◌++◌, IfOk, OnOk, map};
ghost use Rattle.cov_ast.specs.View as view;
ghost use Rattle.statement_paths.specs.Paths as paths;
ghost use Rattle.typing_trace.specs.PointLines as spec;

use cov_ast::StmtKind;
use cov_expr::{List, NoMemory};
use statement_paths::{Step, add_to_body_end, add_to_first_end, add_to_second_end};
use std::alloc::Global;

/// The end of a block of a statement.
#[derive(Clone, Copy)]
pub enum BlockEnd {
    /// Of the first block of a branch.
    First,
    /// Of the second block of a branch.
    Second,
    /// Of the block of a loop.
    Body,
}

/// The words for an end of a block.
pub fn end_words(end: BlockEnd) -> &'static str
    ensures { result.now ≡ spec.end_words end }
{
    match end {
        BlockEnd::First => "the first block",
        BlockEnd::Second => "the `else` block",
        BlockEnd::Body => "the block",
    }
}

/// Steps, and those from the statement at a place to an end of a block of it.
pub fn steps_to<'p>(
    alloc: Global,
    steps: &[Step<'p>],
    end: BlockEnd,
    at: u32,
    kind: &'p StmtKind,
) -> Result<List<Step<'p>>, NoMemory>
    ensures { IfOk result (λ made. map paths.step made ≡ map paths.step steps.now ++ spec.steps_to end at (view.kind kind.now)) }
{
    let mut made = List::new(alloc);
    made.extend_from_slice(steps)?;
    add_steps_to(end, at, kind, &mut made)?;
    Ok(made)
}

/// Adds the steps from the statement at a place to an end of a block of it.
fn add_steps_to<'p>(
    end: BlockEnd,
    at: u32,
    kind: &'p StmtKind,
    steps: &mut List<Step<'p>>,
) -> Result<(), NoMemory>
    ensures { OnOk result (map paths.step steps.new ≡ map paths.step steps.old ++ spec.steps_to end at (view.kind kind.now)) }
{
    match end {
        BlockEnd::First => add_to_first_end(at, kind, steps),
        BlockEnd::Second => add_to_second_end(at, kind, steps),
        BlockEnd::Body => add_to_body_end(at, kind, steps),
    }
}
