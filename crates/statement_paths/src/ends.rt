//! The steps from a statement with blocks to their ends.

ghost use Rattle.std.specs.Prelude.{◌≡◌, ◌++◌, OnOk, map};
ghost use Rattle.cov_ast.specs.View as view;
ghost use Rattle.statement_paths.specs.Paths as spec;

use crate::way::Step;
use cov_ast::{Stmt, StmtKind};
use cov_expr::{List, NoMemory};

/// Adds the steps from a branch at a place to the end of its first block. Of another statement nothing is added.
pub fn add_to_first_end<'p>(
    at: u32,
    kind: &'p StmtKind,
    steps: &mut List<Step<'p>>,
) -> Result<(), NoMemory>
    ensures { OnOk result (map spec.step steps.new ≡ map spec.step steps.old ++ spec.to_first_end at (view.kind kind.now)) }
{
    match kind {
        StmtKind::If(guard, block, _, _) => {
            steps.push(Step::Yes(at, guard))?;
            add_passed(block.as_slice(), steps)
        }
        _ => Ok(()),
    }
}

/// Adds the steps from a branch at a place to the end of its second block. Of another statement nothing is added.
pub fn add_to_second_end<'p>(
    at: u32,
    kind: &'p StmtKind,
    steps: &mut List<Step<'p>>,
) -> Result<(), NoMemory>
    ensures { OnOk result (map spec.step steps.new ≡ map spec.step steps.old ++ spec.to_second_end at (view.kind kind.now)) }
{
    match kind {
        StmtKind::If(guard, _, block, _) => {
            steps.push(Step::No(at, guard))?;
            add_passed(block.as_slice(), steps)
        }
        _ => Ok(()),
    }
}

/// Adds the step from a loop at a place to its head, where what it states holds. Of another statement nothing is added.
pub fn add_to_head<'p>(
    at: u32,
    kind: &'p StmtKind,
    steps: &mut List<Step<'p>>,
) -> Result<(), NoMemory>
    ensures { OnOk result (map spec.step steps.new ≡ map spec.step steps.old ++ spec.to_head at (view.kind kind.now)) }
{
    match kind {
        StmtKind::While(_, inv, _) => steps.push(Step::Head(at, inv)),
        _ => Ok(()),
    }
}

/// Adds the steps from a loop at a place to the end of its block. Of another statement nothing is added.
pub fn add_to_body_end<'p>(
    at: u32,
    kind: &'p StmtKind,
    steps: &mut List<Step<'p>>,
) -> Result<(), NoMemory>
    ensures { OnOk result (map spec.step steps.new ≡ map spec.step steps.old ++ spec.to_body_end at (view.kind kind.now)) }
{
    match kind {
        StmtKind::While(guard, inv, block) => {
            steps.push(Step::Head(at, inv))?;
            steps.push(Step::Yes(at, guard))?;
            add_passed(block.as_slice(), steps)
        }
        _ => Ok(()),
    }
}

/// Adds a step past each statement of a block.
fn add_passed<'p>(block: &'p [Stmt], steps: &mut List<Step<'p>>) -> Result<(), NoMemory>
    ensures { OnOk result (map spec.step steps.new ≡ map spec.step steps.old ++ spec.passed_all (view.block block.now)) }
{
    for stmt in block {
        steps.push(Step::Passed(stmt))?;
    }
    Ok(())
}
