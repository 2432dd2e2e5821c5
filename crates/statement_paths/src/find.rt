//! The search for the statement at a place.

ghost use Rattle.std.specs.Prelude.{◌≡◌, ◌==◌, ◌∷◌, [], ◌≤◌, IfOk, Some, if◌then◌else◌, length, map, option_map, take};
ghost use Rattle.cov_ast.specs.View as view;
ghost use Rattle.statement_paths.specs.Inside.{found, kept};
ghost use Rattle.statement_paths.specs.Paths as spec;

use crate::way::{Step, Way};
use cov_ast::{Stmt, StmtKind};
use cov_expr::{List, NoMemory};
use std::alloc::Global;

/// The way to the first statement at a place, in the order of the text: a statement itself, then those in its blocks, then those
/// behind it. `None` comes where no statement is at the place. Each statement of the text is looked at once.
pub fn way_to<'p>(alloc: Global, body: &'p [Stmt], place: u32) -> Result<Option<Way<'p>>, NoMemory>
    ensures { IfOk result (λ found. option_map spec.way found ≡ spec.way_to (view.block body.now) place) }
{
    let mut steps = List::new(alloc);
    match find_in(body, place, &mut steps)? {
        Some(stmt) => Ok(Some(Way { steps, stmt })),
        None => Ok(None),
    }
}

/// Looks for the statement at a place in a block, and adds the steps to it. Where it isn't there, the steps stay.
#[cycle(blocks)]
fn find_in<'p>(
    body: &'p [Stmt],
    place: u32,
    steps: &mut List<Step<'p>>,
) -> Result<Option<&'p Stmt>, NoMemory>
    ensures way { IfOk result (λ stmt. found steps.new (option_map (λ s. s.now) stmt) ≡ option_map (spec.with_steps_in_front (map spec.step steps.old)) (spec.way_to (view.block body.now) place)) }
    ensures kept { IfOk result (λ stmt. kept stmt steps.old steps.new) }
{
    let count = steps.len();
    for stmt in body {
        if let Some(found) = find_from(stmt, place, steps)? {
            return Ok(Some(found));
        }
        steps.push(Step::Passed(stmt))?;
    }
    cut(steps, count);
    Ok(None)
}

/// Looks for the statement at a place: whether it is this one, or one in its blocks.
#[cycle(blocks)]
fn find_from<'p>(
    stmt: &'p Stmt,
    place: u32,
    steps: &mut List<Step<'p>>,
) -> Result<Option<&'p Stmt>, NoMemory>
    ensures way { IfOk result (λ found_stmt. found steps.new (option_map (λ s. s.now) found_stmt) ≡ option_map (spec.with_steps_in_front (map spec.step steps.old))
        (if stmt.now.at == place then Some (spec.here (view.kind stmt.now.kind) (map view.proof stmt.now.proofs)) else spec.way_within stmt.now.at (view.kind stmt.now.kind) place)) }
    ensures kept { IfOk result (λ found_stmt. kept found_stmt steps.old steps.new) }
{
    if stmt.at == place {
        Ok(Some(stmt))
    } else {
        find_within(stmt.at, &stmt.kind, place, steps)
    }
}

/// Looks for the statement at a place in the blocks of a statement.
#[cycle(blocks)]
fn find_within<'p>(
    at: u32,
    kind: &'p StmtKind,
    place: u32,
    steps: &mut List<Step<'p>>,
) -> Result<Option<&'p Stmt>, NoMemory>
    ensures way { IfOk result (λ stmt. found steps.new (option_map (λ s. s.now) stmt) ≡ option_map (spec.with_steps_in_front (map spec.step steps.old)) (spec.way_within at (view.kind kind.now) place)) }
    ensures kept { IfOk result (λ stmt. kept stmt steps.old steps.new) }
{
    match kind {
        StmtKind::If(e, a, b, _) => {
            if let Some(stmt) = find_behind(Step::Yes(at, e), a.as_slice(), place, steps)? {
                return Ok(Some(stmt));
            }
            find_behind(Step::No(at, e), b.as_slice(), place, steps)
        }
        StmtKind::While(e, inv, b) => {
            steps.push(Step::Head(at, inv))?;
            if let Some(stmt) = find_behind(Step::Yes(at, e), b.as_slice(), place, steps)? {
                return Ok(Some(stmt));
            }
            let _ = steps.pop();
            Ok(None)
        }
        _ => Ok(None),
    }
}

/// Looks for the statement at a place in a block behind a step.
#[cycle(blocks)]
fn find_behind<'p>(
    step: Step<'p>,
    body: &'p [Stmt],
    place: u32,
    steps: &mut List<Step<'p>>,
) -> Result<Option<&'p Stmt>, NoMemory>
    ensures way { IfOk result (λ stmt. found steps.new (option_map (λ s. s.now) stmt) ≡ option_map (spec.with_steps_in_front (map spec.step steps.old))
        (option_map (spec.with_steps_in_front (spec.step step.entry ∷ [])) (spec.way_to (view.block body.now) place))) }
    ensures kept { IfOk result (λ stmt. kept stmt steps.old steps.new) }
{
    steps.push(step)?;
    if let Some(stmt) = find_in(body, place, steps)? {
        return Ok(Some(stmt));
    }
    let _ = steps.pop();
    Ok(None)
}

/// Takes off the last steps, so that so many are left.
fn cut(steps: &mut List<Step<'_>>, count: usize)
    requires { count ≤ length steps.old }
    ensures { steps.new ≡ take count steps.old }
{
    for _ in count..steps.len() {
        let _ = steps.pop();
    }
}
