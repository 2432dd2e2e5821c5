//! The last step at which the type of a variable changed since it was set.

ghost use Rattle.std.specs.Prelude.{◌≡◌, ℕ, IfOk, Option, map, option_copied, option_map};
ghost use Rattle.cov_expr.specs.View.{term};
ghost use Rattle.cov_ast.specs.Plain.{Plain};
ghost use Rattle.point_law.specs.Point as law;
ghost use Rattle.statement_paths.specs.Paths as paths;
ghost use Rattle.typing_points.specs.Traces.{AreInRange, IsTrace, KeepsAny, plain_of};
ghost use Rattle.entail_origins.specs.TypeChanges as spec;
ghost use Rattle.entail_origins.specs.TypeOrigins as origins;

use crate::type_origin::{Later, TypeChange};
use crate::type_steps::set_by;
use cov_ast::NumberSet;
use cov_expr::{Expr, NoMemory, copy, same};
use mode_state::Mask;
use statement_parts::parts_of;
use statement_paths::Step;
use std::alloc::Global;
use typing_points::Trace;
use typing_state::Point;

/// The last change of the type of a variable behind its origin, in steps from the start of a thread, with these controls and the locks
/// that the variable is under. It takes the time of a check of the statements that are passed, and of a copy of the type at each step that
/// may forget it.
pub fn change_along(
    trace: &Trace<'_>,
    controls: &Mask,
    locks: &NumberSet,
    z: u32,
    steps: &[Step<'_>],
) -> Result<Option<Later>, NoMemory>
    requires trace { IsTrace trace.now }
    requires range { AreInRange trace.now (map paths.step steps.now) }
    ensures { IfOk result (λ made. made ≡ spec.change_along (plain_of trace.now) trace.now.thread controls.now locks.now z (map paths.step steps.now)) }
{
    let start = Point::start(trace.alloc, trace.program, trace.thread)?;
    let mut here = Some(start);
    let mut later = None;
    for (index, step) in steps.iter().enumerate() {
        let front = watched(trace.alloc, changed_by(controls, step), z, &here)?;
        here = trace.pass(step, here)?;
        let known = seen(z, &front, &here);
        later = change_after_step(controls, locks, z, index + 1, step, known, later);
    }
    Ok(later)
}

/// A copy of the type of a variable at a point in front of a step, where something in the step may forget it.
fn watched(
    alloc: Global,
    change: Option<TypeChange>,
    z: u32,
    point: &Option<Point>,
) -> Result<Option<Option<Expr>>, NoMemory>
    ensures { IfOk result (λ made. (p : Plain) → (t : ℕ) → (a : Option law.Point) → KeepsAny p t a point.now
        → option_map (option_map term) made ≡ spec.watched change z a) }
{
    match change {
        Some(_) => {
            match point {
                Some(point) => Ok(Some(copy_of(alloc, point.type_of(z))?)),
                None => Ok(None),
            }
        }
        None => Ok(None),
    }
}

/// A copy of a type that is there.
fn copy_of(alloc: Global, q: Option<&Expr>) -> Result<Option<Expr>, NoMemory>
    ensures { IfOk result (λ made. option_map term made ≡ option_map term (option_copied q.entry)) }
{
    match q {
        Some(q) => Ok(Some(copy(alloc, q)?)),
        None => Ok(None),
    }
}

/// Whether it is known that a type changed to the one at a point: true where it did, and false where it may have. `None` comes where it
/// didn't.
fn seen(z: u32, front: &Option<Option<Expr>>, behind: &Option<Point>) -> Option<bool>
    ensures { (p : Plain) → (t : ℕ) → (b : Option law.Point) → KeepsAny p t b behind.now
        → result ≡ spec.seen (option_map (option_map term) front.now) (spec.type_there z b) }
{
    match (front, behind) {
        (Some(front), Some(behind)) => {
            if is_same_type(front, behind.type_of(z)) {
                None
            } else {
                Some(true)
            }
        }
        (None, _) | (Some(_), None) => Some(false),
    }
}

/// Whether two types are the same, or neither is there.
fn is_same_type(q: &Option<Expr>, r: Option<&Expr>) -> bool
    ensures { result ≡ spec.is_same_type (option_map term q.now) (option_map term (option_copied r.entry)) }
{
    match (q, r) {
        (None, None) => true,
        (Some(q), Some(r)) => same(q, r),
        (None, Some(_)) | (Some(_), None) => false,
    }
}

/// The last change with a step more, the last of so many.
fn change_after_step(
    controls: &Mask,
    locks: &NumberSet,
    z: u32,
    steps: usize,
    step: &Step<'_>,
    known: Option<bool>,
    so_far: Option<Later>,
) -> Option<Later>
    ensures { result ≡ spec.unless_set (origins.set_by controls.now locks.now z (paths.step step.now))
        (spec.with_change steps (paths.place_of (paths.step step.now)) (spec.changed_by controls.now (paths.step step.now)) known so_far) }
{
    match set_by(controls, locks, z, step) {
        Some(_) => None,
        None => with_change(
            steps,
            step.place(),
            changed_by(controls, step),
            known,
            so_far,
        ),
    }
}

/// With what may forget the type in the last of so many steps, where it did or may have.
fn with_change(
    steps: usize,
    at: u32,
    change: Option<TypeChange>,
    known: Option<bool>,
    so_far: Option<Later>,
) -> Option<Later>
    ensures { result ≡ spec.with_change steps at change known so_far }
{
    match (change, known) {
        (Some(change), Some(is_known)) => Some(Later {
            change,
            at,
            steps,
            is_known,
        }),
        (None, _) | (Some(_), None) => so_far,
    }
}

/// What in a step may forget the type.
fn changed_by(controls: &Mask, step: &Step<'_>) -> Option<TypeChange>
    ensures { result ≡ spec.changed_by controls.now (paths.step step.now) }
{
    match step {
        Step::Passed(stmt) => {
            let parts = parts_of(&stmt.kind);
            match (parts.store, parts.returned) {
                (Some(store), _) if controls.has(store.variable) => {
                    Some(TypeChange::ControlStored(store.variable))
                }
                (Some(_), _) | (None, None) => None,
                (None, Some(l)) => Some(TypeChange::Returned(l)),
            }
        }
        Step::Yes(_, _) | Step::No(_, _) | Step::Head(_, _) => None,
    }
}
