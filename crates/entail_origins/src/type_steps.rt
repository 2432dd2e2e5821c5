//! The steps that set the type of a variable.

ghost use Rattle.std.specs.Prelude.{◌≡◌, IfOk, map};
ghost use Rattle.cov_ast.specs.Plain.{plain};
ghost use Rattle.cov_ast.specs.View as view;
ghost use Rattle.statement_paths.specs.Paths as paths;
ghost use Rattle.entail_origins.specs.TypeOrigins as spec;

use crate::type_origin::{By, TypeOrigin, TypeSource};
use cov_ast::{NumberSet, Program, Retype, State};
use cov_expr::{Expr, List, NoMemory};
use mode_state::Mask;
use statement_parts::{Nested, parts_of};
use statement_paths::Step;
use std::alloc::Global;

/// Where the type of a variable behind steps from the start of a thread comes from, with these controls and the locks that the variable
/// is under. `None` comes where no step sets it. It takes no memory, and time in proportion to what the steps list.
pub fn origin_along(
    controls: &Mask,
    locks: &NumberSet,
    z: u32,
    steps: &[Step<'_>],
) -> Option<TypeOrigin>
    ensures { result ≡ spec.origin_along controls.now locks.now z (map paths.step steps.now) }
{
    let mut so_far = None;
    for (index, step) in steps.iter().enumerate() {
        so_far = origin_after_step(controls, locks, z, index, step, so_far);
    }
    so_far
}

/// The origin with a step more, that with this index.
fn origin_after_step(
    controls: &Mask,
    locks: &NumberSet,
    z: u32,
    index: usize,
    step: &Step<'_>,
    so_far: Option<TypeOrigin>,
) -> Option<TypeOrigin>
    ensures { result ≡ spec.origin_after_step controls.now locks.now z index (paths.step step.now) so_far }
{
    let at = step.place();
    match set_by(controls, locks, z, step) {
        Some(source) => Some(TypeOrigin { source, at, index }),
        None => so_far,
    }
}

/// What in a step sets the type at its end.
pub fn set_by(controls: &Mask, locks: &NumberSet, z: u32, step: &Step<'_>) -> Option<TypeSource>
    ensures { result ≡ spec.set_by controls.now locks.now z (paths.step step.now) }
{
    match step {
        Step::Passed(stmt) => {
            let parts = parts_of(&stmt.kind);
            match (parts.store, parts.taken, parts.state) {
                (Some(store), _, _) => {
                    if controls.has(store.variable) {
                        where_true(is_retyped(store.retypes, z), TypeSource::Listed(By::Retype))
                    } else {
                        where_true(store.variable == z, TypeSource::Stored)
                    }
                }
                (None, Some(l), _) => where_true(locks.has(l), TypeSource::Taken(l)),
                (None, None, Some(state)) => {
                    match parts.nested {
                        Nested::None => where_true(
                            is_listed(state.types.as_slice(), z),
                            TypeSource::Listed(By::Noted),
                        ),
                        Nested::Turn(_) => Some(set_by_state(z, By::LoopState, state)),
                        Nested::Either(_, _) => Some(set_by_state(z, By::Join, state)),
                    }
                }
                (None, None, None) => None,
            }
        }
        Step::Yes(_, _) | Step::No(_, _) => None,
        Step::Head(_, inv) => Some(set_by_state(z, By::LoopState, inv)),
    }
}

/// A source under a condition.
fn where_true(holds: bool, source: TypeSource) -> Option<TypeSource>
    ensures { result ≡ spec.where_true holds source }
{
    if holds { Some(source) } else { None }
}

/// The source in a state that sets every type.
fn set_by_state(z: u32, by: By, state: &State) -> TypeSource
    ensures { result ≡ spec.set_by_state z by (view.state state.now) }
{
    if is_listed(state.types.as_slice(), z) {
        TypeSource::Listed(by)
    } else {
        TypeSource::Unlisted(by)
    }
}

/// Whether a type is listed for a variable.
fn is_listed(types: &[(u32, Expr)], z: u32) -> bool
    ensures { result ≡ spec.is_listed (map view.typed types.now) z }
{
    for listed in types {
        if listed.0 == z {
            return true;
        }
    }
    false
}

/// Whether a new type is given to a variable.
fn is_retyped(retypes: &[Retype], z: u32) -> bool
    ensures { result ≡ spec.is_listed (map view.retype retypes.now) z }
{
    for retype in retypes {
        if retype.var == z {
            return true;
        }
    }
    false
}

/// The locks that a variable is under. It takes time in proportion to the lists of the locks.
pub fn locks_over(alloc: Global, p: &Program, z: u32) -> Result<NumberSet, NoMemory>
    ensures { IfOk result (λ made. made ≡ spec.locks_over (plain (view.program p.now)) z) }
{
    let mut marks = List::new(alloc);
    for lock in p.locks.as_slice() {
        marks.push(lock.lists(z))?;
    }
    Ok(NumberSet::from_marks(marks))
}
