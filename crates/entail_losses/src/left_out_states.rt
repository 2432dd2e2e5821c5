//! States on the way to a point.

ghost use Rattle.std.specs.Prelude.{◌≡◌, Some};
ghost use Rattle.std.specs.Option.{option_or};
ghost use Rattle.statement_parts.specs.Parts.{nested_of};
ghost use Rattle.statement_paths.specs.Paths as paths;
ghost use Rattle.entail_losses.specs.LeftOut as spec;

use statement_parts::{Nested, parts_of};
use statement_paths::Step;

/// Of what a state is.
#[derive(Clone, Copy)]
pub enum StateKind {
    /// Of a branch: what holds at its end.
    Join,
    /// Of a loop: what holds at its head.
    Inv,
    /// Of a note: what holds at its place.
    Note,
}

/// A state on the way to a point, with the byte offset of its statement.
#[derive(Clone, Copy)]
pub struct StateAt {
    pub kind: StateKind,
    pub at: u32,
}

/// The states of steps, where some have one: the first, and the last, where there are more.
#[derive(Clone, Copy)]
pub struct States {
    pub first: StateAt,
    pub last: Option<StateAt>,
}

/// The states of steps, with a step more in front.
pub fn states_from(step: &Step<'_>, behind: Option<States>) -> Option<States>
    ensures { result ≡ spec.states_from (spec.state_of_step (paths.step step.now)) behind }
{
    match state_of_step(step) {
        Some(first) => {
            let last = last_state(behind);
            Some(States { first, last })
        }
        None => behind,
    }
}

/// The last of some states, if there are some.
pub fn last_state(states: Option<States>) -> Option<StateAt>
    ensures { result ≡ spec.last_state states }
{
    match states {
        Some(states) => match states.last {
            Some(last) => Some(last),
            None => Some(states.first),
        },
        None => None,
    }
}

/// The state of a step, and where it has none, that of the steps behind it.
pub fn first_state(step: &Step<'_>, behind: Option<StateAt>) -> Option<StateAt>
    ensures { result ≡ option_or (spec.state_of_step (paths.step step.now)) behind }
{
    match state_of_step(step) {
        Some(state) => Some(state),
        None => behind,
    }
}

/// The state of a step, if it has one.
fn state_of_step(step: &Step<'_>) -> Option<StateAt>
    ensures { result ≡ spec.state_of_step (paths.step step.now) }
{
    match step {
        Step::Passed(stmt) => {
            let parts = parts_of(&stmt.kind);
            match parts.state {
                Some(_) => state_at(kind_of_state(parts.nested), stmt.at),
                None => None,
            }
        }
        Step::Yes(_, _) | Step::No(_, _) => None,
        Step::Head(at, _) => state_at(StateKind::Inv, *at),
    }
}

/// Of what a state is, by the blocks of the statement that has it.
pub fn kind_of_state(nested: Nested<'_>) -> StateKind
    ensures { result ≡ spec.kind_of_state (nested_of nested.entry) }
{
    match nested {
        Nested::None => StateKind::Note,
        Nested::Turn(_) => StateKind::Inv,
        Nested::Either(_, _) => StateKind::Join,
    }
}

/// A state at a place.
fn state_at(kind: StateKind, at: u32) -> Option<StateAt>
    ensures { result ≡ Some (spec.state_at kind at) }
{
    Some(StateAt { kind, at })
}
