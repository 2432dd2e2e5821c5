//! Obligations of held locks, where blocks join and where a thread ends (V8, V11).

ghost use Rattle.std.specs.Prelude.{◌≡◌, ◌<◌, [], ◌∷◌, length};
ghost use Rattle.cov_ast.specs.Obligations.{Decides};
ghost use Rattle.cov_ast.specs.Plain.{plain};
ghost use Rattle.cov_ast.specs.View as view;
ghost use Rattle.cov_ast.specs.declared.refusal.Detail.TheVariants.{Nothing, One};
ghost use Rattle.cov_ast.specs.WellFormed.{IsWellFormed};
ghost use Rattle.typing_law.specs.ThreadObligations as spec;
ghost use Rattle.point_law.specs.AtModes.{AtHeld};

use cov_ast::{CheckFault, Detail, Program, Rule};
use mode_state::ModeState;
use typing_law::{Site, refused_at, require_at};

/// The same locks are held (V8).
pub fn check_same_locks(
    p: &Program,
    site: Site,
    modes: &ModeState,
    other: &ModeState,
) -> Result<(), CheckFault>
    requires { IsWellFormed (view.program p.now) }
    ensures { AtHeld (plain (view.program p.now)) site.thread modes.now (λ held. AtHeld (plain (view.program p.now)) site.thread other.now (λ another.
        Decides (spec.same_locks (plain (view.program p.now)) site.thread site.place held another) result)) }
{
    let same = hold_same(p, modes, other);
    require_at(site, same, Rule::V8, Detail::Nothing)
}

/// Whether of each lock both say whether it is held.
fn hold_same(p: &Program, modes: &ModeState, other: &ModeState) -> bool
    requires { IsWellFormed (view.program p.now) }
    ensures { result ≡ spec.same_held (plain (view.program p.now)) (modes.now).held (other.now).held }
{
    for l in 0..lock_count(p) {
        if modes.holds(l) != other.holds(l) {
            return false;
        }
    }
    true
}

/// How many locks there are.
fn lock_count(p: &Program) -> u32
    requires { IsWellFormed (view.program p.now) }
    ensures { result ≡ length p.now.locks }
{
    p.locks.len() as u32
}

/// At the end of a thread no lock is held (V11).
pub fn check_end(p: &Program, site: Site, modes: &ModeState) -> Result<(), CheckFault>
    requires { IsWellFormed (view.program p.now) }
    ensures { AtHeld (plain (view.program p.now)) site.thread modes.now (λ held.
        Decides (spec.end_obligation (plain (view.program p.now)) site.thread site.place held ∷ []) result) }
{
    for l in 0..lock_count(p) {
        if modes.holds(l) {
            let name = p.locks.as_slice()[l as usize].name;
            return Err(refused_at(site, Rule::V11, Detail::One(name)));
        }
    }
    Ok(())
}
