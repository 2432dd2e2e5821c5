//! The sets of variables by which types are judged.

ghost use Rattle.std.specs.Prelude.{◌≡◌, ◌<◌, ◌&&◌, ℕ, List, Bool, IfOk, length};
ghost use Rattle.cov_ast.specs.Declarations as declared;
ghost use Rattle.cov_ast.specs.Plain.{Plain, plain};
ghost use Rattle.cov_ast.specs.View as view;
ghost use Rattle.cov_ast.specs.WellFormed.{IsWellFormed};
ghost use Rattle.point_law.specs.Point.{controls_of};
ghost use Rattle.statement_paths.specs.VariableSets as variables;
ghost use Rattle.mode_state.specs.Sets.{is_stable, modes_at};
ghost use Rattle.refusal_names.specs.StableSets as spec;

use cov_ast::{NumberSet, Program, StmtKind};
use cov_expr::{List, NoMemory};
use mode_state::{Mask, ModeState};
use statement_parts::{Nested, parts_of};
use statement_paths::{pass_block, stable_set};
use std::alloc::Global;
use typing_state::control_set;

/// The variables that are asked for where types are judged.
#[derive(Drop)]
pub struct Known {
    pub stable: NumberSet,
    pub controls: Mask,
    pub stable_controls: NumberSet,
}

/// What is known of the variables of a program while a thread holds some locks.
pub fn known_at(alloc: Global, p: &Program, modes: &ModeState) -> Result<Known, NoMemory>
    requires { IsWellFormed (view.program p.now) }
    ensures controls { IfOk result (λ made. made.controls ≡ controls_of (plain (view.program p.now))) }
    ensures stable { IfOk result (λ made. (t : ℕ) (held : List Bool) → modes.now ≡ modes_at (plain (view.program p.now)) t held
        → made.stable ≡ variables.stable (plain (view.program p.now)) t held) }
    ensures stable_controls { IfOk result (λ made. (t : ℕ) (held : List Bool) → modes.now ≡ modes_at (plain (view.program p.now)) t held
        → made.stable_controls ≡ spec.stable_controls (plain (view.program p.now)) t held) }
{
    let stable = stable_set(alloc, p, modes)?;
    let controls = control_set(p);
    let stable_controls = stable_control_set(alloc, p, modes, &controls)?;
    Ok(Known {
        stable,
        controls,
        stable_controls,
    })
}

/// Those of the stable ones that are controls.
fn stable_control_set(
    alloc: Global,
    p: &Program,
    modes: &ModeState,
    controls: &Mask,
) -> Result<NumberSet, NoMemory>
    requires formed { IsWellFormed (view.program p.now) }
    requires controls { controls.now ≡ controls_of (plain (view.program p.now)) }
    ensures { IfOk result (λ made. (t : ℕ) (held : List Bool) → modes.now ≡ modes_at (plain (view.program p.now)) t held
        → made ≡ spec.stable_controls (plain (view.program p.now)) t held) }
{
    let mut marks = List::new(alloc);
    for x in 0..p.vars.len() as u32 {
        marks.push(is_stable_control(modes, controls, x))?;
    }
    Ok(NumberSet::from_marks(marks))
}

/// Whether a variable is stable and a control.
fn is_stable_control(modes: &ModeState, controls: &Mask, x: u32) -> bool
    ensures { (p : Plain) (t : ℕ) (held : List Bool) → modes.now ≡ modes_at p t held → controls.now ≡ controls_of p → x < length p.vars
        → result ≡ (is_stable p t held x && declared.is_control p x) }
{
    modes.stable(x) && controls.has(x)
}

/// Goes on from the front of a statement to where it states what holds: of a branch, to the end of its first block.
pub fn pass_to_state(kind: &StmtKind, modes: &mut ModeState)
    ensures { modes.new ≡ record modes.old { held = spec.held_where_stated (view.kind kind.now) (modes.old).held } }
{
    match parts_of(kind).nested {
        Nested::Either(first, _) => pass_block(first, modes),
        Nested::None | Nested::Turn(_) => {}
    }
}
