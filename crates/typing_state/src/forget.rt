//! Types that are forgotten: when a lock is given back, a variable has a new value, or blocks join.

ghost use Rattle.std.specs.Prelude.{◌≡◌, ◌<◌, ◌≤◌, ◌&&◌, [], length, map, not, option_map, get_or, set, IfOk, OnOk};
ghost use Rattle.std.specs.Prelude.{None};
ghost use Rattle.cov_expr.specs.View.{term};
ghost use Rattle.cov_expr.specs.declared.limits.TheConstants.{MOST_VARIABLES};
ghost use Rattle.cov_ast.specs.Plain.{Plain, plain};
ghost use Rattle.cov_ast.specs.Tables.{has};
ghost use Rattle.cov_ast.specs.View as view;
ghost use Rattle.cov_ast.specs.WellFormed.{IsWellFormed};
ghost use Rattle.point_law.specs.After as after;
ghost use Rattle.typing_state.specs.Groups.{is_free};
ghost use Rattle.typing_state.specs.Inside.Forgotten.{AreFit, IsInRange, is_left_out, is_passed, left, stays};
ghost use Rattle.typing_state.specs.Inside.Tells.{AtEach, Tells, passes};
ghost use Rattle.point_law.specs.AtModes.{AtModes};
ghost use Rattle.point_law.specs.Point as point;
ghost use Rattle.point_law.specs.Terms.{is_closed_type};
ghost use Rattle.typing_state.specs.Inside.Least as least;
ghost use Rattle.typing_state.specs.Next.{AreDone};

use crate::classes::var_count;
use crate::retain::is_kept;
use crate::start::is_tracked;
use crate::types::{Type, Types, assign_type, put_retypes};
use crate::variables::Variables;
use cov_ast::{Program, Retype};
use cov_expr::{Expr, NoMemory};
use mode_state::ModeState;
use std::alloc::Global;
use std::rc::Rc;

/// What is known of a variable without more.
pub fn default_type(
    modes: &ModeState,
    variables: &Variables,
    x: u32,
) -> Result<Rc<Type, Global>, NoMemory>
    ensures { IfOk result (λ made. (p : Plain) → AtEach p modes.now variables.now (λ t held. x < length p.vars
        → term made.value ≡ point.default_type p t held x)) }
{
    if modes.hidden(x) {
        return variables.nothing();
    }
    variables.class(x)
}

/// Which types are forgotten.
#[derive(Clone, Copy)]
pub enum Forgotten {
    /// Every one.
    Every,
    /// Those that mention a variable, which has a new value.
    Mentioning(u32),
    /// Those that mention a variable that isn't stable any longer, where a lock is given back. What isn't tracked any longer has no
    /// type then.
    Unstable(u32),
}

/// Gives each variable whose type is forgotten what is known of it without more. Only those are walked whose type may be forgotten.
pub fn forget(
    p: &Program,
    modes: &ModeState,
    variables: &Variables,
    which: Forgotten,
    types: &mut Types,
) -> Result<(), NoMemory>
    requires formed { IsWellFormed (view.program p.now) }
    requires range { IsInRange (length p.now.locks) which }
    ensures { OnOk result (AtEach (plain (view.program p.now)) modes.now variables.now (λ t held. length types.old ≤ length p.now.vars
        → AreFit (plain (view.program p.now)) t held which (map (option_map term) types.old)
        → map (option_map term) types.new ≡ after.updated (left (plain (view.program p.now)) t held which) (map (option_map term) types.old))) }
{
    let mut from = 0;
    while let Some(z) = next_forgotten(p, modes, types, which, from) {
        forget_type(p, modes, variables, which, types, z)?;
        from = z + 1;
    }
    Ok(())
}

/// The first variable from a number on whose type may be forgotten.
fn next_forgotten(
    p: &Program,
    modes: &ModeState,
    types: &Types,
    which: Forgotten,
    from: u32,
) -> Option<u32>
    requires formed { IsWellFormed (view.program p.now) }
    requires range { IsInRange (length p.now.locks) which }
    ensures { AreDone (λ k. is_passed modes.now which k (get_or (map (option_map term) types.now) k None)) from (length p.now.vars) result }
{
    match which {
        Forgotten::Every => if_below(var_count(p), Some(from)),
        Forgotten::Mentioning(x) => next_mentioning(p, types, x, from),
        Forgotten::Unstable(l) => next_changed(p, modes, types, l, from),
    }
}

/// The first variable from a number on that a lock lists, or whose type may mention a variable.
fn next_changed(p: &Program, modes: &ModeState, types: &Types, l: u32, from: u32) -> Option<u32>
    requires { IsWellFormed (view.program p.now) }
    ensures { AreDone (λ k. not (has (get_or (modes.now).listed l []) k) && is_closed_type (get_or (map (option_map term) types.now) k None)) from (length p.now.vars) result }
{
    let next = earlier(modes.next_listed(l, from), types.next_varying(from));
    if_below(var_count(p), next)
}

/// The first variable from a number on whose type may mention another one.
fn next_mentioning(p: &Program, types: &Types, x: u32, from: u32) -> Option<u32>
    requires formed { IsWellFormed (view.program p.now) }
    requires small { x < MOST_VARIABLES }
    ensures { AreDone (λ k. is_free x (get_or (map (option_map term) types.now) k None)) from (length p.now.vars) result }
{
    if_below(var_count(p), types.next_mentioning(x, from))
}

/// The smaller of two numbers, where there are both.
fn earlier(a: Option<u32>, b: Option<u32>) -> Option<u32>
    ensures { result ≡ least.earlier a b }
{
    match (a, b) {
        (Some(x), Some(y)) => Some(x.min(y)),
        (Some(x), None) => Some(x),
        (None, y) => y,
    }
}

/// A number, if it is below an end.
pub fn if_below(end: u32, x: Option<u32>) -> Option<u32>
    ensures { result ≡ least.if_below end x }
{
    match x {
        Some(x) if x < end => Some(x),
        Some(_) | None => None,
    }
}

/// Forgets the type of a variable, if it is one of those.
fn forget_type(
    p: &Program,
    modes: &ModeState,
    variables: &Variables,
    which: Forgotten,
    types: &mut Types,
    z: u32,
) -> Result<(), NoMemory>
    requires formed { IsWellFormed (view.program p.now) }
    requires range { IsInRange (length p.now.locks) which }
    requires variable { z < length p.now.vars }
    ensures { OnOk result (AtEach (plain (view.program p.now)) modes.now variables.now (λ t held.
        map (option_map term) types.new ≡ set (map (option_map term) types.old) z
        (left (plain (view.program p.now)) t held which z (get_or (map (option_map term) types.old) z None)))) }
{
    if is_left_out(modes, variables, which, z) {
        types.set(z, None);
        return Ok(());
    }
    if stays(p, modes, types, which, z) {
        return Ok(());
    }
    let known = default_type(modes, variables, z)?;
    types.set(z, Some(known));
    Ok(())
}

/// Whether a variable has no type any longer.
fn is_left_out(modes: &ModeState, variables: &Variables, which: Forgotten, z: u32) -> bool
    ensures { Tells (λ p t held z. is_left_out p t held which z) modes.now variables.now z result }
{
    match which {
        Forgotten::Every | Forgotten::Mentioning(_) => false,
        Forgotten::Unstable(_) => !is_tracked(modes, variables, z),
    }
}

/// Whether the type of a variable, if there is one, isn't forgotten.
fn stays(p: &Program, modes: &ModeState, types: &Types, which: Forgotten, z: u32) -> bool
    requires formed { IsWellFormed (view.program p.now) }
    requires range { IsInRange (length p.now.locks) which }
    ensures { AtModes (plain (view.program p.now)) modes.now (λ t held.
        result ≡ stays (plain (view.program p.now)) t held which (get_or (map (option_map term) types.now) z None)) }
{
    match which {
        Forgotten::Every => !types.has(z),
        Forgotten::Mentioning(x) => types.is_free(z, x),
        Forgotten::Unstable(_) => keeps_type(p, modes, types, z),
    }
}

/// Whether the type of a variable, if there is one, is over stable variables.
fn keeps_type(p: &Program, modes: &ModeState, types: &Types, z: u32) -> bool
    requires { IsWellFormed (view.program p.now) }
    ensures { AtModes (plain (view.program p.now)) modes.now (λ t held.
        result ≡ passes (point.is_over_stable (plain (view.program p.now)) t held) (get_or (map (option_map term) types.now) z None)) }
{
    match types.get(z) {
        Some(q) => is_kept(p, modes, q),
        None => true,
    }
}

/// The types after a variable has a value of a type.
pub fn assign_types(
    alloc: Global,
    p: &Program,
    modes: &ModeState,
    variables: &Variables,
    x: u32,
    q: Expr,
    retypes: &[Retype],
    types: &mut Types,
) -> Result<(), NoMemory>
    requires formed { IsWellFormed (view.program p.now) }
    requires variable { x < length p.now.vars }
    ensures { OnOk result (AtEach (plain (view.program p.now)) modes.now variables.now (λ t held. length types.old ≤ length p.now.vars
        → map (option_map term) types.new ≡ after.retyped (after.assigned_type (plain (view.program p.now)) t held x (term q) (map view.retype retypes.now))
        (map (option_map term) types.old))) }
{
    if variables.is_control(x) {
        retype(alloc, p, modes, variables, x, retypes, types)?;
        return Ok(());
    }
    assign_type(alloc, types, x, q)?;
    Ok(())
}

/// The types after a control has a new value.
fn retype(
    alloc: Global,
    p: &Program,
    modes: &ModeState,
    variables: &Variables,
    x: u32,
    retypes: &[Retype],
    types: &mut Types,
) -> Result<(), NoMemory>
    requires formed { IsWellFormed (view.program p.now) }
    requires small { x < MOST_VARIABLES }
    ensures { OnOk result (AtEach (plain (view.program p.now)) modes.now variables.now (λ t held. length types.old ≤ length p.now.vars
        → map (option_map term) types.new ≡ after.retyped (λ z g. after.listed_or (map view.retype retypes.now) z (after.forgotten_type (plain (view.program p.now)) t held x z g))
        (map (option_map term) types.old))) }
{
    forget(p, modes, variables, Forgotten::Mentioning(x), types)?;
    put_retypes(alloc, types, retypes)?;
    Ok(())
}
