//! Obligations of types and predicates that are written (V4, V12, V14).

ghost use Rattle.std.specs.Prelude.{◌≡◌, ◌<◌, ◌&&◌, ◌==◌, ℕ, [], ◌∷◌, length, map, not, All};
ghost use Rattle.std.specs.List.{list_any};
ghost use Rattle.cov_expr.specs.View.{term};
ghost use Rattle.cov_expr.specs.Words.{HasVarsBelow};
ghost use Rattle.cov_ast.specs.Declarations.{is_control, name_of};
ghost use Rattle.cov_ast.specs.Obligations.{Decides};
ghost use Rattle.cov_ast.specs.Plain.{Plain, plain};
ghost use Rattle.cov_ast.specs.View as view;
ghost use Rattle.cov_ast.specs.declared.refusal.Detail.TheVariants.{Nothing, One};
ghost use Rattle.cov_ast.specs.declared.refusal.Rule.TheVariants.{V14};
ghost use Rattle.cov_ast.specs.WellFormed.{AreTypesInRange, IsStateInRange};
ghost use Rattle.point_law.specs.Point.{is_tracked};
ghost use Rattle.typing_law.specs.ThreadObligations as spec;
ghost use Rattle.typing_state.specs.KeptPoints.{AtPoint};

use cov_ast::{CheckFault, Detail, Program, Retype, Rule, State};
use cov_expr::Expr;
use typing_law::{Site, refused_at, require_at};
use typing_state::Point;

/// A type is over stable controls (V4).
pub fn check_over_controls(
    p: &Program,
    site: Site,
    point: &Point,
    q: &Expr,
) -> Result<(), CheckFault>
    requires { HasVarsBelow (term q.now) (length p.now.vars) }
    ensures { AtPoint (plain (view.program p.now)) site.thread point.now (λ a.
        Decides (spec.over_controls (plain (view.program p.now)) site.thread site.place a.held (term q.now) ∷ []) result) }
{
    require_at(site, point.is_over_controls(q), Rule::V4, Detail::Nothing)
}

/// Each listed variable is tracked and isn't listed before, where a control is assigned, and its type is over stable
/// controls (V14, V4).
pub fn check_retypes(
    p: &Program,
    site: Site,
    point: &Point,
    x: u32,
    retypes: &[Retype],
) -> Result<(), CheckFault>
    requires variable { x < length p.now.vars }
    requires range { AreTypesInRange (length p.now.vars) (length p.now.locks) (map view.retype retypes.now) }
    ensures { AtPoint (plain (view.program p.now)) site.thread point.now (λ a. Decides
        (spec.type_obligations (plain (view.program p.now)) site.thread site.place
        (λ z. is_control (plain (view.program p.now)) x && is_tracked (plain (view.program p.now)) site.thread a.held z) a.held [] (map view.retype retypes.now))
        result) }
{
    let control = point.is_control(x);
    for (i, r) in retypes.iter().enumerate() {
        let named = has_retype(&retypes[..i], r.var);
        if let Err(fault) = check_type(p, site, point, control, named, r.var, &r.class) {
            return Err(fault);
        }
    }
    Ok(())
}

/// Whether a variable is listed.
fn has_retype(retypes: &[Retype], z: u32) -> bool
    ensures { result ≡ list_any (λ r. r.var == z) retypes.now }
{
    retypes.iter().any(|r| r.var == z)
}

/// A type may be listed for the variable, which is tracked and isn't named before, and it is over stable controls (V14, V4).
fn check_type(
    p: &Program,
    site: Site,
    point: &Point,
    may_list: bool,
    named: bool,
    z: u32,
    q: &Expr,
) -> Result<(), CheckFault>
    requires variable { z < length p.now.vars }
    requires range { HasVarsBelow (term q.now) (length p.now.vars) }
    ensures { AtPoint (plain (view.program p.now)) site.thread point.now (λ a. Decides
        (spec.obligation (plain (view.program p.now)) site.thread site.place V14 (One (name_of (plain (view.program p.now)) z))
        ((may_list && is_tracked (plain (view.program p.now)) site.thread a.held z) && not named)
        ∷ spec.over_controls (plain (view.program p.now)) site.thread site.place a.held (term q.now) ∷ [])
        result) }
{
    let fit = is_fit(point, may_list, named, z);
    match require_at(site, fit, Rule::V14, Detail::One(p.var_name(z))) {
        Ok(()) => check_over_controls(p, site, point, q),
        Err(fault) => Err(fault),
    }
}

/// Whether a type may be listed for the variable.
fn is_fit(point: &Point, may_list: bool, named: bool, z: u32) -> bool
    ensures { (p : Plain) → (t : ℕ) → AtPoint p t point.now (λ a. z < length p.vars
        → result ≡ ((may_list && is_tracked p t a.held z) && not named)) }
{
    may_list && point.type_of(z).is_some() && !named
}

/// The predicates of a state are over stable variables, each variable that it lists is tracked and isn't listed before, and
/// its type is over stable controls (V12, V14, V4).
pub fn check_state(p: &Program, site: Site, point: &Point, s: &State) -> Result<(), CheckFault>
    requires { IsStateInRange (length p.now.vars) (length p.now.locks) (view.state s.now) }
    ensures { AtPoint (plain (view.program p.now)) site.thread point.now (λ a. Decides
        (spec.state_obligations (plain (view.program p.now)) site.thread site.place a.held (view.state s.now)) result) }
{
    if let Err(fault) = check_preds(p, site, point, s.preds.as_slice()) {
        return Err(fault);
    }
    check_types(p, site, point, s.types.as_slice())
}

/// Predicates are over stable variables (V12).
fn check_preds(p: &Program, site: Site, point: &Point, preds: &[Expr]) -> Result<(), CheckFault>
    requires { All (λ e. HasVarsBelow e (length p.now.vars)) (map term preds.now) }
    ensures { AtPoint (plain (view.program p.now)) site.thread point.now (λ a. Decides
        (map (spec.over_stable (plain (view.program p.now)) site.thread site.place a.held) (map term preds.now)) result) }
{
    for e in preds {
        if !point.is_over_stable(e) {
            return Err(refused_at(site, Rule::V12, Detail::Nothing));
        }
    }
    Ok(())
}

/// Each listed variable is tracked and isn't listed before, and its type is over stable controls (V14, V4).
fn check_types(
    p: &Program,
    site: Site,
    point: &Point,
    types: &[(u32, Expr)],
) -> Result<(), CheckFault>
    requires { AreTypesInRange (length p.now.vars) (length p.now.locks) (map view.typed types.now) }
    ensures { AtPoint (plain (view.program p.now)) site.thread point.now (λ a. Decides
        (spec.type_obligations (plain (view.program p.now)) site.thread site.place (is_tracked (plain (view.program p.now)) site.thread a.held) a.held [] (map view.typed types.now))
        result) }
{
    for (i, t) in types.iter().enumerate() {
        let named = has_type(&types[..i], t.0);
        if let Err(fault) = check_type(p, site, point, true, named, t.0, &t.1) {
            return Err(fault);
        }
    }
    Ok(())
}

/// Whether a variable is listed.
fn has_type(types: &[(u32, Expr)], z: u32) -> bool
    ensures { result ≡ list_any (λ t. t.0 == z) types.now }
{
    types.iter().any(|t| t.0 == z)
}
