//! Obligations of an assignment beside its types: what it reads and writes (V2, V5).

ghost use Rattle.std.specs.Prelude.{◌<◌, [], ◌∷◌, length, map, if◌then◌else◌};
ghost use Rattle.cov_expr.specs.Trees as tree;
ghost use Rattle.cov_expr.specs.View.{term};
ghost use Rattle.cov_expr.specs.Words.{HasVarsBelow};
ghost use Rattle.cov_ast.specs.Obligations.{Decides};
ghost use Rattle.cov_ast.specs.Plain.{plain};
ghost use Rattle.cov_ast.specs.View as view;
ghost use Rattle.cov_ast.specs.declared.refusal.Rule.TheVariants.{V2, V5};
ghost use Rattle.mode_state.specs.Sets as sets;
ghost use Rattle.typing_law.specs.ThreadObligations as spec;
ghost use Rattle.point_law.specs.AtModes.{AtHeld};

use crate::evaluation::check_reads;
use cov_ast::{CheckFault, Detail, Program, Rule};
use cov_expr::Expr;
use mode_state::ModeState;
use typing_law::{Site, require_at};

/// Each variable of an expression may be read, and another one may be written (V1, V2).
pub fn check_access(
    p: &Program,
    site: Site,
    modes: &ModeState,
    x: u32,
    e: &Expr,
) -> Result<(), CheckFault>
    requires variable { x < length p.now.vars }
    requires value { HasVarsBelow (term e.now) (length p.now.vars) }
    ensures { AtHeld (plain (view.program p.now)) site.thread modes.now (λ held. Decides
        (spec.flat (spec.reads (plain (view.program p.now)) site.thread site.place held (term e.now)
        ∷ (spec.of_var (plain (view.program p.now)) site.thread site.place V2 (sets.may_write (plain (view.program p.now)) site.thread held) x ∷ []) ∷ []))
        result) }
{
    match check_reads(p, site, modes, e) {
        Ok(()) => check_write(p, site, modes, x),
        Err(fault) => Err(fault),
    }
}

/// A variable may be written (V2).
fn check_write(p: &Program, site: Site, modes: &ModeState, x: u32) -> Result<(), CheckFault>
    requires { x < length p.now.vars }
    ensures { AtHeld (plain (view.program p.now)) site.thread modes.now (λ held. Decides
        (spec.of_var (plain (view.program p.now)) site.thread site.place V2 (sets.may_write (plain (view.program p.now)) site.thread held) x ∷ []) result) }
{
    let name = p.var_name(x);
    require_at(site, modes.may_write(x), Rule::V2, Detail::One(name))
}

/// Each variable of an expression is stable, where a control is assigned (V5).
pub fn check_stable_if(
    p: &Program,
    site: Site,
    modes: &ModeState,
    control: bool,
    e: &Expr,
) -> Result<(), CheckFault>
    requires { HasVarsBelow (term e.now) (length p.now.vars) }
    ensures { AtHeld (plain (view.program p.now)) site.thread modes.now (λ held. Decides
        (if control then map (spec.of_var (plain (view.program p.now)) site.thread site.place V5 (sets.is_stable (plain (view.program p.now)) site.thread held)) (tree.vars (term e.now)) else [])
        result) }
{
    if control {
        return check_each_stable(p, site, modes, e);
    }
    Ok(())
}

/// Each occurrence of a variable in an expression is stable.
fn check_each_stable(p: &Program, site: Site, modes: &ModeState, e: &Expr) -> Result<(), CheckFault>
    requires { HasVarsBelow (term e.now) (length p.now.vars) }
    ensures { AtHeld (plain (view.program p.now)) site.thread modes.now (λ held. Decides
        (map (spec.of_var (plain (view.program p.now)) site.thread site.place V5 (sets.is_stable (plain (view.program p.now)) site.thread held)) (tree.occurrences (term e.now)))
        result) }
{
    match e {
        Expr::Const(_) => Ok(()),
        Expr::Var(x) => require_at(
            site,
            modes.stable(*x),
            Rule::V5,
            Detail::One(p.var_name(*x)),
        ),
        Expr::Not(a) => check_each_stable(p, site, modes, a),
        Expr::Bin(_, a, b) => match check_each_stable(p, site, modes, a) {
            Ok(()) => check_each_stable(p, site, modes, b),
            Err(fault) => Err(fault),
        },
    }
}
