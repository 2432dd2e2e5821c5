//! Obligations of an expression that is evaluated (V1, V3, V10).

ghost use Rattle.std.specs.Prelude.{◌≡◌, ◌<◌, ◌+◌, ℕ, [], ◌∷◌, length, map, not, count_by, MatchOption};
ghost use Rattle.cov_expr.specs.Trees as tree;
ghost use Rattle.cov_expr.specs.View.{term};
ghost use Rattle.cov_expr.specs.Words.{HasVarsBelow};
ghost use Rattle.cov_ast.specs.Obligations.{Decides};
ghost use Rattle.cov_ast.specs.Plain.{Plain, plain};
ghost use Rattle.cov_ast.specs.View as view;
ghost use Rattle.cov_ast.specs.declared.refusal.Rule.TheVariants.{V1};
ghost use Rattle.mode_state.specs.Sets as sets;
ghost use Rattle.point_law.specs.Terms.{each_variable};
ghost use Rattle.typing_law.specs.ThreadObligations as spec;
ghost use Rattle.point_law.specs.AtModes.{AtHeld};

use cov_ast::{CheckFault, Detail, Program, Rule};
use cov_expr::{Expr, width_at_most};
use mode_state::ModeState;
use typing_law::{Site, require_at};

/// Each variable of an expression may be read (V1).
pub fn check_reads(p: &Program, site: Site, modes: &ModeState, e: &Expr) -> Result<(), CheckFault>
    requires { HasVarsBelow (term e.now) (length p.now.vars) }
    ensures { AtHeld (plain (view.program p.now)) site.thread modes.now (λ held.
        Decides (spec.reads (plain (view.program p.now)) site.thread site.place held (term e.now)) result) }
{
    if may_read_each(modes, e) {
        return Ok(());
    }
    check_each_read(p, site, modes, e)
}

/// Whether each variable of an expression may be read.
fn may_read_each(modes: &ModeState, e: &Expr) -> bool
    ensures { (p : Plain) → (t : ℕ) → AtHeld p t modes.now (λ held. HasVarsBelow (term e.now) (length p.vars)
        → result ≡ each_variable (sets.may_read p t held) (term e.now)) }
{
    match e {
        Expr::Const(_) => true,
        Expr::Var(x) => modes.may_read(*x),
        Expr::Not(a) => may_read_each(modes, a),
        Expr::Bin(_, a, b) => may_read_each(modes, a) && may_read_each(modes, b),
    }
}

/// Each occurrence of a variable in an expression may be read.
fn check_each_read(p: &Program, site: Site, modes: &ModeState, e: &Expr) -> Result<(), CheckFault>
    requires { HasVarsBelow (term e.now) (length p.now.vars) }
    ensures { AtHeld (plain (view.program p.now)) site.thread modes.now (λ held. Decides
        (map (spec.of_var (plain (view.program p.now)) site.thread site.place V1 (sets.may_read (plain (view.program p.now)) site.thread held)) (tree.occurrences (term e.now)))
        result) }
{
    match e {
        Expr::Const(_) => Ok(()),
        Expr::Var(x) => require_at(
            site,
            modes.may_read(*x),
            Rule::V1,
            Detail::One(p.var_name(*x)),
        ),
        Expr::Not(a) => check_each_read(p, site, modes, a),
        Expr::Bin(_, a, b) => match check_each_read(p, site, modes, a) {
            Ok(()) => check_each_read(p, site, modes, b),
            Err(fault) => Err(fault),
        },
    }
}

/// Another thread may write at most one of what the evaluation reads (V3).
pub fn check_one_unstable(
    p: &Program,
    site: Site,
    modes: &ModeState,
    e: &Expr,
) -> Result<(), CheckFault>
    requires { HasVarsBelow (term e.now) (length p.now.vars) }
    ensures { AtHeld (plain (view.program p.now)) site.thread modes.now (λ held.
        Decides (spec.one_unstable (plain (view.program p.now)) site.thread site.place held (term e.now)) result) }
{
    let few = unstable_left(modes, e, 1).is_some();
    require_at(site, few, Rule::V3, Detail::Nothing)
}

/// How many occurrences of variables that aren't stable are left of a number, or nothing where an expression has more.
fn unstable_left(modes: &ModeState, e: &Expr, most: u32) -> Option<u32>
    ensures { (p : Plain) → (t : ℕ) → AtHeld p t modes.now (λ held. HasVarsBelow (term e.now) (length p.vars)
        → MatchOption result (most < count_by (λ x. not (sets.is_stable p t held x)) (tree.occurrences (term e.now)))
        (λ left. left + count_by (λ x. not (sets.is_stable p t held x)) (tree.occurrences (term e.now)) ≡ most)) }
{
    match e {
        Expr::Const(_) => Some(most),
        Expr::Var(x) if modes.stable(*x) => Some(most),
        Expr::Var(_) => most.checked_sub(1),
        Expr::Not(a) => unstable_left(modes, a, most),
        Expr::Bin(_, a, b) => {
            let left = unstable_left(modes, a, most)?;
            unstable_left(modes, b, left)
        }
    }
}

/// The evaluation takes few registers (V10).
pub fn check_narrow(p: &Program, site: Site, e: &Expr) -> Result<(), CheckFault>
    ensures { Decides (spec.narrow (plain (view.program p.now)) site.thread site.place (term e.now)) result }
{
    require_at(site, width_at_most(e, 7), Rule::V10, Detail::Nothing)
}

/// The evaluation reads at most one variable that another thread may write, and takes few registers (V3, V10).
pub fn check_evaluation(
    p: &Program,
    site: Site,
    modes: &ModeState,
    e: &Expr,
) -> Result<(), CheckFault>
    requires { HasVarsBelow (term e.now) (length p.now.vars) }
    ensures { AtHeld (plain (view.program p.now)) site.thread modes.now (λ held. Decides
        (spec.flat (spec.one_unstable (plain (view.program p.now)) site.thread site.place held (term e.now)
        ∷ spec.narrow (plain (view.program p.now)) site.thread site.place (term e.now) ∷ []))
        result) }
{
    match check_one_unstable(p, site, modes, e) {
        Ok(()) => check_narrow(p, site, e),
        Err(fault) => Err(fault),
    }
}

/// The obligations of a guard.
pub fn check_guard(p: &Program, site: Site, modes: &ModeState, e: &Expr) -> Result<(), CheckFault>
    requires { HasVarsBelow (term e.now) (length p.now.vars) }
    ensures { AtHeld (plain (view.program p.now)) site.thread modes.now (λ held.
        Decides (spec.guard_obligations (plain (view.program p.now)) site.thread site.place held (term e.now)) result) }
{
    if let Err(fault) = check_reads(p, site, modes, e) {
        return Err(fault);
    }
    if let Err(fault) = check_one_unstable(p, site, modes, e) {
        return Err(fault);
    }
    check_narrow(p, site, e)
}
