//! Expressions, states and new types with the ids of their variables in the place of the numbers of their names.

ghost use Rattle.std.specs.Prelude.{◌≡◌, map, option_map, All};
ghost use Rattle.cov_expr.specs.View.{term};
ghost use Rattle.cov_expr.specs.Words.{HasWords};
ghost use Rattle.cov_ast.specs.View as view;
ghost use Rattle.cov_ast.specs.WellFormed.{StateHasWords, TypeHasWords, TypesHaveWords};
ghost use Rattle.policy_class.specs.Resolved as spec;
ghost use Rattle.policy_class.specs.Inside.Ids.{var_in, lock_in};

use crate::ids::Ids;
use cov_ast::{Retype, State};
use cov_expr::{Expr, HOLE};

/// The id of a variable. The hole of a template stays.
pub fn resolved_var(ids: &Ids, x: u32) -> u32
    ensures { result ≡ spec.resolved_var (var_in ids.now) (lock_in ids.now) x }
{
    if x == HOLE { x } else { ids.var(x) }
}

/// Gives each variable of an expression its id. That the walk came to its end also tells that the expression is made of words.
pub fn resolve_expr(ids: &Ids, e: &mut Expr)
    ensures resolved { term e.new ≡ spec.resolved_term (var_in ids.now) (lock_in ids.now) (term e.old) }
    ensures words { HasWords (term e.new) }
{
    match e {
        Expr::Const(k) => {
            let _word = *k;
        }
        Expr::Var(x) => *x = resolved_var(ids, *x),
        Expr::Not(a) => resolve_expr(ids, a),
        Expr::Bin(_, a, b) => {
            resolve_expr(ids, a);
            resolve_expr(ids, b);
        }
    }
}

/// Does so in each of several expressions.
pub fn resolve_exprs(ids: &Ids, es: &mut [Expr])
    ensures resolved { map term es.new ≡ map (spec.resolved_term (var_in ids.now) (lock_in ids.now)) (map term es.old) }
    ensures words { All HasWords (map term es.new) }
{
    for e in es.iter_mut() {
        resolve_expr(ids, e);
    }
}

/// Does so in the expression, if there is one.
pub fn resolve_option(ids: &Ids, e: &mut Option<Expr>)
    ensures resolved { option_map term e.new ≡ option_map (spec.resolved_term (var_in ids.now) (lock_in ids.now)) (option_map term e.old) }
    ensures words { TypeHasWords (option_map term e.new) }
{
    if let Some(e) = e {
        resolve_expr(ids, e);
    }
}

/// Types of variables.
fn resolve_types(ids: &Ids, types: &mut [(u32, Expr)])
    ensures resolved { map view.typed types.new ≡ map (spec.resolved_type (var_in ids.now) (lock_in ids.now)) (map view.typed types.old) }
    ensures words { TypesHaveWords (map view.typed types.new) }
{
    for typed in types.iter_mut() {
        typed.0 = resolved_var(ids, typed.0);
        resolve_expr(ids, &mut typed.1);
    }
}

/// What is stated at a join, a loop or a note.
pub fn resolve_state(ids: &Ids, state: &mut State)
    ensures resolved { view.state state.new ≡ spec.resolved_state (var_in ids.now) (lock_in ids.now) (view.state state.old) }
    ensures words { StateHasWords (view.state state.new) }
{
    resolve_exprs(ids, state.preds.as_mut_slice());
    resolve_types(ids, state.types.as_mut_slice());
}

/// New types of variables.
pub fn resolve_retypes(ids: &Ids, retypes: &mut [Retype])
    ensures resolved { map view.retype retypes.new ≡ map (spec.resolved_type (var_in ids.now) (lock_in ids.now)) (map view.retype retypes.old) }
    ensures words { TypesHaveWords (map view.retype retypes.new) }
{
    for retype in retypes.iter_mut() {
        retype.var = resolved_var(ids, retype.var);
        resolve_expr(ids, &mut retype.class);
    }
}
