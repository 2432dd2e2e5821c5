//! What has to follow at a statement, kept until it is tried.

ghost use Rattle.std.specs.Prelude.{◌≡◌, ◌<◌, ◌++◌, ℕ, [], ◌∷◌, length, map, option_map, IfOk};
ghost use Rattle.cov_expr.specs.View.{term};
ghost use Rattle.cov_expr.specs.Words.{HasVarsBelow};
ghost use Rattle.cov_ast.specs.Plain.{Plain, plain};
ghost use Rattle.cov_ast.specs.View as view;
ghost use Rattle.cov_ast.specs.WellFormed.{IsWellFormed};
ghost use Rattle.typing_law.specs.Blocks.{value_type};
ghost use Rattle.typing_law.specs.Entailments as spec;
ghost use Rattle.typing_state.specs.KeptPoints.{AtPoint};
ghost use Rattle.typing_rules.specs.Listed.{AreListed, entailments_of};

use crate::entailments_of_assignments::{add_controlled, add_retypes, add_written};
use crate::entailments_of_states::{add_freed, add_inv, add_preds, add_types};
use crate::subst_nodes::MOST_PARTS;
use cov_ast::{Program, Retype, State};
use cov_expr::{Expr, List, NoMemory};
use entail_cert::Held;
use std::alloc::Global;
use typing_state::Point;

/// What has to follow from the predicates of a point and, where there is one, from one expression more.
#[derive(Drop)]
pub struct Entailment<'a> {
    pub more: Option<Held<'a>>,
    pub goal: Held<'a>,
}

/// What is asked where a state is to be met: each predicate follows, and where each type holds that it lists, so does the
/// one that the variable has.
pub fn state_entailments<'a>(
    alloc: Global,
    point: &'a Point,
    s: &'a State,
) -> Result<List<Entailment<'a>>, NoMemory>
    ensures { IfOk result (λ made. (p : Plain) → (t : ℕ) → AtPoint p t point.now (λ a. entailments_of a.preds made ≡ spec.state_follows a (view.state s.now))) }
{
    let room = s.preds.len().saturating_add(s.types.len());
    let mut entailments = List::with_capacity(alloc, room)?;
    add_preds(s.preds.as_slice(), &mut entailments)?;
    add_types(point, s.types.as_slice(), &mut entailments)?;
    Ok(entailments)
}

/// What is asked of a guard: it is equal in both runs.
pub fn guard_entailments<'a>(
    alloc: Global,
    p: &Program,
    point: &'a Point,
    e: &Expr,
) -> Result<Option<List<Entailment<'a>>>, NoMemory>
    requires { HasVarsBelow (term e.now) (length p.now.vars) }
    ensures { IfOk result (λ made. (t : ℕ) → AtPoint (plain (view.program p.now)) t point.now (λ a.
        AreListed a.preds (spec.guard_follows (plain (view.program p.now)) t a (term e.now) ∷ []) made)) }
{
    let Some(goal) = point.ty_within(alloc, p, e, MOST_PARTS)? else {
        return Ok(None);
    };
    let mut entailments = List::new(alloc);
    entailments.push(Entailment {
        more: None,
        goal: Held::Made(goal),
    })?;
    Ok(Some(entailments))
}

/// What is asked of an assignment where a type is written: it gives that of the value.
pub fn written_entailments<'a>(
    alloc: Global,
    p: &Program,
    point: &Point,
    e: &Expr,
    written: &Option<Expr>,
    q: &'a Expr,
) -> Result<Option<List<Entailment<'a>>>, NoMemory>
    requires { HasVarsBelow (term e.now) (length p.now.vars) }
    ensures { IfOk result (λ made. (t : ℕ) → AtPoint (plain (view.program p.now)) t point.now (λ a.
        term q.now ≡ value_type (plain (view.program p.now)) t a (option_map term written.now) (term e.now)
        → AreListed a.preds (spec.written_type (plain (view.program p.now)) t a (term e.now) (option_map term written.now)) made)) }
{
    let mut entailments = List::new(alloc);
    if !add_written(alloc, p, point, e, written, q, &mut entailments)? {
        return Ok(None);
    }
    Ok(Some(entailments))
}

/// What is asked of an assignment for the variables that it decides of: those that a control controls, and those with a new type.
pub fn changed_entailments<'a>(
    alloc: Global,
    p: &'a Program,
    point: &'a Point,
    x: u32,
    e: &Expr,
    retypes: &[Retype],
) -> Result<Option<List<Entailment<'a>>>, NoMemory>
    requires formed { IsWellFormed (view.program p.now) }
    requires variable { x < length p.now.vars }
    ensures { IfOk result (λ made. (t : ℕ) → AtPoint (plain (view.program p.now)) t point.now (λ a. AreListed a.preds
        (spec.controlled_values (plain (view.program p.now)) t a x (term e.now)
        ++ map (spec.retype_follows (plain (view.program p.now)) t a x (term e.now)) (map view.retype retypes.now)) made)) }
{
    let mut entailments = List::new(alloc);
    if !add_controlled(alloc, p, point, x, e, &mut entailments)? {
        return Ok(None);
    }
    if !add_retypes(alloc, point, x, e, retypes, &mut entailments)? {
        return Ok(None);
    }
    Ok(Some(entailments))
}

/// What is asked where a lock is given back: its invariant, and that what it hides may be seen.
pub fn unlock_entailments<'a>(
    alloc: Global,
    p: &'a Program,
    point: &'a Point,
    l: u32,
) -> Result<List<Entailment<'a>>, NoMemory>
    requires formed { IsWellFormed (view.program p.now) }
    requires lock { l < length p.now.locks }
    ensures { IfOk result (λ made. (t : ℕ) → AtPoint (plain (view.program p.now)) t point.now (λ a.
        entailments_of a.preds made ≡ spec.unlock_entailments (plain (view.program p.now)) t a l)) }
{
    let lock = &p.locks.as_slice()[l as usize];
    let mut entailments = List::new(alloc);
    add_inv(&lock.inv, &mut entailments)?;
    add_freed(p, point, lock.hide.as_slice(), &mut entailments)?;
    Ok(entailments)
}
