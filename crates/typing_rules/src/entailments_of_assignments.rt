//! Entailments of an assignment, added to others.
//!
//! A function that answers a truth value answers `false` only where an entailment is too large to be built.

ghost use Rattle.std.specs.Prelude.{◌≡◌, ◌<◌, ◌||◌, ℕ, [], ◌∷◌, not, length, map, option_map, option_to_list, IfOk, if◌then◌else◌};
ghost use Rattle.cov_expr.specs.View.{term};
ghost use Rattle.cov_expr.specs.Words.{HasVarsBelow};
ghost use Rattle.cov_ast.specs.Declarations as declared;
ghost use Rattle.cov_ast.specs.Plain.{Plain, plain};
ghost use Rattle.cov_ast.specs.View as view;
ghost use Rattle.cov_ast.specs.WellFormed.{IsWellFormed};
ghost use Rattle.mode_state.specs.Sets.{is_hidden};
ghost use Rattle.typing_law.specs.Blocks.{value_type};
ghost use Rattle.typing_law.specs.Entailments as spec;
ghost use Rattle.typing_state.specs.KeptPoints.{AtPoint};
ghost use Rattle.typing_rules.specs.Listed.{Added, entailments_of, is_shown_controlled};

use crate::asked::Entailment;
use crate::entailment_parts::{class_held, read_held, type_held};
use crate::subst_nodes::{MOST_PARTS, small_subst};
use cov_ast::{Class, Program, Retype};
use cov_expr::{Expr, List, NoMemory, mentions};
use entail_cert::Held;
use policy_class::class_of;
use std::alloc::Global;
use typing_state::Point;

/// The type that is written gives that of the value.
pub fn add_written<'a>(
    alloc: Global,
    p: &Program,
    point: &Point,
    e: &Expr,
    written: &Option<Expr>,
    q: &'a Expr,
    entailments: &mut List<Entailment<'a>>,
) -> Result<bool, NoMemory>
    requires { HasVarsBelow (term e.now) (length p.now.vars) }
    ensures { IfOk result (λ added. (t : ℕ) → AtPoint (plain (view.program p.now)) t point.now (λ a.
        term q.now ≡ value_type (plain (view.program p.now)) t a (option_map term written.now) (term e.now)
        → Added (entailments_of a.preds entailments.old) (entailments_of a.preds entailments.new)
        (spec.written_type (plain (view.program p.now)) t a (term e.now) (option_map term written.now)) added)) }
{
    let Some(_) = written else {
        return Ok(true);
    };
    let Some(goal) = point.ty_within(alloc, p, e, MOST_PARTS)? else {
        return Ok(false);
    };
    entailments.push(Entailment {
        more: Some(Held::Lent(q)),
        goal: Held::Made(goal),
    })?;
    Ok(true)
}

/// Where a variable may be seen or is a control, its class gives the type of its new value.
pub fn shown_entailment<'a>(
    p: &'a Program,
    point: &Point,
    x: u32,
    q: &'a Expr,
) -> Option<Entailment<'a>>
    requires { x < length p.now.vars }
    ensures { (t : ℕ) → AtPoint (plain (view.program p.now)) t point.now (λ a.
        entailments_of a.preds (option_to_list result) ≡ spec.shown_value (plain (view.program p.now)) t a x (term q.now)) }
{
    if !is_shown(point, x) {
        return None;
    }
    Some(Entailment {
        more: Some(class_held(p, x)),
        goal: Held::Lent(q),
    })
}

/// Whether another thread may read a variable, or it is a control.
fn is_shown(point: &Point, x: u32) -> bool
    ensures { (p : Plain) → (t : ℕ) → AtPoint p t point.now (λ a. x < length p.vars
        → result ≡ (declared.is_control p x || not (is_hidden p t a.held x))) }
{
    point.is_control(x) || !point.modes().hidden(x)
}

/// What a new value of a control lets be seen of the variables that it controls is equal in both runs.
pub fn add_controlled<'a>(
    alloc: Global,
    p: &'a Program,
    point: &'a Point,
    x: u32,
    e: &Expr,
    entailments: &mut List<Entailment<'a>>,
) -> Result<bool, NoMemory>
    requires formed { IsWellFormed (view.program p.now) }
    requires variable { x < length p.now.vars }
    ensures { IfOk result (λ added. (t : ℕ) → AtPoint (plain (view.program p.now)) t point.now (λ a.
        Added (entailments_of a.preds entailments.old) (entailments_of a.preds entailments.new)
        (spec.controlled_values (plain (view.program p.now)) t a x (term e.now)) added)) }
{
    if !point.is_control(x) {
        return Ok(true);
    }
    let mut from = 0;
    while let Some(y) = point.next_controlled(p, x, from) {
        if !add_controlled_by(alloc, p, point, x, e, y, entailments)? {
            return Ok(false);
        }
        from = y + 1;
    }
    Ok(true)
}

/// The same of one variable, if the control decides whether it is low and it may be seen.
fn add_controlled_by<'a>(
    alloc: Global,
    p: &'a Program,
    point: &'a Point,
    x: u32,
    e: &Expr,
    y: u32,
    entailments: &mut List<Entailment<'a>>,
) -> Result<bool, NoMemory>
    requires { y < length p.now.vars }
    ensures { IfOk result (λ added. (t : ℕ) → AtPoint (plain (view.program p.now)) t point.now (λ a.
        Added (entailments_of a.preds entailments.old) (entailments_of a.preds entailments.new)
        (if is_shown_controlled (plain (view.program p.now)) t a x y
        then spec.controlled_follows (plain (view.program p.now)) t a x (term e.now) y ∷ [] else []) added)) }
{
    let Class::When(class) = class_of(p, y) else {
        return Ok(true);
    };
    if !mentions(class, x) {
        return Ok(true);
    }
    if point.modes().hidden(y) {
        return Ok(true);
    }
    let Some(more) = small_subst(alloc, class, x, e)? else {
        return Ok(false);
    };
    entailments.push(Entailment {
        more: Some(Held::Made(more)),
        goal: read_held(p, point, y),
    })?;
    Ok(true)
}

/// Where each new type holds after the assignment, the one before held.
pub fn add_retypes<'a>(
    alloc: Global,
    point: &'a Point,
    x: u32,
    e: &Expr,
    retypes: &[Retype],
    entailments: &mut List<Entailment<'a>>,
) -> Result<bool, NoMemory>
    ensures { IfOk result (λ added. (p : Plain) → (t : ℕ) → AtPoint p t point.now (λ a.
        Added (entailments_of a.preds entailments.old) (entailments_of a.preds entailments.new)
        (map (spec.retype_follows p t a x (term e.now)) (map view.retype retypes.now)) added)) }
{
    for r in retypes {
        let Some(more) = small_subst(alloc, &r.class, x, e)? else {
            return Ok(false);
        };
        entailments.push(Entailment {
            more: Some(Held::Made(more)),
            goal: type_held(point, r.var),
        })?;
    }
    Ok(true)
}
