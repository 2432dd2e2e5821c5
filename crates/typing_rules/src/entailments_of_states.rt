//! Entailments of states and of locks, added to others.

ghost use Rattle.std.specs.Prelude.{◌≡◌, ◌<◌, ◌++◌, ℕ, List, [], ◌∷◌, not, length, map, filter, option_map, option_to_list, All, OnOk, if◌then◌else◌};
ghost use Rattle.cov_expr.specs.Term.{Term};
ghost use Rattle.cov_expr.specs.View.{term};
ghost use Rattle.cov_ast.specs.Declarations as declared;
ghost use Rattle.cov_ast.specs.Plain.{Plain, plain};
ghost use Rattle.cov_ast.specs.View as view;
ghost use Rattle.typing_law.specs.Entailments as spec;
ghost use Rattle.typing_state.specs.KeptPoints.{AtPoint};
ghost use Rattle.typing_rules.specs.Listed.{entailments_of};

use crate::asked::Entailment;
use crate::entailment_parts::{class_held, type_held};
use cov_ast::Program;
use cov_expr::{Expr, List, NoMemory};
use entail_cert::Held;
use typing_state::Point;

/// Each of some predicates follows.
pub fn add_preds<'a>(
    preds: &'a [Expr],
    entailments: &mut List<Entailment<'a>>,
) -> Result<(), NoMemory>
    ensures { OnOk result ((known : List Term) →
        entailments_of known entailments.new ≡ entailments_of known entailments.old ++ map (spec.from_preds known) (map term preds.now)) }
{
    for e in preds {
        entailments.push(Entailment {
            more: None,
            goal: Held::Lent(e),
        })?;
    }
    Ok(())
}

/// Where each of some types holds, so does the one that its variable has.
pub fn add_types<'a>(
    point: &'a Point,
    types: &'a [(u32, Expr)],
    entailments: &mut List<Entailment<'a>>,
) -> Result<(), NoMemory>
    ensures { OnOk result ((p : Plain) → (t : ℕ) → AtPoint p t point.now (λ a.
        entailments_of a.preds entailments.new ≡ entailments_of a.preds entailments.old ++ map (spec.type_follows a) (map view.typed types.now))) }
{
    for (z, r) in types {
        entailments.push(Entailment {
            more: Some(Held::Lent(r)),
            goal: type_held(point, *z),
        })?;
    }
    Ok(())
}

/// The invariant of a lock follows, if it has one.
pub fn add_inv<'a>(
    inv: &'a Option<Expr>,
    entailments: &mut List<Entailment<'a>>,
) -> Result<(), NoMemory>
    ensures { OnOk result ((known : List Term) →
        entailments_of known entailments.new ≡ entailments_of known entailments.old ++ map (spec.from_preds known) (option_to_list (option_map term inv.now))) }
{
    match inv {
        Some(e) => entailments.push(Entailment {
            more: None,
            goal: Held::Lent(e),
        }),
        None => Ok(()),
    }
}

/// What the class of each of some variables, controls left out, lets be seen is equal in both runs.
pub fn add_freed<'a>(
    p: &'a Program,
    point: &'a Point,
    hidden: &[u32],
    entailments: &mut List<Entailment<'a>>,
) -> Result<(), NoMemory>
    requires { All (λ x. x < length p.now.vars) hidden.now }
    ensures { OnOk result ((t : ℕ) → AtPoint (plain (view.program p.now)) t point.now (λ a.
        entailments_of a.preds entailments.new ≡ entailments_of a.preds entailments.old
        ++ map (spec.freed_value (plain (view.program p.now)) t a) (filter (λ x. not (declared.is_control (plain (view.program p.now)) x)) hidden.now))) }
{
    for x in hidden {
        add_freed_value(p, point, *x, entailments)?;
    }
    Ok(())
}

/// The same of one variable.
fn add_freed_value<'a>(
    p: &'a Program,
    point: &'a Point,
    x: u32,
    entailments: &mut List<Entailment<'a>>,
) -> Result<(), NoMemory>
    requires { x < length p.now.vars }
    ensures { OnOk result ((t : ℕ) → AtPoint (plain (view.program p.now)) t point.now (λ a.
        entailments_of a.preds entailments.new ≡ entailments_of a.preds entailments.old
        ++ (if not (declared.is_control (plain (view.program p.now)) x) then spec.freed_value (plain (view.program p.now)) t a x ∷ [] else []))) }
{
    if point.is_control(x) {
        return Ok(());
    }
    entailments.push(Entailment {
        more: Some(class_held(p, x)),
        goal: type_held(point, x),
    })?;
    Ok(())
}
