//! What is asked of an assignment.

ghost use Rattle.cov_expr.specs.declared.limits.TheConstants.{MOST_VARIABLES};
ghost use Rattle.std.specs.Prelude.{◌≡◌, ◌<◌, ◌≤◌, [], ◌∷◌, ◌++◌, if◌then◌else◌, OnOk, filter, length, map, option_map};
ghost use Rattle.std.specs.List.{range_with_len};
ghost use Rattle.cov_expr.specs.View.{term};
ghost use Rattle.cov_ast.specs.Plain.{plain};
ghost use Rattle.cov_ast.specs.Tables.{has};
ghost use Rattle.cov_ast.specs.View as view;
ghost use Rattle.entail_origins.specs.Questions as spec;

use crate::kinds::Question;
use cov_ast::{NumberSet, Program, Retype};
use cov_expr::{Expr, List, NoMemory};
use policy_class::{controls, is_control};

/// Adds what is asked of an assignment to a variable, where the others may not read those of a set.
pub fn add_assignment(
    p: &Program,
    hidden: &NumberSet,
    x: u32,
    written: Option<&Expr>,
    retypes: &[Retype],
    made: &mut List<Question>,
) -> Result<(), NoMemory>
    requires { length p.now.vars ≤ MOST_VARIABLES }
    ensures { OnOk result (made.new ≡ made.old ++ spec.of_assignment (plain (view.program p.now)) (has hidden.now) x (option_map (λ e. term e.now) written.entry) (map view.retype retypes.now)) }
{
    match written {
        Some(_) => made.push(Question::Written)?,
        None => {}
    }
    if is_control(p, x) || !hidden.has(x) {
        made.push(Question::Shown(x))?;
    }
    if is_control(p, x) {
        add_each_controlled(p, hidden, x, made)?;
    }
    for retype in retypes {
        made.push(Question::Retyped(retype.var))?;
    }
    Ok(())
}

/// Adds what is asked of each variable whose class mentions a control, and that others may read.
fn add_each_controlled(
    p: &Program,
    hidden: &NumberSet,
    x: u32,
    made: &mut List<Question>,
) -> Result<(), NoMemory>
    requires { length p.now.vars ≤ MOST_VARIABLES }
    ensures { OnOk result (made.new ≡ made.old ++ map Question.Controlled (filter (spec.is_shown_by (plain (view.program p.now)) (has hidden.now) x) (range_with_len 0 (length p.now.vars)))) }
{
    for y in 0..p.vars.len() as u32 {
        add_controlled_by(p, hidden, x, y, made)?;
    }
    Ok(())
}

/// Adds what is asked of one variable, if its class mentions a control, and others may read it.
fn add_controlled_by(
    p: &Program,
    hidden: &NumberSet,
    x: u32,
    y: u32,
    made: &mut List<Question>,
) -> Result<(), NoMemory>
    requires { y < length p.now.vars }
    ensures { OnOk result (made.new ≡ made.old ++ (if spec.is_shown_by (plain (view.program p.now)) (has hidden.now) x y then Question.Controlled y ∷ [] else [])) }
{
    if controls(p, x, y) && !hidden.has(y) {
        made.push(Question::Controlled(y))?;
    }
    Ok(())
}
