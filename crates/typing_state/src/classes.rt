//! What a program declares of its variables: how many there are, which are controls, and the class of each.

ghost use Rattle.std.specs.Prelude.{◌≡◌, ◌<◌, length, IfOk};
ghost use Rattle.cov_expr.specs.Trees.{occurrences};
ghost use Rattle.cov_expr.specs.View.{term};
ghost use Rattle.cov_ast.specs.Plain.{plain};
ghost use Rattle.cov_ast.specs.Plain as spec;
ghost use Rattle.cov_ast.specs.Declarations as declared;
ghost use Rattle.cov_ast.specs.Tables.{with_all};
ghost use Rattle.cov_ast.specs.View as view;
ghost use Rattle.cov_ast.specs.WellFormed.{IsWellFormed};
ghost use Rattle.point_law.specs.Point.{controls_of};

use crate::mentioned::add_variables;
use cov_ast::{Class, Program};
use cov_expr::{Expr, NoMemory, copy};
use mode_state::Mask;
use std::alloc::Global;

/// The set of the variables that are controls.
pub fn control_set(p: &Program) -> Mask
    requires { IsWellFormed (view.program p.now) }
    ensures { result ≡ controls_of (plain (view.program p.now)) }
{
    let mut controls = Mask::new(var_count(p));
    for var in p.vars.as_slice() {
        add_controls(&var.class, &mut controls);
    }
    controls
}

/// Adds the controls of a variable of a class to a set.
fn add_controls(class: &Class, set: &mut Mask)
    ensures { set.new ≡ with_all set.old (occurrences (spec.class_term (view.class class.now))) }
{
    match class {
        Class::Low | Class::High => {}
        Class::When(e) => add_variables(e, set),
    }
}

/// The class of a variable as an expression.
#[tactic(auto, using(crate::proofs::TypeLaws::class_at))]
pub fn class_of(alloc: Global, p: &Program, x: u32) -> Result<Expr, NoMemory>
    requires { x < length p.now.vars }
    ensures { IfOk result (λ made. term made ≡ declared.class_of (plain (view.program p.now)) x) }
{
    class_expr(alloc, &p.vars.as_slice()[x as usize].class)
}

fn class_expr(alloc: Global, class: &Class) -> Result<Expr, NoMemory>
    ensures { IfOk result (λ made. term made ≡ spec.class_term (view.class class.now)) }
{
    match class {
        Class::Low => Ok(Expr::Const(1)),
        Class::High => Ok(Expr::Const(0)),
        Class::When(e) => copy(alloc, e),
    }
}

/// How many variables there are.
pub fn var_count(p: &Program) -> u32
    requires { IsWellFormed (view.program p.now) }
    ensures { result ≡ length p.now.vars }
{
    p.vars.len() as u32
}
