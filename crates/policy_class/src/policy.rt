//! The class of a variable, the controls on which it depends, and that each control is declared low (W3).

ghost use Rattle.std.specs.Prelude.{◌≡◌, ◌<◌, map, length, IfOk};
ghost use Rattle.std.specs.List.{flat_map};
ghost use Rattle.cov_expr.specs.Trees as trees;
ghost use Rattle.cov_expr.specs.Words.{HasVarsBelow};
ghost use Rattle.cov_ast.specs.View as view;
ghost use Rattle.cov_ast.specs.Plain.{plain, class_term};
ghost use Rattle.cov_ast.specs.Declarations as declared;
ghost use Rattle.cov_ast.specs.Tables.{table};
ghost use Rattle.cov_ast.specs.Obligations.{Decides};
ghost use Rattle.cov_ast.specs.WellFormed.{IsWellFormed};
ghost use Rattle.policy_class.specs.Policy as spec;

use cov_ast::{
    CheckFault, Class, Detail, NumberSet, Program, Rule, VarDecl, first_outside, refused,
};
use cov_expr::{List, NoMemory, mentions};
use std::alloc::Global;

/// Refuses a program for the first control, by variables and then by occurrence in a class, that isn't declared low (W3).
pub fn check_policy(alloc: Global, p: &Program) -> Result<(), CheckFault>
    requires { IsWellFormed (view.program p.now) }
    ensures { Decides (spec.policy_obligations (view.program p.now)) result }
{
    let low = plain_low(alloc, p)?;
    check_classes(p, &low)
}

/// The variables whose class is written `low`.
fn plain_low(alloc: Global, p: &Program) -> Result<NumberSet, NoMemory>
    ensures { IfOk result (λ low. low ≡ table (length p.now.vars) (declared.is_plain_low (plain (view.program p.now)))) }
{
    let mut marks = List::new(alloc);
    for var in p.vars.as_slice() {
        marks.push(is_low(&var.class))?;
    }
    Ok(NumberSet::from_marks(marks))
}

fn is_low(class: &Class) -> bool
    ensures { result ≡ declared.is_low (view.class class.now) }
{
    match class {
        Class::Low => true,
        Class::High | Class::When(_) => false,
    }
}

fn check_classes(p: &Program, low: &NumberSet) -> Result<(), CheckFault>
    requires formed { IsWellFormed (view.program p.now) }
    requires low { low.now ≡ table (length p.now.vars) (declared.is_plain_low (plain (view.program p.now))) }
    ensures { Decides (flat_map (spec.control_obligations (view.program p.now)) (map view.var p.now.vars)) result }
{
    for var in p.vars.as_slice() {
        if let Err(fault) = check_class(p, var, low) {
            return Err(fault);
        }
    }
    Ok(())
}

fn check_class(p: &Program, var: &VarDecl, low: &NumberSet) -> Result<(), CheckFault>
    requires range { HasVarsBelow (class_term (view.class var.now.class)) (length p.now.vars) }
    requires low { low.now ≡ table (length p.now.vars) (declared.is_plain_low (plain (view.program p.now))) }
    ensures { Decides (spec.control_obligations (view.program p.now) (view.var var.now)) result }
{
    let Class::When(e) = &var.class else {
        return Ok(());
    };
    match first_outside(e, low) {
        None => Ok(()),
        Some(c) => Err(refused(Rule::W3, var.at, Detail::One(p.var_name(c)))),
    }
}

/// The class of a variable.
pub fn class_of(p: &Program, x: u32) -> &Class
    requires { x < length p.now.vars }
    ensures { view.class result.now ≡ (declared.var_at (plain (view.program p.now)) x).class }
{
    &p.vars.as_slice()[x as usize].class
}

/// Whether a variable is a control of another: whether the class of `x` mentions `c`.
pub fn controls(p: &Program, c: u32, x: u32) -> bool
    requires { x < length p.now.vars }
    ensures { result ≡ declared.controls (plain (view.program p.now)) c x }
{
    depends(class_of(p, x), c)
}

/// Whether a variable is a control: whether the class of some variable mentions it. It takes time in proportion to the classes.
pub fn is_control(p: &Program, x: u32) -> bool
    ensures { result ≡ declared.is_control (plain (view.program p.now)) x }
{
    for var in p.vars.as_slice() {
        if depends(&var.class, x) {
            return true;
        }
    }
    false
}

/// Whether a class mentions a variable.
fn depends(class: &Class, x: u32) -> bool
    ensures { result ≡ trees.mentions (class_term (view.class class.now)) x }
{
    match class {
        Class::Low | Class::High => false,
        Class::When(e) => mentions(e, x),
    }
}
