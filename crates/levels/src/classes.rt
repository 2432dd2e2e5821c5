//! The classes that an observer is shown.

ghost use Rattle.std.specs.Prelude.{◌≡◌, map, IfOk, OnOk};
ghost use Rattle.cov_ast.specs.View as view;
ghost use Rattle.cov_expr.specs.Term.{bin};
ghost use Rattle.cov_expr.specs.View.{term};
ghost use Rattle.cov_expr.specs.declared.expr.Op.TheVariants as ops;
ghost use Rattle.level_text.specs.Views as level_view;
ghost use Rattle.levels.specs.Projection as spec;

use crate::marks::number;
use cov_ast::{Class, NumberSet, VarDecl};
use cov_expr::{Expr, NoMemory, Op, boxed, copy};
use level_text::{LevelClass, Levels};
use std::alloc::Global;

/// Gives variables the classes that an observer is shown who sees these levels.
pub fn show_classes(
    alloc: Global,
    seen: &NumberSet,
    l: &Levels,
    vars: &mut [VarDecl],
) -> Result<(), NoMemory>
    ensures { OnOk result (map view.var vars.new ≡ spec.shown_vars seen.now (level_view.levels l.now) 0 (map view.var vars.old)) }
{
    for x in 0..vars.len() {
        show_class(alloc, seen, l, x, &mut vars[x].class)?;
    }
    Ok(())
}

/// Gives a variable the class that is listed for it, as it is shown, if one is.
fn show_class(
    alloc: Global,
    seen: &NumberSet,
    l: &Levels,
    x: usize,
    class: &mut Class,
) -> Result<(), NoMemory>
    ensures { OnOk result (view.class class.new ≡ spec.class_or seen.now (spec.listed (level_view.levels l.now) x) (view.class class.old)) }
{
    for listed in l.classes.as_slice() {
        if listed.0 as usize == x {
            *class = shown_class(alloc, seen, &listed.1)?;
            return Ok(());
        }
    }
    Ok(())
}

fn shown_class(alloc: Global, seen: &NumberSet, class: &LevelClass) -> Result<Class, NoMemory>
    ensures { IfOk result (λ made. view.class made ≡ spec.shown_class seen.now (level_view.class class.now)) }
{
    match class {
        LevelClass::At(b) => Ok(if seen.has(*b) {
            Class::Low
        } else {
            Class::High
        }),
        LevelClass::When(e, b, c) => {
            let first = both(alloc, copy(alloc, e)?, level_expr(seen, *b))?;
            let other = boxed(alloc, copy(alloc, e)?)?;
            let second = both(alloc, Expr::Not(other), level_expr(seen, *c))?;
            Ok(Class::When(binary(alloc, Op::Either, first, second)?))
        }
    }
}

fn level_expr(seen: &NumberSet, b: u32) -> Expr
    ensures { term result ≡ spec.level_term seen.now b }
{
    Expr::Const(number(seen.has(b)))
}

fn both(alloc: Global, a: Expr, b: Expr) -> Result<Expr, NoMemory>
    ensures { IfOk result (λ made. term made ≡ bin ops.Both (term a) (term b)) }
{
    binary(alloc, Op::Both, a, b)
}

fn binary(alloc: Global, op: Op, a: Expr, b: Expr) -> Result<Expr, NoMemory>
    ensures { IfOk result (λ made. term made ≡ bin op (term a) (term b)) }
{
    let left = boxed(alloc, a)?;
    let right = boxed(alloc, b)?;
    Ok(Expr::Bin(op, left, right))
}
