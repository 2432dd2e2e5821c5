//! Masks of variables: controls, what held locks hide, and what threads assume hidden.

ghost use Rattle.std.specs.Prelude.{◌≡◌, length, set, true};
ghost use Rattle.cov_expr.specs.Trees.{occurrences};
ghost use Rattle.cov_expr.specs.View.{term};
ghost use Rattle.cov_ast.specs.View as view;
ghost use Rattle.cov_ast.specs.Plain.{plain, class_term};
ghost use Rattle.cov_ast.specs.Tables.{with_all};
ghost use Rattle.flow_model.specs.FirstDifference.{holders_of};
ghost use Rattle.flow_model.specs.Inside.{with_assumed, with_controls, with_held};

use crate::machine::Holder;
use cov_ast::{Class, Program};
use cov_expr::Expr;

/// Marks the controls of all variables.
pub fn mark_controls(marks: &mut [bool], p: &Program)
    ensures { marks.new ≡ with_controls marks.old (plain (view.program p.now)).vars }
{
    for var in p.vars.as_slice() {
        mark_class(marks, &var.class);
    }
}

fn mark_class(marks: &mut [bool], class: &Class)
    ensures { marks.new ≡ with_all marks.old (occurrences (class_term (view.class class.now))) }
{
    match class {
        Class::Low | Class::High => {}
        Class::When(e) => mark_vars(marks, e),
    }
}

fn mark_vars(marks: &mut [bool], e: &Expr)
    ensures { marks.new ≡ with_all marks.old (occurrences (term e.now)) }
{
    match e {
        Expr::Const(_) => {}
        Expr::Var(x) => mark(marks, *x),
        Expr::Not(a) => mark_vars(marks, a),
        Expr::Bin(_, a, b) => {
            mark_vars(marks, a);
            mark_vars(marks, b);
        }
    }
}

/// Marks what locks that are held hide.
pub fn mark_held(marks: &mut [bool], p: &Program, h: &[Holder])
    requires { length h.now ≡ length p.now.locks }
    ensures { marks.new ≡ with_held marks.old (holders_of h.now) (plain (view.program p.now)).locks }
{
    for (l, lock) in p.locks.as_slice().iter().enumerate() {
        if h[l].0.is_some() {
            mark_all(marks, lock.hide.as_slice());
        }
    }
}

/// Marks what threads assume hidden.
pub fn mark_assumed(marks: &mut [bool], p: &Program)
    ensures { marks.new ≡ with_assumed marks.old (plain (view.program p.now)).threads }
{
    for thread in p.threads.as_slice() {
        mark_all(marks, thread.modes.assume_hide.as_slice());
    }
}

fn mark_all(marks: &mut [bool], numbers: &[u32])
    ensures { marks.new ≡ with_all marks.old numbers.now }
{
    for x in numbers {
        mark(marks, *x);
    }
}

/// Marks a variable. One past the end is left out.
fn mark(marks: &mut [bool], x: u32)
    ensures { marks.new ≡ set marks.old x true }
{
    if (x as usize) < marks.len() {
        marks[x as usize] = true;
    }
}
