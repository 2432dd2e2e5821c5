//! Whether two observers are shown the same of a program. Then it is checked once for both.

ghost use Rattle.std.specs.Prelude.{◌≡◌, ◌<◌, IsTrue, length, map};
ghost use Rattle.cov_ast.specs.View as program_view;
ghost use Rattle.level_text.specs.Views as view;
ghost use Rattle.levels.specs.Inside.Alike.{HaveClassesAlike, HaveMarksAlike, IsShownBefore};
ghost use Rattle.levels.specs.Projection as spec;

use crate::marks::mark;
use cov_ast::{NumberSet, Program, VarDecl};
use cov_expr::Name;
use level_text::{LevelClass, Levels};

/// Whether an observer in front of one is shown the same of a program, as far as markers and the levels of classes tell.
pub fn is_shown_before(p: &Program, l: &Levels, rows: &[NumberSet], observer: usize) -> bool
    requires { observer < length rows.now }
    ensures { IsTrue result → IsShownBefore rows.now (view.levels l.now) (program_view.program p.now) observer }
{
    for before in 0..observer {
        if are_shown_alike(&rows[before], &rows[observer], l, p) {
            return true;
        }
    }
    false
}

fn are_shown_alike(one: &NumberSet, two: &NumberSet, l: &Levels, p: &Program) -> bool
    ensures { IsTrue result → spec.shown one.now (view.levels l.now) (program_view.program p.now)
        ≡ spec.shown two.now (view.levels l.now) (program_view.program p.now) }
{
    have_marks_alike(one, two, l.names.as_slice(), p.vars.as_slice())
        && have_classes_alike(one, two, l.classes.as_slice())
}

fn have_marks_alike(one: &NumberSet, two: &NumberSet, names: &[Name], vars: &[VarDecl]) -> bool
    ensures { IsTrue result → HaveMarksAlike one.now two.now names.now (map program_view.var vars.now) }
{
    for var in vars {
        if mark(one, names, var) != mark(two, names, var) {
            return false;
        }
    }
    true
}

fn have_classes_alike(one: &NumberSet, two: &NumberSet, classes: &[(u32, LevelClass)]) -> bool
    ensures { IsTrue result → HaveClassesAlike one.now two.now (map view.listed classes.now) }
{
    for listed in classes {
        if !is_class_alike(one, two, &listed.1) {
            return false;
        }
    }
    true
}

fn is_class_alike(one: &NumberSet, two: &NumberSet, class: &LevelClass) -> bool
    ensures { IsTrue result → spec.shown_class one.now (view.class class.now) ≡ spec.shown_class two.now (view.class class.now) }
{
    match class {
        LevelClass::At(b) => one.has(*b) == two.has(*b),
        LevelClass::When(_, b, c) => one.has(*b) == two.has(*b) && one.has(*c) == two.has(*c),
    }
}
