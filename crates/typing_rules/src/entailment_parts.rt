//! Expressions that entailments hold, lent where they stand in the program or in a point.

ghost use Rattle.std.specs.Prelude.{◌≡◌, ◌<◌, ℕ, length};
ghost use Rattle.cov_ast.specs.Declarations as declared;
ghost use Rattle.cov_ast.specs.Plain.{Plain, plain};
ghost use Rattle.cov_ast.specs.View as view;
ghost use Rattle.point_law.specs.Point as point_spec;
ghost use Rattle.typing_state.specs.KeptPoints.{AtPoint};
ghost use Rattle.entail_cert.specs.HeldTerms.{held_term};

use cov_ast::{Class, Program};
use cov_expr::Expr;
use entail_cert::Held;
use policy_class::class_of;
use typing_state::Point;

/// The class of a variable as an expression.
pub fn class_held(p: &Program, x: u32) -> Held<'_>
    requires { x < length p.now.vars }
    ensures { held_term result ≡ declared.class_of (plain (view.program p.now)) x }
{
    match class_of(p, x) {
        Class::Low => Held::Made(Expr::Const(1)),
        Class::High => Held::Made(Expr::Const(0)),
        Class::When(e) => Held::Lent(e),
    }
}

/// The type that a point has for a variable, or 0 where it has none.
pub fn type_held(point: &Point, z: u32) -> Held<'_>
    ensures { (p : Plain) → (t : ℕ) → AtPoint p t point.now (λ a. held_term result ≡ point_spec.type_at a z) }
{
    match point.type_of(z) {
        Some(q) => Held::Lent(q),
        None => Held::Made(Expr::Const(0)),
    }
}

/// The type of a variable that is read.
pub fn read_held<'a>(p: &'a Program, point: &'a Point, y: u32) -> Held<'a>
    requires { y < length p.now.vars }
    ensures { (t : ℕ) → AtPoint (plain (view.program p.now)) t point.now (λ a.
        held_term result ≡ point_spec.ty_var (plain (view.program p.now)) t a y) }
{
    if point.is_control(y) {
        return Held::Made(Expr::Const(1));
    }
    match point.type_of(y) {
        Some(q) => Held::Lent(q),
        None => class_held(p, y),
    }
}
