//! The first variable or lock that makes two memories unfit to start from.

ghost use Rattle.std.specs.Prelude.{◌≡◌, ◌↔◌, ◌&&◌, length, IsNone};
ghost use Rattle.cov_expr.specs.Words.{HasVarsBelow};
ghost use Rattle.cov_ast.specs.View as view;
ghost use Rattle.cov_ast.specs.Plain.{plain};
ghost use Rattle.cov_ast.specs.Declarations.{invariant_term};
ghost use Rattle.cov_ast.specs.WellFormed.{IsWellFormed};
ghost use Rattle.flow_model.specs.Agreement.{AreFitStarts};
ghost use Rattle.flow_model.specs.FirstDifference as spec;

use crate::agreement::is_low;
use cov_ast::{LockDecl, Program};
use cov_expr::eval;

/// What makes two memories unfit to start from.
#[derive(Clone, Copy, PartialEq, Eq)]
pub enum BadStart {
    /// This variable is low, hidden or not, and its words differ.
    Var(u32),
    /// The invariant of this lock doesn't hold in both.
    Lock(u32),
}

/// The first variable, or else the first lock, that makes two memories unfit to start from. `None` comes exactly where they
/// are fit: each variable that is low in the first has the same word in both, and each lock's invariant holds in both. It
/// takes no memory.
pub fn starts(p: &Program, m1: &[u32], m2: &[u32]) -> Option<BadStart>
    requires formed { IsWellFormed (view.program p.now) }
    requires first_memory { length m1.now ≡ length p.now.vars }
    requires second_memory { length m2.now ≡ length p.now.vars }
    ensures first { result ≡ spec.first_bad_start (plain (view.program p.now)) m1.now m2.now }
    ensures fit { IsNone result ↔ AreFitStarts (plain (view.program p.now)) m1.now m2.now }
{
    if let Some(x) = low_apart(p, m1, m2) {
        return Some(BadStart::Var(x));
    }
    broken_invariant(p, m1, m2).map(BadStart::Lock)
}

/// The first variable whose words differ and that is low in the first memory.
fn low_apart(p: &Program, m1: &[u32], m2: &[u32]) -> Option<u32>
    requires formed { IsWellFormed (view.program p.now) }
    requires first_memory { length m1.now ≡ length p.now.vars }
    requires second_memory { length m2.now ≡ length p.now.vars }
    ensures { result ≡ spec.first_var (plain (view.program p.now)) (spec.is_low_apart (plain (view.program p.now)) m1.now m2.now) }
{
    for (x, var) in p.vars.as_slice().iter().enumerate() {
        if m1[x] != m2[x] && is_low(&var.class, m1) {
            return Some(x as u32);
        }
    }
    None
}

/// The first lock whose invariant doesn't hold in both memories.
fn broken_invariant(p: &Program, m1: &[u32], m2: &[u32]) -> Option<u32>
    requires formed { IsWellFormed (view.program p.now) }
    requires first_memory { length m1.now ≡ length p.now.vars }
    requires second_memory { length m2.now ≡ length p.now.vars }
    ensures { result ≡ spec.first_lock (plain (view.program p.now)) (spec.is_broken (plain (view.program p.now)) m1.now m2.now) }
{
    for (l, lock) in p.locks.as_slice().iter().enumerate() {
        if !holds_in_both(lock, m1, m2) {
            return Some(l as u32);
        }
    }
    None
}

fn holds_in_both(lock: &LockDecl, m1: &[u32], m2: &[u32]) -> bool
    requires first_memory { HasVarsBelow (invariant_term (view.lock lock.now).inv) (length m1.now) }
    requires second_memory { HasVarsBelow (invariant_term (view.lock lock.now).inv) (length m2.now) }
    ensures { result ≡ (spec.is_true_in (invariant_term (view.lock lock.now).inv) m1.now && spec.is_true_in (invariant_term (view.lock lock.now).inv) m2.now) }
{
    match &lock.inv {
        Some(inv) => eval(inv, m1) != 0 && eval(inv, m2) != 0,
        None => true,
    }
}
