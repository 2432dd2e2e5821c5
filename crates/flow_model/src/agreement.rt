//! The first lock or variable on which two memories with holders don't agree.

ghost use Rattle.std.specs.Prelude.{◌≡◌, ◌↔◌, ◌≤◌, ◌&&◌, ◌||◌, not, length, IsNone};
ghost use Rattle.cov_expr.specs.Words.{HasVarsBelow};
ghost use Rattle.cov_ast.specs.View as view;
ghost use Rattle.cov_ast.specs.Plain.{plain, class_term};
ghost use Rattle.cov_ast.specs.WellFormed.{IsWellFormed};
ghost use Rattle.flow_model.specs.Agreement.{MemoriesAgree};
ghost use Rattle.flow_model.specs.FirstDifference as spec;
ghost use Rattle.flow_model.specs.FirstDifference.{held_by, holders_of};
ghost use Rattle.flow_model.specs.Inside.{is_marked_apart};

use crate::machine::Holder;
use crate::marks::{mark_assumed, mark_controls, mark_held};
use cov_ast::{Class, Program};
use cov_expr::{MOST_VARIABLES, eval};

/// What two states don't agree on.
#[derive(Clone, Copy, PartialEq, Eq)]
pub enum Differ {
    /// The holders of this lock.
    Lock(u32),
    /// The words of this variable.
    Var(u32),
    /// The outputs.
    Output,
    /// What remains of this thread.
    Thread(u32),
}

/// The first lock, or else the first variable, on which two memories with holders don't agree. `None` comes exactly where
/// they agree: the holders are the same, and so is the word of each control, and of each variable that is low in the first
/// memory and not hidden (low-equivalence after COVERN). It takes no memory, and the time of one pass over the declarations.
pub fn agree(p: &Program, m1: &[u32], h1: &[Holder], m2: &[u32], h2: &[Holder]) -> Option<Differ>
    requires formed { IsWellFormed (view.program p.now) }
    requires first_memory { length m1.now ≡ length p.now.vars }
    requires first_holders { length h1.now ≡ length p.now.locks }
    requires second_memory { length m2.now ≡ length p.now.vars }
    requires second_holders { length h2.now ≡ length p.now.locks }
    ensures first { result ≡ spec.first_difference (plain (view.program p.now)) m1.now (holders_of h1.now) m2.now (holders_of h2.now) }
    ensures agree { IsNone result ↔ MemoriesAgree (plain (view.program p.now)) m1.now (holders_of h1.now) m2.now (holders_of h2.now) }
{
    if let Some(l) = lock_apart(p, h1, h2) {
        return Some(Differ::Lock(l));
    }
    var_apart(p, m1, h1, m2).map(Differ::Var)
}

/// The first lock whose holders differ.
fn lock_apart(p: &Program, h1: &[Holder], h2: &[Holder]) -> Option<u32>
    requires formed { IsWellFormed (view.program p.now) }
    requires first_holders { length h1.now ≡ length p.now.locks }
    requires second_holders { length h2.now ≡ length p.now.locks }
    ensures { result ≡ spec.first_lock (plain (view.program p.now)) (spec.holders_differ (holders_of h1.now) (holders_of h2.now)) }
{
    for l in 0..p.locks.len() {
        if !same_holder(h1[l], h2[l]) {
            return Some(l as u32);
        }
    }
    None
}

fn same_holder(a: Holder, b: Holder) -> bool
    ensures { result ≡ spec.same_holder (held_by a) (held_by b) }
{
    match (a.0, b.0) {
        (None, None) => true,
        (Some(t), Some(u)) => t == u,
        _ => false,
    }
}

/// The first variable whose words differ and that is compared.
fn var_apart(p: &Program, m1: &[u32], h1: &[Holder], m2: &[u32]) -> Option<u32>
    requires formed { IsWellFormed (view.program p.now) }
    requires first_memory { length m1.now ≡ length p.now.vars }
    requires first_holders { length h1.now ≡ length p.now.locks }
    requires second_memory { length m2.now ≡ length p.now.vars }
    ensures { result ≡ spec.first_var (plain (view.program p.now)) (spec.is_apart (plain (view.program p.now)) m1.now (holders_of h1.now) m2.now) }
{
    let mut controls = [false; MOST_VARIABLES];
    mark_controls(&mut controls, p);
    let mut hidden = [false; MOST_VARIABLES];
    mark_held(&mut hidden, p, h1);
    mark_assumed(&mut hidden, p);
    marked_apart(p, m1, m2, &controls, &hidden)
}

/// The first variable whose words differ and that is marked as a control, or is low and not marked as hidden.
fn marked_apart(
    p: &Program,
    m1: &[u32],
    m2: &[u32],
    controls: &[bool],
    hidden: &[bool],
) -> Option<u32>
    requires formed { IsWellFormed (view.program p.now) }
    requires first_memory { length m1.now ≡ length p.now.vars }
    requires second_memory { length m2.now ≡ length p.now.vars }
    requires controls { length p.now.vars ≤ length controls.now }
    requires hidden { length p.now.vars ≤ length hidden.now }
    ensures { result ≡ spec.first_var (plain (view.program p.now)) (is_marked_apart (plain (view.program p.now)) m1.now m2.now controls.now hidden.now) }
{
    for (x, var) in p.vars.as_slice().iter().enumerate() {
        if m1[x] != m2[x] && is_compared(&var.class, m1, controls[x], hidden[x]) {
            return Some(x as u32);
        }
    }
    None
}

/// Whether a variable is a control, or low and not hidden.
fn is_compared(class: &Class, m: &[u32], control: bool, hidden: bool) -> bool
    requires { HasVarsBelow (class_term (view.class class.now)) (length m.now) }
    ensures { result ≡ (control || (spec.is_true_in (class_term (view.class class.now)) m.now && not hidden)) }
{
    control || (!hidden && is_low(class, m))
}

/// Whether a class holds in a memory.
pub fn is_low(class: &Class, m: &[u32]) -> bool
    requires { HasVarsBelow (class_term (view.class class.now)) (length m.now) }
    ensures { result ≡ spec.is_true_in (class_term (view.class class.now)) m.now }
{
    match class {
        Class::Low => true,
        Class::High => false,
        Class::When(e) => eval(e, m) != 0,
    }
}
