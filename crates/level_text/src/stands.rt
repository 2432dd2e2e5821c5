//! Where a name stands in a program outside annotations, or as the variable of a type.

ghost use Rattle.std.specs.Prelude.{◌≡◌, ◌||◌, map, option_map};
ghost use Rattle.std.specs.List.{list_any};
ghost use Rattle.cov_expr.specs.Trees.{mentions};
ghost use Rattle.cov_expr.specs.View.{term};
ghost use Rattle.cov_ast.specs.Declarations.{invariant_term, have_assumed, have_guaranteed};
ghost use Rattle.cov_ast.specs.Plain.{class_term};
ghost use Rattle.cov_ast.specs.View as view;
ghost use Rattle.level_text.specs.TextFaults as spec;

use cov_ast::{Class, LockDecl, Modes, Parsed, Retype, Stmt, StmtKind, ThreadDecl, VarDecl};
use cov_expr::{Expr, has_number, mentions};

/// Whether a name, by its number, stands there.
pub fn in_program(p: &Parsed, m: u32) -> bool
    ensures { result ≡ spec.in_program m (view.parsed p.now) }
{
    in_classes(p.vars.as_slice(), m)
        || in_locks(p.locks.as_slice(), m)
        || in_threads(p.threads.as_slice(), m)
}

fn in_classes(vars: &[VarDecl], m: u32) -> bool
    ensures { result ≡ list_any (λ v. mentions (class_term v.class) m) (map view.var vars.now) }
{
    for var in vars {
        if in_class(&var.class, m) {
            return true;
        }
    }
    false
}

fn in_class(class: &Class, m: u32) -> bool
    ensures { result ≡ mentions (class_term (view.class class.now)) m }
{
    match class {
        Class::Low | Class::High => false,
        Class::When(e) => mentions(e, m),
    }
}

fn in_locks(locks: &[LockDecl], m: u32) -> bool
    ensures { result ≡ list_any (spec.in_lock m) (map view.lock locks.now) }
{
    for lock in locks {
        if lock.lists(m) || in_invariant(&lock.inv, m) {
            return true;
        }
    }
    false
}

fn in_invariant(inv: &Option<Expr>, m: u32) -> bool
    ensures { result ≡ mentions (invariant_term (option_map term inv.now)) m }
{
    match inv {
        Some(e) => mentions(e, m),
        None => false,
    }
}

fn in_threads(threads: &[ThreadDecl], m: u32) -> bool
    ensures { result ≡ list_any (spec.in_thread m) (map view.thread threads.now) }
{
    for thread in threads {
        if in_modes(&thread.modes, m) || in_block(thread.body.as_slice(), m) {
            return true;
        }
    }
    false
}

fn in_modes(modes: &Modes, m: u32) -> bool
    ensures { result ≡ (have_assumed (view.modes modes.now) m || have_guaranteed (view.modes modes.now) m) }
{
    has_number(modes.assume_nowrite.as_slice(), m)
        || has_number(modes.assume_hide.as_slice(), m)
        || has_number(modes.guarantee_nowrite.as_slice(), m)
        || has_number(modes.guarantee_hide.as_slice(), m)
}

#[cycle(blocks)]
fn in_block(body: &[Stmt], m: u32) -> bool
    ensures { result ≡ spec.in_block m (view.block body.now) }
{
    for stmt in body {
        if in_kind(&stmt.kind, m) {
            return true;
        }
    }
    false
}

#[cycle(blocks)]
fn in_kind(kind: &StmtKind, m: u32) -> bool
    ensures { result ≡ spec.in_stm m (view.kind kind.now) }
{
    match kind {
        StmtKind::Assign(x, e, _, retypes) => {
            *x == m || mentions(e, m) || in_retypes(retypes.as_slice(), m)
        }
        StmtKind::If(e, a, b, join) => {
            mentions(e, m)
                || in_types(join.types.as_slice(), m)
                || in_block(a.as_slice(), m)
                || in_block(b.as_slice(), m)
        }
        StmtKind::While(e, inv, b) => {
            mentions(e, m) || in_types(inv.types.as_slice(), m) || in_block(b.as_slice(), m)
        }
        StmtKind::Note(state) => in_types(state.types.as_slice(), m),
        StmtKind::Output(e) => mentions(e, m),
        _ => false,
    }
}

fn in_types(types: &[(u32, Expr)], m: u32) -> bool
    ensures { result ≡ spec.in_types m (map view.typed types.now) }
{
    for typed in types {
        if typed.0 == m {
            return true;
        }
    }
    false
}

fn in_retypes(retypes: &[Retype], m: u32) -> bool
    ensures { result ≡ spec.in_types m (map view.retype retypes.now) }
{
    for retype in retypes {
        if retype.var == m {
            return true;
        }
    }
    false
}
