//! The line of V16: what has too many nodes.

ghost use Rattle.cov_expr.specs.declared.limits.TheConstants.{MOST_VARIABLES};
ghost use Rattle.std.specs.Prelude.{◌≡◌, ◌≤◌, ◌++◌, OnOk, Some, length, map, option_map};
ghost use Rattle.cov_expr.specs.View.{term};
ghost use Rattle.cov_ast.specs.View as view;
ghost use Rattle.refusal_names.specs.LargeTerms as spec;
ghost use Rattle.statement_paths.specs.Paths.{step};

use crate::reads::add_variable;
use cov_ast::{Class, NameTable, NumberSet, Retype, StmtKind, VarDecl};
use cov_expr::{Blob, Expr, MOST_NODES, NoMemory, mentions, nodes_at_most};
use statement_parts::parts_of;
use statement_paths::Step;
use text_parts::add_line_of;
use typing_rules::subst_nodes_left;

/// What is made on the way: its place, and words for it.
type Made = (u32, &'static [u8]);

/// Adds what of a statement is too large, or of the way to it.
pub fn add_large(
    vars: &[VarDecl],
    names: &NameTable,
    bytes: &[u8],
    hidden: &NumberSet,
    steps: &[Step<'_>],
    kind: &StmtKind,
    text: &mut Blob,
) -> Result<(), NoMemory>
    requires { length vars.now ≤ MOST_VARIABLES }
    ensures { OnOk result (text.new ≡ text.old
        ++ spec.large_line (map view.var vars.now) names.now bytes.now hidden.now (map step steps.now) (view.kind kind.now)) }
{
    let parts = parts_of(kind);
    match parts.store {
        Some(store) => match large_class(vars, hidden, store.variable, store.value) {
            Some(y) => {
                text.extend_from_slice(b"  the class of ")?;
                add_variable(names, y, text)?;
                add_with_value(names, store.variable, text)
            }
            None => match large_retype(store.retypes, store.variable, store.value) {
                Some(y) => {
                    text.extend_from_slice(b"  the type by `retype` of ")?;
                    add_variable(names, y, text)?;
                    add_with_value(names, store.variable, text)
                }
                None => add_made_or_value(bytes, steps, text),
            },
        },
        None => match (parts.printed, parts.state, parts.returned) {
            (Some(_), _, _) => add_made_or_value(bytes, steps, text),
            (None, Some(_), _) | (None, None, Some(_)) => {
                add_made_or(bytes, last_made(steps), b"", text)
            }
            (None, None, None) => Ok(()),
        },
    }
}

/// The first variable that isn't hidden and whose class is too large with a value in the place of another variable.
fn large_class(vars: &[VarDecl], hidden: &NumberSet, x: u32, value: &Expr) -> Option<u32>
    requires { length vars.now ≤ MOST_VARIABLES }
    ensures { result ≡ spec.large_class hidden.now x (term value.now) 0 (map view.var vars.now) }
{
    for (y, var) in vars.iter().enumerate() {
        let is_large_class = match &var.class {
            Class::Low | Class::High => false,
            Class::When(e) => is_large_with(e, x, value),
        };
        if !hidden.has_index(y) && is_large_class {
            return Some(y as u32);
        }
    }
    None
}

/// The first variable that is given a type which is too large with a value in the place of another variable.
fn large_retype(retypes: &[Retype], x: u32, value: &Expr) -> Option<u32>
    ensures { result ≡ spec.large_retype x (term value.now) (map view.retype retypes.now) }
{
    for retype in retypes {
        if is_large_with(&retype.class, x, value) {
            return Some(retype.var);
        }
    }
    None
}

/// Whether an expression mentions a variable, and is too large with a value in its place.
fn is_large_with(e: &Expr, x: u32, value: &Expr) -> bool
    ensures { result ≡ spec.is_large_with x (term value.now) (term e.now) }
{
    mentions(e, x) && subst_nodes_left(e, x, value, MOST_NODES).is_none()
}

/// The last that steps make and that is too large.
fn last_made(steps: &[Step<'_>]) -> Option<Made>
    ensures { option_map (λ m. (m.0, m.1.now)) result ≡ spec.last_made (map step steps.now) }
{
    let mut last = None;
    for next in steps {
        if let Some(made) = made_by(next) {
            last = Some(made);
        }
    }
    last
}

/// What a step makes that is too large.
fn made_by(next: &Step<'_>) -> Option<Made>
    ensures { option_map (λ m. (m.0, m.1.now)) result ≡ spec.made_by (step next.now) }
{
    match next {
        Step::Passed(stmt) => {
            let parts = parts_of(&stmt.kind);
            match (parts.store, parts.left_guard()) {
                (Some(store), _) => {
                    if nodes_at_most(store.value, MOST_NODES - 2) {
                        None
                    } else {
                        Some((stmt.at, b"equation of the assignment"))
                    }
                }
                (None, Some(guard)) => large_negation(stmt.at, guard),
                (None, None) => None,
            }
        }
        Step::No(at, guard) => large_negation(*at, guard),
        Step::Yes(..) | Step::Head(..) => None,
    }
}

/// The negation of a guard, where it is too large: it has one node more than the guard.
fn large_negation(at: u32, guard: &Expr) -> Option<Made>
    ensures { option_map (λ m. (m.0, m.1.now)) result ≡ spec.large_negation at (term guard.now) }
{
    if nodes_at_most(guard, MOST_NODES - 1) {
        None
    } else {
        Some((at, b"negation of the guard"))
    }
}

/// Adds what steps make that is too large, or that it is the type of a value.
fn add_made_or_value(bytes: &[u8], steps: &[Step<'_>], text: &mut Blob) -> Result<(), NoMemory>
    ensures { OnOk result (text.new ≡ text.old ++ spec.made_or bytes.now (spec.last_made (map step steps.now)) spec.value_text) }
{
    let later = b"  the type of the value, by those of its variables, has more than 1,000 nodes\n";
    add_made_or(bytes, last_made(steps), later, text)
}

/// Adds what is made on the way, or something else where there is nothing.
fn add_made_or(
    bytes: &[u8],
    made: Option<Made>,
    later: &[u8],
    text: &mut Blob,
) -> Result<(), NoMemory>
    ensures { OnOk result (text.new ≡ text.old ++ spec.made_or bytes.now (option_map (λ m. (m.0, m.1.now)) made.entry) later.now) }
{
    match made {
        Some((at, words)) => {
            text.extend_from_slice(b"  the ")?;
            text.extend_from_slice(words)?;
            text.extend_from_slice(b" in line ")?;
            add_line_of(bytes, at, text)?;
            text.extend_from_slice(b" has more than 1,000 nodes\n")
        }
        None => text.extend_from_slice(later),
    }
}

/// Adds in the place of which variable a value stands.
fn add_with_value(names: &NameTable, x: u32, text: &mut Blob) -> Result<(), NoMemory>
    ensures { OnOk result (text.new ≡ text.old ++ spec.with_value names.now x) }
{
    text.extend_from_slice(b", with the value for ")?;
    add_variable(names, x, text)?;
    text.extend_from_slice(b", has more than 1,000 nodes\n")
}
