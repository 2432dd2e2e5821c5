//! A memory that breaks an entailment for which no certificate is found.

ghost use Rattle.std.specs.Prelude.{◌≡◌, ◌++◌, OnOk};
ghost use Rattle.cov_expr.specs.View.{term};
ghost use Rattle.entail_text.specs.BrokenLines as spec;

use crate::zero::add_zero;
use cert_search::MOST_DEPTH;
use cov_ast::NameTable;
use cov_expr::{Blob, Expr, NoMemory, closed};
use cov_print::add_expr;
use entail_counter::Binding;
use text_parts::add_number;

/// Adds that neither a certificate nor a memory is found.
pub fn add_neither(goal: &Expr, text: &mut Blob) -> Result<(), NoMemory>
    ensures { OnOk result (text.new ≡ text.old ++ spec.neither_lines (term goal.now)) }
{
    text.extend_from_slice(b"  suggestion:   none: no certificate of up to ")?;
    add_number(MOST_DEPTH as usize, text)?;
    text.extend_from_slice(
        b" steps is valid, no longer one was found, and no memory that breaks it\n",
    )?;
    add_zero(goal, text)
}

/// Adds a memory, that it breaks the entailment, and what would have to be otherwise.
pub fn add_broken(
    names: &NameTable,
    goal: &Expr,
    m: &[Binding],
    text: &mut Blob,
) -> Result<(), NoMemory>
    ensures { OnOk result (text.new ≡ text.old ++ spec.broken_lines names.now (term goal.now) m.now) }
{
    text.extend_from_slice(b"  breaks it:    ")?;
    add_memory(names, m, text)?;
    text.extend_from_slice(
        b"   (all hypotheses hold there, and the goal doesn't: no certificate can show it, unless ",
    )?;
    text.extend_from_slice(wanted(goal).as_bytes())?;
    text.extend_from_slice(b")\n")
}

/// What would have to be otherwise, by whether the goal has a variable.
fn wanted(goal: &Expr) -> &'static str
    ensures { result.now ≡ spec.wanted (term goal.now) }
{
    if closed(goal) {
        "a type says more, more is known here, or less is asked"
    } else {
        "more is known here, as by a test around it, or less is asked"
    }
}

/// Adds the bindings of a memory, with commas between.
fn add_memory(names: &NameTable, m: &[Binding], text: &mut Blob) -> Result<(), NoMemory>
    ensures { OnOk result (text.new ≡ text.old ++ spec.memory_text names.now m.now) }
{
    match m {
        [] => text.extend_from_slice(b"each memory"),
        [first, rest @ ..] => {
            add_binding(names, *first, text)?;
            for b in rest {
                text.extend_from_slice(b", ")?;
                add_binding(names, *b, text)?;
            }
            Ok(())
        }
    }
}

/// Adds a variable and its value.
fn add_binding(names: &NameTable, b: Binding, text: &mut Blob) -> Result<(), NoMemory>
    ensures { OnOk result (text.new ≡ text.old ++ spec.binding_text names.now b) }
{
    add_expr(names, false, &Expr::Var(b.variable), text)?;
    text.extend_from_slice(b" = ")?;
    add_number(b.value as usize, text)
}
