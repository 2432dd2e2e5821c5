//! The line of V10: how wide an expression is.

ghost use Rattle.std.specs.Prelude.{◌≡◌, ◌++◌, OnOk};
ghost use Rattle.cov_ast.specs.View as view;
ghost use Rattle.cov_expr.specs.View.{term};
ghost use Rattle.refusal_names.specs.SpokenParts as parts;
ghost use Rattle.refusal_names.specs.WideExpressions as spec;

use cov_ast::StmtKind;
use cov_expr::{Blob, Expr, NoMemory};
use statement_parts::parts_of;
use text_parts::add_number;

/// Adds how wide the expression is that a statement evaluates, if it does.
pub fn add_width(kind: &StmtKind, text: &mut Blob) -> Result<(), NoMemory>
    ensures { OnOk result (text.new ≡ text.old ++ spec.width_line (parts.evaluated_expression (view.kind kind.now))) }
{
    match parts_of(kind).evaluated() {
        Some(e) => add_width_text(width(e), text),
        None => Ok(()),
    }
}

/// Adds a width.
fn add_width_text(many: u32, text: &mut Blob) -> Result<(), NoMemory>
    ensures { OnOk result (text.new ≡ text.old ++ spec.width_text many) }
{
    text.extend_from_slice(b"  its width is ")?;
    add_number(many as usize, text)?;
    text.extend_from_slice(b"\n")
}

/// The width of an expression, or the largest number of 32 bits where it is larger.
fn width(e: &Expr) -> u32
    ensures { result ≡ spec.counted_width (term e.now) }
{
    match e {
        Expr::Const(_) | Expr::Var(_) => 1,
        Expr::Not(a) => width(a).max(2),
        Expr::Bin(_, a, b) => width(a).max(width(b).saturating_add(1)),
    }
}
