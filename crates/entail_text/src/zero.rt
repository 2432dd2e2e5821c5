//! Goals that are 0.

ghost use Rattle.std.specs.Prelude.{◌≡◌, ◌++◌, OnOk};
ghost use Rattle.cov_expr.specs.Term.{const};
ghost use Rattle.cov_expr.specs.View.{term};
ghost use Rattle.entail_text.specs.ZeroGoals as spec;

use cov_expr::{Blob, Expr, NoMemory};

/// Adds a line on a goal that is 0: how it may be shown at all. Nothing is added of another goal.
pub fn add_zero(goal: &Expr, text: &mut Blob) -> Result<(), NoMemory>
    ensures { OnOk result (text.new ≡ text.old ++ spec.zero_line (term goal.now)) }
{
    match goal {
        Expr::Const(k) => add_where_zero(*k, text),
        Expr::Var(_) | Expr::Not(_) | Expr::Bin(..) => Ok(()),
    }
}

/// Adds that line, where a number is 0.
fn add_where_zero(k: u32, text: &mut Blob) -> Result<(), NoMemory>
    ensures { OnOk result (text.new ≡ text.old ++ spec.zero_line (const k)) }
{
    if k == 0 {
        text.extend_from_slice(
            b"  a goal of 0 follows only where the hypotheses can't all hold: where they can, no certificate helps, and more has to be known there, of values or of types, or less to be asked\n",
        )
    } else {
        Ok(())
    }
}
