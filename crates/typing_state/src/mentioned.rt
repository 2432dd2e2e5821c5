//! The variables that an expression mentions, as a set.

ghost use Rattle.std.specs.Prelude.{◌≡◌};
ghost use Rattle.cov_expr.specs.Trees.{mentions, occurrences};
ghost use Rattle.cov_expr.specs.View.{term};
ghost use Rattle.cov_expr.specs.declared.limits.TheConstants.{MOST_VARIABLES};
ghost use Rattle.cov_ast.specs.Tables.{table, with_all};

use cov_expr::{Expr, MOST_VARIABLES};
use mode_state::Mask;

/// The variables that an expression mentions, of as many as a program may have.
pub fn mentioned(e: &Expr) -> Mask
    ensures { result ≡ table MOST_VARIABLES (mentions (term e.now)) }
{
    let mut found = Mask::new(MOST_VARIABLES as u32);
    add_variables(e, &mut found);
    found
}

/// Adds the variables of an expression to a set.
pub fn add_variables(e: &Expr, set: &mut Mask)
    ensures { set.new ≡ with_all set.old (occurrences (term e.now)) }
{
    match e {
        Expr::Const(_) => {}
        Expr::Var(x) => set.put(*x, true),
        Expr::Not(a) => add_variables(a, set),
        Expr::Bin(_, a, b) => {
            add_variables(a, set);
            add_variables(b, set);
        }
    }
}
