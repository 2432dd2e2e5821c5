//! What is asked of a state.

ghost use Rattle.std.specs.Prelude.{◌≡◌, ◌++◌, OnOk, map};
ghost use Rattle.cov_expr.specs.View.{term};
ghost use Rattle.cov_ast.specs.View as view;
ghost use Rattle.entail_origins.specs.Questions as spec;

use crate::kinds::{End, Question};
use cov_ast::State;
use cov_expr::{Expr, List, NoMemory};

/// Adds what is asked where a state is to be met.
pub fn add_state(end: End, state: &State, made: &mut List<Question>) -> Result<(), NoMemory>
    ensures { OnOk result (made.new ≡ made.old ++ spec.of_state end (view.state state.now)) }
{
    add_preds(end, state.preds.as_slice(), made)?;
    let types = state.types.as_slice();
    for (z, _) in types {
        made.push(Question::TypeOf(end, *z))?;
    }
    Ok(())
}

/// Adds that each predicate holds.
fn add_preds(end: End, preds: &[Expr], made: &mut List<Question>) -> Result<(), NoMemory>
    ensures { OnOk result (made.new ≡ made.old ++ spec.of_preds end 1 (map term preds.now)) }
{
    for (i, _) in preds.iter().enumerate() {
        made.push(Question::Predicate(end, i + 1))?;
    }
    Ok(())
}
