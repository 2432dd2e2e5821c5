//! The variables whose types make up a goal.

ghost use Rattle.std.specs.Prelude.{◌≡◌, ◌∷◌, [], IfOk, option_map};
ghost use Rattle.cov_expr.specs.View.{term};
ghost use Rattle.cov_ast.specs.View as view;
ghost use Rattle.entail_origins.specs.AskedVariables as spec;

use crate::kinds::Question;
use cov_ast::StmtKind;
use cov_expr::{Expr, List, NoMemory, vars};
use statement_parts::parts_of;
use std::alloc::Global;

/// The variables whose types make up the goal of what is asked of a statement, each once.
pub fn variables_of(
    alloc: Global,
    question: Question,
    kind: &StmtKind,
) -> Result<List<u32>, NoMemory>
    ensures { IfOk result (λ made. made ≡ spec.variables_of question (view.kind kind.now)) }
{
    let parts = parts_of(kind);
    match question {
        Question::Written => match parts.store {
            Some(store) => vars(alloc, store.value),
            None => Ok(List::new(alloc)),
        },
        Question::Shown(_) => vars_of(alloc, parts.untyped()),
        Question::Guard | Question::HeadGuard => vars_of(alloc, parts.guard),
        Question::Printed => vars_of(alloc, parts.printed),
        Question::Controlled(z) => one(alloc, z),
        Question::Retyped(z) => one(alloc, z),
        Question::Freed(z) => one(alloc, z),
        Question::TypeOf(_, z) => one(alloc, z),
        Question::Invariant(_) | Question::Predicate(_, _) => Ok(List::new(alloc)),
    }
}

/// One variable alone.
fn one(alloc: Global, z: u32) -> Result<List<u32>, NoMemory>
    ensures { IfOk result (λ made. made ≡ z ∷ []) }
{
    let mut made = List::new(alloc);
    made.push(z)?;
    Ok(made)
}

/// The variables of an expression, if there is one, each once by first occurrence.
pub fn vars_of(alloc: Global, e: Option<&Expr>) -> Result<List<u32>, NoMemory>
    ensures { IfOk result (λ made. made ≡ spec.vars_of (option_map (λ e. term e.now) e.entry)) }
{
    match e {
        Some(e) => vars(alloc, e),
        None => Ok(List::new(alloc)),
    }
}
