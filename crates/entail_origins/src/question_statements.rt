//! What is asked of a statement.

ghost use Rattle.std.specs.Prelude.{◌≡◌, ◌<◌, ◌++◌, IfOk, OnOk, length};
ghost use Rattle.cov_ast.specs.Plain.{plain};
ghost use Rattle.cov_ast.specs.Tables.{has};
ghost use Rattle.cov_ast.specs.View as view;
ghost use Rattle.cov_ast.specs.WellFormed.{IsStmInRange, IsWellFormed};
ghost use Rattle.statement_parts.specs.Parts as table;
ghost use Rattle.entail_origins.specs.Questions as spec;

use crate::assignments::add_assignment;
use crate::kinds::{End, Question};
use crate::question_states::add_state;
use cov_ast::{NumberSet, Program, State, StmtKind};
use cov_expr::{List, NoMemory};
use policy_class::is_control;
use statement_parts::{Nested, parts_of};
use std::alloc::Global;

/// What the entailments of a statement ask, in their order, where the others may not read the variables of a set.
pub fn questions(
    alloc: Global,
    p: &Program,
    hidden: &NumberSet,
    kind: &StmtKind,
) -> Result<List<Question>, NoMemory>
    requires formed { IsWellFormed (view.program p.now) }
    requires range { IsStmInRange (length p.now.vars) (length p.now.locks) (view.kind kind.now) }
    ensures { IfOk result (λ made. made ≡ spec.of_statement (plain (view.program p.now)) (has hidden.now) (view.kind kind.now)) }
{
    let parts = parts_of(kind);
    let mut made = List::new(alloc);
    match (parts.store, parts.returned, parts.printed, parts.state) {
        (Some(store), _, _, _) => add_assignment(
            p,
            hidden,
            store.variable,
            store.written,
            store.retypes,
            &mut made,
        )?,
        (None, Some(l), _, _) => {
            let lock = &p.locks.as_slice()[l as usize];
            match &lock.inv {
                Some(_) => made.push(Question::Invariant(l))?,
                None => {}
            }
            let hide = lock.hide.as_slice();
            for x in hide {
                if !is_control(p, *x) {
                    made.push(Question::Freed(*x))?;
                }
            }
        }
        (None, None, Some(_), _) => made.push(Question::Printed)?,
        (None, None, None, Some(state)) => add_stated(parts.nested, state, &mut made)?,
        (None, None, None, None) => {}
    }
    Ok(made)
}

/// Adds what is asked of what is stated, by the blocks of the statement that states it.
fn add_stated(nested: Nested<'_>, state: &State, made: &mut List<Question>) -> Result<(), NoMemory>
    ensures { OnOk result (made.new ≡ made.old ++ spec.of_stated (table.nested_of nested.entry) (view.state state.now)) }
{
    match nested {
        Nested::None => add_state(End::Here, state, made),
        Nested::Turn(_) => {
            add_state(End::Entry, state, made)?;
            made.push(Question::HeadGuard)?;
            add_state(End::Body, state, made)
        }
        Nested::Either(_, _) => {
            made.push(Question::Guard)?;
            add_state(End::FirstBlock, state, made)?;
            add_state(End::SecondBlock, state, made)
        }
    }
}
