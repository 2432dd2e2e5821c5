//! What is mostly done where a store to a control makes a variable low that may not be public.

ghost use Rattle.std.specs.Prelude.{◌≡◌, ◌<◌, ◌++◌, OnOk, length, map};
ghost use Rattle.cov_ast.specs.View as view;
ghost use Rattle.cov_ast.specs.WellFormed.{IsWellFormed};
ghost use Rattle.statement_paths.specs.Paths as paths;
ghost use Rattle.entail_refused.specs.Cleared as spec;

use cov_ast::Program;
use cov_expr::{Blob, NoMemory};
use entail_origins::Question;
use statement_paths::{Step, stable_after_steps};
use std::alloc::Global;
use text_parts::add_variable_name;

/// Adds that a store of another value mostly mends it, where something is asked of a variable since a control of it is stored to, and no other thread writes the variable behind these
/// steps. That this would do isn't looked at, nor whether one stands there.
pub fn add_cleared_line(
    alloc: Global,
    p: &Program,
    t: u32,
    steps: &[Step<'_>],
    question: Question,
    text: &mut Blob,
) -> Result<(), NoMemory>
    requires formed { IsWellFormed (view.program p.now) }
    requires thread { t < length p.now.threads }
    ensures { OnOk result (text.new ≡ text.old ++ spec.cleared_line (view.program p.now) t (map paths.step steps.now) question) }
{
    match question {
        Question::Controlled(y) => {
            let stable = stable_after_steps(alloc, p, t, steps)?;
            if stable.has(y) {
                text.extend_from_slice(b"  mostly a store of a public value to ")?;
                add_variable_name(p, y, text)?;
                text.extend_from_slice(b" mends it, in front of this statement\n")
            } else {
                Ok(())
            }
        }
        Question::Written
        | Question::Shown(_)
        | Question::Retyped(_)
        | Question::Invariant(_)
        | Question::Freed(_)
        | Question::Guard
        | Question::HeadGuard
        | Question::Printed
        | Question::Predicate(_, _)
        | Question::TypeOf(_, _) => Ok(()),
    }
}
