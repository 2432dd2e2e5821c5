//! Ways to statements, and the steps that they are made of.

ghost use Rattle.std.specs.Prelude.{◌≡◌};
ghost use Rattle.statement_paths.specs.Paths as spec;

use cov_ast::{State, Stmt};
use cov_expr::{Expr, List};

/// A step on the way to a statement. A place is the byte offset of the first token of a statement.
#[derive(Clone, Copy)]
pub enum Step<'p> {
    /// Past a statement in front, in the same block or in one around it.
    Passed(&'p Stmt),
    /// Into the first block of the branch at a place, or into the block of the loop there, where this guard holds.
    Yes(u32, &'p Expr),
    /// Into the second block of the branch at a place, where this guard doesn't hold.
    No(u32, &'p Expr),
    /// To the head of the loop at a place, with what the loop states.
    Head(u32, &'p State),
}

impl Step<'_> {
    /// The place of the statement that the step is about.
    pub fn place(&self) -> u32
        ensures { result ≡ spec.place_of (spec.step self.now) }
    {
        match self {
            Step::Passed(stmt) => stmt.at,
            Step::Yes(at, _) | Step::No(at, _) => *at,
            Step::Head(at, _) => *at,
        }
    }
}

/// A statement, with the steps to it from the start of the text.
#[derive(Drop)]
pub struct Way<'p> {
    pub steps: List<Step<'p>>,
    pub stmt: &'p Stmt,
}
