//! What a step may give.

ghost use Rattle.std.specs.Prelude.{◌≡◌, [], ◌∷◌, ◌++◌, IfOk, OnOk, Some, map, option_map};
ghost use Rattle.cov_expr.specs.Term.{var};
ghost use Rattle.cov_expr.specs.Trees as tree;
ghost use Rattle.cov_expr.specs.View.{term};
ghost use Rattle.cov_expr.specs.declared.expr.Op.TheVariants.{Eq};
ghost use Rattle.cov_ast.specs.Declarations.{lock_at};
ghost use Rattle.cov_ast.specs.Plain.{plain};
ghost use Rattle.cov_ast.specs.View as view;
ghost use Rattle.statement_parts.specs.Parts as table;
ghost use Rattle.statement_paths.specs.Paths as paths;
ghost use Rattle.entail_origins.specs.GivenViews as spec;
ghost use Rattle.entail_origins.specs.Origins as origins;

use crate::hypothesis_origin::HypothesisSource;
use cov_ast::{Program, State, StmtKind};
use cov_expr::{Expr, List, NoMemory, Op, boxed, copy, same};
use statement_parts::{Nested, parts_of};
use statement_paths::Step;
use std::alloc::Global;

/// A predicate that a step may give, by the expression in the program from which it is made.
#[derive(Clone, Copy)]
pub enum GivenTerm<'p> {
    /// This expression itself.
    Written(&'p Expr),
    /// Its negation.
    Negation(&'p Expr),
    /// The equation of a variable and this value.
    Equation(u32, &'p Expr),
}

/// A predicate that a step may give, with what in the step does.
#[derive(Clone, Copy)]
pub struct Given<'p> {
    pub source: HypothesisSource,
    pub term: GivenTerm<'p>,
}

impl GivenTerm<'_> {
    /// Whether it is an expression.
    pub fn is(&self, e: &Expr) -> bool
        ensures { result ≡ tree.same (spec.given_term self.now) (term e.now) }
    {
        match self {
            GivenTerm::Written(made) => same(made, e),
            GivenTerm::Negation(of) => match e {
                Expr::Not(inner) => same(of, inner),
                Expr::Const(_) | Expr::Var(_) | Expr::Bin(..) => false,
            },
            GivenTerm::Equation(x, value) => match e {
                Expr::Bin(Op::Eq, left, right) => is_variable(*x, left) && same(value, right),
                Expr::Const(_) | Expr::Var(_) | Expr::Not(_) | Expr::Bin(..) => false,
            },
        }
    }

    /// The predicate itself, as an expression of its own.
    pub fn made(&self, alloc: Global) -> Result<Expr, NoMemory>
        ensures { IfOk result (λ made. term made ≡ spec.given_term self.now) }
    {
        match self {
            GivenTerm::Written(e) => copy(alloc, e),
            GivenTerm::Negation(e) => {
                let inner = boxed(alloc, copy(alloc, e)?)?;
                Ok(Expr::Not(inner))
            }
            GivenTerm::Equation(x, value) => {
                let left = boxed(alloc, Expr::Var(*x))?;
                let right = boxed(alloc, copy(alloc, value)?)?;
                Ok(Expr::Bin(Op::Eq, left, right))
            }
        }
    }
}

/// Adds what a step may give to the point at its end.
pub fn add_given<'p>(
    p: &'p Program,
    step: &Step<'p>,
    all: &mut List<Given<'p>>,
) -> Result<(), NoMemory>
    ensures { OnOk result (map spec.given all.new ≡ map spec.given all.old ++ origins.given_by (plain (view.program p.now)) (paths.step step.now)) }
{
    match step {
        Step::Passed(stmt) => add_given_after_statement(p, &stmt.kind, all),
        Step::Yes(_, guard) => add_one(
            HypothesisSource::GuardHolds,
            GivenTerm::Written(guard),
            all,
        ),
        Step::No(_, guard) => add_one(
            HypothesisSource::GuardFails,
            GivenTerm::Negation(guard),
            all,
        ),
        Step::Head(_, inv) => add_each(HypothesisSource::LoopState, inv, all),
    }
}

/// Adds what a statement may give to the point behind it.
fn add_given_after_statement<'p>(
    p: &'p Program,
    kind: &'p StmtKind,
    all: &mut List<Given<'p>>,
) -> Result<(), NoMemory>
    ensures { OnOk result (map spec.given all.new ≡ map spec.given all.old ++ origins.given_after_statement (plain (view.program p.now)) (view.kind kind.now)) }
{
    let parts = parts_of(kind);
    match (parts.store, parts.taken, parts.state) {
        (Some(store), _, _) => add_one(
            HypothesisSource::Assigned,
            GivenTerm::Equation(store.variable, store.value),
            all,
        ),
        (None, Some(l), _) => {
            match invariant_of(p, l) {
                Some(e) => add_one(HypothesisSource::Invariant(l), GivenTerm::Written(e), all),
                None => Ok(()),
            }
        }
        (None, None, Some(state)) => {
            if let Some(guard) = parts.left_guard() {
                add_one(HypothesisSource::LoopLeft, GivenTerm::Negation(guard), all)?;
            }
            add_each(state_source(parts.nested), state, all)
        }
        (None, None, None) => Ok(()),
    }
}

/// What gives the predicates of a state, by the blocks of the statement that has it.
pub fn state_source(nested: Nested<'_>) -> HypothesisSource
    ensures { result ≡ origins.state_source (table.nested_of nested.entry) }
{
    match nested {
        Nested::None => HypothesisSource::Noted,
        Nested::Turn(_) => HypothesisSource::LoopState,
        Nested::Either(_, _) => HypothesisSource::Join,
    }
}

/// Adds one predicate.
fn add_one<'p>(
    source: HypothesisSource,
    made: GivenTerm<'p>,
    all: &mut List<Given<'p>>,
) -> Result<(), NoMemory>
    ensures { OnOk result (map spec.given all.new ≡ map spec.given all.old ++ origins.given source (spec.given_term made.entry) ∷ []) }
{
    all.push(Given { source, term: made })
}

/// Adds the predicates of a state.
fn add_each<'p>(
    source: HypothesisSource,
    state: &'p State,
    all: &mut List<Given<'p>>,
) -> Result<(), NoMemory>
    ensures { OnOk result (map spec.given all.new ≡ map spec.given all.old ++ origins.each source (view.state state.now).preds) }
{
    for pred in state.preds.as_slice() {
        add_one(source, GivenTerm::Written(pred), all)?;
    }
    Ok(())
}

/// The invariant of a lock, if it has one.
fn invariant_of(p: &Program, l: u32) -> Option<&Expr>
    ensures { option_map (λ e. term e.now) result ≡ (lock_at (plain (view.program p.now)) l).inv }
{
    match p.locks.as_slice().get(l as usize) {
        Some(lock) => lock.inv.as_ref(),
        None => None,
    }
}

/// Whether an expression is a variable.
fn is_variable(x: u32, e: &Expr) -> bool
    ensures { result ≡ tree.same (var x) (term e.now) }
{
    match e {
        Expr::Var(y) => x == *y,
        Expr::Const(_) | Expr::Not(_) | Expr::Bin(..) => false,
    }
}
