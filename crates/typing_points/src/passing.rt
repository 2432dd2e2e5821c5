//! Points behind steps.

ghost use Rattle.std.specs.Prelude.{◌≡◌, ◌<◌, ℕ, IfOk, Option, length, map, option_and_then, option_map};
ghost use Rattle.cov_expr.specs.Term.{neg};
ghost use Rattle.cov_expr.specs.View.{term};
ghost use Rattle.cov_expr.specs.Words.{HasVarsBelow};
ghost use Rattle.cov_ast.specs.Plain.{Plain};
ghost use Rattle.cov_ast.specs.View as view;
ghost use Rattle.cov_ast.specs.WellFormed.{IsBlockInRange, IsStmInRange};
ghost use Rattle.point_law.specs.After as after;
ghost use Rattle.point_law.specs.Point as law;
ghost use Rattle.statement_paths.specs.Paths.{step};
ghost use Rattle.typing_state.specs.KeptPoints.{AtPoint, Keeps};
ghost use Rattle.typing_points.specs.PointsBehind as spec;
ghost use Rattle.typing_points.specs.Traces.{AreInRange, IsTrace, IsValueType, KeepsAny, plain_of};

use cov_ast::{Program, Retype, State, Stmt, StmtKind};
use cov_expr::{Expr, List, NoMemory, boxed, copy};
use statement_paths::Step;
use std::alloc::Global;
use typing_state::Point;

/// How many conjuncts the type of an assigned value may have that isn't written: one with more has more nodes than a type may have (V16).
pub const MOST_CONJUNCTS: usize = 500;

/// The thread of a program of which points are built.
#[derive(Clone, Copy)]
pub struct Trace<'p> {
    pub alloc: Global,
    pub program: &'p Program,
    pub thread: u32,
}

impl Trace<'_> {
    /// The point behind steps from the start of the thread's text. `None` comes where a type on the way is larger than V16 lets it be.
    pub fn point_behind(&self, steps: &[Step<'_>]) -> Result<Option<Point>, NoMemory>
        requires trace { IsTrace self.now }
        requires range { AreInRange self.now (map step steps.now) }
        ensures { IfOk result (λ made. KeepsAny (plain_of self.now) self.now.thread (spec.point_behind (plain_of self.now) self.now.thread (map step steps.now)) made) }
    {
        let mut here = Point::start(self.alloc, self.program, self.thread)?;
        for next in steps {
            match self.pass_step(next, here)? {
                Some(point) => here = point,
                None => return Ok(None),
            }
        }
        Ok(Some(here))
    }

    /// The point behind one step more, if there is one in front of it.
    pub fn pass(&self, next: &Step<'_>, point: Option<Point>) -> Result<Option<Point>, NoMemory>
        requires trace { IsTrace self.now }
        requires range { spec.IsStepInRange (length self.now.program.now.vars) (length self.now.program.now.locks) (step next.now) }
        ensures { IfOk result (λ made. (a : Option law.Point) → KeepsAny (plain_of self.now) self.now.thread a point
            → KeepsAny (plain_of self.now) self.now.thread (option_and_then (spec.behind_step (plain_of self.now) self.now.thread (step next.now)) a) made) }
    {
        match point {
            Some(point) => self.pass_step(next, point),
            None => Ok(None),
        }
    }

    /// The point behind one step more.
    pub fn pass_step(&self, next: &Step<'_>, point: Point) -> Result<Option<Point>, NoMemory>
        requires trace { IsTrace self.now }
        requires range { spec.IsStepInRange (length self.now.program.now.vars) (length self.now.program.now.locks) (step next.now) }
        ensures { IfOk result (λ made. AtPoint (plain_of self.now) self.now.thread point (λ a.
            KeepsAny (plain_of self.now) self.now.thread (spec.behind_step (plain_of self.now) self.now.thread (step next.now) a) made)) }
    {
        match next {
            Step::Passed(stmt) => self.pass_statement(&stmt.kind, point),
            Step::Yes(_, guard) => Ok(Some(self.holding(guard, point)?)),
            Step::No(_, guard) => Ok(Some(self.failing(guard, point)?)),
            Step::Head(_, inv) => Ok(Some(point.meet(self.alloc, self.program, inv)?)),
        }
    }

    /// The point behind the statements of a block.
    #[cycle(blocks)]
    fn pass_block(&self, body: &[Stmt], point: Point) -> Result<Option<Point>, NoMemory>
        requires trace { IsTrace self.now }
        requires range { IsBlockInRange (length self.now.program.now.vars) (length self.now.program.now.locks) (view.block body.now) }
        ensures { IfOk result (λ made. AtPoint (plain_of self.now) self.now.thread point (λ a.
            KeepsAny (plain_of self.now) self.now.thread (spec.behind_block (plain_of self.now) self.now.thread (view.block body.now) a) made)) }
    {
        let mut here = point;
        for stmt in body {
            match self.pass_statement(&stmt.kind, here)? {
                Some(point) => here = point,
                None => return Ok(None),
            }
        }
        Ok(Some(here))
    }

    /// The point behind a statement.
    #[cycle(blocks)]
    fn pass_statement(&self, kind: &StmtKind, point: Point) -> Result<Option<Point>, NoMemory>
        requires trace { IsTrace self.now }
        requires range { IsStmInRange (length self.now.program.now.vars) (length self.now.program.now.locks) (view.kind kind.now) }
        ensures { IfOk result (λ made. AtPoint (plain_of self.now) self.now.thread point (λ a.
            KeepsAny (plain_of self.now) self.now.thread (spec.behind_stm (plain_of self.now) self.now.thread (view.kind kind.now) a) made)) }
    {
        match kind {
            StmtKind::Skip | StmtKind::Output(_) => Ok(Some(point)),
            StmtKind::Assign(x, e, written, retypes) => {
                self.pass_assignment(*x, e, written, retypes, point)
            }
            StmtKind::Lock(l) => Ok(Some(point.after_lock(self.alloc, self.program, *l)?)),
            StmtKind::Unlock(l) => Ok(Some(point.after_unlock(self.alloc, self.program, *l)?)),
            StmtKind::Note(j) => Ok(Some(point.noted(self.alloc, j)?)),
            StmtKind::If(e, first, _, join) => {
                self.pass_branch(e, first.as_slice(), join, point)
            }
            StmtKind::While(e, inv, _) => Ok(Some(self.pass_loop(e, inv, point)?)),
        }
    }

    /// The point behind a branch, from that at the end of its first block.
    #[cycle(blocks)]
    fn pass_branch(
        &self,
        e: &Expr,
        first: &[Stmt],
        join: &State,
        point: Point,
    ) -> Result<Option<Point>, NoMemory>
        requires trace { IsTrace self.now }
        requires guard { HasVarsBelow (term e.now) (length self.now.program.now.vars) }
        requires range { IsBlockInRange (length self.now.program.now.vars) (length self.now.program.now.locks) (view.block first.now) }
        ensures { IfOk result (λ made. AtPoint (plain_of self.now) self.now.thread point (λ a.
            KeepsAny (plain_of self.now) self.now.thread (spec.behind_branch (plain_of self.now) self.now.thread (term e.now) (view.block first.now) (view.state join.now) a) made)) }
    {
        let holds = self.holding(e, point)?;
        match self.pass_block(first, holds)? {
            Some(end) => Ok(Some(end.meet(self.alloc, self.program, join)?)),
            None => Ok(None),
        }
    }

    /// The point behind a loop.
    fn pass_loop(&self, e: &Expr, inv: &State, point: Point) -> Result<Point, NoMemory>
        requires trace { IsTrace self.now }
        requires guard { HasVarsBelow (term e.now) (length self.now.program.now.vars) }
        ensures { IfOk result (λ made. AtPoint (plain_of self.now) self.now.thread point (λ a. Keeps (plain_of self.now) self.now.thread
            (after.with_guard (plain_of self.now) self.now.thread (after.meet (plain_of self.now) self.now.thread a (view.state inv.now)) (neg (term e.now))) made)) }
    {
        let top = point.meet(self.alloc, self.program, inv)?;
        self.failing(e, top)
    }

    /// The point where a guard holds.
    fn holding(&self, e: &Expr, point: Point) -> Result<Point, NoMemory>
        requires { HasVarsBelow (term e.now) (length self.now.program.now.vars) }
        ensures { IfOk result (λ made. AtPoint (plain_of self.now) self.now.thread point (λ a.
            Keeps (plain_of self.now) self.now.thread (after.with_guard (plain_of self.now) self.now.thread a (term e.now)) made)) }
    {
        point.with(self.alloc, e)
    }

    /// The point where a guard doesn't hold.
    fn failing(&self, e: &Expr, point: Point) -> Result<Point, NoMemory>
        requires { HasVarsBelow (term e.now) (length self.now.program.now.vars) }
        ensures { IfOk result (λ made. AtPoint (plain_of self.now) self.now.thread point (λ a.
            Keeps (plain_of self.now) self.now.thread (after.with_guard (plain_of self.now) self.now.thread a (neg (term e.now))) made)) }
    {
        let negation = negated(self.alloc, e)?;
        point.with(self.alloc, &negation)
    }

    /// The point behind an assignment.
    fn pass_assignment(
        &self,
        x: u32,
        e: &Expr,
        written: &Option<Expr>,
        retypes: &List<Retype>,
        point: Point,
    ) -> Result<Option<Point>, NoMemory>
        requires trace { IsTrace self.now }
        requires variable { x < length self.now.program.now.vars }
        requires value { HasVarsBelow (term e.now) (length self.now.program.now.vars) }
        ensures { IfOk result (λ made. AtPoint (plain_of self.now) self.now.thread point (λ a.
            KeepsAny (plain_of self.now) self.now.thread
            (spec.assigned (plain_of self.now) self.now.thread a x (term e.now) (option_map term written.now) (map view.retype retypes.now)) made)) }
    {
        let Some(q) = self.value_type(e, written, &point)? else {
            return Ok(None);
        };
        let end = point.after_assign(self.alloc, self.program, x, e, q, retypes)?;
        Ok(if_small(end))
    }

    /// The type of an assigned value: the one that is written, else that of its expression, if that has few conjuncts.
    fn value_type(
        &self,
        e: &Expr,
        written: &Option<Expr>,
        point: &Point,
    ) -> Result<Option<Expr>, NoMemory>
        requires { HasVarsBelow (term e.now) (length self.now.program.now.vars) }
        ensures { IfOk result (λ made. AtPoint (plain_of self.now) self.now.thread point.now (λ a. IsValueType (plain_of self.now) self.now.thread a (option_map term written.now) (term e.now) (option_map term made))) }
    {
        match written {
            Some(q) => Ok(Some(copy(self.alloc, q)?)),
            None => point.ty_within(self.alloc, self.program, e, MOST_CONJUNCTS),
        }
    }
}

/// A point whose types are small, and else none.
fn if_small(point: Point) -> Option<Point>
    ensures { (p : Plain) → (t : ℕ) → AtPoint p t point (λ a. KeepsAny p t (spec.if_small a) result) }
{
    if point.has_small_types() {
        Some(point)
    } else {
        None
    }
}

/// The negation of an expression.
fn negated(alloc: Global, e: &Expr) -> Result<Expr, NoMemory>
    ensures { IfOk result (λ made. term made ≡ neg (term e.now)) }
{
    Ok(Expr::Not(boxed(alloc, copy(alloc, e)?)?))
}
