//! The walk over the statements of a thread, with its branches and loops.

ghost use Rattle.std.specs.Prelude.{◌≡◌, ◌<◌, ◌++◌, [], ℕ, List, map, length, None};
ghost use Rattle.cov_expr.specs.View.{term};
ghost use Rattle.cov_ast.specs.Obligations.{Decides, Obligation, first_false};
ghost use Rattle.cov_ast.specs.Plain.{Plain};
ghost use Rattle.cov_ast.specs.Syntax as syntax;
ghost use Rattle.cov_ast.specs.View as view;
ghost use Rattle.cov_ast.specs.WellFormed.{IsBlockInRange, IsStmInRange, block_size, stm_size, most_size};
ghost use Rattle.typing_state.specs.KeptPoints.{Keeps};
ghost use Rattle.point_law.specs.Point as typing;
ghost use Rattle.typing_rules.specs.declared.kept.Kept.{Kept};
ghost use Rattle.typing_rules.specs.Keeping.{looked_at};
ghost use Rattle.typing_rules.specs.Inside.Walking.{IsWalk, Stands, Walks, WalksBlock, WalksStm};
ghost use Rattle.typing_rules.specs.declared.purpose.Purpose.{Purpose};

use crate::kept::Kept;
use crate::purpose::Purpose;
use cov_ast::{CheckFault, Program, Proof, State, Stmt, StmtKind};
use cov_expr::{Expr, List};
use std::alloc::Global;
use typing_law::Site;
use typing_state::Point;

/// A walk over the statements of a thread of a program, to judge them, to collect what has to follow at them, or to search for certificates of it.
#[derive(Clone, Copy)]
pub struct Walk<'p> {
    pub alloc: Global,
    pub program: &'p Program,
    pub thread: u32,
    pub purpose: Purpose,
}

/// Where a walk has come: the point after what it has checked, and how many entailments that had.
#[derive(Drop)]
pub struct Walked {
    pub point: Point,
    pub entailments: u64,
}

/// The points after a guard, where it holds and where it doesn't, and how many entailments were tried so far.
#[derive(Drop)]
pub struct Guarded {
    pub holds: Point,
    pub fails: Point,
    pub count: u32,
}

/// The verdict on obligations and then on others.
pub fn both(first: Result<(), CheckFault>, second: Result<(), CheckFault>) -> Result<(), CheckFault>
    ensures { (a b : List Obligation) → Decides a first → (first_false a ≡ None → Decides b second) → Decides (a ++ b) result }
{
    match first {
        Ok(()) => second,
        Err(fault) => Err(fault),
    }
}

/// The point after a statement that asks nothing to follow, if each of its obligations holds.
pub fn finish(point: Point, verdict: Result<(), CheckFault>) -> Result<Walked, CheckFault>
    ensures { (u : Purpose) → (p : Plain) → (t : ℕ) → (obligations : List Obligation) → (a : typing.Point) → (kept : List Kept) → Keeps p t a point
        → Decides (looked_at u obligations) verdict → Walks u p t obligations [] a 0 kept kept result }
{
    match verdict {
        Ok(()) => Ok(Walked {
            point,
            entailments: 0,
        }),
        Err(fault) => Err(fault),
    }
}

impl Walk<'_> {
    /// Where a statement of the thread stands.
    pub fn site(&self, at: u32) -> Site
        ensures { result ≡ record { thread = self.now.thread; place = at } }
    {
        Site {
            thread: self.thread,
            place: at,
        }
    }

    /// Checks the statements of a block, from a point on. What the walk keeps of their entailments is added to what it kept before.
    #[cycle(walk)]
    pub fn block(
        &self,
        body: &[Stmt],
        point: Point,
        kept: &mut List<Kept>,
    ) -> Result<Walked, CheckFault>
        requires walk { IsWalk self.now }
        requires range { IsBlockInRange (length self.now.program.now.vars) (length self.now.program.now.locks) (view.block body.now) }
        requires small { block_size (view.block body.now) < most_size }
        requires point { Stands self.now point }
        ensures { WalksBlock self.now (view.block body.now) point kept.old kept.new result }
    {
        let mut here = point;
        let mut entailments = 0;
        for stmt in body {
            match self.statement(stmt.at, &stmt.kind, stmt.proofs.as_slice(), here, kept) {
                Ok(next) => {
                    here = next.point;
                    entailments += next.entailments;
                }
                Err(fault) => return Err(fault),
            }
        }
        Ok(Walked {
            point: here,
            entailments,
        })
    }

    /// Checks a statement, from a point on.
    #[cycle(walk)]
    fn statement(
        &self,
        at: u32,
        kind: &StmtKind,
        proofs: &[Proof],
        point: Point,
        kept: &mut List<Kept>,
    ) -> Result<Walked, CheckFault>
        requires walk { IsWalk self.now }
        requires range { IsStmInRange (length self.now.program.now.vars) (length self.now.program.now.locks) (view.kind kind.now) }
        requires small { stm_size (view.kind kind.now) < most_size }
        requires point { Stands self.now point }
        ensures { WalksStm self.now at (view.kind kind.now) (map view.proof proofs.now) point kept.old kept.new result }
    {
        match kind {
            StmtKind::Skip => self.skip(at, proofs, point),
            StmtKind::Assign(x, e, written, retypes) => {
                self.assign(at, *x, e, written, retypes, proofs, point, kept)
            }
            StmtKind::Lock(l) => self.lock(at, *l, point),
            StmtKind::Unlock(l) => self.unlock(at, *l, proofs, point, kept),
            StmtKind::Note(j) => self.note(at, j, proofs, point, kept),
            StmtKind::Output(e) => self.output(at, e, proofs, point, kept),
            StmtKind::If(e, yes, no, join) => {
                self.branch(
                    at,
                    e,
                    yes.as_slice(),
                    no.as_slice(),
                    join,
                    proofs,
                    point,
                    kept,
                )
            }
            StmtKind::While(e, inv, body) => {
                self.while_loop(at, e, inv, body.as_slice(), proofs, point, kept)
            }
        }
    }

    /// Checks a branch.
    #[cycle(walk)]
    fn branch(
        &self,
        at: u32,
        e: &Expr,
        yes: &[Stmt],
        no: &[Stmt],
        join: &State,
        proofs: &[Proof],
        point: Point,
        kept: &mut List<Kept>,
    ) -> Result<Walked, CheckFault>
        requires walk { IsWalk self.now }
        requires range { IsStmInRange (length self.now.program.now.vars) (length self.now.program.now.locks)
            (syntax.branch (term e.now) (view.block yes.now) (view.block no.now) (view.state join.now)) }
        requires small { stm_size (syntax.branch (term e.now) (view.block yes.now) (view.block no.now) (view.state join.now)) < most_size }
        requires point { Stands self.now point }
        ensures { WalksStm self.now at (syntax.branch (term e.now) (view.block yes.now) (view.block no.now) (view.state join.now)) (map view.proof proofs.now) point kept.old kept.new result }
    {
        let Guarded {
            holds,
            fails,
            count,
        } = self.fork(at, e, proofs, point, kept)?;
        let first = self.block(yes, holds, kept)?;
        let second = self.block(no, fails, kept)?;
        self.join(at, join, proofs, count, first, second, kept)
    }

    /// Checks a loop.
    #[cycle(walk)]
    fn while_loop(
        &self,
        at: u32,
        e: &Expr,
        inv: &State,
        body: &[Stmt],
        proofs: &[Proof],
        point: Point,
        kept: &mut List<Kept>,
    ) -> Result<Walked, CheckFault>
        requires walk { IsWalk self.now }
        requires range { IsStmInRange (length self.now.program.now.vars) (length self.now.program.now.locks)
            (syntax.loop (term e.now) (view.state inv.now) (view.block body.now)) }
        requires small { stm_size (syntax.loop (term e.now) (view.state inv.now) (view.block body.now)) < most_size }
        requires point { Stands self.now point }
        ensures { WalksStm self.now at (syntax.loop (term e.now) (view.state inv.now) (view.block body.now)) (map view.proof proofs.now) point kept.old kept.new result }
    {
        let Guarded {
            holds,
            fails,
            count,
        } = self.head(at, inv, e, proofs, point, kept)?;
        let end = self.block(body, holds, kept)?;
        self.turn(at, inv, proofs, count, end, fails, kept)
    }
}
