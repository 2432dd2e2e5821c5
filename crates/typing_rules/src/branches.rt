//! What is checked of a branch and of a loop before and after their blocks.

ghost use Rattle.std.specs.Prelude.{◌≡◌, ◌<◌, ◌+◌, ◌*◌, ◌^◌, ◌++◌, [], ◌∷◌, ℕ, suc, List, length, map, true, IfOk};
ghost use Rattle.cov_expr.specs.Term.{neg};
ghost use Rattle.cov_expr.specs.View.{term};
ghost use Rattle.cov_expr.specs.Words.{HasVarsBelow};
ghost use Rattle.cov_ast.specs.Obligations.{Decides, Obligation};
ghost use Rattle.cov_ast.specs.Syntax as syntax;
ghost use Rattle.cov_ast.specs.View as view;
ghost use Rattle.cov_ast.specs.WellFormed.{IsStateInRange, state_size, most_size};
ghost use Rattle.point_law.specs.After.{meet, with_guard};
ghost use Rattle.typing_state.specs.KeptPoints.{Keeps};
ghost use Rattle.typing_law.specs.Entailments.{Entailment, guard_follows, state_follows};
ghost use Rattle.typing_law.specs.ThreadEntailments.{placed_from};
ghost use Rattle.typing_law.specs.ThreadObligations.{flat, same_locks, state_obligations};
ghost use Rattle.typing_rules.specs.Keeping.{are_others};
ghost use Rattle.typing_rules.specs.Inside.Walking.{Guards, GuardsAt, IsWalk, Stands, Tries, Walks, Wherever, first_parts, fork_parts, head_parts, join_parts, plain_of, starts_of, turn_parts};

use crate::certificates::require_proved;
use crate::entailments_tried::Tried;
use crate::evaluation::check_guard;
use crate::kept::{Kept, cut};
use crate::locks::check_same_locks;
use crate::sizes::{check_both_few_preds, require_small};
use crate::types::check_state;
use crate::walk::{Guarded, Walk, Walked, both};
use cov_ast::{CheckFault, Proof, State};
use cov_expr::{Expr, List, NoMemory, boxed, copy};
use std::alloc::Global;
use typing_state::Point;

impl Walk<'_> {
    /// Checks what is asked before the blocks of a branch.
    pub fn fork(
        &self,
        at: u32,
        e: &Expr,
        proofs: &[Proof],
        point: Point,
        kept: &mut List<Kept>,
    ) -> Result<Guarded, CheckFault>
        requires guard { HasVarsBelow (term e.now) (length self.now.program.now.vars) }
        requires point { Stands self.now point }
        ensures { Wherever self.now point (λ a. GuardsAt self.now at
            (flat (fork_parts (plain_of self.now) self.now.thread at (map view.proof proofs.now) a (term e.now) (starts_of self.now a (term e.now))))
            (guard_follows (plain_of self.now) self.now.thread a (term e.now) ∷ []) a (term e.now) kept.old kept.new result) }
    {
        let mark = kept.len();
        let evaluated = check_guard(self.program, self.site(at), point.modes(), e);
        self.guard(at, e, proofs, point, evaluated, Tried::none(), mark, kept)
    }

    /// Checks what is asked before the block of a loop.
    pub fn head(
        &self,
        at: u32,
        inv: &State,
        e: &Expr,
        proofs: &[Proof],
        point: Point,
        kept: &mut List<Kept>,
    ) -> Result<Guarded, CheckFault>
        requires walk { IsWalk self.now }
        requires guard { HasVarsBelow (term e.now) (length self.now.program.now.vars) }
        requires range { IsStateInRange (length self.now.program.now.vars) (length self.now.program.now.locks) (view.state inv.now) }
        requires small { state_size (view.state inv.now) < most_size }
        requires point { Stands self.now point }
        ensures { Wherever self.now point (λ a. GuardsAt self.now at
            (flat (head_parts (plain_of self.now) self.now.thread at (map view.proof proofs.now) a (view.state inv.now) (term e.now)
            (starts_of self.now (meet (plain_of self.now) self.now.thread a (view.state inv.now)) (term e.now))))
            (state_follows a (view.state inv.now) ++ guard_follows (plain_of self.now) self.now.thread (meet (plain_of self.now) self.now.thread a (view.state inv.now)) (term e.now) ∷ [])
            (meet (plain_of self.now) self.now.thread a (view.state inv.now)) (term e.now) kept.old kept.new result) }
    {
        let (p, site, mark) = (self.program, self.site(at), kept.len());
        let stated = check_state(p, site, &point, inv);
        let evaluated = check_guard(p, site, point.modes(), e);
        let entered = self.try_state(at, &point, inv, proofs, 1, kept)?;
        let top = point.meet(self.alloc, p, inv)?;
        self.guard(
            at,
            e,
            proofs,
            top,
            both(stated, evaluated),
            entered,
            mark,
            kept,
        )
    }

    /// Checks what is asked of a guard, behind what is asked before it.
    fn guard(
        &self,
        at: u32,
        e: &Expr,
        proofs: &[Proof],
        point: Point,
        before: Result<(), CheckFault>,
        entered: Tried,
        mark: usize,
        kept: &mut List<Kept>,
    ) -> Result<Guarded, CheckFault>
        requires guard { HasVarsBelow (term e.now) (length self.now.program.now.vars) }
        requires point { Stands self.now point }
        requires few { entered.count < 4294967294 }
        ensures { Wherever self.now point (λ a. (front : List Obligation) → (gs : List Entailment) → (start : List Kept)
            → are_others front ≡ true → Decides front before → length start ≡ mark → Tries self.now.purpose at (map view.proof proofs.now) 1 gs start kept.old entered
            → GuardsAt self.now at
            (front ++ flat (first_parts (plain_of self.now) self.now.thread at (map view.proof proofs.now)
            (gs ++ guard_follows (plain_of self.now) self.now.thread a (term e.now) ∷ []) (starts_of self.now a (term e.now))))
            (gs ++ guard_follows (plain_of self.now) self.now.thread a (term e.now) ∷ []) a (term e.now) start kept.new result) }
    {
        let tried = self.try_guard(at, &point, e, proofs, 1 + entered.count, kept)?;
        let all = entered.and(tried);
        let holds = self.holding(e, &point)?;
        let fails = self.failing(e, point)?;
        self.guarded(at, before, all, holds, fails, mark, kept)
    }

    /// The point where a guard holds.
    pub fn holding(&self, e: &Expr, point: &Point) -> Result<Point, NoMemory>
        requires { HasVarsBelow (term e.now) (length self.now.program.now.vars) }
        ensures { IfOk result (λ made. Wherever self.now point.now (λ a.
            Keeps (plain_of self.now) self.now.thread (with_guard (plain_of self.now) self.now.thread a (term e.now)) made)) }
    {
        let copied = point.copy(self.alloc)?;
        copied.with(self.alloc, e)
    }

    /// The point where a guard doesn't hold.
    pub fn failing(&self, e: &Expr, point: Point) -> Result<Point, NoMemory>
        requires { HasVarsBelow (term e.now) (length self.now.program.now.vars) }
        ensures { IfOk result (λ made. Wherever self.now point (λ a.
            Keeps (plain_of self.now) self.now.thread (with_guard (plain_of self.now) self.now.thread a (neg (term e.now))) made)) }
    {
        let negation = negated(self.alloc, e)?;
        point.with(self.alloc, &negation)
    }

    /// The points after a guard, if each obligation before it holds. Else what is kept is cut back to the first so many.
    fn guarded(
        &self,
        at: u32,
        before: Result<(), CheckFault>,
        tried: Tried,
        holds: Point,
        fails: Point,
        mark: usize,
        kept: &mut List<Kept>,
    ) -> Result<Guarded, CheckFault>
        ensures { Wherever self.now holds (λ a. Wherever self.now fails (λ b. (front : List Obligation) → (proofs : List syntax.Proof) → (gs : List Entailment) → (start : List Kept)
            → are_others front ≡ true → Decides front before → length start ≡ mark → Tries self.now.purpose at proofs 1 gs start kept.old tried
            → Guards self.now.purpose (plain_of self.now) self.now.thread (front ++ flat (first_parts (plain_of self.now) self.now.thread at proofs gs (a ∷ b ∷ [])))
            (placed_from at 1 gs) a b (length gs) start kept.new result)) }
    {
        let few = check_both_few_preds(self.program, self.site(at), &holds, &fails);
        let small = require_small(self.program, self.site(at), tried.small);
        let proved = require_proved(self.site(at), tried.unproved);
        match both(before, both(few, both(small, proved))) {
            Ok(()) => Ok(Guarded {
                holds,
                fails,
                count: tried.count,
            }),
            Err(fault) => {
                cut(kept, mark);
                Err(fault)
            }
        }
    }

    /// Checks what is asked after the blocks of a branch.
    pub fn join(
        &self,
        at: u32,
        join: &State,
        proofs: &[Proof],
        before: u32,
        yes: Walked,
        no: Walked,
        kept: &mut List<Kept>,
    ) -> Result<Walked, CheckFault>
        requires walk { IsWalk self.now }
        requires range { IsStateInRange (length self.now.program.now.vars) (length self.now.program.now.locks) (view.state join.now) }
        requires yes { Stands self.now yes.point }
        requires no { Stands self.now no.point }
        requires few { before + yes.entailments + no.entailments + 2 * state_size (view.state join.now) < 4294967295 }
        ensures { Wherever self.now yes.point (λ a. Wherever self.now no.point (λ b.
            Walks self.now.purpose (plain_of self.now) self.now.thread
            (flat (join_parts (plain_of self.now) self.now.thread at (map view.proof proofs.now) before (view.state join.now) a b))
            (placed_from at (suc before) (state_follows a (view.state join.now) ++ state_follows b (view.state join.now)))
            (meet (plain_of self.now) self.now.thread a (view.state join.now))
            (before + (yes.entailments + no.entailments) + length (state_follows a (view.state join.now) ++ state_follows b (view.state join.now)))
            kept.old kept.new result)) }
    {
        let (inside, mark) = (yes.entailments + no.entailments, kept.len());
        let (yes, no) = (yes.point, no.point);
        let met = self.check_ends(at, join, &yes, &no);
        let tried = self.try_both(at, &yes, &no, join, proofs, 1 + before, kept)?;
        let after = yes.meet(self.alloc, self.program, join)?;
        self.conclude(at, proofs, before, inside, met, tried, after, mark, kept)
    }

    /// The ends of two blocks hold the same locks, and a state may stand behind the first (V8, V12, V14, V4).
    pub fn check_ends(
        &self,
        at: u32,
        join: &State,
        yes: &Point,
        no: &Point,
    ) -> Result<(), CheckFault>
        requires walk { IsWalk self.now }
        requires range { IsStateInRange (length self.now.program.now.vars) (length self.now.program.now.locks) (view.state join.now) }
        ensures { Wherever self.now yes.now (λ a. Wherever self.now no.now (λ b. Decides
            (same_locks (plain_of self.now) self.now.thread at a.held b.held ++ state_obligations (plain_of self.now) self.now.thread at a.held (view.state join.now)) result)) }
    {
        let site = self.site(at);
        let same = check_same_locks(self.program, site, yes.modes(), no.modes());
        let stated = check_state(self.program, site, yes, join);
        both(same, stated)
    }

    /// Tries what is asked where a state is to be met at two points.
    fn try_both(
        &self,
        at: u32,
        yes: &Point,
        no: &Point,
        join: &State,
        proofs: &[Proof],
        from: u32,
        kept: &mut List<Kept>,
    ) -> Result<Tried, NoMemory>
        requires yes { Stands self.now yes.now }
        requires no { Stands self.now no.now }
        requires few { from + 2 * state_size (view.state join.now) < 2 ^ 32 }
        ensures { IfOk result (λ tried. Wherever self.now yes.now (λ a. Wherever self.now no.now (λ b.
            Tries self.now.purpose at (map view.proof proofs.now) from (state_follows a (view.state join.now) ++ state_follows b (view.state join.now)) kept.old kept.new tried))) }
    {
        let first = self.try_state(at, yes, join, proofs, from, kept)?;
        let second = self.try_state(at, no, join, proofs, from + first.count, kept)?;
        Ok(first.and(second))
    }

    /// Checks what is asked after the block of a loop.
    pub fn turn(
        &self,
        at: u32,
        inv: &State,
        proofs: &[Proof],
        before: u32,
        end: Walked,
        after: Point,
        kept: &mut List<Kept>,
    ) -> Result<Walked, CheckFault>
        requires walk { IsWalk self.now }
        requires end { Stands self.now end.point }
        requires few { before + end.entailments + state_size (view.state inv.now) < 4294967295 }
        ensures { Wherever self.now end.point (λ a. Wherever self.now after (λ b.
            Walks self.now.purpose (plain_of self.now) self.now.thread
            (flat (turn_parts (plain_of self.now) self.now.thread at (map view.proof proofs.now) before (view.state inv.now) a b))
            (placed_from at (suc before) (state_follows a (view.state inv.now)))
            b (before + end.entailments + length (state_follows a (view.state inv.now))) kept.old kept.new result)) }
    {
        let Walked { point, entailments } = end;
        let mark = kept.len();
        let same = check_same_locks(self.program, self.site(at), point.modes(), after.modes());
        let tried = self.try_state(at, &point, inv, proofs, 1 + before, kept)?;
        self.conclude(
            at,
            proofs,
            before,
            entailments,
            same,
            tried,
            after,
            mark,
            kept,
        )
    }
}

/// The negation of an expression.
fn negated(alloc: Global, e: &Expr) -> Result<Expr, NoMemory>
    ensures { IfOk result (λ made. term made ≡ neg (term e.now)) }
{
    Ok(Expr::Not(boxed(alloc, copy(alloc, e)?)?))
}
