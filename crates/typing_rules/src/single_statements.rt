//! Statements without blocks.

ghost use Rattle.std.specs.Prelude.{◌≡◌, ◌<◌, ℕ, List, length, map, option_map, IfOk};
ghost use Rattle.cov_expr.specs.View.{term};
ghost use Rattle.cov_expr.specs.Words.{HasVarsBelow};
ghost use Rattle.cov_ast.specs.Declarations.{lock_at};
ghost use Rattle.cov_ast.specs.Obligations.{Decides};
ghost use Rattle.cov_ast.specs.Plain.{plain};
ghost use Rattle.cov_ast.specs.Syntax as syntax;
ghost use Rattle.cov_ast.specs.View as view;
ghost use Rattle.cov_ast.specs.WellFormed.{AreTypesInRange, IsStateInRange, IsStmInRange, IsTypeInRange, state_size, stm_size, most_size};
ghost use Rattle.typing_law.specs.ThreadObligations.{flat};
ghost use Rattle.typing_rules.specs.declared.kept.Kept.{Kept};
ghost use Rattle.typing_rules.specs.Inside.Walking.{IsWalk, Stands, WalksStm, Wherever, plain_of, value_parts};

use crate::evaluation::check_guard;
use crate::kept::Kept;
use crate::sizes::{check_few_preds, require_small};
use crate::types::check_state;
use crate::walk::{Walk, Walked, both, finish};
use cov_ast::{CheckFault, Detail, Program, Proof, Retype, Rule, State};
use cov_expr::{Expr, List, Name};
use typing_law::require_at;
use typing_state::Point;

impl Walk<'_> {
    /// Checks a skip.
    pub fn skip(&self, at: u32, proofs: &[Proof], point: Point) -> Result<Walked, CheckFault>
        ensures { (kept : List Kept) → WalksStm self.now at syntax.skip (map view.proof proofs.now) point kept kept result }
    {
        finish(point, self.check_given(self.site(at), 0, proofs))
    }

    /// Checks that a lock is taken.
    pub fn lock(&self, at: u32, l: u32, point: Point) -> Result<Walked, CheckFault>
        requires walk { IsWalk self.now }
        requires lock { l < length self.now.program.now.locks }
        ensures { (proofs : List syntax.Proof) → (kept : List Kept) → WalksStm self.now at (syntax.lock l) proofs point kept kept result }
    {
        let (p, site) = (self.program, self.site(at));
        let held = point.modes().holds(l);
        let free = require_at(site, !held, Rule::V6, Detail::One(lock_name(p, l)));
        let after = point.after_lock(self.alloc, p, l)?;
        let few = check_few_preds(p, site, &after);
        let small = require_small(p, site, after.has_small_types());
        finish(after, both(free, both(few, small)))
    }

    /// Checks that a lock is given back.
    pub fn unlock(
        &self,
        at: u32,
        l: u32,
        proofs: &[Proof],
        point: Point,
        kept: &mut List<Kept>,
    ) -> Result<Walked, CheckFault>
        requires walk { IsWalk self.now }
        requires lock { l < length self.now.program.now.locks }
        requires point { Stands self.now point }
        ensures { WalksStm self.now at (syntax.unlock l) (map view.proof proofs.now) point kept.old kept.new result }
    {
        let p = self.program;
        let held = point.modes().holds(l);
        let taken = require_at(self.site(at), held, Rule::V7, Detail::One(lock_name(p, l)));
        let mark = kept.len();
        let tried = self.try_unlock(at, &point, l, proofs, kept)?;
        let after = point.after_unlock(self.alloc, p, l)?;
        self.conclude(at, proofs, 0, 0, taken, tried, after, mark, kept)
    }

    /// Checks a note.
    pub fn note(
        &self,
        at: u32,
        j: &State,
        proofs: &[Proof],
        point: Point,
        kept: &mut List<Kept>,
    ) -> Result<Walked, CheckFault>
        requires range { IsStateInRange (length self.now.program.now.vars) (length self.now.program.now.locks) (view.state j.now) }
        requires small { state_size (view.state j.now) < most_size }
        requires point { Stands self.now point }
        ensures { WalksStm self.now at (syntax.note (view.state j.now)) (map view.proof proofs.now) point kept.old kept.new result }
    {
        let stated = check_state(self.program, self.site(at), &point, j);
        let mark = kept.len();
        let tried = self.try_state(at, &point, j, proofs, 1, kept)?;
        let after = point.noted(self.alloc, j)?;
        self.conclude(at, proofs, 0, 0, stated, tried, after, mark, kept)
    }

    /// Checks an output.
    pub fn output(
        &self,
        at: u32,
        e: &Expr,
        proofs: &[Proof],
        point: Point,
        kept: &mut List<Kept>,
    ) -> Result<Walked, CheckFault>
        requires range { HasVarsBelow (term e.now) (length self.now.program.now.vars) }
        requires point { Stands self.now point }
        ensures { WalksStm self.now at (syntax.output (term e.now)) (map view.proof proofs.now) point kept.old kept.new result }
    {
        let evaluated = check_guard(self.program, self.site(at), point.modes(), e);
        let mark = kept.len();
        let tried = self.try_guard(at, &point, e, proofs, 1, kept)?;
        self.conclude(at, proofs, 0, 0, evaluated, tried, point, mark, kept)
    }

    /// Checks an assignment.
    pub fn assign(
        &self,
        at: u32,
        x: u32,
        e: &Expr,
        written: &Option<Expr>,
        retypes: &List<Retype>,
        proofs: &[Proof],
        point: Point,
        kept: &mut List<Kept>,
    ) -> Result<Walked, CheckFault>
        requires walk { IsWalk self.now }
        requires range { IsStmInRange (length self.now.program.now.vars) (length self.now.program.now.locks)
            (syntax.assign x (term e.now) (option_map term written.now) (map view.retype retypes.now)) }
        requires small { stm_size (syntax.assign x (term e.now) (option_map term written.now) (map view.retype retypes.now)) < most_size }
        requires point { Stands self.now point }
        ensures { WalksStm self.now at (syntax.assign x (term e.now) (option_map term written.now) (map view.retype retypes.now)) (map view.proof proofs.now) point kept.old kept.new result }
    {
        let Some(q) = self.value_type(e, written, &point)? else {
            return Err(self.refuse_large(at, x, e, retypes, point));
        };
        let items = retypes.as_slice();
        if let Err(fault) = self.check_value(at, x, e, &q, items, &point) {
            return Err(fault);
        }
        let mark = kept.len();
        let tried = self.try_assign(at, &point, x, e, written, &q, items, proofs, kept)?;
        let after = point.after_assign(self.alloc, self.program, x, e, q, retypes)?;
        let few = check_few_preds(self.program, self.site(at), &after);
        self.conclude(at, proofs, 0, 0, few, tried, after, mark, kept)
    }

    /// Checks what is asked before a value of a type is assigned.
    pub fn check_value(
        &self,
        at: u32,
        x: u32,
        e: &Expr,
        q: &Expr,
        retypes: &[Retype],
        point: &Point,
    ) -> Result<(), CheckFault>
        requires variable { x < length self.now.program.now.vars }
        requires value { HasVarsBelow (term e.now) (length self.now.program.now.vars) }
        requires typed { HasVarsBelow (term q.now) (length self.now.program.now.vars) }
        requires range { AreTypesInRange (length self.now.program.now.vars) (length self.now.program.now.locks) (map view.retype retypes.now) }
        ensures { Wherever self.now point.now (λ a. Decides
            (flat (value_parts (plain_of self.now) self.now.thread at a x (term e.now) (term q.now) (map view.retype retypes.now))) result) }
    {
        let over = point.is_over_controls(q);
        self.check_before(at, x, e, over, retypes, point)
    }
}

/// The name of a lock.
pub fn lock_name(p: &Program, l: u32) -> Name
    requires { l < length p.now.locks }
    ensures { result ≡ (lock_at (plain (view.program p.now)) l).name }
{
    p.locks.as_slice()[l as usize].name
}
