//! What came of the entailments of a statement.

ghost use Rattle.std.specs.Prelude.{◌≡◌, ◌<◌, ◌≤◌, ◌+◌, ◌^◌, ◌++◌, [], ◌∷◌, ℕ, suc, List, length, map, option_map, true, false, IfOk, MatchOption};
ghost use Rattle.std.specs.List.{list_all};
ghost use Rattle.cov_expr.specs.View.{term};
ghost use Rattle.cov_expr.specs.Words.{HasVarsBelow};
ghost use Rattle.cov_ast.specs.Obligations.{Decides, Obligation};
ghost use Rattle.cov_ast.specs.Syntax as syntax;
ghost use Rattle.cov_ast.specs.View as view;
ghost use Rattle.cov_ast.specs.WellFormed.{AreTypesInRange, IsStmInRange, state_size, stm_size, most_size};
ghost use Rattle.point_law.specs.Point as typing;
ghost use Rattle.typing_law.specs.Blocks.{value_type};
ghost use Rattle.typing_law.specs.Entailments as spec;
ghost use Rattle.typing_law.specs.ThreadEntailments.{placed_from};
ghost use Rattle.typing_law.specs.ThreadObligations.{flat, numbers};
ghost use Rattle.typing_rules.specs.Listed.{AreListed, entailments_of};
ghost use Rattle.typing_rules.specs.Keeping.{are_others, looked_at};
ghost use Rattle.typing_rules.specs.declared.purpose.Purpose.{Purpose};
ghost use Rattle.point_law.specs.Point.{has_small_types};
ghost use Rattle.typing_rules.specs.Inside.Walking.{IsWalk, Stands, Tries, Walks, Wherever, last_parts, plain_of};

use crate::asked::{
    Entailment, changed_entailments, guard_entailments, state_entailments, unlock_entailments,
    written_entailments,
};
use crate::certificates::{are_small, check_numbers, first_unproved, require_proved};
use crate::entail::add_copies;
use crate::entailments_of_assignments::shown_entailment;
use crate::kept::{Kept, cut};
use crate::purpose::Purpose;
use crate::searched::add_searched;
use crate::sizes::require_small;
use crate::walk::{Walk, Walked, both};
use cov_ast::{CheckFault, Proof, Retype, State};
use cov_expr::{Expr, List, NoMemory};
use std::slice::from_ref;
use typing_law::Site;
use typing_state::Point;

/// How many entailments there were, and what came of them. Large ones aren't tried.
#[derive(Clone, Copy)]
pub struct Tried {
    /// How many there are, if they are small.
    pub count: u32,
    /// Whether no hypothesis and no goal has more than 1,000 nodes.
    pub small: bool,
    /// The number of the first without a valid certificate, if they are small and there is one that the walk looks at.
    pub unproved: Option<u32>,
}

impl Tried {
    /// What came of no entailments.
    pub fn none() -> Tried
        ensures tried { (u : Purpose) → (at : ℕ) → (proofs : List syntax.Proof) → (n : ℕ) → (kept : List Kept) → Tries u at proofs n [] kept kept result }
        ensures empty { result.count ≡ 0 }
    {
        Tried {
            count: 0,
            small: true,
            unproved: None,
        }
    }

    /// What came of entailments one of which is large.
    fn large() -> Tried
        ensures { (u : Purpose) → (at : ℕ) → (proofs : List syntax.Proof) → (n : ℕ) → (gs : List spec.Entailment) → (kept : List Kept)
            → list_all spec.is_small_entailment gs ≡ false → Tries u at proofs n gs kept kept result }
    {
        Tried {
            count: 0,
            small: false,
            unproved: None,
        }
    }

    /// What came of these entailments and then of others.
    pub fn and(self, next: Tried) -> Tried
        requires { self.count + next.count < 2 ^ 32 }
        ensures { (u : Purpose) → (at : ℕ) → (proofs : List syntax.Proof) → (n : ℕ) → (gs hs : List spec.Entailment) → (a b c : List Kept) → Tries u at proofs n gs a b self
            → Tries u at proofs (n + self.count) hs b c next → Tries u at proofs n (gs ++ hs) a c result }
    {
        let small = self.small && next.small;
        let unproved = self.unproved.or(next.unproved);
        Tried {
            count: self.count + next.count,
            small,
            unproved,
        }
    }
}

impl Walk<'_> {
    /// Tries what is asked where a state is to be met.
    pub fn try_state(
        &self,
        at: u32,
        point: &Point,
        s: &State,
        proofs: &[Proof],
        from: u32,
        kept: &mut List<Kept>,
    ) -> Result<Tried, NoMemory>
        requires point { Stands self.now point.now }
        requires few { from + state_size (view.state s.now) < 2 ^ 32 }
        ensures { IfOk result (λ tried. Wherever self.now point.now (λ a.
            Tries self.now.purpose at (map view.proof proofs.now) from (spec.state_follows a (view.state s.now)) kept.old kept.new tried)) }
    {
        let entailments = state_entailments(self.alloc, point, s)?;
        self.try_entailments(at, point, proofs, from, entailments.as_slice(), kept)
    }

    /// Tries what is asked of a guard.
    pub fn try_guard(
        &self,
        at: u32,
        point: &Point,
        e: &Expr,
        proofs: &[Proof],
        from: u32,
        kept: &mut List<Kept>,
    ) -> Result<Tried, NoMemory>
        requires point { Stands self.now point.now }
        requires guard { HasVarsBelow (term e.now) (length self.now.program.now.vars) }
        requires few { from + 1 < 2 ^ 32 }
        ensures { IfOk result (λ tried. Wherever self.now point.now (λ a.
            Tries self.now.purpose at (map view.proof proofs.now) from (spec.guard_follows (plain_of self.now) self.now.thread a (term e.now) ∷ []) kept.old kept.new tried)) }
    {
        let entailments = guard_entailments(self.alloc, self.program, point, e)?;
        self.try_listed(at, point, proofs, from, &entailments, kept)
    }

    /// Tries what is asked of an assignment of a value of a type, which is the written one, if there is one.
    pub fn try_assign(
        &self,
        at: u32,
        point: &Point,
        x: u32,
        e: &Expr,
        written: &Option<Expr>,
        q: &Expr,
        retypes: &[Retype],
        proofs: &[Proof],
        kept: &mut List<Kept>,
    ) -> Result<Tried, NoMemory>
        requires walk { IsWalk self.now }
        requires point { Stands self.now point.now }
        requires typed { Wherever self.now point.now (λ a. term q.now ≡ value_type (plain_of self.now) self.now.thread a (option_map term written.now) (term e.now)) }
        requires range { IsStmInRange (length self.now.program.now.vars) (length self.now.program.now.locks)
            (syntax.assign x (term e.now) (option_map term written.now) (map view.retype retypes.now)) }
        requires small { stm_size (syntax.assign x (term e.now) (option_map term written.now) (map view.retype retypes.now)) < most_size }
        ensures { IfOk result (λ tried. Wherever self.now point.now (λ a.
            Tries self.now.purpose at (map view.proof proofs.now) 1
            (spec.assign_entailments (plain_of self.now) self.now.thread a x (term e.now) (option_map term written.now) (map view.retype retypes.now)) kept.old kept.new tried)) }
    {
        let (alloc, p) = (self.alloc, self.program);
        let written = written_entailments(alloc, p, point, e, written, q)?;
        let first = self.try_listed(at, point, proofs, 1, &written, kept)?;
        let shown = self.try_shown(at, point, x, q, proofs, 1 + first.count, kept)?;
        let before = first.and(shown);
        let changed = changed_entailments(alloc, p, point, x, e, retypes)?;
        let last = self.try_listed(at, point, proofs, 1 + before.count, &changed, kept)?;
        Ok(before.and(last))
    }

    /// Tries what is asked of an assigned value that may be seen. It makes no list.
    fn try_shown(
        &self,
        at: u32,
        point: &Point,
        x: u32,
        q: &Expr,
        proofs: &[Proof],
        from: u32,
        kept: &mut List<Kept>,
    ) -> Result<Tried, NoMemory>
        requires variable { x < length self.now.program.now.vars }
        requires few { from + 1 < 2 ^ 32 }
        ensures { IfOk result (λ tried. Wherever self.now point.now (λ a.
            Tries self.now.purpose at (map view.proof proofs.now) from (spec.shown_value (plain_of self.now) self.now.thread a x (term q.now)) kept.old kept.new tried)) }
    {
        match shown_entailment(self.program, point, x, q) {
            Some(entailment) => self.try_entailments(
                at,
                point,
                proofs,
                from,
                from_ref(&entailment),
                kept,
            ),
            None => Ok(Tried::none()),
        }
    }

    /// Tries what is asked where a lock is given back.
    pub fn try_unlock(
        &self,
        at: u32,
        point: &Point,
        l: u32,
        proofs: &[Proof],
        kept: &mut List<Kept>,
    ) -> Result<Tried, NoMemory>
        requires walk { IsWalk self.now }
        requires point { Stands self.now point.now }
        requires lock { l < length self.now.program.now.locks }
        ensures { IfOk result (λ tried. Wherever self.now point.now (λ a.
            Tries self.now.purpose at (map view.proof proofs.now) 1 (spec.unlock_entailments (plain_of self.now) self.now.thread a l) kept.old kept.new tried)) }
    {
        let entailments = unlock_entailments(self.alloc, self.program, point, l)?;
        self.try_entailments(at, point, proofs, 1, entailments.as_slice(), kept)
    }

    /// Tries entailments, of which there may be none where one is too large to be built.
    fn try_listed(
        &self,
        at: u32,
        point: &Point,
        proofs: &[Proof],
        from: u32,
        entailments: &Option<List<Entailment<'_>>>,
        kept: &mut List<Kept>,
    ) -> Result<Tried, NoMemory>
        requires { MatchOption entailments.now (Unit {0}) (λ made. from + length made < 2 ^ 32) }
        ensures { IfOk result (λ tried. Wherever self.now point.now (λ a. (gs : List spec.Entailment) → AreListed a.preds gs entailments.now
            → Tries self.now.purpose at (map view.proof proofs.now) from gs kept.old kept.new tried)) }
    {
        match entailments {
            Some(entailments) => self.try_entailments(
                at,
                point,
                proofs,
                from,
                entailments.as_slice(),
                kept,
            ),
            None => Ok(Tried::large()),
        }
    }

    /// Tries entailments, if they are small.
    fn try_entailments(
        &self,
        at: u32,
        point: &Point,
        proofs: &[Proof],
        from: u32,
        entailments: &[Entailment<'_>],
        kept: &mut List<Kept>,
    ) -> Result<Tried, NoMemory>
        requires { from + length entailments.now < 2 ^ 32 }
        ensures { IfOk result (λ tried. Wherever self.now point.now (λ a.
            Tries self.now.purpose at (map view.proof proofs.now) from (entailments_of a.preds entailments.now) kept.old kept.new tried)) }
    {
        if !are_small(point, entailments) {
            return Ok(Tried::large());
        }
        self.try_small(at, point, proofs, from, entailments, kept)
    }

    /// Tries entailments that are small, or adds to what is kept what the walk keeps of them.
    fn try_small(
        &self,
        at: u32,
        point: &Point,
        proofs: &[Proof],
        from: u32,
        entailments: &[Entailment<'_>],
        kept: &mut List<Kept>,
    ) -> Result<Tried, NoMemory>
        requires { from + length entailments.now < 2 ^ 32 }
        ensures { IfOk result (λ tried. Wherever self.now point.now (λ a. list_all spec.is_small_entailment (entailments_of a.preds entailments.now) ≡ true
            → Tries self.now.purpose at (map view.proof proofs.now) from (entailments_of a.preds entailments.now) kept.old kept.new tried)) }
    {
        let (alloc, site) = (self.alloc, self.site(at));
        let count = entailments.len() as u32;
        match self.purpose {
            Purpose::Judge => {
                let unproved = first_unproved(alloc, point, proofs, from, entailments)?;
                Ok(Tried {
                    count,
                    small: true,
                    unproved,
                })
            }
            Purpose::Collect(wanted) => {
                add_copies(alloc, site, point, from, entailments, wanted, kept)?;
                Ok(Tried {
                    count,
                    small: true,
                    unproved: None,
                })
            }
            Purpose::Search(depth) => {
                add_searched(alloc, site, point, proofs, from, entailments, depth, kept)?;
                Ok(Tried {
                    count,
                    small: true,
                    unproved: None,
                })
            }
        }
    }

    /// The point after a statement whose last entailments were tried, if each of its obligations holds. Else what is kept of these entailments
    /// is dropped: the first so many of what is kept stay. So many entailments came before in the statement itself, and so many in its
    /// blocks.
    pub fn conclude(
        &self,
        at: u32,
        proofs: &[Proof],
        before: u32,
        inside: u64,
        front: Result<(), CheckFault>,
        tried: Tried,
        after: Point,
        mark: usize,
        kept: &mut List<Kept>,
    ) -> Result<Walked, CheckFault>
        requires few { inside < 2 ^ 32 }
        ensures { Wherever self.now after (λ b. (asked : List Obligation) → (gs : List spec.Entailment) → (start : List Kept) → (count counted : ℕ) → are_others asked ≡ true
            → Decides asked front → length start ≡ mark → Tries self.now.purpose at (map view.proof proofs.now) (suc before) gs start kept.old tried
            → before + length gs ≡ count → before + inside + length gs ≡ counted
            → Walks self.now.purpose (plain_of self.now) self.now.thread
            (asked ++ flat (last_parts (plain_of self.now) self.now.thread at (map view.proof proofs.now) (suc before) count gs (b ∷ [])))
            (placed_from at (suc before) gs) b counted start kept.new result) }
    {
        let last = self.check_last(at, proofs, before, tried, after.has_small_types());
        match both(front, last) {
            Ok(()) => Ok(Walked {
                point: after,
                entailments: u64::from(before) + inside + u64::from(tried.count),
            }),
            Err(fault) => {
                cut(kept, mark);
                Err(fault)
            }
        }
    }

    /// The verdict on what is asked last of a statement: that entailments and the types after it are small (V16), that the entailments
    /// are proved (V9), and that each number of a proof is that of an entailment, of which so many came before (V13).
    fn check_last(
        &self,
        at: u32,
        proofs: &[Proof],
        before: u32,
        tried: Tried,
        types: bool,
    ) -> Result<(), CheckFault>
        ensures { (gs : List spec.Entailment) → (points : List typing.Point) → (count : ℕ) → (a b : List Kept)
            → Tries self.now.purpose at (map view.proof proofs.now) (suc before) gs a b tried
            → types ≡ list_all has_small_types points → before + length gs ≡ count
            → Decides (looked_at self.now.purpose
            (flat (last_parts (plain_of self.now) self.now.thread at (map view.proof proofs.now) (suc before) count gs points))) result }
    {
        let site = self.site(at);
        let count = before as usize + tried.count as usize;
        match require_small(self.program, site, tried.small && types) {
            Ok(()) => match require_proved(site, tried.unproved) {
                Ok(()) => self.check_given(site, count, proofs),
                Err(fault) => Err(fault),
            },
            Err(fault) => Err(fault),
        }
    }

    /// The verdict on the numbers of proofs of a statement that has so many entailments (V13), if the walk looks at it.
    pub fn check_given(&self, site: Site, count: usize, proofs: &[Proof]) -> Result<(), CheckFault>
        ensures { Decides (looked_at self.now.purpose (numbers (plain_of self.now) site.thread site.place count (map view.proof proofs.now))) result }
    {
        match self.purpose {
            Purpose::Judge => check_numbers(self.program, site, count, proofs),
            Purpose::Collect(_) => Ok(()),
            Purpose::Search(_) => Ok(()),
        }
    }
}
