//! The type of an assigned value, and assignments whose type is too large to be built.

ghost use Rattle.std.specs.Prelude.{◌≡◌, ◌<◌, ◌∷◌, ◌++◌, [], List, length, map, Err, None, option_map, IfOk, MatchOption};
ghost use Rattle.cov_expr.specs.Term.{Term};
ghost use Rattle.cov_expr.specs.Trees as tree;
ghost use Rattle.cov_expr.specs.View.{term};
ghost use Rattle.cov_expr.specs.Words.{HasVarsBelow};
ghost use Rattle.cov_ast.specs.Obligations.{Decides};
ghost use Rattle.cov_ast.specs.Syntax as syntax;
ghost use Rattle.cov_ast.specs.View as view;
ghost use Rattle.cov_ast.specs.WellFormed.{AreTypesInRange, IsStmInRange};
ghost use Rattle.point_law.specs.After.{after_assign};
ghost use Rattle.point_law.specs.Point.{conjuncts_of_types, is_over_controls, ty, ty_var};
ghost use Rattle.typing_law.specs.Blocks as blocks;
ghost use Rattle.typing_law.specs.Entailments.{assign_entailments};
ghost use Rattle.typing_law.specs.ThreadObligations.{few_preds, flat, small_terms};
ghost use Rattle.typing_rules.specs.Inside.Walking.{IsWalk, Stands, Wherever, plain_of, type_parts, value_parts};

use crate::entailment_parts::read_held;
use crate::evaluation::check_evaluation;
use crate::sizes::check_few_preds;
use crate::subst_nodes::MOST_PARTS;
use crate::types::check_retypes;
use crate::walk::{Walk, both};
use crate::writes::{check_access, check_stable_if};
use cov_ast::{CheckFault, Detail, Retype, Rule};
use cov_expr::{Expr, List, NoMemory, copy, vars};
use entail_cert::Held;
use typing_law::{refused_at, require_at};
use typing_state::Point;

impl Walk<'_> {
    /// The type of an assigned value: the one that is written, else that of its expression. `None` comes exactly where that
    /// has more than 500 conjuncts.
    pub fn value_type(
        &self,
        e: &Expr,
        written: &Option<Expr>,
        point: &Point,
    ) -> Result<Option<Expr>, NoMemory>
        requires { HasVarsBelow (term e.now) (length self.now.program.now.vars) }
        ensures { IfOk result (λ made. Wherever self.now point.now (λ a.
            MatchOption made ((written.now ≡ None) × (500 < length (conjuncts_of_types (plain_of self.now) self.now.thread a (tree.vars (term e.now)))))
            (λ q. term q ≡ blocks.value_type (plain_of self.now) self.now.thread a (option_map term written.now) (term e.now)))) }
    {
        match written {
            Some(q) => Ok(Some(copy(self.alloc, q)?)),
            None => point.ty_within(self.alloc, self.program, e, MOST_PARTS),
        }
    }

    /// Why an assignment is refused whose type is too large to be built: what is asked before its size, else that.
    #[inline(never)]
    pub fn refuse_large(
        &self,
        at: u32,
        x: u32,
        e: &Expr,
        retypes: &List<Retype>,
        point: Point,
    ) -> CheckFault
        requires walk { IsWalk self.now }
        requires range { IsStmInRange (length self.now.program.now.vars) (length self.now.program.now.locks)
            (syntax.assign x (term e.now) None (map view.retype retypes.now)) }
        requires point { Stands self.now point }
        ensures { Wherever self.now point (λ a. let q = ty (plain_of self.now) self.now.thread a (term e.now) in
            let after = after_assign (plain_of self.now) self.now.thread a x (term e.now) q (map view.retype retypes.now) in
            500 < length (conjuncts_of_types (plain_of self.now) self.now.thread a (tree.vars (term e.now)))
            → Decides
            (flat (value_parts (plain_of self.now) self.now.thread at a x (term e.now) q (map view.retype retypes.now)
            ++ few_preds (plain_of self.now) self.now.thread at (after ∷ [])
            ∷ small_terms (plain_of self.now) self.now.thread at (assign_entailments (plain_of self.now) self.now.thread a x (term e.now) None (map view.retype retypes.now)) (after ∷ []) ∷ []))
            (Err result)) }
    {
        match self.check_but_size(at, x, e, retypes, point) {
            Ok(()) => refused_at(self.site(at), Rule::V16, Detail::Nothing),
            Err(fault) => fault,
        }
    }

    /// Checks what is asked of an assignment before its size, where its type isn't built.
    fn check_but_size(
        &self,
        at: u32,
        x: u32,
        e: &Expr,
        retypes: &List<Retype>,
        point: Point,
    ) -> Result<(), CheckFault>
        requires walk { IsWalk self.now }
        requires range { IsStmInRange (length self.now.program.now.vars) (length self.now.program.now.locks)
            (syntax.assign x (term e.now) None (map view.retype retypes.now)) }
        requires point { Stands self.now point }
        ensures { Wherever self.now point (λ a. let q = ty (plain_of self.now) self.now.thread a (term e.now) in
            Decides
            (flat (value_parts (plain_of self.now) self.now.thread at a x (term e.now) q (map view.retype retypes.now)
            ++ few_preds (plain_of self.now) self.now.thread at (after_assign (plain_of self.now) self.now.thread a x (term e.now) q (map view.retype retypes.now) ∷ []) ∷ []))
            result) }
    {
        let over = self.is_read_over_controls(e, &point)?;
        let before = self.check_before(at, x, e, over, retypes.as_slice(), &point);
        // The predicates don't depend on the type.
        let no_type = Expr::Const(0);
        let after = point.after_assign(self.alloc, self.program, x, e, no_type, retypes)?;
        let few = check_few_preds(self.program, self.site(at), &after);
        both(before, few)
    }

    /// Checks what is asked before a value is assigned, where it is known whether its type is over stable controls.
    pub fn check_before(
        &self,
        at: u32,
        x: u32,
        e: &Expr,
        over: bool,
        retypes: &[Retype],
        point: &Point,
    ) -> Result<(), CheckFault>
        requires variable { x < length self.now.program.now.vars }
        requires value { HasVarsBelow (term e.now) (length self.now.program.now.vars) }
        requires range { AreTypesInRange (length self.now.program.now.vars) (length self.now.program.now.locks) (map view.retype retypes.now) }
        ensures { (q : Term) → Wherever self.now point.now (λ a. over ≡ is_over_controls (plain_of self.now) self.now.thread a.held q
            → Decides (flat (value_parts (plain_of self.now) self.now.thread at a x (term e.now) q (map view.retype retypes.now))) result) }
    {
        let (p, site, modes) = (self.program, self.site(at), point.modes());
        match check_access(p, site, modes, x, e) {
            Ok(()) => match check_evaluation(p, site, modes, e) {
                Ok(()) => self.check_typing(at, x, e, over, retypes, point),
                Err(fault) => Err(fault),
            },
            Err(fault) => Err(fault),
        }
    }

    /// Checks what is asked of the type of an assigned value, where it is known whether it is over stable controls, and of
    /// the `retype`s.
    fn check_typing(
        &self,
        at: u32,
        x: u32,
        e: &Expr,
        over: bool,
        retypes: &[Retype],
        point: &Point,
    ) -> Result<(), CheckFault>
        requires variable { x < length self.now.program.now.vars }
        requires value { HasVarsBelow (term e.now) (length self.now.program.now.vars) }
        requires range { AreTypesInRange (length self.now.program.now.vars) (length self.now.program.now.locks) (map view.retype retypes.now) }
        ensures { (q : Term) → Wherever self.now point.now (λ a. over ≡ is_over_controls (plain_of self.now) self.now.thread a.held q
            → Decides (flat (type_parts (plain_of self.now) self.now.thread at a x (term e.now) q (map view.retype retypes.now))) result) }
    {
        let (p, site, modes) = (self.program, self.site(at), point.modes());
        match require_at(site, over, Rule::V4, Detail::Nothing) {
            Ok(()) => match check_stable_if(p, site, modes, point.is_control(x), e) {
                Ok(()) => check_retypes(p, site, point, x, retypes),
                Err(fault) => Err(fault),
            },
            Err(fault) => Err(fault),
        }
    }

    /// Whether the type of the value of an expression is over stable controls: that of each of its variables is.
    fn is_read_over_controls(&self, e: &Expr, point: &Point) -> Result<bool, NoMemory>
        requires walk { IsWalk self.now }
        requires value { HasVarsBelow (term e.now) (length self.now.program.now.vars) }
        requires point { Stands self.now point.now }
        ensures { IfOk result (λ over. Wherever self.now point.now (λ a.
            over ≡ is_over_controls (plain_of self.now) self.now.thread a.held (ty (plain_of self.now) self.now.thread a (term e.now)))) }
    {
        let read = vars(self.alloc, e)?;
        for y in read.as_slice() {
            if !self.is_over_controls(*y, point) {
                return Ok(false);
            }
        }
        Ok(true)
    }

    /// Whether the type of a variable that is read is over stable controls.
    fn is_over_controls(&self, y: u32, point: &Point) -> bool
        requires walk { IsWalk self.now }
        requires variable { y < length self.now.program.now.vars }
        requires point { Stands self.now point.now }
        ensures { Wherever self.now point.now (λ a.
            result ≡ is_over_controls (plain_of self.now) self.now.thread a.held (ty_var (plain_of self.now) self.now.thread a y)) }
    {
        match read_held(self.program, point, y) {
            Held::Lent(q) => point.is_over_controls(q),
            Held::Made(q) => point.is_over_controls(&q),
        }
    }
}
