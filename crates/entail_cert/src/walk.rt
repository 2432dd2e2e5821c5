//! The walk over a certificate, which keeps the hypotheses that it adds and the path to its node.

ghost use Rattle.std.specs.Prelude.{◌≡◌, ◌≤◌, ◌-◌, [], ◌∷◌, ◌++◌, ◌||◌, None, Some, Ok, Err, IfOk, IfSome, MatchBool, MatchOption, OnOk, map, option_map, slice_get};
ghost use Rattle.cov_expr.specs.declared.expr.Op.TheVariants.{Eq};
ghost use Rattle.cov_expr.specs.Term.{const, neg};
ghost use Rattle.cov_expr.specs.Trees as tree;
ghost use Rattle.cov_expr.specs.View.{term};
ghost use Rattle.cov_ast.specs.Syntax as by;
ghost use Rattle.cov_ast.specs.View as view;
ghost use Rattle.entail_cert.specs.declared.walk.Stop.TheVariants as stops;
ghost use Rattle.entail_cert.specs.Axioms.{numbered};
ghost use Rattle.entail_cert.specs.HeldTerms.{held_term};
ghost use Rattle.entail_cert.specs.Valid.{filled, first_bad, in_child, is_negation, is_plain, is_some_and, two};
ghost use Rattle.entail_cert.specs.Valid as spec;
ghost use Rattle.entail_cert.specs.Inside.Findings.{Halves, Finds, Parts, InstancesHaveWords, Replaces, Rewrites, children, hypotheses};

use crate::arithmetic::{is_range, is_ring, lent_facts};
use crate::held::Held;
use crate::instance::axiom_for;
use crate::known::{has_false, has_false_fact, knows_each};
use crate::parts::{is_false, is_filled, is_negation_of, is_reflexive, is_true, negated, operands};
use cov_ast::Cert;
use cov_expr::{Expr, HOLE, List, NoMemory, Op, boxed, copy, same, subst};
use std::alloc::Global;

/// Where a walk over a certificate stands: the hypotheses that it has added to the given ones, and the numbers of the children that
/// lead from the root to its node.
#[derive(Drop)]
pub struct Walk<'a> {
    pub alloc: Global,
    pub added: List<Held<'a>>,
    pub path: List<u8>,
}

/// Why a walk stops.
#[derive(Clone, Copy, Debug, PartialEq, Eq)]
pub enum Stop {
    /// The own condition of the node fails.
    Bad,
    /// Memory ran out.
    NoMemory,
}

impl From<NoMemory> for Stop {
    ghost use Rattle.entail_cert.specs.declared.walk.Stop.TheVariants as stops;

    ghost from_gives = { λ _ stop. stop ≡ stops.NoMemory };

    fn from(_error: NoMemory) -> Stop {
        Stop::NoMemory
    }
}

/// The negation of a copy.
fn negation_of<'a>(alloc: Global, e: &Expr) -> Result<Held<'a>, NoMemory>
    ensures { IfOk result (λ made. held_term made ≡ neg (term e.now)) }
{
    Ok(Held::Made(Expr::Not(boxed(alloc, copy(alloc, e)?)?)))
}

/// A copy, held.
fn made<'a>(alloc: Global, e: &Expr) -> Result<Held<'a>, NoMemory>
    ensures { IfOk result (λ made. held_term made ≡ term e.now) }
{
    Ok(Held::Made(copy(alloc, e)?))
}

/// The operands, where the expression has this operator.
fn parts<'a>(op: Op, e: &'a Expr) -> Result<(&'a Expr, &'a Expr), Stop>
    ensures { Parts (spec.operands op (term e.now)) result }
{
    operands(op, e).ok_or(Stop::Bad)
}

/// The index, counted from 0, of what has this number, counted from 1.
fn index_of(number: u32) -> Option<usize>
    ensures { MatchOption result (number ≡ 0) (λ index. (1 ≤ number) × (index ≡ number - 1)) }
{
    (number as usize).checked_sub(1)
}

/// Goes on where a condition holds.
fn accept(holds: bool) -> Result<(), Stop>
    ensures { MatchBool holds (result ≡ Ok tt) (result ≡ Err stops.Bad) }
{
    if holds { Ok(()) } else { Err(Stop::Bad) }
}

/// A template with another part in its holes, where the goal is the template with the first part.
fn replaced(
    alloc: Global,
    template: &Expr,
    from: &Expr,
    to: &Expr,
    goal: &Expr,
) -> Result<Expr, Stop>
    ensures { Replaces (tree.same (filled (term template.now) (term from.now)) (term goal.now)) (filled (term template.now) (term to.now)) result }
{
    if !is_filled(template, from, goal) {
        return Err(Stop::Bad);
    }
    Ok(subst(alloc, template, HOLE, to)?)
}

/// The operands of a lent expression that has this operator.
fn lent_halves<'a>(op: Op, e: &'a Expr) -> Result<(Held<'a>, Held<'a>), Stop>
    ensures { Halves (spec.operands op (term e.now)) result }
{
    let (a, b) = parts(op, e)?;
    Ok((Held::Lent(a), Held::Lent(b)))
}

/// Copies of the operands of an expression that has this operator.
fn made_halves<'a>(alloc: Global, op: Op, e: &Expr) -> Result<(Held<'a>, Held<'a>), Stop>
    ensures { Halves (spec.operands op (term e.now)) result }
{
    let (a, b) = parts(op, e)?;
    let left = made(alloc, a)?;
    Ok((left, made(alloc, b)?))
}

impl<'a> Walk<'a> {
    /// The added hypothesis at an index, counted from 0.
    fn added_at(&self, index: usize) -> Option<&Expr>
        ensures { option_map (λ e. term e.now) result ≡ slice_get (map held_term self.now.added) index }
    {
        Some(self.added.as_slice().get(index)?.expr())
    }

    /// The hypothesis of a number, counted from 1.
    fn hypothesis<'h>(&'h self, given: &'h [Expr], number: u32) -> Option<&'h Expr>
        ensures { option_map (λ e. term e.now) result ≡ numbered (hypotheses given.now self.now) number }
    {
        let index = index_of(number)?;
        if index < given.len() {
            given.get(index)
        } else {
            self.added_at(index - given.len())
        }
    }

    /// The added hypothesis at an index, where it was lent to the walk.
    fn lent_at(&self, index: usize) -> Option<&'a Expr>
        ensures { IfSome result (λ e. slice_get (map held_term self.now.added) index ≡ Some (term e.now)) }
    {
        match self.added.as_slice().get(index)? {
            Held::Lent(e) => Some(e),
            Held::Made(_) => None,
        }
    }

    /// The hypothesis of a number, where it was lent to the walk.
    fn lent(&self, given: &'a [Expr], number: u32) -> Option<&'a Expr>
        ensures { IfSome result (λ e. numbered (hypotheses given.now self.now) number ≡ Some (term e.now)) }
    {
        let index = index_of(number)?;
        if index < given.len() {
            given.get(index)
        } else {
            self.lent_at(index - given.len())
        }
    }

    /// Whether each conjunct of the goal is true or known, or a hypothesis is false.
    fn is_plain(&self, given: &[Expr], goal: &Expr) -> bool
        ensures { result ≡ is_plain (hypotheses given.now self.now) (term goal.now) }
    {
        knows_each(goal, given, self.added.as_slice())
            || has_false(given)
            || has_false_fact(self.added.as_slice())
    }

    /// Whether the goal is this hypothesis.
    fn is_hypothesis(&self, given: &[Expr], number: u32, goal: &Expr) -> bool
        ensures { result ≡ is_some_and (λ h. tree.same h (term goal.now)) (numbered (hypotheses given.now self.now) number) }
    {
        match self.hypothesis(given, number) {
            Some(h) => same(h, goal),
            None => false,
        }
    }

    /// Whether this hypothesis is false.
    fn is_false_hypothesis(&self, given: &[Expr], number: u32) -> bool
        ensures { result ≡ is_some_and spec.is_false (numbered (hypotheses given.now self.now) number) }
    {
        match self.hypothesis(given, number) {
            Some(h) => is_false(h),
            None => false,
        }
    }

    /// Whether the second hypothesis is the negation of the first.
    fn is_contradiction(&self, given: &[Expr], first: u32, second: u32) -> bool
        ensures { result ≡ is_negation (numbered (hypotheses given.now self.now) first) (numbered (hypotheses given.now self.now) second) }
    {
        match (
            self.hypothesis(given, first),
            self.hypothesis(given, second),
        ) {
            (Some(e), Some(f)) => is_negation_of(f, e),
            (Some(_), None) | (None, Some(_)) | (None, None) => false,
        }
    }

    /// The operands of a hypothesis that has this operator.
    fn operands_of<'h>(
        &'h self,
        given: &'h [Expr],
        number: u32,
        op: Op,
    ) -> Option<(&'h Expr, &'h Expr)>
        ensures { option_map (λ p. (term p.0.now, term p.1.now)) result ≡ spec.operands_of op (numbered (hypotheses given.now self.now) number) }
    {
        operands(op, self.hypothesis(given, number)?)
    }

    /// The operands of a hypothesis that has this operator. They are copied where the walk made the hypothesis.
    fn halves(&self, given: &'a [Expr], number: u32, op: Op) -> Result<(Held<'a>, Held<'a>), Stop>
        ensures { Halves (spec.operands_of op (numbered (hypotheses given.now self.now) number)) result }
    {
        match self.lent(given, number) {
            Some(e) => lent_halves(op, e),
            None => self.copies(given, number, op),
        }
    }

    /// Copies of the operands of a hypothesis that has this operator.
    fn copies(&self, given: &[Expr], number: u32, op: Op) -> Result<(Held<'a>, Held<'a>), Stop>
        ensures { Halves (spec.operands_of op (numbered (hypotheses given.now self.now) number)) result }
    {
        match self.hypothesis(given, number) {
            Some(e) => made_halves(self.alloc, op, e),
            None => Err(Stop::Bad),
        }
    }

    /// The goal after a replacement of the sides of a hypothesis, from left to right or from right to left.
    fn rewritten(
        &self,
        given: &[Expr],
        number: u32,
        forward: bool,
        template: &Expr,
        goal: &Expr,
    ) -> Result<Expr, Stop>
        ensures { Rewrites (spec.operands_of Eq (numbered (hypotheses given.now self.now) number)) forward (term template.now) (term goal.now) result }
    {
        let (a, b) = self.operands_of(given, number, Op::Eq).ok_or(Stop::Bad)?;
        if forward {
            replaced(self.alloc, template, a, b, goal)
        } else {
            replaced(self.alloc, template, b, a, goal)
        }
    }

    /// Whether the goal follows from the bounds that the hypotheses give.
    fn is_bounded(&self, given: &[Expr], goal: &Expr) -> Result<bool, NoMemory>
        ensures { IfOk result (λ holds. holds ≡ spec.is_range (hypotheses given.now self.now) (term goal.now)) }
    {
        let added = lent_facts(self.alloc, self.added.as_slice())?;
        is_range(self.alloc, given, added.as_slice(), goal)
    }

    /// Whether the own condition of a node without children holds.
    fn holds(&self, cert: &Cert, given: &[Expr], goal: &Expr) -> Result<bool, NoMemory>
        requires { children (view.cert cert.now) ≡ 0 }
        ensures { IfOk result (λ holds. first_bad (hypotheses given.now self.now) (term goal.now) (view.cert cert.now) ≡ spec.only_if holds None) }
    {
        match cert {
            Cert::Auto => Ok(self.is_plain(given, goal)),
            Cert::Hyp(i) => Ok(self.is_hypothesis(given, *i, goal)),
            Cert::Calc => Ok(is_true(goal)),
            Cert::Clash(i) => Ok(self.is_false_hypothesis(given, *i)),
            Cert::Absurd(i, j) => Ok(self.is_contradiction(given, *i, *j)),
            Cert::Refl => Ok(is_reflexive(goal)),
            Cert::Ring => is_ring(self.alloc, goal),
            Cert::Range => self.is_bounded(given, goal),
            Cert::Left(_)
            | Cert::Right(_)
            | Cert::Unpack(..)
            | Cert::Not(_)
            | Cert::Contra(_)
            | Cert::Fwd(..)
            | Cert::Rev(..)
            | Cert::Axiom(..)
            | Cert::And(..)
            | Cert::Cases(..)
            | Cert::Split(..)
            | Cert::Have(..) => unreachable!(),
        }
    }

    /// Stops at a node without children where its own condition fails.
    fn leaf(&self, cert: &Cert, given: &[Expr], goal: &Expr) -> Result<(), Stop>
        requires { children (view.cert cert.now) ≡ 0 }
        ensures finds { Finds self.now self.now (first_bad (hypotheses given.now self.now) (term goal.now) (view.cert cert.now)) result }
    {
        accept(self.holds(cert, given, goal)?)
    }

    /// Looks for the first node that fails below a certificate, its own node first.
    #[cycle(check)]
    pub fn node(&mut self, cert: &'a Cert, given: &'a [Expr], goal: &Expr) -> Result<(), Stop>
        ensures finds { Finds self.old self.new (first_bad (hypotheses given.now self.old) (term goal.now) (view.cert cert.now)) result }
        ensures words { OnOk result (InstancesHaveWords (view.cert cert.now)) }
    {
        match cert {
            Cert::Auto
            | Cert::Hyp(_)
            | Cert::Calc
            | Cert::Clash(_)
            | Cert::Absurd(..)
            | Cert::Refl
            | Cert::Ring
            | Cert::Range => self.leaf(cert, given, goal),
            Cert::Left(_)
            | Cert::Right(_)
            | Cert::Unpack(..)
            | Cert::Not(_)
            | Cert::Contra(_)
            | Cert::Fwd(..)
            | Cert::Rev(..)
            | Cert::Axiom(..) => self.with_one_child(cert, given, goal),
            Cert::And(c, d) => self.conjunction(c, d, given, goal),
            Cert::Cases(i, c, d) => self.cases(c, d, *i, given, goal),
            Cert::Split(e, c, d) => self.split(c, d, e, given, goal),
            Cert::Have(e, c, d) => self.have(c, d, e, given, goal),
        }
    }

    /// Looks below a node that has one child.
    #[cycle(check)]
    fn with_one_child(&mut self, cert: &'a Cert, given: &'a [Expr], goal: &Expr) -> Result<(), Stop>
        requires { children (view.cert cert.now) ≡ 1 }
        ensures finds { Finds self.old self.new (first_bad (hypotheses given.now self.old) (term goal.now) (view.cert cert.now)) result }
        ensures words { OnOk result (InstancesHaveWords (view.cert cert.now)) }
    {
        match cert {
            Cert::Left(c) => self.left(c, given, goal),
            Cert::Right(c) => self.right(c, given, goal),
            Cert::Unpack(i, c) => self.unpack(c, *i, given, goal),
            Cert::Not(c) => self.negation(c, given, goal),
            Cert::Contra(c) => self.contra(c, given, goal),
            Cert::Fwd(i, t, c) => self.forward(c, *i, t, given, goal),
            Cert::Rev(i, t, c) => self.backward(c, *i, t, given, goal),
            Cert::Axiom(k, args, c) => self.axiom(c, *k, args, given, goal),
            Cert::Auto
            | Cert::Hyp(_)
            | Cert::Calc
            | Cert::Clash(_)
            | Cert::Absurd(..)
            | Cert::Refl
            | Cert::Ring
            | Cert::Range
            | Cert::And(..)
            | Cert::Cases(..)
            | Cert::Split(..)
            | Cert::Have(..) => unreachable!(),
        }
    }

    #[cycle(check)]
    fn conjunction(
        &mut self,
        c: &'a Cert,
        d: &'a Cert,
        given: &'a [Expr],
        goal: &Expr,
    ) -> Result<(), Stop>
        ensures finds { Finds self.old self.new (first_bad (hypotheses given.now self.old) (term goal.now) (by.and (view.cert c.now) (view.cert d.now))) result }
        ensures words { OnOk result (InstancesHaveWords (by.and (view.cert c.now) (view.cert d.now))) }
    {
        let (a, b) = parts(Op::Both, goal)?;
        self.child(c, 1, given, a)?;
        self.child(d, 2, given, b)
    }

    #[cycle(check)]
    fn cases(
        &mut self,
        c: &'a Cert,
        d: &'a Cert,
        i: u32,
        given: &'a [Expr],
        goal: &Expr,
    ) -> Result<(), Stop>
        ensures finds { Finds self.old self.new (first_bad (hypotheses given.now self.old) (term goal.now) (by.cases i (view.cert c.now) (view.cert d.now))) result }
        ensures words { OnOk result (InstancesHaveWords (by.cases i (view.cert c.now) (view.cert d.now))) }
    {
        let (a, b) = self.halves(given, i, Op::Either)?;
        self.under(c, 1, a, given, goal)?;
        self.under(d, 2, b, given, goal)
    }

    #[cycle(check)]
    fn split(
        &mut self,
        c: &'a Cert,
        d: &'a Cert,
        e: &'a Expr,
        given: &'a [Expr],
        goal: &Expr,
    ) -> Result<(), Stop>
        ensures finds { Finds self.old self.new (first_bad (hypotheses given.now self.old) (term goal.now) (by.split (term e.now) (view.cert c.now) (view.cert d.now))) result }
        ensures words { OnOk result (InstancesHaveWords (by.split (term e.now) (view.cert c.now) (view.cert d.now))) }
    {
        self.under(c, 1, Held::Lent(e), given, goal)?;
        self.under(d, 2, negation_of(self.alloc, e)?, given, goal)
    }

    #[cycle(check)]
    fn have(
        &mut self,
        c: &'a Cert,
        d: &'a Cert,
        e: &'a Expr,
        given: &'a [Expr],
        goal: &Expr,
    ) -> Result<(), Stop>
        ensures finds { Finds self.old self.new (first_bad (hypotheses given.now self.old) (term goal.now) (by.have (term e.now) (view.cert c.now) (view.cert d.now))) result }
        ensures words { OnOk result (InstancesHaveWords (by.have (term e.now) (view.cert c.now) (view.cert d.now))) }
    {
        self.child(c, 1, given, e)?;
        self.under(d, 2, Held::Lent(e), given, goal)
    }

    #[cycle(check)]
    fn left(&mut self, c: &'a Cert, given: &'a [Expr], goal: &Expr) -> Result<(), Stop>
        ensures finds { Finds self.old self.new (first_bad (hypotheses given.now self.old) (term goal.now) (by.left (view.cert c.now))) result }
        ensures words { OnOk result (InstancesHaveWords (view.cert c.now)) }
    {
        let (a, _) = parts(Op::Either, goal)?;
        self.child(c, 1, given, a)
    }

    #[cycle(check)]
    fn right(&mut self, c: &'a Cert, given: &'a [Expr], goal: &Expr) -> Result<(), Stop>
        ensures finds { Finds self.old self.new (first_bad (hypotheses given.now self.old) (term goal.now) (by.right (view.cert c.now))) result }
        ensures words { OnOk result (InstancesHaveWords (view.cert c.now)) }
    {
        let (_, b) = parts(Op::Either, goal)?;
        self.child(c, 1, given, b)
    }

    #[cycle(check)]
    fn unpack(&mut self, c: &'a Cert, i: u32, given: &'a [Expr], goal: &Expr) -> Result<(), Stop>
        ensures finds { Finds self.old self.new (first_bad (hypotheses given.now self.old) (term goal.now) (by.unpack i (view.cert c.now))) result }
        ensures words { OnOk result (InstancesHaveWords (view.cert c.now)) }
    {
        let (a, b) = self.halves(given, i, Op::Both)?;
        self.added.push(a)?;
        self.under(c, 1, b, given, goal)?;
        self.added.pop();
        Ok(())
    }

    #[cycle(check)]
    fn negation(&mut self, c: &'a Cert, given: &'a [Expr], goal: &Expr) -> Result<(), Stop>
        ensures finds { Finds self.old self.new (first_bad (hypotheses given.now self.old) (term goal.now) (by.negation (view.cert c.now))) result }
        ensures words { OnOk result (InstancesHaveWords (view.cert c.now)) }
    {
        let a = negated(goal).ok_or(Stop::Bad)?;
        let fact = made(self.alloc, a)?;
        self.under(c, 1, fact, given, &Expr::Const(0))
    }

    #[cycle(check)]
    fn contra(&mut self, c: &'a Cert, given: &'a [Expr], goal: &Expr) -> Result<(), Stop>
        ensures finds { Finds self.old self.new (first_bad (hypotheses given.now self.old) (term goal.now) (by.contra (view.cert c.now))) result }
        ensures words { OnOk result (InstancesHaveWords (view.cert c.now)) }
    {
        let opposite = negation_of(self.alloc, goal)?;
        self.under(c, 1, opposite, given, &Expr::Const(0))
    }

    #[cycle(check)]
    fn forward(
        &mut self,
        c: &'a Cert,
        i: u32,
        t: &Expr,
        given: &'a [Expr],
        goal: &Expr,
    ) -> Result<(), Stop>
        ensures finds { Finds self.old self.new (first_bad (hypotheses given.now self.old) (term goal.now) (by.fwd i (term t.now) (view.cert c.now))) result }
        ensures words { OnOk result (InstancesHaveWords (view.cert c.now)) }
    {
        let next = self.rewritten(given, i, true, t, goal)?;
        self.child(c, 1, given, &next)
    }

    #[cycle(check)]
    fn backward(
        &mut self,
        c: &'a Cert,
        i: u32,
        t: &Expr,
        given: &'a [Expr],
        goal: &Expr,
    ) -> Result<(), Stop>
        ensures finds { Finds self.old self.new (first_bad (hypotheses given.now self.old) (term goal.now) (by.rev i (term t.now) (view.cert c.now))) result }
        ensures words { OnOk result (InstancesHaveWords (view.cert c.now)) }
    {
        let next = self.rewritten(given, i, false, t, goal)?;
        self.child(c, 1, given, &next)
    }

    #[cycle(check)]
    fn axiom(
        &mut self,
        c: &'a Cert,
        k: u32,
        args: &List<Expr>,
        given: &'a [Expr],
        goal: &Expr,
    ) -> Result<(), Stop>
        ensures finds { Finds self.old self.new (first_bad (hypotheses given.now self.old) (term goal.now) (by.instance k (map term args.now) (view.cert c.now))) result }
        ensures words { OnOk result (InstancesHaveWords (by.instance k (map term args.now) (view.cert c.now))) }
    {
        match axiom_for(self.alloc, k, args.as_slice())? {
            None => Err(Stop::Bad),
            Some(e) => self.under(c, 1, Held::Made(e), given, goal),
        }
    }

    /// Looks below a child with one hypothesis more.
    #[cycle(check)]
    fn under(
        &mut self,
        c: &'a Cert,
        step: u8,
        hypothesis: Held<'a>,
        given: &'a [Expr],
        goal: &Expr,
    ) -> Result<(), Stop>
        ensures finds { Finds self.old self.new (in_child step (first_bad (hypotheses given.now self.old ++ held_term hypothesis.entry ∷ []) (term goal.now) (view.cert c.now))) result }
        ensures words { OnOk result (InstancesHaveWords (view.cert c.now)) }
    {
        self.added.push(hypothesis)?;
        self.child(c, step, given, goal)?;
        self.added.pop();
        Ok(())
    }

    /// Looks below a child.
    #[cycle(check)]
    fn child(&mut self, c: &'a Cert, step: u8, given: &'a [Expr], goal: &Expr) -> Result<(), Stop>
        ensures finds { Finds self.old self.new (in_child step (first_bad (hypotheses given.now self.old) (term goal.now) (view.cert c.now))) result }
        ensures words { OnOk result (InstancesHaveWords (view.cert c.now)) }
    {
        self.path.push(step)?;
        self.node(c, given, goal)?;
        self.path.pop();
        Ok(())
    }
}
