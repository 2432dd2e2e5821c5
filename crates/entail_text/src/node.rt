//! The nodes of a certificate, each with its hypotheses and its goal.

ghost use Rattle.std.specs.Prelude.{◌≡◌, ◌-◌, [], ◌∷◌, ◌++◌, IfOk, Some, map, option_map, slice_get};
ghost use Rattle.cov_expr.specs.declared.expr.Op.TheVariants.{Eq, Either};
ghost use Rattle.cov_expr.specs.Term.{const, neg};
ghost use Rattle.cov_expr.specs.View.{term};
ghost use Rattle.cov_ast.specs.Syntax as by;
ghost use Rattle.cov_ast.specs.View as view;
ghost use Rattle.entail_cert.specs.Axioms as axioms;
ghost use Rattle.entail_cert.specs.Axioms.{numbered};
ghost use Rattle.entail_cert.specs.HeldTerms.{held_term};
ghost use Rattle.entail_cert.specs.Valid.{filled, operands, operands_of};
ghost use Rattle.entail_text.specs.Inside.{half_of, part, seen};
ghost use Rattle.entail_text.specs.Nodes as spec;

use cov_ast::Cert;
use cov_expr::{Expr, HOLE, List, NoMemory, Op, boxed, copy, subst};
use entail_cert::{Held, axiom_for, negated, operands};
use std::alloc::Global;

/// A node of a certificate: its hypotheses and its goal, and the certificate from it on.
#[derive(Drop)]
pub struct Node<'a> {
    pub hyps: List<Held<'a>>,
    pub goal: Held<'a>,
    pub cert: &'a Cert,
}

/// The root of a certificate for an entailment.
pub fn root<'a>(
    alloc: Global,
    hyps: &'a [Expr],
    goal: &'a Expr,
    cert: &'a Cert,
) -> Result<Node<'a>, NoMemory>
    ensures { IfOk result (λ made. seen made ≡ spec.node (map term hyps.now) (term goal.now) (view.cert cert.now)) }
{
    Ok(Node {
        hyps: lent(alloc, hyps)?,
        goal: Held::Lent(goal),
        cert,
    })
}

/// Hypotheses, each lent.
fn lent<'a>(alloc: Global, hyps: &'a [Expr]) -> Result<List<Held<'a>>, NoMemory>
    ensures { IfOk result (λ made. map held_term made ≡ map term hyps.now) }
{
    let mut made = List::new(alloc);
    for h in hyps {
        made.push(Held::Lent(h))?;
    }
    Ok(made)
}

/// The node of a path from a node on. `None` comes where the path leads to none.
pub fn node_at<'a>(alloc: Global, node: Node<'a>, path: &[u8]) -> Result<Option<Node<'a>>, NoMemory>
    ensures { IfOk result (λ made. option_map seen made ≡ spec.node_at path.now (seen node.entry)) }
{
    match path {
        [] => Ok(Some(node)),
        [step, rest @ ..] => match node.child(alloc, *step)? {
            Some(next) => node_at(alloc, next, rest),
            None => Ok(None),
        },
    }
}

/// Which of two operands.
#[derive(Clone, Copy)]
enum Half {
    First,
    Second,
}

/// One of the operands of an expression that has this operator.
fn operand(op: Op, half: Half, e: &Expr) -> Option<&Expr>
    ensures { option_map (λ a. term a.now) result ≡ half_of half (operands op (term e.now)) }
{
    let (a, b) = operands(op, e)?;
    match half {
        Half::First => Some(a),
        Half::Second => Some(b),
    }
}

/// The same of an expression that is held. The operand is copied where the expression was made.
fn held_operand<'a>(
    alloc: Global,
    op: Op,
    half: Half,
    e: &Held<'a>,
) -> Result<Option<Held<'a>>, NoMemory>
    ensures { IfOk result (λ made. option_map held_term made ≡ half_of half (operands op (held_term e.now))) }
{
    match e {
        Held::Lent(whole) => Ok(lent_operand(op, half, whole)),
        Held::Made(whole) => copied(alloc, operand(op, half, whole)),
    }
}

fn lent_operand<'a>(op: Op, half: Half, e: &'a Expr) -> Option<Held<'a>>
    ensures { option_map held_term result ≡ half_of half (operands op (term e.now)) }
{
    match operand(op, half, e) {
        Some(a) => Some(Held::Lent(a)),
        None => None,
    }
}

/// A copy of an expression that is there.
fn copied<'a>(alloc: Global, e: Option<&Expr>) -> Result<Option<Held<'a>>, NoMemory>
    ensures { IfOk result (λ made. option_map held_term made ≡ option_map (λ a. term a.now) e.entry) }
{
    match e {
        Some(a) => Ok(Some(Held::Made(copy(alloc, a)?))),
        None => Ok(None),
    }
}

/// A template with a part in its holes, where the part is there.
fn filled<'a>(
    alloc: Global,
    template: &Expr,
    part: Option<&Expr>,
) -> Result<Option<Held<'a>>, NoMemory>
    ensures { IfOk result (λ made. option_map held_term made ≡ option_map (λ a. filled (term template.now) (term a.now)) part.entry) }
{
    match part {
        Some(a) => Ok(Some(Held::Made(subst(alloc, template, HOLE, a)?))),
        None => Ok(None),
    }
}

/// An axiom, as a hypothesis.
fn axiom<'a>(alloc: Global, k: u32, args: &[Expr]) -> Result<Option<Held<'a>>, NoMemory>
    ensures { IfOk result (λ made. option_map held_term made ≡ axioms.axiom_for k (map term args.now)) }
{
    match axiom_for(alloc, k, args)? {
        Some(e) => Ok(Some(Held::Made(e))),
        None => Ok(None),
    }
}

/// The negation of a copy.
fn negation_of<'a>(alloc: Global, e: &Expr) -> Result<Held<'a>, NoMemory>
    ensures { IfOk result (λ made. held_term made ≡ neg (term e.now)) }
{
    Ok(Held::Made(Expr::Not(boxed(alloc, copy(alloc, e)?)?)))
}

impl<'a> Node<'a> {
    /// The hypothesis at an index, counted from 0.
    fn hypothesis_at(&self, index: usize) -> Option<&Held<'a>>
        ensures { option_map (λ h. held_term h.now) result ≡ slice_get (map held_term self.now.hyps) index }
    {
        self.hyps.as_slice().get(index)
    }

    /// The hypothesis of a number, counted from 1.
    pub fn hypothesis(&self, number: u32) -> Option<&Held<'a>>
        ensures { option_map (λ h. held_term h.now) result ≡ numbered (map held_term self.now.hyps) number }
    {
        self.hypothesis_at((number as usize).checked_sub(1)?)
    }

    /// One of the operands of a hypothesis that has this operator.
    fn operand_of(&self, number: u32, op: Op, half: Half) -> Option<&Expr>
        ensures { option_map (λ a. term a.now) result ≡ half_of half (operands_of op (numbered (map held_term self.now.hyps) number)) }
    {
        match self.hypothesis(number) {
            Some(h) => operand(op, half, h.expr()),
            None => None,
        }
    }

    /// The same, as a hypothesis.
    fn held_operand_of(
        &self,
        alloc: Global,
        number: u32,
        op: Op,
        half: Half,
    ) -> Result<Option<Held<'a>>, NoMemory>
        ensures { IfOk result (λ made. option_map held_term made ≡ half_of half (operands_of op (numbered (map held_term self.now.hyps) number))) }
    {
        match self.hypothesis(number) {
            Some(h) => held_operand(alloc, op, half, h),
            None => Ok(None),
        }
    }

    /// A child with the same hypotheses.
    fn with_goal(self, goal: Held<'a>, cert: &'a Cert) -> Node<'a>
        ensures { seen result ≡ spec.node (seen self.entry).hyps (held_term goal.entry) (view.cert cert.now) }
    {
        Node {
            hyps: self.hyps,
            goal,
            cert,
        }
    }

    /// A child with the same hypotheses, where its goal is there.
    fn with_any_goal(self, goal: Option<Held<'a>>, cert: &'a Cert) -> Option<Node<'a>>
        ensures { option_map seen result ≡ spec.with (option_map held_term goal.entry) (λ e. Some (spec.node (seen self.entry).hyps e (view.cert cert.now))) }
    {
        match goal {
            Some(goal) => Some(self.with_goal(goal, cert)),
            None => None,
        }
    }

    /// A child with one hypothesis more, where that is there, and the same goal.
    fn under_any(
        self,
        hypothesis: Option<Held<'a>>,
        cert: &'a Cert,
    ) -> Result<Option<Node<'a>>, NoMemory>
        ensures { IfOk result (λ made. option_map seen made ≡ spec.with (option_map held_term hypothesis.entry) (λ e. Some (spec.node ((seen self.entry).hyps ++ e ∷ []) (seen self.entry).goal (view.cert cert.now)))) }
    {
        match hypothesis {
            Some(hypothesis) => {
                let mut hyps = self.hyps;
                hyps.push(hypothesis)?;
                Ok(Some(Node {
                    hyps,
                    goal: self.goal,
                    cert,
                }))
            }
            None => Ok(None),
        }
    }

    /// The child of a number, counted from 1. `None` comes where the node has no such child.
    fn child(self, alloc: Global, step: u8) -> Result<Option<Node<'a>>, NoMemory>
        ensures { IfOk result (λ made. option_map seen made ≡ spec.child (seen self.entry) step) }
    {
        match step {
            1 => self.first_child(alloc),
            2 => match self.cert {
                Cert::And(_, d) => self.narrowed(alloc, Op::Both, Half::Second, d),
                Cert::Cases(i, _, d) => self.case(alloc, *i, Half::Second, d),
                Cert::Split(e, _, d) => {
                    let fact = negation_of(alloc, e)?;
                    self.under_any(Some(fact), d)
                }
                Cert::Have(e, _, d) => self.under_any(Some(Held::Lent(e)), d),
                Cert::Auto | Cert::Calc | Cert::Refl | Cert::Ring | Cert::Range => Ok(None),
                Cert::Hyp(_) | Cert::Clash(_) | Cert::Absurd(..) | Cert::Unpack(..) => Ok(None),
                Cert::Left(_) | Cert::Right(_) | Cert::Not(_) | Cert::Contra(_) => Ok(None),
                Cert::Fwd(..) | Cert::Rev(..) | Cert::Axiom(..) => Ok(None),
            },
            _ => Ok(None),
        }
    }

    fn first_child(self, alloc: Global) -> Result<Option<Node<'a>>, NoMemory>
        ensures { IfOk result (λ made. option_map seen made ≡ spec.child (seen self.entry) 1) }
    {
        match self.cert {
            Cert::Auto | Cert::Calc | Cert::Refl | Cert::Ring | Cert::Range => Ok(None),
            Cert::Hyp(_) | Cert::Clash(_) | Cert::Absurd(..) => Ok(None),
            Cert::And(c, _) => self.narrowed(alloc, Op::Both, Half::First, c),
            Cert::Left(c) => self.narrowed(alloc, Op::Either, Half::First, c),
            Cert::Right(c) => self.narrowed(alloc, Op::Either, Half::Second, c),
            Cert::Unpack(i, c) => self.unpacked(alloc, *i, c),
            Cert::Cases(i, c, _) => self.case(alloc, *i, Half::First, c),
            Cert::Split(e, c, _) => self.under_any(Some(Held::Lent(e)), c),
            Cert::Have(e, c, _) => Ok(Some(self.with_goal(Held::Lent(e), c))),
            Cert::Not(c) => self.negated(alloc, c),
            Cert::Contra(c) => self.contrary(alloc, c),
            Cert::Fwd(i, t, c) => self.rewritten(alloc, *i, Half::Second, t, c),
            Cert::Rev(i, t, c) => self.rewritten(alloc, *i, Half::First, t, c),
            Cert::Axiom(k, es, c) => self.with_axiom(alloc, *k, es, c),
        }
    }

    /// A child with the same hypotheses, whose goal is an operand of the goal.
    fn narrowed(
        self,
        alloc: Global,
        op: Op,
        half: Half,
        cert: &'a Cert,
    ) -> Result<Option<Node<'a>>, NoMemory>
        ensures { IfOk result (λ made. option_map seen made ≡ spec.with (operands op (seen self.entry).goal) (λ p. Some (spec.node (seen self.entry).hyps (part half p) (view.cert cert.now)))) }
    {
        let goal = held_operand(alloc, op, half, &self.goal)?;
        Ok(self.with_any_goal(goal, cert))
    }

    /// A child with one more hypothesis, an operand of the disjunction of a number.
    fn case(
        self,
        alloc: Global,
        i: u32,
        half: Half,
        cert: &'a Cert,
    ) -> Result<Option<Node<'a>>, NoMemory>
        ensures { IfOk result (λ made. option_map seen made ≡ spec.with (operands_of Either (numbered (seen self.entry).hyps i)) (λ p. Some (spec.node ((seen self.entry).hyps ++ part half p ∷ []) (seen self.entry).goal (view.cert cert.now)))) }
    {
        let fact = self.held_operand_of(alloc, i, Op::Either, half)?;
        self.under_any(fact, cert)
    }

    /// A child with both operands of the conjunction of a number as hypotheses.
    fn unpacked(self, alloc: Global, i: u32, cert: &'a Cert) -> Result<Option<Node<'a>>, NoMemory>
        ensures { IfOk result (λ made. option_map seen made ≡ spec.child_of (seen self.entry).hyps (seen self.entry).goal (by.unpack i (view.cert cert.now)) 1) }
    {
        let first = self.held_operand_of(alloc, i, Op::Both, Half::First)?;
        let second = self.held_operand_of(alloc, i, Op::Both, Half::Second)?;
        self.under_two(first, second, cert)
    }

    /// A child with two hypotheses more, where they are there.
    fn under_two(
        self,
        first: Option<Held<'a>>,
        second: Option<Held<'a>>,
        cert: &'a Cert,
    ) -> Result<Option<Node<'a>>, NoMemory>
        ensures { IfOk result (λ made. option_map seen made ≡ spec.with (option_map held_term first.entry) (λ a. spec.with (option_map held_term second.entry) (λ b. Some (spec.node ((seen self.entry).hyps ++ a ∷ b ∷ []) (seen self.entry).goal (view.cert cert.now))))) }
    {
        match self.under_any(first, cert)? {
            Some(child) => child.under_any(second, cert),
            None => Ok(None),
        }
    }

    fn negated(self, alloc: Global, c: &'a Cert) -> Result<Option<Node<'a>>, NoMemory>
        ensures { IfOk result (λ made. option_map seen made ≡ spec.child_of (seen self.entry).hyps (seen self.entry).goal (by.negation (view.cert c.now)) 1) }
    {
        let fact = copied(alloc, negated(self.goal.expr()))?;
        self.to_false(c).under_any(fact, c)
    }

    fn contrary(self, alloc: Global, c: &'a Cert) -> Result<Option<Node<'a>>, NoMemory>
        ensures { IfOk result (λ made. option_map seen made ≡ spec.child_of (seen self.entry).hyps (seen self.entry).goal (by.contra (view.cert c.now)) 1) }
    {
        let fact = negation_of(alloc, self.goal.expr())?;
        self.to_false(c).under_any(Some(fact), c)
    }

    /// A child with the same hypotheses and the goal 0.
    fn to_false(self, cert: &'a Cert) -> Node<'a>
        ensures { seen result ≡ spec.node (seen self.entry).hyps (const 0) (view.cert cert.now) }
    {
        self.with_goal(Held::Made(Expr::Const(0)), cert)
    }

    /// A child with the same hypotheses, whose goal is a template with a side of the equation of a number in its holes.
    fn rewritten(
        self,
        alloc: Global,
        i: u32,
        half: Half,
        template: &Expr,
        cert: &'a Cert,
    ) -> Result<Option<Node<'a>>, NoMemory>
        ensures { IfOk result (λ made. option_map seen made ≡ spec.with (operands_of Eq (numbered (seen self.entry).hyps i)) (λ p. Some (spec.node (seen self.entry).hyps (filled (term template.now) (part half p)) (view.cert cert.now)))) }
    {
        let goal = filled(alloc, template, self.operand_of(i, Op::Eq, half))?;
        Ok(self.with_any_goal(goal, cert))
    }

    fn with_axiom(
        self,
        alloc: Global,
        k: u32,
        args: &List<Expr>,
        c: &'a Cert,
    ) -> Result<Option<Node<'a>>, NoMemory>
        ensures { IfOk result (λ made. option_map seen made ≡ spec.child_of (seen self.entry).hyps (seen self.entry).goal (by.instance k (map term args.now) (view.cert c.now)) 1) }
    {
        let fact = axiom(alloc, k, args.as_slice())?;
        self.under_any(fact, c)
    }
}
