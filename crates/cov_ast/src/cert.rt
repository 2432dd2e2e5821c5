//! Certificates: why a goal follows from hypotheses, as trees.

use cov_expr::{Expr, List};

/// A certificate: why a goal follows from hypotheses. Hypotheses are numbered from 1.
pub enum Cert {
    /// A closed hypothesis is 0, or each conjunct of the goal is closed and not 0, or is a conjunct of a hypothesis.
    Auto,
    /// The goal is this hypothesis.
    Hyp(u32),
    /// The goal is closed and not 0.
    Calc,
    /// This hypothesis is closed and 0.
    Clash(u32),
    /// The goal is a conjunction; both parts follow.
    And(Box<Cert>, Box<Cert>),
    /// The goal is a disjunction; its left part follows.
    Left(Box<Cert>),
    /// The goal is a disjunction; its right part follows.
    Right(Box<Cert>),
    /// This hypothesis is a conjunction, whose parts become hypotheses.
    Unpack(u32, Box<Cert>),
    /// This hypothesis is a disjunction; the goal follows from each part.
    Cases(u32, Box<Cert>, Box<Cert>),
    /// The goal follows where the expression holds, and where it doesn't.
    Split(Expr, Box<Cert>, Box<Cert>),
    /// The expression follows, and then the goal from it.
    Have(Expr, Box<Cert>, Box<Cert>),
    /// The second hypothesis is the negation of the first.
    Absurd(u32, u32),
    /// The goal is a negation; from what it negates the goal 0 follows.
    Not(Box<Cert>),
    /// From the negation of the goal the goal 0 follows.
    Contra(Box<Cert>),
    /// The goal is an equation of equal sides.
    Refl,
    /// This hypothesis is `a == b`, and the goal is the template at `a`; the template at `b` follows.
    Fwd(u32, Expr, Box<Cert>),
    /// This hypothesis is `a == b`, and the goal is the template at `b`; the template at `a` follows.
    Rev(u32, Expr, Box<Cert>),
    /// The axiom of this number, with these expressions for its letters, becomes a hypothesis.
    Axiom(u32, List<Expr>, Box<Cert>),
    /// The goal is an equation of equal polynomials.
    Ring,
    /// The goal follows from bounds of its sides.
    Range,
}

impl Drop for Cert {
    fn drop(self) {
        match self {
            Cert::Auto | Cert::Hyp(_) | Cert::Calc | Cert::Clash(_) => {}
            Cert::Absurd(_, _) | Cert::Refl | Cert::Ring | Cert::Range => {}
            Cert::Left(c) => drop(c),
            Cert::Right(c) => drop(c),
            Cert::Unpack(_, c) => drop(c),
            Cert::Not(c) => drop(c),
            Cert::Contra(c) => drop(c),
            Cert::And(c, d) => {
                drop(c);
                drop(d);
            }
            Cert::Cases(_, c, d) => {
                drop(c);
                drop(d);
            }
            Cert::Split(e, c, d) => {
                drop(e);
                drop(c);
                drop(d);
            }
            Cert::Have(e, c, d) => {
                drop(e);
                drop(c);
                drop(d);
            }
            Cert::Fwd(_, e, c) => {
                drop(e);
                drop(c);
            }
            Cert::Rev(_, e, c) => {
                drop(e);
                drop(c);
            }
            Cert::Axiom(_, es, c) => {
                drop(es);
                drop(c);
            }
        }
    }
}

/// The certificate of an entailment of a statement. Entailments are numbered from 1 in the order in which they arise.
pub struct Proof {
    pub number: u32,
    pub cert: Cert,
}

impl Drop for Proof {
    fn drop(self) {
        let Proof { number: _, cert } = self;
        drop(cert);
    }
}
