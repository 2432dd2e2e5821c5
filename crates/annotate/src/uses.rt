//! The uses of names of a text whose proofs change: those that stay, in their order, and those of new certificates.
//!
//! A walk over the tree comes by each use of a name in the order of the text, and so by the uses that the text lists. Of a part that stays each is kept, of a
//! certificate that goes each is passed over, and those of a new certificate are added at the place of its statement.

ghost use Rattle.std.specs.Prelude.{◌≡◌, ◌++◌, flat_map, map, option_map, OnOk};
ghost use Rattle.cov_expr.specs.View.{term};
ghost use Rattle.cov_ast.specs.Ready.{as_variable, uses_in, uses_in_cert, uses_in_option};
ghost use Rattle.cov_ast.specs.View as view;
ghost use Rattle.annotate.specs.Inside.Going.{Goes, halfway, kept, passed};

use cov_ast::{Cert, NameUse};
use cov_expr::{Expr, HOLE, List, NoMemory};

/// What becomes of the uses of names in a part.
#[derive(Clone, Copy)]
pub enum Way {
    /// They stay.
    Keep,
    /// They go.
    Pass,
    /// They are new, at this place.
    Add(u32),
}

/// Uses of names of a text that a walk has still to come by, and those of the text that is made.
#[derive(Drop)]
pub struct Uses<'u> {
    pub rest: &'u [NameUse],
    pub made: List<NameUse>,
}

impl Uses<'_> {
    /// A use of a variable.
    #[tactic(auto, using(crate::proofs::GoingLaws::one_use))]
    pub fn variable(&mut self, way: Way, x: u32) -> Result<(), NoMemory>
        ensures { OnOk result (Goes way (as_variable x) self.old self.new) }
    {
        match way {
            Way::Keep => self.keep(),
            Way::Pass => {
                self.pass();
                Ok(())
            }
            Way::Add(at) => self.made.push(NameUse {
                name: x,
                lock: false,
                at,
            }),
        }
    }

    /// The next use stays.
    #[tactic(auto, using(crate::proofs::GoingLaws::none_left))]
    pub fn keep(&mut self) -> Result<(), NoMemory>
        ensures { OnOk result (halfway self.new ≡ kept 1 (halfway self.old)) }
    {
        if let Some((next, rest)) = self.rest.split_first() {
            self.made.push(*next)?;
            self.rest = rest;
        }
        Ok(())
    }

    /// The next use goes.
    #[tactic(auto, using(crate::proofs::GoingLaws::none_left))]
    fn pass(&mut self)
        ensures { halfway self.new ≡ passed 1 (halfway self.old) }
    {
        if let Some((_, rest)) = self.rest.split_first() {
            self.rest = rest;
        }
    }

    /// The uses in an expression. The hole of a template is no name.
    pub fn expr(&mut self, way: Way, e: &Expr) -> Result<(), NoMemory>
        ensures { OnOk result (Goes way (uses_in (term e.now)) self.old self.new) }
    {
        match e {
            Expr::Const(_) => Ok(()),
            Expr::Var(x) => {
                if *x == HOLE {
                    return Ok(());
                }
                self.variable(way, *x)
            }
            Expr::Not(a) => self.expr(way, a),
            Expr::Bin(_, a, b) => {
                self.expr(way, a)?;
                self.expr(way, b)
            }
        }
    }

    /// The uses in expressions, one after another.
    pub fn exprs(&mut self, way: Way, es: &[Expr]) -> Result<(), NoMemory>
        ensures { OnOk result (Goes way (flat_map uses_in (map term es.now)) self.old self.new) }
    {
        for e in es {
            self.expr(way, e)?;
        }
        Ok(())
    }

    /// The uses in an expression, if there is one.
    pub fn option(&mut self, way: Way, e: Option<&Expr>) -> Result<(), NoMemory>
        ensures { OnOk result (Goes way (uses_in_option (option_map (λ f. term f.now) e.entry)) self.old self.new) }
    {
        match e {
            Some(e) => self.expr(way, e),
            None => Ok(()),
        }
    }

    /// The uses in a certificate.
    #[cycle(certs)]
    pub fn cert(&mut self, way: Way, cert: &Cert) -> Result<(), NoMemory>
        ensures { OnOk result (Goes way (uses_in_cert (view.cert cert.now)) self.old self.new) }
    {
        match cert {
            Cert::Auto => Ok(()),
            Cert::Hyp(_) => Ok(()),
            Cert::Calc => Ok(()),
            Cert::Clash(_) => Ok(()),
            Cert::Absurd(_, _) => Ok(()),
            Cert::Refl => Ok(()),
            Cert::Ring => Ok(()),
            Cert::Range => Ok(()),
            Cert::Left(c) => self.cert(way, c),
            Cert::Right(c) => self.cert(way, c),
            Cert::Unpack(_, c) => self.cert(way, c),
            Cert::Not(c) => self.cert(way, c),
            Cert::Contra(c) => self.cert(way, c),
            Cert::And(c, d) => {
                self.cert(way, c)?;
                self.cert(way, d)
            }
            Cert::Cases(_, c, d) => {
                self.cert(way, c)?;
                self.cert(way, d)
            }
            Cert::Split(e, c, d) => {
                self.cert_behind(way, c, e)?;
                self.cert(way, d)
            }
            Cert::Have(e, c, d) => {
                self.cert_behind(way, c, e)?;
                self.cert(way, d)
            }
            Cert::Fwd(_, e, c) => self.cert_behind(way, c, e),
            Cert::Rev(_, e, c) => self.cert_behind(way, c, e),
            Cert::Axiom(_, es, c) => {
                self.exprs(way, es.as_slice())?;
                self.cert(way, c)
            }
        }
    }

    /// The uses in a certificate behind those in an expression.
    #[cycle(certs)]
    fn cert_behind(&mut self, way: Way, c: &Cert, e: &Expr) -> Result<(), NoMemory>
        ensures { OnOk result (Goes way (uses_in (term e.now) ++ uses_in_cert (view.cert c.now)) self.old self.new) }
    {
        self.expr(way, e)?;
        self.cert(way, c)
    }
}
