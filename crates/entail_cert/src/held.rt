//! Expressions that are lent or owned.

ghost use Rattle.std.specs.Prelude.{◌≡◌};
ghost use Rattle.cov_expr.specs.View.{term};
ghost use Rattle.entail_cert.specs.HeldTerms.{held_term};

use cov_expr::Expr;

/// An expression that is a part of something else, or that was made.
#[derive(Drop)]
pub enum Held<'a> {
    Lent(&'a Expr),
    Made(Expr),
}

impl Held<'_> {
    /// The expression.
    pub fn expr(&self) -> &Expr
        ensures { term result.now ≡ held_term self.now }
    {
        match self {
            Held::Lent(e) => e,
            Held::Made(e) => e,
        }
    }
}
