//! Certificates of a text, with the places of their expressions.

use crate::written::Written;
use cov_expr::List;

/// An expression of the text, with the place of its first token.
#[derive(Drop)]
pub struct Whole {
    pub at: u32,
    pub expr: Written,
}

/// A certificate.
#[derive(Drop)]
pub enum PlacedCert {
    Auto,
    Calc,
    Refl,
    Ring,
    Range,
    Hyp(u32),
    Clash(u32),
    Absurd(u32, u32),
    And(Box<PlacedCert>, Box<PlacedCert>),
    Left(Box<PlacedCert>),
    Right(Box<PlacedCert>),
    Unpack(u32, Box<PlacedCert>),
    Cases(u32, Box<PlacedCert>, Box<PlacedCert>),
    Split(Whole, Box<PlacedCert>, Box<PlacedCert>),
    Have(Whole, Box<PlacedCert>, Box<PlacedCert>),
    Not(Box<PlacedCert>),
    Contra(Box<PlacedCert>),
    Fwd(u32, Whole, Box<PlacedCert>),
    Rev(u32, Whole, Box<PlacedCert>),
    Axiom(u32, List<Whole>, Box<PlacedCert>),
}
