//! Facts of order, each with a certificate.

ghost use Rattle.std.specs.Prelude.{◌≡◌, OnOk, map, option_map};
ghost use Rattle.cov_expr.specs.View.{term};
ghost use Rattle.entail_search.specs.Facts as spec;
ghost use Rattle.entail_search.specs.View.{fact};

use cov_ast::Cert;
use cov_expr::{Expr, List, NoMemory, Op, same};

/// Facts that are kept, at most.
pub const MOST_FACTS: usize = 64;

/// What follows from hypotheses, and why.
#[derive(Drop)]
pub struct Fact {
    pub says: Expr,
    pub shown: Cert,
}

/// Whether a comparison is strict, and its sides, where an expression is `a < b` or `a <= b`.
pub fn order(e: &Expr) -> Option<(bool, &Expr, &Expr)>
    ensures { option_map (λ p. (p.0, term p.1.now, term p.2.now)) result ≡ spec.order_of (term e.now) }
{
    match e {
        Expr::Bin(Op::Lt, a, b) => Some((true, a, b)),
        Expr::Bin(Op::Le, a, b) => Some((false, a, b)),
        Expr::Const(_) | Expr::Var(_) | Expr::Not(_) | Expr::Bin(..) => None,
    }
}

/// Whether a fact says this.
fn has_fact(facts: &[Fact], e: &Expr) -> bool
    ensures { result ≡ spec.has_fact (map fact facts.now) (term e.now) }
{
    for f in facts {
        if same(&f.says, e) {
            return true;
        }
    }
    false
}

/// Whether no fact says this, and there is room for one more.
pub fn is_new(facts: &[Fact], e: &Expr) -> bool
    ensures { result ≡ spec.is_new (map fact facts.now) (term e.now) }
{
    facts.len() < MOST_FACTS && !has_fact(facts, e)
}

/// The same of a fact that may not be there.
pub fn add_any(facts: &mut List<Fact>, f: Option<Fact>) -> Result<(), NoMemory>
    ensures { OnOk result (map fact facts.new ≡ spec.with_any (map fact facts.old) (option_map fact f)) }
{
    match f {
        Some(f) => {
            if is_new(facts.as_slice(), &f.says) {
                facts.push(f)?;
            }
            Ok(())
        }
        None => Ok(()),
    }
}
