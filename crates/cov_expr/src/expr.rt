//! Expressions over numbered variables: their operators, their values, and when two are equal.

ghost use Rattle.std.specs.Prelude.{◌≡◌, ◌↔◌, IsTrue, length};
ghost use Rattle.cov_expr.specs.Term as spec;
ghost use Rattle.cov_expr.specs.Trees as tree;
ghost use Rattle.cov_expr.specs.Words.{HasVarsBelow};
ghost use Rattle.cov_expr.specs.View.{term};

/// An operator on two words.
#[derive(Clone, Copy, PartialEq, Eq)]
pub enum Op {
    /// `+`, modulo 2^32.
    Add,
    /// `-`, modulo 2^32.
    Sub,
    /// `*`, modulo 2^32.
    Mul,
    /// `&`, bit by bit.
    And,
    /// `|`, bit by bit.
    Or,
    /// `^`, bit by bit.
    Xor,
    /// `==`, which gives 0 or 1, as all that follow.
    Eq,
    /// `!=`.
    Ne,
    /// `<`, unsigned.
    Lt,
    /// `<=`, unsigned.
    Le,
    /// `&&`, of which both operands are evaluated.
    Both,
    /// `||`, of which both operands are evaluated.
    Either,
}

/// An expression over variables, which are named by number.
pub enum Expr {
    /// A number.
    Const(u32),
    /// A variable.
    Var(u32),
    /// `!a`: 1 where `a` is 0, else 0.
    Not(Box<Expr>),
    /// An operator between two expressions.
    Bin(Op, Box<Expr>, Box<Expr>),
}

// Operators group to the left, as many as a text has, so the left side is taken apart in a loop; the calls nest no deeper than brackets and levels do.
impl Drop for Expr {
    fn drop(mut self) {
        loop {
            match self {
                Expr::Const(_) | Expr::Var(_) => return,
                Expr::Not(inner) => self = Box::into_inner(inner),
                Expr::Bin(_, first, second) => {
                    drop(second);
                    self = Box::into_inner(first);
                }
            }
        }
    }
}

/// The variable that stands for the hole `_` of a template.
pub const HOLE: u32 = 4294967295;

/// What an operator gives of two words.
pub fn apply(op: Op, a: u32, b: u32) -> u32
    ensures { result ≡ spec.apply op a b }
{
    match op {
        Op::Add => a.wrapping_add(b),
        Op::Sub => a.wrapping_sub(b),
        Op::Mul => a.wrapping_mul(b),
        Op::And => a & b,
        Op::Or => a | b,
        Op::Xor => a ^ b,
        Op::Eq => (a == b) as u32,
        Op::Ne => (a != b) as u32,
        Op::Lt => (a < b) as u32,
        Op::Le => (a <= b) as u32,
        Op::Both => (a != 0 && b != 0) as u32,
        Op::Either => (a != 0 || b != 0) as u32,
    }
}

/// The value of an expression in a memory, which has a word for each variable.
pub fn eval(e: &Expr, m: &[u32]) -> u32
    requires { HasVarsBelow (term e.now) (length m.now) }
    ensures { result ≡ spec.value (term e.now) m.now }
{
    match e {
        Expr::Const(k) => *k,
        Expr::Var(x) => m[*x as usize],
        Expr::Not(a) => (eval(a, m) == 0) as u32,
        Expr::Bin(op, a, b) => apply(*op, eval(a, m), eval(b, m)),
    }
}

/// Whether two expressions are equal as trees.
pub fn same(a: &Expr, b: &Expr) -> bool
    ensures test { result ≡ tree.same (term a.now) (term b.now) }
    ensures equal { IsTrue result ↔ (term a.now ≡ term b.now) }
{
    match (a, b) {
        (Expr::Const(j), Expr::Const(k)) => *j == *k,
        (Expr::Var(x), Expr::Var(y)) => *x == *y,
        (Expr::Not(c), Expr::Not(d)) => same(c, d),
        (Expr::Bin(o, c, d), Expr::Bin(p, e, f)) => *o == *p && same(c, e) && same(d, f),
        (Expr::Const(_), Expr::Var(_) | Expr::Not(_) | Expr::Bin(..))
        | (Expr::Var(_), Expr::Const(_) | Expr::Not(_) | Expr::Bin(..))
        | (Expr::Not(_), Expr::Const(_) | Expr::Var(_) | Expr::Bin(..))
        | (Expr::Bin(..), Expr::Const(_) | Expr::Var(_) | Expr::Not(_)) => false,
    }
}
