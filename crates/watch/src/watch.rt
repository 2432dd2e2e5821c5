//! A test of memories, kept with the expression that it tests for.

ghost use Rattle.std.specs.Prelude.{◌≡◌, ◌↔◌, Bool, IsTrue, length};
ghost use Rattle.cov_expr.specs.Entailment.{Holds};
ghost use Rattle.cov_expr.specs.View.{term};
ghost use Rattle.cov_expr.specs.Words.{IsMemory};

use cov_expr::Expr;

/// A test of memories.
pub type Test = Box<dyn Fn(&[u32]) -> bool>;

/// A test that answers whether an expression holds in a memory of so many words, beside that expression.
#[derive(Drop)]
pub struct Watch {
    test: Test,
    expr: Expr,
    words: u32,
    ghost callable: { (m : _) → IsMemory words m.now → Test.pre test m },
    ghost answers: { (m : _) (b : Bool) → IsMemory words m.now → Test.post test m b → IsTrue b ↔ Holds (term expr) m.now },
}

impl Watch {
    ghost use Rattle.watch.specs.Watches.{expr_of, words_of};

    /// Keeps a test, which may be asked of each memory of so many words, and then answers whether the expression holds there.
    /// It takes no memory: the caller has made the box.
    pub fn new(test: Test, expr: Expr, words: u32) -> Watch
        requires callable { (m : _) → IsMemory words m.now → Test.pre test m }
        requires answers { (m : _) (b : Bool) → IsMemory words m.now → Test.post test m b → IsTrue b ↔ Holds (term expr) m.now }
        ensures expr { expr_of result ≡ term expr }
        ensures words { words_of result ≡ words }
    {
        Watch { test, expr, words }
    }

    /// Whether the expression holds in a memory. It takes the time of the test, and no memory of its own.
    pub fn hits(&self, m: &[u32]) -> bool
        requires { length m.now ≡ words_of self.now }
        ensures { IsTrue result ↔ Holds (expr_of self.now) m.now }
    {
        ask(&self.test, m)
    }

    /// The expression.
    pub fn expr(&self) -> &Expr
        ensures { term result.now ≡ expr_of self.now }
    {
        &self.expr
    }
}

/// What a test answers.
fn ask(test: &Test, m: &[u32]) -> bool
    requires { Test.pre test.now m }
    ensures { Test.post test.now m.entry result }
{
    test(m)
}
