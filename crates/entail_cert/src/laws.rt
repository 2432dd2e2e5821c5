//! The soundness of certificates: the axioms hold, and a valid certificate gives its entailment.

ghost use Rattle.std.specs.Prelude.{IsTrue, List, ℕ};
ghost use Rattle.cov_ast.specs.Syntax.{Cert};
ghost use Rattle.cov_ast.specs.WellFormed.{CertHasWords};
ghost use Rattle.cov_expr.specs.Entailment.{AllHold, Entails};
ghost use Rattle.cov_expr.specs.Term.{Term};
ghost use Rattle.cov_expr.specs.View.{term};
ghost use Rattle.cov_expr.specs.Words.{AreWords};
ghost use Rattle.entail_cert.specs.Axioms.{axioms};
ghost use Rattle.entail_cert.specs.Valid.{is_valid};
ghost use Rattle.entail_cert.specs.WordTests.{is_of_words};

use cov_expr::Expr;

/// Each axiom holds whatever words its letters stand for.
pub fn axioms_hold()
    ensures { (m : List ℕ) → AreWords m → AllHold axioms m }
{}

/// Each expression of the code is made of words. So the test for that in the conditions of `ring` and `range` fails for none.
pub fn expressions_are_of_words(e: &Expr)
    ensures { IsTrue (is_of_words (term e.now)) }
{
    match e {
        Expr::Const(k) => {
            let _number = *k;
        }
        Expr::Var(x) => {
            let _variable = *x;
        }
        Expr::Not(a) => expressions_are_of_words(a),
        Expr::Bin(_, a, b) => {
            expressions_are_of_words(a);
            expressions_are_of_words(b);
        }
    }
}

/// A valid certificate gives its entailment: in every memory of words in which all hypotheses hold, the goal holds.
pub fn valid_gives_entailment()
    ensures { (hyps : List Term) → (goal : Term) → (cert : Cert) → CertHasWords cert → IsTrue (is_valid hyps goal cert) → Entails hyps goal }
{}
