//! What is looked at is what the grammar says.

ghost use Rattle.std.specs.Prelude.{List, IsTrue, ◌↔◌};
ghost use Rattle.cov_grammar.specs.declared.token.Token.{Token};
ghost use Rattle.cov_grammar.specs.Grammar.{program};
ghost use Rattle.cov_grammar.specs.PlacedTrees.{Program};
ghost use Rattle.cov_grammar.specs.Spells.{GoesOn, Is};
ghost use Rattle.explain.specs.ExpectedTokens.{is_front, is_whole};

/// A law: tokens are a front exactly where some program begins with them, and whole exactly where they spell a program, by the
/// grammar alone.
#[tactic(auto, using(crate::proofs::LanguageLaws::front_goes_on, crate::proofs::LanguageLaws::whole_is))]
pub fn answers_are_of_the_language()
    ensures front { (ts : List Token) → IsTrue (is_front ts) ↔ GoesOn program ts }
    ensures whole { (ts : List Token) → IsTrue (is_whole ts) ↔ ((p : Program) × Is program p ts) }
{}
