//! The law of keys: they tell expressions apart.

ghost use Rattle.std.specs.Prelude.{◌≡◌, ◌↔◌};
ghost use Rattle.cov_expr.specs.Term.{Term};
ghost use Rattle.typing_state.specs.Keys.{key};

/// Two expressions have one key exactly where they are equal.
#[tactic(auto, using(crate::proofs::KeyLaws::key_is))]
pub fn keys_tell_expressions_apart()
    ensures { (a b : Term) → (key a ≡ key b) ↔ (a ≡ b) }
{}
