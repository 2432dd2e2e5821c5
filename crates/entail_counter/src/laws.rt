//! The law of counterexamples.

ghost use Rattle.std.specs.Prelude.{◌≡◌, ℕ, List, Some};
ghost use Rattle.cov_expr.specs.Term.{Term};
ghost use Rattle.cov_expr.specs.Words.{AreWords};
ghost use Rattle.entail_counter.specs.declared.binding.Binding.{Binding};
ghost use Rattle.entail_counter.specs.Counterexamples.{HasBindings, IsCounterexample, counterexample, memory};

/// A law: in the memory that is found, and in each other one of words that has its values, all hypotheses hold and the goal doesn't.
pub fn counterexamples_break()
    ensures each { (hyps : List Term) → (goal : Term) → (m : List Binding) → counterexample hyps goal ≡ Some m
        → (n : List ℕ) → AreWords n → HasBindings m n → IsCounterexample hyps goal n }
    ensures found { (hyps : List Term) → (goal : Term) → (m : List Binding) → counterexample hyps goal ≡ Some m → IsCounterexample hyps goal (memory m) }
{}
