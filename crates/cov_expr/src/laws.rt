//! Laws of expressions, of limits and of the hole: functions with no body, whose contracts speak of all expressions and memories.

ghost use Rattle.std.specs.Prelude.{◌≡◌, ◌↔◌, ℕ, ◌-◌, ◌^◌, ◌<◌, List, IsTrue, false, length, slice_index, slice_set};
ghost use Rattle.cov_expr.specs.Limits.{AreTheLimits};
ghost use Rattle.cov_expr.specs.Term.{Term, value};
ghost use Rattle.cov_expr.specs.Trees as tree;
ghost use Rattle.cov_expr.specs.Words.{AreWords, HasWords, IsWord};
ghost use Rattle.cov_expr.specs.declared.expr.TheConstants.{HOLE};

/// The test on trees is equality.
pub fn same_is_equality()
    ensures { (a b : Term) → IsTrue (tree.same a b) ↔ (a ≡ b) }
{}

/// The value of an expression depends on the variables that it mentions alone.
pub fn value_depends_on_mentioned()
    ensures { (e : Term) → (m n : List ℕ) → ((x : ℕ) → IsTrue (tree.mentions e x) → slice_index m x ≡ slice_index n x) → value e m ≡ value e n }
{}

/// A closed expression mentions no variable.
pub fn closed_mentions_nothing()
    ensures { (e : Term) → (x : ℕ) → IsTrue (tree.is_closed e) → tree.mentions e x ≡ false }
{}

/// The value after a substitution is the value where the variable has the value of the part.
pub fn substitution_is_a_store()
    ensures { (e part : Term) → (x : ℕ) → (m : List ℕ) → x < length m → value (tree.subst e x part) m ≡ value e (slice_set m x (value part m)) }
{}

/// The value of an expression of words in a memory of words is a word.
pub fn values_are_words()
    ensures { (e : Term) → (m : List ℕ) → HasWords e → AreWords m → IsWord (value e m) }
{}

/// Each limit is the number that is told of it.
pub fn limits_have_their_values()
    ensures { AreTheLimits }
{}

/// The hole of a template is the largest word.
pub fn hole_is_the_largest_word()
    ensures { HOLE ≡ 2 ^ 32 - 1 }
{}
