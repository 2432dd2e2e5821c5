//! Laws of refusals for want of a valid certificate.

ghost use Rattle.std.specs.Prelude.{◌≡◌, ◌==◌, ℕ, List, IsTrue, Some};
ghost use Rattle.cov_ast.specs.Obligations.{first_false};
ghost use Rattle.cov_ast.specs.Syntax as syntax;
ghost use Rattle.cov_ast.specs.WellFormed.{IsWellFormed, are_distinct, places};
ghost use Rattle.cov_ast.specs.declared.refusal.Refusal as refusal;
ghost use Rattle.cov_ast.specs.declared.refusal.Rule.TheVariants as rules;
ghost use Rattle.mode_compat.specs.Compatible.{numbered};
ghost use Rattle.typing_law.specs.ThreadObligations.{thread_obligations};
ghost use Rattle.typing_law.specs.Accepted.{program_obligations};
ghost use Rattle.entail_refused.specs.RefusedEntailment.{IsToldOf, NamesUnproved};

/// A law: where the first obligation of a thread that doesn't hold is that an entailment has a valid certificate, the refusal names
/// that entailment. It is always found among those that follow from the program alone.
///
/// Of a well formed program only this is used: the places of a thread's statements differ. Else a place could be that of two
/// statements.
pub fn refused_entailment_is_listed()
    ensures { (p : syntax.Program) → (t : ℕ) → IsTrue (are_distinct (◌==◌) (places (numbered p t).body)) → (r : refusal.Refusal)
        → first_false (thread_obligations p t) ≡ Some r → r.rule ≡ rules.V9 → NamesUnproved p t r }
{}

/// A law: where a well formed program is refused for V9, its refusal names an entailment that has no valid certificate, and what is
/// told is told of that one.
pub fn refusal_is_told()
    ensures { (p : syntax.Program) → (bytes : List ℕ) → IsWellFormed p → (r : refusal.Refusal) → first_false (program_obligations p) ≡ Some r → r.rule ≡ rules.V9
        → IsToldOf p bytes r }
{}
