//! Laws of what a deeper search comes to.

ghost use Rattle.std.specs.Prelude.{◌≡◌, ℕ, List, Some, All};
ghost use Rattle.cov_ast.specs.Syntax.{Cert};
ghost use Rattle.cov_ast.specs.WellFormed.{CertHasWords, IsCertInRange};
ghost use Rattle.cov_expr.specs.Term.{Term};
ghost use Rattle.cov_expr.specs.Words.{HasVarsBelow, HasWords};
ghost use Rattle.entail_search.specs.Deeper.{deeper};
ghost use Rattle.entail_search.specs.Sound.{IsSound};

/// A law: what a deeper search comes to is valid, and it and its expressions are within the limits of those of a text.
pub fn deeper_certificates_are_sound()
    ensures { (hyps : List Term) → (goal : Term) → (c : Cert) → deeper hyps goal ≡ Some c → IsSound hyps goal c }
{}

/// A law: where variables of hypotheses and goal are below a bound, and these are of words, so it is with what a deeper search comes to.
pub fn deeper_certificates_are_in_range()
    ensures { (vars : ℕ) → (locks : ℕ) → (hyps : List Term) → (goal : Term) → (c : Cert) → All (λ h. HasVarsBelow h vars) hyps → All HasWords hyps
        → HasVarsBelow goal vars → HasWords goal → deeper hyps goal ≡ Some c → IsCertInRange vars locks c × CertHasWords c }
{}
