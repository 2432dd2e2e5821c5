//! The laws of what a deeper search puts into a text.

ghost use Rattle.std.specs.Prelude.{◌≡◌, ℕ, All, IsTrue};
ghost use Rattle.annotate.specs.AnnotatedText.{IsAsRead};
ghost use Rattle.annotate.specs.WithCertificates.{put_in_program};
ghost use Rattle.cov_ast.specs.Obligations.{all_hold};
ghost use Rattle.cov_ast.specs.Syntax as syntax;
ghost use Rattle.cov_ast.specs.WellFormed.{IsWellFormed};
ghost use Rattle.deeper_text.specs.DeeperText.{IsValidChoice, deeper_choices, deeper_text};
ghost use Rattle.mode_compat.specs.Declared.{declaration_obligations};
ghost use Rattle.policy_class.specs.Resolved.{name_obligations, resolved};

/// A law: what is put in for the statements of a program is valid, for entailments that are listed there.
pub fn deeper_choices_are_valid()
    ensures { (p : syntax.Program) → (t : ℕ) → (place : ℕ) → All (IsValidChoice p t place) (deeper_choices p t place) }
{}

/// A law: a text as reading gives it stays so with what is put in. Its names and its declarations stay in order, and it is read as its program with what is put in.
pub fn deeper_texts_are_read()
    ensures names { (p : syntax.Parsed) → IsWellFormed (resolved p) → IsAsRead p → IsTrue (all_hold (name_obligations p)) → IsTrue (all_hold (name_obligations (deeper_text p))) }
    ensures read { (p : syntax.Parsed) → IsWellFormed (resolved p) → IsAsRead p → IsAsRead (deeper_text p) }
    ensures program { (p : syntax.Parsed) → IsWellFormed (resolved p) → IsAsRead p → resolved (deeper_text p) ≡ put_in_program (deeper_choices (resolved p)) (resolved p) }
    ensures declarations { (p : syntax.Parsed) → IsWellFormed (resolved p) → IsAsRead p → declaration_obligations (resolved (deeper_text p)) ≡ declaration_obligations (resolved p) }
{}
