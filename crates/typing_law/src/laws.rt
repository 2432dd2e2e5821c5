//! What the rules of statements give: a thread of which every obligation holds is secure.

ghost use Rattle.std.specs.Prelude.{◌≡◌, ℕ, ◌<◌, length, map, IsTrue, true, false};
ghost use Rattle.std.specs.List.{list_all};
ghost use Rattle.cov_ast.specs.Syntax as syntax;
ghost use Rattle.cov_ast.specs.Obligations.{all_hold};
ghost use Rattle.cov_ast.specs.Plain.{plain};
ghost use Rattle.cov_ast.specs.Tables.{has};
ghost use Rattle.cov_ast.specs.WellFormed.{IsWellFormed};
ghost use Rattle.flow_model.specs.Game.{IsSecureThread};
ghost use Rattle.mode_compat.specs.Compatible.{numbered};
ghost use Rattle.mode_compat.specs.Declared.{IsDeclared, declaration_obligations};
ghost use Rattle.typing_law.specs.ThreadEntailments.{all_entailments, entailment_obligation, entailment_obligations, is_passed, thread_entailments};
ghost use Rattle.typing_law.specs.ThreadObligations.{thread_obligations, end_point};

/// A thread of which every obligation holds has given back each lock at its end.
pub fn threads_end_without_locks()
    ensures { (p : syntax.Program) → (t : ℕ) → IsTrue (all_hold (thread_obligations p t)) → (l : ℕ) → l < length p.locks → has (end_point p t).held l ≡ false }
{}

/// What is asked of certificates in a thread (V9) is, in this order, that each of its entailments has a valid one: at the place of
/// the entailment's statement, with the entailment's number, and true exactly where a certificate that is given there, or `auto`, is valid.
/// And where no other rule than those of certificates (V9, V13) fails, each entailment of the thread is among those that are reached.
pub fn entailments_are_obligations()
    ensures obligations { (p : syntax.Program) → IsWellFormed p → (t : ℕ) → t < length p.threads
        → entailment_obligations (thread_obligations p t) ≡ map (entailment_obligation t (numbered p t).body) (all_entailments p t) }
    ensures reached { (p : syntax.Program) → (t : ℕ) → list_all is_passed (thread_obligations p t) ≡ true → thread_entailments p t ≡ all_entailments p t }
{}

/// Where every obligation of the declarations holds, the declarations are as the rules say.
pub fn true_declarations_are_declared()
    ensures { (p : syntax.Program) → IsTrue (all_hold (declaration_obligations p)) → IsDeclared (plain p) }
{}

/// The rules of statements are sound: where every obligation of the declarations and every obligation of a thread holds,
/// the thread is secure, whatever other threads do within what it assumes of them (the soundness of the typing of COVERN,
/// for this project's rules).
///
/// Of a well formed program only ids in range and words of 32 bits are used: a statement assigns to a variable and locks a
/// lock that are declared, and what it evaluates and what its certificates have is made of words.
pub fn true_obligations_are_secure()
    ensures { (p : syntax.Program) → IsWellFormed p → IsTrue (all_hold (declaration_obligations p))
        → (t : ℕ) → t < length p.threads → IsTrue (all_hold (thread_obligations p t)) → IsSecureThread (plain p) t }
{}
