//! Laws of warnings: what is warned of as empty says nothing of any run, and how many of a text alone are shown.

ghost use Rattle.std.specs.Prelude.{◌≡◌, ℕ, Contains, List, IsTrue};
ghost use Rattle.cov_ast.specs.Declarations.{lock_at, thread_at};
ghost use Rattle.cov_ast.specs.Plain.{Plain, plain};
ghost use Rattle.cov_ast.specs.Syntax as syntax;
ghost use Rattle.cov_ast.specs.WellFormed.{IsWellFormed};
ghost use Rattle.flow_model.specs.Agreement.{AreFitStarts};
ghost use Rattle.explain.specs.NeverReached.{NeverComesTo, of_thread};
ghost use Rattle.cov_expr.specs.Words.{AreWords};
ghost use Rattle.explain.specs.Unused.{is_false, is_zero_invariant, warned};
ghost use Rattle.explain.specs.declared.hidden.TheConstants.{MOST_SHOWN};
ghost use Rattle.explain.specs.declared.warning.Cause.TheVariants as causes;

/// Where the invariant of a lock is warned of, no two memories of words are fit starts: what is proved of an accepted program speaks of
/// no run.
pub fn no_start_meets()
    ensures shown { (p : Plain) (l : ℕ) → IsTrue (is_false (lock_at p l).inv) → (m1 m2 : List ℕ) → AreWords m1 → AreFitStarts p m1 m2 → ⊥ }
    // Where it has no variable, that they are of words isn't asked.
    ensures zero { (p : Plain) (l : ℕ) → IsTrue (is_zero_invariant (lock_at p l).inv) → (m1 m2 : List ℕ) → AreFitStarts p m1 m2 → ⊥ }
{}

/// Where a statement of a thread is warned of as never reached, the thread comes to it in no run, from whatever memory and under
/// every schedule. Of a well formed program only that the places of a thread's statements differ is used.
pub fn no_run_comes_to()
    ensures { (p : syntax.Program) → IsWellFormed p → (t place : ℕ) → Contains (of_thread (thread_at (plain p) t)) (warned place causes.NeverReached) → NeverComesTo (plain p) t place }
{}

/// Of a text alone at most ten warnings are shown.
pub fn few_are_shown()
    ensures { MOST_SHOWN ≡ 10 }
{}
