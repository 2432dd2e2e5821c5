//! The laws of replaced threads: what the others keep, and what the verdict by an exact judge means.

ghost use Rattle.std.specs.Prelude.{◌≡◌, ◌≢◌, ℕ, List, All, IsTrue};
ghost use Rattle.cov_ast.specs.Plain.{plain};
ghost use Rattle.cov_ast.specs.Syntax as syntax;
ghost use Rattle.cov_ast.specs.WellFormed.{IsWellFormed};
ghost use Rattle.flow_model.specs.Secure.{IsSecure};
ghost use Rattle.typing_law.specs.ThreadObligations.{thread_obligations};
ghost use Rattle.typing_law.specs.declared.count.Count.{Count};
ghost use Rattle.thread_swap.specs.Judges.{Judging, IsSound};
ghost use Rattle.thread_swap.specs.Replacements.{IsReplacement};
ghost use Rattle.thread_swap.specs.SwapLines.{AreSecureIfAccepted, swap_lines, swapped_programs};
ghost use Rattle.thread_swap.specs.Swaps.{IsRight, swapped, verdict_on};
ghost use Rattle.thread_swap.specs.declared.judged.Judged.TheVariants.{Accepted};

use verify::accepted_is_secure;

/// Where a thread is replaced, the obligations of each other thread stay as they are. (That the declarations of both programs keep the
/// rules isn't needed: the obligations of a thread speak of no other.)
pub fn others_keep_their_obligations()
    ensures { (p : syntax.Program) → (t u : ℕ) → (d : syntax.Thread) → u ≢ t → thread_obligations (swapped p t d) u ≡ thread_obligations p u }
{}

/// The verdict from scratch by an exact judge is that of the rules.
pub fn exact_verdicts_are_right()
    ensures { (j : Judging) → IsSound j → IsTrue j.exact → (p : syntax.Program) → IsWellFormed p → IsRight p (verdict_on j p) }
{}

/// Where threads are replaced one after another, each line that accepts, by an exact judge, is on a program that is secure.
pub fn accepted_lines_are_secure()
    ensures { (j : Judging) → IsSound j → IsTrue j.exact → (p : syntax.Program) → IsWellFormed p → (ds : List syntax.Thread) → All (IsReplacement p) ds
        → AreSecureIfAccepted (swap_lines j p ds) (swapped_programs p ds) }
{
    exactly_accepted_is_secure();
}

/// A program that is accepted by an exact judge is secure.
pub fn exactly_accepted_is_secure()
    ensures { (j : Judging) → IsSound j → IsTrue j.exact → (p : syntax.Program) → IsWellFormed p
        → (count : Count) → verdict_on j p ≡ Accepted count → IsSecure (plain p) }
{
    exact_verdicts_are_right();
    accepted_is_secure();
}
