//! The laws of what is judged of programs made from a program: of each on which a line of `swap` accepts, of what the observer at each level is
//! shown, and of each that `annotate` puts.

ghost use Rattle.std.specs.Prelude.{◌≡◌, ◌≤◌, ℕ, List, IsTrue, None, length};
ghost use Rattle.call_inputs.specs.Programs.{SpellsProgram};
ghost use Rattle.call_judge.specs.Meaning.{AreNamesInOrder};
ghost use Rattle.call_verdicts.specs.Annotations.{IsSecureAnnotated, annotation_rejection};
ghost use Rattle.call_verdicts.specs.Levels.{LevelsInput, level_rejection};
ghost use Rattle.call_verdicts.specs.Swap.{SwapInput, lines_by, misfit_rejection, replacements};
ghost use Rattle.cov_ast.specs.Syntax as syntax;
ghost use Rattle.cov_expr.specs.declared.limits.TheConstants.{MOST_BYTES};
ghost use Rattle.level_text.specs.Lattice.{AreLevels};
ghost use Rattle.level_text.specs.LevelReads.{GivesLevels};
ghost use Rattle.levels.specs.Accepted.{IsSecureForAll};
ghost use Rattle.policy_class.specs.Resolved.{resolved};
ghost use Rattle.thread_swap.specs.Judges.{IsSound, Judging};
ghost use Rattle.thread_swap.specs.SwapLines.{AreSecureIfAccepted, swapped_programs};

use annotate::{
    annotated_programs_are_formed, annotated_text_is_read, proofs_alone_change,
    refusals_are_of_the_annotated_text, texts_are_as_read,
};
use call_judge::spelled_programs_are_formed;
use levels::{accepted_are_secure, first_refused_is_first};
use thread_swap::accepted_lines_are_secure;
use verify::accepted_is_secure;

/// Where bytes spell a program whose names are in order, and other bytes a text of threads that has no fault beside it, each line on the
/// program, and on it after a replaced thread, that accepts by an exact judge is on a program that is secure.
pub fn swapped_programs_are_secure()
    ensures { (j : Judging) → IsSound j → IsTrue j.exact → (bytes these name : List ℕ) (i : SwapInput) → length bytes ≤ MOST_BYTES → length these ≤ MOST_BYTES
        → SpellsProgram bytes i.program → SpellsProgram these i.replacing → AreNamesInOrder i.program
        → misfit_rejection name (resolved i.program) i.replacing ≡ None
        → AreSecureIfAccepted (lines_by j i) (swapped_programs (resolved i.program) (replacements i)) }
{
    spelled_programs_are_formed();
    accepted_lines_are_secure();
}

/// What bytes give for a program that other bytes spell is levels over its variables, as `check_levels` of `levels` wants them.
pub fn given_levels_fit()
    ensures { (bytes these : List ℕ) (i : LevelsInput) → length bytes ≤ MOST_BYTES → length these ≤ MOST_BYTES → SpellsProgram bytes i.program
        → GivesLevels these i.program i.levels → AreLevels (length (resolved i.program).vars) i.levels }
{}

/// Where bytes spell a program whose names are in order, and other bytes give levels for it, for none of which it is refused, what the observer at each
/// level is shown is secure.
pub fn shown_programs_are_secure()
    ensures { (bytes these : List ℕ) (i : LevelsInput) → length bytes ≤ MOST_BYTES → length these ≤ MOST_BYTES → SpellsProgram bytes i.program
        → GivesLevels these i.program i.levels → AreNamesInOrder i.program → level_rejection i ≡ None
        → IsSecureForAll i.levels (resolved i.program) }
{
    given_levels_fit();
    spelled_programs_are_formed();
    first_refused_is_first();
    accepted_are_secure();
}

/// Where bytes spell a program whose names are in order, and of the annotated program every obligation holds, the annotated text is accepted and means what the
/// program does, which is secure.
pub fn annotated_programs_are_secure()
    ensures { (bytes : List ℕ) (depth : ℕ) (p : syntax.Parsed) → length bytes ≤ MOST_BYTES → SpellsProgram bytes p → AreNamesInOrder p
        → annotation_rejection depth p ≡ None → IsSecureAnnotated depth p }
{
    spelled_programs_are_formed();
    texts_are_as_read();
    refusals_are_of_the_annotated_text();
    annotated_text_is_read();
    annotated_programs_are_formed();
    proofs_alone_change();
    accepted_is_secure();
}
