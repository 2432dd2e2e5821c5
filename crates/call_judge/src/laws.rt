//! Laws of what bytes spell: a program whose names are in order is well formed, and one that is accepted is secure.

ghost use Rattle.std.specs.Prelude.{ℕ, ◌≤◌, List, length};
ghost use Rattle.call_inputs.specs.Programs.{SpellsProgram};
ghost use Rattle.call_judge.specs.Check.{IsAcceptedText};
ghost use Rattle.call_judge.specs.Meaning.{AreNamesInOrder, meaning};
ghost use Rattle.cov_ast.specs.Syntax as syntax;
ghost use Rattle.cov_ast.specs.WellFormed.{IsWellFormed};
ghost use Rattle.cov_expr.specs.declared.limits.TheConstants.{MOST_BYTES};
ghost use Rattle.flow_model.specs.Secure.{IsSecure};
ghost use Rattle.policy_class.specs.Resolved.{resolved};

use verify::accepted_is_secure;

/// Where the names of what bytes spell are in order, the program that it stands for is well formed: its ids are in range, its
/// numbers are words, its names and places differ, it is within the limits, and it is of its version. So what is known of well
/// formed programs holds of each text, and no reading is part of that.
pub fn spelled_programs_are_formed()
    ensures { (bytes : List ℕ) (p : syntax.Parsed) → length bytes ≤ MOST_BYTES → SpellsProgram bytes p → AreNamesInOrder p
        → IsWellFormed (resolved p) }
{}

/// What bytes spell and is accepted is secure: from any two starts that agree on all that is low and meet every lock's
/// invariant, under every schedule, the two runs of the program agree after each step.
pub fn accepted_programs_are_secure()
    ensures { (bytes : List ℕ) (p : syntax.Parsed) → length bytes ≤ MOST_BYTES → SpellsProgram bytes p → IsAcceptedText p
        → IsSecure (meaning p) }
{
    spelled_programs_are_formed();
    accepted_is_secure();
}
