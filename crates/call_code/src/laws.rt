//! Laws with no code of their own: the code of an accepted program is good, and its object tells the listing.

ghost use Rattle.std.specs.Prelude.{◌≡◌, ℕ, ◌≤◌, List, Some, length};
ghost use Rattle.call_code.specs.Codes.{code_of, compile_plan};
ghost use Rattle.call_code.specs.Objects.{object_plan, unobject_plan};
ghost use Rattle.call_inputs.specs.Plans.{RepliesOver};
ghost use Rattle.call_inputs.specs.Programs.{SpellsProgram};
ghost use Rattle.call_judge.specs.Check.{IsAcceptedText};
ghost use Rattle.compiled_code.specs.GoodCode.{IsGoodCode};
ghost use Rattle.cov_ast.specs.Syntax as syntax;
ghost use Rattle.call_reports.specs.Replies.{Reply, spelled};
ghost use Rattle.cov_expr.specs.declared.limits.TheConstants.{MOST_BYTES, MOST_OBJECT_BYTES};
ghost use Rattle.cov_io.specs.Shelves.{File, held};
ghost use Rattle.policy_class.specs.Resolved.{resolved};
ghost use Rattle.risc_machine.specs.Faults.{AreGood};

use call_judge::spelled_programs_are_formed;
use compiled_code::{compiled_is_code, compiled_is_good};

/// What bytes spell and is accepted has good code: it matches the program, is secure and meets the load bound. It is code, to
/// which no fault applies.
pub fn accepted_programs_have_good_code()
    ensures good { (bytes : List ℕ) (p : syntax.Parsed) → length bytes ≤ MOST_BYTES → SpellsProgram bytes p → IsAcceptedText p
        → IsGoodCode (resolved p) (code_of p) }
    ensures code { (bytes : List ℕ) (p : syntax.Parsed) → length bytes ≤ MOST_BYTES → SpellsProgram bytes p → IsAcceptedText p
        → AreGood (code_of p) }
{
    spelled_programs_are_formed();
    compiled_is_good();
    compiled_is_code();
}

/// Over the same files `unobject` replies to what `object` writes of a program as `compile` replies to the program, where an object is
/// no longer than what `unobject` reads.
pub fn unobject_gives_the_listing()
    ensures compiled { (files : List File) (program name bytes : List ℕ) (reply : Reply) → RepliesOver files (object_plan program) (spelled bytes)
        → held files name ≡ Some bytes → length bytes ≤ MOST_OBJECT_BYTES → RepliesOver files (unobject_plan name) reply
        → RepliesOver files (compile_plan program) reply }
    ensures listed { (files : List File) (program name bytes : List ℕ) (reply : Reply) → RepliesOver files (object_plan program) (spelled bytes)
        → held files name ≡ Some bytes → length bytes ≤ MOST_OBJECT_BYTES → RepliesOver files (compile_plan program) reply
        → RepliesOver files (unobject_plan name) reply }
{}
