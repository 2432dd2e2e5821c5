//! Laws of what commands reply.

ghost use Rattle.std.specs.Prelude.{◌≡◌, ◌≢◌, ◌≤◌, ℕ, List, None, length};
ghost use Rattle.replay_inputs.specs.Inputs.{IsScheduleText, IsStart, PairInput};
ghost use Rattle.call_inputs.specs.Programs.{SpellsProgram};
ghost use Rattle.call_judge.specs.Check.{IsAcceptedText};
ghost use Rattle.call_judge.specs.Starts.{unfit_starts};
ghost use Rattle.call_reports.specs.Replies.{Reply, status_of};
ghost use Rattle.call_run.specs.Pairs.{Pairs};
ghost use Rattle.call_run.specs.Refutes.{Refutes};
ghost use Rattle.cov_ast.specs.Syntax.{Parsed};
ghost use Rattle.cov_expr.specs.declared.limits.TheConstants.{MOST_BYTES};
ghost use Rattle.top_call.specs.Laws.{IsOneReply};

use call_judge::accepted_programs_are_secure;
use call_reports::Status;

/// A law: over the same files, by the same judge, a command has one reply at most. Together with the clauses of `covern`, whose
/// replies are told as relations, it makes what a call answers a function of the words and the files.
pub fn one_outcome()
    ensures { IsOneReply }
{}

/// A law: whatever bytes were read as a program, two starts and a schedule, where the program is accepted and the starts are fit, `pair`
/// has no reply that its runs differ. So it is on every shelf, also on one that tells nothing of its files.
pub fn accepted_runs_never_differ()
    ensures { (bytes left right schedule : List ℕ) (i : PairInput) (reply : Reply) → length bytes ≤ MOST_BYTES → SpellsProgram bytes i.program → IsAcceptedText i.program
        → IsStart i.program left i.left → IsStart i.program right i.right → IsScheduleText i.program schedule i.schedule
        → unfit_starts i.program i.left i.right ≡ None → Pairs i reply → status_of reply ≢ Status.Differ }
{
    accepted_programs_are_secure();
}

/// A law: whatever bytes were read as a program, where it is accepted, `refute` has no reply that two runs differ, whatever the number of
/// trials.
pub fn accepted_programs_are_never_refuted()
    ensures { (bytes : List ℕ) (p : Parsed) (trials : ℕ) (reply : Reply) → length bytes ≤ MOST_BYTES → SpellsProgram bytes p → IsAcceptedText p
        → Refutes trials p reply → status_of reply ≢ Status.Differ }
{
    accepted_programs_are_secure();
}
