//! Replays of a schedule on code: on one machine, or on two side by side.

ghost use Rattle.std.specs.Prelude.{◌≡◌, ◌+◌, ◌≤◌, length, MatchOption};
ghost use Rattle.cov_expr.specs.declared.limits.TheConstants.{MOST_ENTRIES};
ghost use Rattle.cov_expr.specs.Words.{IsSchedule};
ghost use Rattle.cov_ast.specs.Plain.{plain};
ghost use Rattle.cov_ast.specs.View as view;
ghost use Rattle.cov_ast.specs.WellFormed.{IsWellFormed};
ghost use Rattle.risc_machine.specs.Machine as spec;
ghost use Rattle.schedule_replay.specs.CodeReplays.{CodeAgreesThroughout, DeclaresAsMany, IsFirstCodeStepApart};
ghost use Rattle.schedule_replay.specs.Machines.{part_run};

use crate::replays::{Found, pair_on, run_on};
use cov_ast::Program;
use risc_machine::Risc;

/// Runs a whole schedule on code, and answers how many of its steps stayed: at a lock that is held, or at the release of one
/// that the thread doesn't hold. It takes no memory.
pub fn run_code(m: &mut Risc<'_>, schedule: &[u32]) -> u32
    requires threads { IsSchedule (length (m.old).parts.threads) schedule.now }
    requires entries { length schedule.now ≤ MOST_ENTRIES }
    requires room { length (m.old).state.outputs + length schedule.now ≤ (m.old).room }
    ensures parts { (m.new).parts ≡ (m.old).parts }
    ensures room { (m.new).room ≡ (m.old).room }
    ensures state { (m.new).state ≡ spec.code_from (m.old).parts (m.old).state schedule.now }
    ensures stayed { result ≡ spec.code_stayed_from (m.old).parts (m.old).state schedule.now }
{
    run_on(m, schedule)
}

/// Runs a schedule on two machines of equal code, side by side, until they don't agree after a step. `None` comes exactly where
/// they agree after each step, and both have run the whole schedule then; else both stand after the first step after which
/// they don't. What is compared is what `p` says of variables and locks, the outputs, and the positions of threads. Registers
/// aren't compared, and the start is not looked at. It takes no memory, and the time of one look at each output, and at the
/// declarations and the threads for each step that stores, puts out, or takes or frees a lock.
pub fn pair_code<'c>(
    p: &Program,
    a: &mut Risc<'c>,
    b: &mut Risc<'c>,
    schedule: &[u32],
) -> Option<Found>
    requires formed { IsWellFormed (view.program p.now) }
    requires equal { (b.old).parts ≡ (a.old).parts }
    requires declared { DeclaresAsMany (a.old).parts p.now }
    requires threads { IsSchedule (length p.now.threads) schedule.now }
    requires entries { length schedule.now ≤ MOST_ENTRIES }
    requires first_room { length (a.old).state.outputs + length schedule.now ≤ (a.old).room }
    requires second_room { length (b.old).state.outputs + length schedule.now ≤ (b.old).room }
    ensures found { MatchOption result (CodeAgreesThroughout (plain (view.program p.now)) (a.old).parts (a.old).state (b.old).state schedule.now)
        (λ found. IsFirstCodeStepApart p.now (a.old).parts (a.old).state (b.old).state schedule.now found) }
    ensures first_parts { (a.new).parts ≡ (a.old).parts }
    ensures second_parts { (b.new).parts ≡ (a.old).parts }
    ensures first_room { (a.new).room ≡ (a.old).room }
    ensures second_room { (b.new).room ≡ (b.old).room }
    ensures first_state { (a.new).state ≡ spec.code_from (a.old).parts (a.old).state (part_run schedule.now result) }
    ensures second_state { (b.new).state ≡ spec.code_from (a.old).parts (b.old).state (part_run schedule.now result) }
{
    pair_on(p, a, b, schedule)
}
