//! The check of a whole program: its declarations, and then each of its threads.

ghost use Rattle.std.specs.Prelude.{◌≡◌, ◌<◌, IfOk, MatchResult, Err, IsTrue};
ghost use Rattle.std.specs.List.{flat_map};
ghost use Rattle.cov_ast.specs.Obligations.{Decides, all_hold};
ghost use Rattle.cov_ast.specs.Plain.{plain};
ghost use Rattle.cov_ast.specs.View as view;
ghost use Rattle.cov_ast.specs.WellFormed.{IsWellFormed};
ghost use Rattle.flow_model.specs.Secure.{IsSecure};
ghost use Rattle.mode_compat.specs.Compatible.{threads_of};
ghost use Rattle.mode_compat.specs.Declared.{declaration_obligations};
ghost use Rattle.typing_law.specs.Counts.{DecidesWith};
ghost use Rattle.typing_law.specs.ThreadObligations.{thread_obligations};
ghost use Rattle.typing_law.specs.Accepted.{IsAccepted, program_obligations};
ghost use Rattle.typing_law.specs.Disciplined.{IsDisciplined};
ghost use Rattle.typing_law.specs.Verdicts.{counts};

use cov_ast::{CheckFault, Program};
use lock_spec::check_locks;
use mode_compat::check_modes;
use policy_class::check_policy;
use std::alloc::Global;
use typing_law::{Count, Verdict, accepted_is_disciplined, accepted_is_secure};
use typing_rules::check_thread;

/// Checks a program whose names are in order. `Ok` comes exactly where every obligation holds (W3 to W9, V1 to V16), and then
/// the program is secure and disciplined. The first obligation that doesn't hold is refused: of declarations by rule, and
/// then of each thread in turn by statement.
pub fn check_program<'p>(alloc: Global, p: &'p Program) -> Result<Verdict<'p>, CheckFault>
    requires { IsWellFormed (view.program p.now) }
    ensures answer { MatchResult result
        (λ verdict. (verdict.program.now ≡ p.now) × IsAccepted (view.program p.now))
        (λ fault. Decides (program_obligations (view.program p.now)) (Err fault)) }
    ensures secure { IfOk result (λ _. IsSecure (plain (view.program p.now))) }
    ensures disciplined { IfOk result (λ _. IsDisciplined (view.program p.now)) }
{
    if let Err(fault) = check_declared(alloc, p) {
        return Err(fault);
    }
    match check_threads(alloc, p) {
        Ok(count) => {
            accepted_is_secure();
            accepted_is_disciplined();
            Ok(Verdict::new(p, count))
        }
        Err(fault) => Err(fault),
    }
}

/// Refuses a program for the first rule of declarations that it breaks (W3 to W9).
pub fn check_declared(alloc: Global, p: &Program) -> Result<(), CheckFault>
    requires { IsWellFormed (view.program p.now) }
    ensures { Decides (declaration_obligations (view.program p.now)) result }
{
    if let Err(fault) = check_policy(alloc, p) {
        return Err(fault);
    }
    if let Err(fault) = check_locks(alloc, p) {
        return Err(fault);
    }
    check_modes(alloc, p)
}

/// Checks each thread in turn, and adds up what was checked.
fn check_threads(alloc: Global, p: &Program) -> Result<Count, CheckFault>
    requires formed { IsWellFormed (view.program p.now) }
    requires declared { IsTrue (all_hold (declaration_obligations (view.program p.now))) }
    ensures { DecidesWith (flat_map (thread_obligations (view.program p.now)) (threads_of (view.program p.now))) (counts (view.program p.now)) result }
{
    let mut count = Count {
        statements: 0,
        entailments: 0,
    };
    for t in 0..p.threads.len() {
        match check_thread(alloc, p, t as u32) {
            Ok(checked) => {
                count.statements += checked.statements;
                count.entailments += checked.entailments;
            }
            Err(fault) => return Err(fault),
        }
    }
    Ok(count)
}
