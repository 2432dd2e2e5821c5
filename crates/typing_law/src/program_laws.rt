//! The laws of accepted programs: they are secure and disciplined.

ghost use Rattle.cov_ast.specs.Syntax as syntax;
ghost use Rattle.cov_ast.specs.Plain.{plain};
ghost use Rattle.cov_ast.specs.WellFormed.{IsWellFormed};
ghost use Rattle.flow_model.specs.Secure.{IsSecure};
ghost use Rattle.typing_law.specs.Accepted.{IsAccepted};
ghost use Rattle.typing_law.specs.Disciplined.{IsDisciplined};

use crate::laws::{
    threads_end_without_locks, true_declarations_are_declared, true_obligations_are_secure,
};
use flow_model::threads_compose;
use mode_compat::{sets_are_holdings, writable_and_stable_are_disjoint};

/// An accepted program is secure: from any two starts that agree on all that is low and meet every lock's invariant, under
/// every schedule, the two runs agree after each step. It rests on the security of each thread alone and on what keeps the
/// threads apart, and opens no rule of a statement.
pub fn accepted_is_secure()
    ensures { (p : syntax.Program) → IsWellFormed p → IsAccepted p → IsSecure (plain p) }
{
    threads_compose();
    writable_and_stable_are_disjoint();
    true_declarations_are_declared();
    true_obligations_are_secure();
}

/// An accepted program is disciplined, also from memories that aren't fit to start from: each thread holds the locks that
/// its text says, evaluates narrow expressions in which others may write at most one variable, and leaves alone what is
/// stable for others.
pub fn accepted_is_disciplined()
    ensures { (p : syntax.Program) → IsWellFormed p → IsAccepted p → IsDisciplined p }
{
    sets_are_holdings();
    writable_and_stable_are_disjoint();
    threads_end_without_locks();
}
