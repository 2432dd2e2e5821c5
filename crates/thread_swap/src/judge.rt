//! Judges of threads.

ghost use Rattle.std.specs.Prelude.{◌≡◌, ◌<◌, length, IfOk, IsTrue};
ghost use Rattle.cov_ast.specs.Obligations.{all_hold};
ghost use Rattle.cov_ast.specs.View as view;
ghost use Rattle.cov_ast.specs.WellFormed.{IsWellFormed};
ghost use Rattle.mode_compat.specs.Declared.{declaration_obligations};
ghost use Rattle.typing_law.specs.Counts.{counts};
ghost use Rattle.thread_swap.specs.Judges.{Judging, IsSound, Passes, risen, says_of};

use cov_ast::{Program, Refusal};
use cov_expr::NoMemory;
use std::alloc::Global;
use typing_law::Count;

/// What is said of a thread: how much was checked, or why it isn't accepted.
pub type Said = Result<Count, Refusal>;

/// Whoever says of a thread whether it is accepted.
///
/// What a judge says of a thread rests on the declared variables and locks, the number of the thread and its declaration, and no call
/// changes it. It counts the statements of the threads of which it is asked, up to 18446744073709551615, where the count stands
/// still. It may be *exact*: then it says what the rules say.
pub trait Judge {
    /// What it says, and how much it was asked.
    ghost judging: { Self → Judging };

    /// What is said of a thread of a program whose declarations keep the rules. The count rises also where memory runs out.
    fn judge(&mut self, alloc: Global, p: &Program, t: u32) -> Result<Said, NoMemory>
        requires formed { IsWellFormed (view.program p.now) }
        requires declared { IsTrue (all_hold (declaration_obligations (view.program p.now))) }
        requires thread { t < length p.now.threads }
        ensures says { IfOk result (λ said. said ≡ says_of (judging self.old) (view.program p.now) t) }
        ensures passes { Passes (judging self.old) (judging self.new) }
        ensures counted { (judging self.new).judged ≡ risen (judging self.old).judged (counts (view.program p.now) t).statements };

    /// Of how many statements it was asked.
    fn judged(&self) -> u64
        ensures { result ≡ (judging self.now).judged };

    /// What it says is lawful, and what the rules say where it is exact.
    ghost sound: { (judge : Self) → IsSound (judging judge) };
}
