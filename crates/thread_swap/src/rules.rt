//! The judge that says what the rules say.

ghost use Rattle.std.specs.Prelude.{◌≡◌, ◌<◌, length, IfOk, IsTrue};
ghost use Rattle.cov_ast.specs.View as view;
ghost use Rattle.typing_law.specs.Counts.{counts};
ghost use Rattle.thread_swap.specs.Judges.{Passes, risen, says_of};
ghost use Rattle.thread_swap.specs.RulesSay.{by_rules};

use crate::judge::{Judge, Said};
use cov_ast::{CheckFault, Program};
use cov_expr::NoMemory;
use std::alloc::Global;
use typing_rules::{check_thread, statements};

/// Judges threads by the rules.
#[derive(Drop)]
pub struct Rules {
    judged: u64,
}

impl Rules {
    /// Nothing was judged yet.
    pub fn new() -> Rules
        ensures { result.judged ≡ 0 }
    {
        Rules { judged: 0 }
    }
}

impl Judge for Rules {
    ghost use Rattle.thread_swap.specs.RulesSay.{by_rules};
    ghost use Rattle.thread_swap.specs.Inside.RulesLaws.{rules_are_sound};

    ghost judging = { λ r. by_rules r.judged };

    ghost sound = { λ r. rules_are_sound r.judged };

    fn judge(&mut self, alloc: Global, p: &Program, t: u32) -> Result<Said, NoMemory> {
        let thread = &p.threads.as_slice()[t as usize];
        self.judged = self
            .judged
            .saturating_add(statements(thread.body.as_slice()));
        match check_thread(alloc, p, t) {
            Ok(count) => Ok(Ok(count)),
            Err(CheckFault::Refused(refusal)) => Ok(Err(refusal)),
            Err(CheckFault::NoMemory) => Err(NoMemory),
        }
    }

    fn judged(&self) -> u64 {
        self.judged
    }
}
