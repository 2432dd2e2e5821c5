//! Where an obligation stands, and its refusal there.

ghost use Rattle.std.specs.Prelude.{◌≡◌, [], ◌∷◌, false};
ghost use Rattle.cov_ast.specs.Obligations.{Decides};
ghost use Rattle.cov_ast.specs.declared.refusal.CheckFault.TheVariants as faults;
ghost use Rattle.typing_law.specs.ThreadObligations.{thread_obligation};

use cov_ast::{CheckFault, Detail, Refusal, Rule};

/// Where an obligation of a thread stands: which thread it is, and the byte offset of the statement.
#[derive(Clone, Copy, PartialEq, Eq)]
pub struct Site {
    pub thread: u32,
    pub place: u32,
}

/// Refuses for a rule, unless what it asks holds.
pub fn require_at(site: Site, holds: bool, rule: Rule, detail: Detail) -> Result<(), CheckFault>
    ensures { Decides (thread_obligation site.thread site.place rule detail holds ∷ []) result }
{
    if holds {
        return Ok(());
    }
    Err(refused_at(site, rule, detail))
}

/// The refusal for a rule.
pub fn refused_at(site: Site, rule: Rule, detail: Detail) -> CheckFault
    ensures { result ≡ faults.Refused (thread_obligation site.thread site.place rule detail false).refusal }
{
    CheckFault::Refused(Refusal {
        rule,
        thread: Some(site.thread),
        place: site.place,
        detail,
    })
}
