//! Why a program isn't accepted: the rule that it breaks, where, and what about.

ghost use Rattle.std.specs.Prelude.{◌≡◌, false};
ghost use Rattle.cov_ast.specs.Obligations.{declared_obligation};
ghost use Rattle.cov_ast.specs.declared.refusal.CheckFault.TheVariants as faults;

use cov_expr::{Name, NoMemory};

/// A rule that a program has to keep: `W1` to `W9` of its declarations, `V1` to `V16` of its statements.
#[derive(Clone, Copy, PartialEq, Eq)]
pub enum Rule {
    W1,
    W2,
    W3,
    W4,
    W5,
    W6,
    W7,
    W8,
    W9,
    V1,
    V2,
    V3,
    V4,
    V5,
    V6,
    V7,
    V8,
    V9,
    V10,
    V11,
    V12,
    V13,
    V14,
    V15,
    V16,
}

/// What a refusal shows beside its place: names, or the number of an entailment.
#[derive(Clone, Copy, PartialEq, Eq)]
pub enum Detail {
    Nothing,
    One(Name),
    Two(Name, Name),
    Three(Name, Name, Name),
    Number(u32),
}

/// The first rule that a program breaks, the thread (for a rule of statements), and the byte offset.
#[derive(Clone, Copy, PartialEq, Eq)]
pub struct Refusal {
    pub rule: Rule,
    pub thread: Option<u32>,
    pub place: u32,
    pub detail: Detail,
}

/// Why a check gives no verdict that accepts.
#[derive(Clone, Copy, PartialEq, Eq)]
pub enum CheckFault {
    Refused(Refusal),
    NoMemory,
}

impl From<NoMemory> for CheckFault {
    ghost from_gives = { λ _ fault. fault ≡ faults.NoMemory };

    fn from(_error: NoMemory) -> CheckFault {
        CheckFault::NoMemory
    }
}

impl From<Refusal> for CheckFault {
    ghost from_gives = { λ refusal fault. fault ≡ faults.Refused refusal };

    fn from(refusal: Refusal) -> CheckFault {
        CheckFault::Refused(refusal)
    }
}

/// The refusal of a program for a rule of declarations, at a place.
pub fn refused(rule: Rule, place: u32, detail: Detail) -> CheckFault
    ensures { result ≡ faults.Refused (declared_obligation rule place detail false).refusal }
{
    CheckFault::Refused(Refusal {
        rule,
        thread: None,
        place,
        detail,
    })
}
