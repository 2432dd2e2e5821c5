//! What judging the bytes of a text finds, for programs that tell more than `check` does.

ghost use Rattle.std.specs.Prelude.{◌≡◌, ◌≤◌, ℕ, List, IfOk, MatchResult, Err, length};
ghost use Rattle.call_judge.specs.Check.{totals};
ghost use Rattle.call_judge.specs.Findings.{Finds, FindsIn, reply_to};
ghost use Rattle.call_judge.specs.Inside.{IsNamed};
ghost use Rattle.call_judge.specs.Texts.{ChecksBytes};
ghost use Rattle.call_reports.specs.AnswerViews.{seen};
ghost use Rattle.cov_ast.specs.Obligations.{Decides};
ghost use Rattle.cov_ast.specs.Ready.{IsReady};
ghost use Rattle.cov_ast.specs.Syntax as syntax;
ghost use Rattle.cov_ast.specs.View as view;
ghost use Rattle.cov_ast.specs.WellFormed.{IsWellFormed};
ghost use Rattle.cov_expr.specs.declared.limits.TheConstants.{MOST_BYTES};
ghost use Rattle.typing_law.specs.Accepted.{IsAccepted, program_obligations};

use crate::check::{thread_name, totals_of};
use call_inputs::parse_text;
use call_reports::{Answer, Fault, Totals};
use cov_ast::{CheckFault, Parsed, Program, Refusal};
use cov_expr::NoMemory;
use policy_class::resolve;
use std::alloc::Global;
use verify::check_program;

/// What was found of the bytes of a text.
#[derive(Drop)]
pub enum Judged {
    /// They spell no text; this is their first fault.
    Malformed(Fault),
    /// This name of the text is the first that isn't in order (W1, W2).
    Unnamed(Refusal),
    /// The first rule that is broken (W3 to W9, V1 to V16), and the program that the text stands for.
    Refused(Refusal, Box<Program>),
    /// No rule is broken: how much the program has, and the program.
    Accepted(Totals, Box<Program>),
}

impl Judged {
    /// What `check` answers to a file with this name.
    pub fn answer<'w>(&self, name: &'w str) -> Answer<'w>
        ensures reply { seen result ≡ reply_to name.now self.now }
        ensures checks { (bytes : List ℕ) → Finds bytes self.now → ChecksBytes name.now bytes (seen result) }
    {
        match self {
            Judged::Malformed(fault) => Answer::Malformed(name, *fault),
            Judged::Unnamed(refusal) => Answer::Refused(*refusal, None),
            Judged::Refused(refusal, program) => {
                let thread = thread_name(program.threads.as_slice(), refusal.thread);
                Answer::Refused(*refusal, thread)
            }
            Judged::Accepted(counts, _) => Answer::Accepted(*counts),
        }
    }
}

/// Judges the bytes of a text of at most 1 MiB. They are read once.
pub fn judge_bytes(alloc: Global, bytes: &[u8]) -> Result<Judged, NoMemory>
    requires { length bytes.now ≤ MOST_BYTES }
    ensures { IfOk result (λ judged. Finds bytes.now judged) }
{
    match parse_text(alloc, bytes) {
        Ok(parsed) => judge_text(alloc, parsed),
        Err(Some(fault)) => Ok(Judged::Malformed(fault)),
        Err(None) => Err(NoMemory),
    }
}

/// Judges a text.
fn judge_text(alloc: Global, parsed: Parsed) -> Result<Judged, NoMemory>
    requires { IsReady (view.parsed parsed) }
    ensures { IfOk result (λ judged. FindsIn (view.parsed parsed) judged) }
{
    match resolve(alloc, parsed) {
        Ok(program) => judge_program(alloc, Box::new(alloc, program)?),
        Err(CheckFault::Refused(refusal)) => Ok(Judged::Unnamed(refusal)),
        Err(CheckFault::NoMemory) => Err(NoMemory),
    }
}

/// Judges the program that a text stands for, whatever the text is.
fn judge_program(alloc: Global, program: Box<Program>) -> Result<Judged, NoMemory>
    requires { IsWellFormed (view.program program.value) }
    ensures { (p : syntax.Parsed) → IsNamed p (view.program program.value) → IfOk result (λ judged. FindsIn p judged) }
{
    match check_totals(alloc, &program) {
        Ok(counts) => Ok(Judged::Accepted(counts, program)),
        Err(CheckFault::Refused(refusal)) => Ok(Judged::Refused(refusal, program)),
        Err(CheckFault::NoMemory) => Err(NoMemory),
    }
}

/// How much a program has, if it is accepted.
fn check_totals(alloc: Global, program: &Program) -> Result<Totals, CheckFault>
    requires { IsWellFormed (view.program program.now) }
    ensures { MatchResult result
        (λ counts. IsAccepted (view.program program.now) × (counts ≡ totals (view.program program.now)))
        (λ fault. Decides (program_obligations (view.program program.now)) (Err fault)) }
{
    match check_program(alloc, program) {
        Ok(verdict) => Ok(totals_of(&verdict)),
        Err(fault) => Err(fault),
    }
}
