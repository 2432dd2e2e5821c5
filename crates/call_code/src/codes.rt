//! What the commands by code share: an accepted program with its code, the test of two starts, and the machine of a code.

ghost use Rattle.std.specs.Prelude.{◌≡◌, IfOk, MatchResult, None, length, replicate};
ghost use Rattle.cov_ast.specs.Plain.{plain};
ghost use Rattle.cov_ast.specs.Ready.{IsReady};
ghost use Rattle.cov_ast.specs.View as view;
ghost use Rattle.cov_ast.specs.WellFormed.{IsWellFormed};
ghost use Rattle.flow_model.specs.Agreement.{AreFitStarts};
ghost use Rattle.flow_model.specs.FirstDifference.{first_bad_start};
ghost use Rattle.call_code.specs.Codes as spec;
ghost use Rattle.call_code.specs.Inside.{IsCodeOf, IsOfText, Rejects};
ghost use Rattle.call_judge.specs.Inside.{IsProgramRejected, IsRejected};
ghost use Rattle.call_judge.specs.Starts.{unfit_by};
ghost use Rattle.call_reports.specs.AnswerViews.{Stops};

use call_judge::check::{named, totals_of, verdict_on};
use call_reports::{Answer, Stop, Totals, bad_name};
use cov_ast::{Parsed, Program};
use cov_expr::{List, NoMemory};
use flow_model::starts;
use risc_compile::compile;
use risc_machine::{Code, Risc};
use std::alloc::Global;

/// An accepted program with its code, and how much was checked of it.
#[derive(Drop)]
pub struct Coded {
    pub program: Program,
    pub code: Code,
    pub totals: Totals,
}

/// The program that a text stands for, with its code, if it is accepted.
pub fn coded_text<'w>(alloc: Global, parsed: Parsed) -> Result<Coded, Stop<'w>>
    requires { IsReady (view.parsed parsed) }
    ensures coded { MatchResult result (IsOfText (view.parsed parsed)) (Stops (IsRejected (view.parsed parsed))) }
    ensures variables { IfOk result (λ coded. length coded.program.vars ≡ length parsed.vars) }
    ensures threads { IfOk result (λ coded. length coded.program.threads ≡ length parsed.threads) }
{
    let program = named(alloc, parsed)?;
    let made = code_of(alloc, &program)?;
    Ok(Coded {
        program,
        code: made.0,
        totals: made.1,
    })
}

/// The code of a program, if it is accepted, and how much was checked of it.
fn code_of<'w>(alloc: Global, program: &Program) -> Result<(Code, Totals), Stop<'w>>
    requires { IsWellFormed (view.program program.now) }
    ensures { MatchResult result (λ made. IsCodeOf program.now made.0 made.1) (Stops (IsProgramRejected (view.program program.now))) }
{
    let verdict = verdict_on(alloc, program)?;
    let code = compile(alloc, &verdict)?;
    Ok((code, totals_of(&verdict)))
}

/// That two memories are fit starts of a program, or the answer that says why they aren't.
pub fn check_starts<'w>(
    alloc: Global,
    program: &Program,
    left: &[u32],
    right: &[u32],
) -> Result<(), Stop<'w>>
    requires formed { IsWellFormed (view.program program.now) }
    requires left { length left.now ≡ length program.now.vars }
    requires right { length right.now ≡ length program.now.vars }
    ensures rejection { let unfit = unfit_by (view.program program.now) (first_bad_start (plain (view.program program.now)) left.now right.now) in
        MatchResult result (λ _. unfit ≡ None) (Stops (Rejects unfit)) }
    ensures fit { IfOk result (λ _. AreFitStarts (plain (view.program program.now)) left.now right.now) }
{
    match starts(program, left, right) {
        None => Ok(()),
        Some(found) => Err(Stop::Answer(Answer::BadStarts(bad_name(alloc, program, &found)?))),
    }
}

/// Code at its start from a memory, with 0 in each register.
pub fn start<'c>(
    alloc: Global,
    code: &'c Code,
    memory: List<u32>,
    room: usize,
) -> Result<Risc<'c>, NoMemory>
    requires { length memory ≡ length (code.now).vars }
    ensures parts { IfOk result (λ risc. risc.parts ≡ code.now) }
    ensures state { IfOk result (λ risc. risc.state ≡ spec.code_start code.now memory) }
    ensures room { IfOk result (λ risc. risc.room ≡ room) }
{
    let registers = cleared(alloc, code.parts().threads.len())?;
    Risc::start(alloc, code, memory, registers, room)
}

/// The registers of so many threads, with 0 in each.
fn cleared(alloc: Global, threads: usize) -> Result<List<[u32; 8]>, NoMemory>
    ensures { IfOk result (λ rows. rows ≡ spec.cleared threads) }
{
    let mut rows = List::new(alloc);
    for _ in 0..threads {
        rows.push([0; 8])?;
    }
    Ok(rows)
}
