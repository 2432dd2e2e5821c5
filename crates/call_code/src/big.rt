//! `big`: a made program of so many rounds, run four times under a schedule, twice as a program and twice as code.

ghost use Rattle.std.specs.Prelude.{◌≡◌, ◌++◌, ◌≤◌, IfOk, MatchResult, OnOk, codes, length, map};
ghost use Rattle.call_code.specs.BigReplies as spec;
ghost use Rattle.call_code.specs.Codes.{code_start};
ghost use Rattle.call_code.specs.Inside.{IsAcceptedCode};
ghost use Rattle.replay_inputs.specs.InputViews.{IsRunOf};
ghost use Rattle.call_inputs.specs.Plans.{CarriesOut};
ghost use Rattle.call_inputs.specs.Programs.{IsShownFault, SpellsProgram};
ghost use Rattle.call_inputs.specs.Rejections.{UnlessRejected};
ghost use Rattle.call_judge.specs.Check.{rejection};
ghost use Rattle.call_judge.specs.Starts.{unfit_by, unfit_starts};
ghost use Rattle.call_reports.specs.AnswerViews.{Gets, Stops};
ghost use Rattle.call_reports.specs.Replies as replies;
ghost use Rattle.call_reports.specs.declared.answers.Fault.{Fault};
ghost use Rattle.cov_ast.specs.Plain.{plain};
ghost use Rattle.cov_ast.specs.Ready.{IsReady};
ghost use Rattle.cov_ast.specs.View as view;
ghost use Rattle.cov_ast.specs.WellFormed.{IsWellFormed};
ghost use Rattle.cov_expr.specs.Words.{IsSchedule};
ghost use Rattle.cov_expr.specs.declared.limits.TheConstants.{MOST_ENTRIES, MOST_ROUNDS};
ghost use Rattle.cov_gen.specs.Big as gen;
ghost use Rattle.flow_model.specs.Agreement.{AreFitStarts};
ghost use Rattle.flow_model.specs.FirstDifference.{first_bad_start};
ghost use Rattle.flow_model.specs.Source.{begin, stayed};
ghost use Rattle.schedule_replay.specs.CodeReplays.{CodeAgreesThroughout};
ghost use Rattle.schedule_replay.specs.Replays.{AgreeThroughout};
ghost use Rattle.source_machine.specs.SourceMachine.{run_of};

use crate::codes::{Coded, check_starts, coded_text, start};
use crate::summaries::{add_code_part, add_head, add_source_part};
use call_inputs::read_text;
use call_reports::{Answer, Stop};
use cov_ast::{Parsed, Program, VarDecl};
use cov_expr::{Blob, List, NoMemory};
use cov_gen::{SECRET, big as big_text};
use cov_io::Shelf;
use replay_inputs::read_entries;
use risc_machine::{Code, Risc};
use schedule_replay::{pair, pair_code, run};
use source_machine::Source;
use std::alloc::Global;

/// Two memories to start from.
#[derive(Drop)]
struct Memories {
    left: List<u32>,
    right: List<u32>,
}

/// Runs the program of so many rounds, and its code, from two starts that differ in its secret, under a schedule.
pub fn big<'w, S: Shelf>(
    alloc: Global,
    rounds: u32,
    schedule: &'w str,
    shelf: &mut S,
) -> Result<Answer<'w>, Stop<'w>>
    requires { (1 ≤ rounds) × (rounds ≤ MOST_ROUNDS) }
    ensures { CarriesOut (S.shelved shelf.old) (S.shelved shelf.new) (spec.big_plan rounds schedule.now) result }
{
    let parsed = read_made(alloc, rounds)?;
    let entries = read_entries(alloc, schedule, &parsed, shelf)?;
    sum_up_text(alloc, rounds, parsed, entries.as_slice())
}

/// The program of so many rounds, by its text.
fn read_made<'w>(alloc: Global, rounds: u32) -> Result<Parsed, Stop<'w>>
    requires { (1 ≤ rounds) × (rounds ≤ MOST_ROUNDS) }
    ensures read { MatchResult result (λ p. SpellsProgram (gen.big rounds) (view.parsed p))
        (Stops (λ reply. (fault : Fault) × IsShownFault (gen.big rounds) fault × (reply ≡ replies.malformed (codes "big") fault))) }
    ensures ready { IfOk result (λ p. IsReady (view.parsed p)) }
{
    let text = big_text(alloc, rounds)?;
    read_text(alloc, "big", text.as_slice())
}

/// Sums up the runs of what a text spells, and of its code.
fn sum_up_text<'w>(
    alloc: Global,
    rounds: u32,
    parsed: Parsed,
    schedule: &[u32],
) -> Result<Answer<'w>, Stop<'w>>
    requires ready { IsReady (view.parsed parsed) }
    requires threads { IsSchedule (length parsed.threads) schedule.now }
    requires entries { length schedule.now ≤ MOST_ENTRIES }
    ensures { let p = view.parsed parsed in let i = spec.starts_with_secrets p schedule.now in
        Gets (UnlessRejected (rejection p) (UnlessRejected (unfit_starts p i.left i.right) (spec.SumsUp rounds i))) result }
{
    let coded = coded_text(alloc, parsed)?;
    sum_up(alloc, rounds, &coded, schedule)
}

/// Sums up the runs of an accepted program, and of its code, from the two starts that differ in its secret.
fn sum_up<'w>(
    alloc: Global,
    rounds: u32,
    coded: &Coded,
    schedule: &[u32],
) -> Result<Answer<'w>, Stop<'w>>
    requires coded { IsAcceptedCode coded.now }
    requires threads { IsSchedule (length coded.now.program.threads) schedule.now }
    requires entries { length schedule.now ≤ MOST_ENTRIES }
    ensures { let p = view.program coded.now.program in let l = spec.start_with 1 p.vars in let r = spec.start_with 2 p.vars in
        Gets (UnlessRejected (unfit_by p (first_bad_start (plain p) l r)) (spec.AllRunTogether rounds p coded.now.code l r schedule.now)) result }
{
    let memories = both_starts(alloc, coded.program.vars.as_slice())?;
    sum_up_from(alloc, rounds, coded, &memories, schedule)
}

/// The two starts, which differ in the secret alone.
fn both_starts(alloc: Global, vars: &[VarDecl]) -> Result<Memories, NoMemory>
    ensures left { IfOk result (λ memories. memories.left ≡ spec.start_with 1 (map view.var vars.now)) }
    ensures right { IfOk result (λ memories. memories.right ≡ spec.start_with 2 (map view.var vars.now)) }
{
    let left = start_with(alloc, vars, 1)?;
    let right = start_with(alloc, vars, 2)?;
    Ok(Memories { left, right })
}

/// The start in which the secret has a word, and every other variable is 0.
fn start_with(alloc: Global, vars: &[VarDecl], word: u32) -> Result<List<u32>, NoMemory>
    ensures { IfOk result (λ memory. memory ≡ spec.start_with word (map view.var vars.now)) }
{
    let mut memory = List::with_capacity(alloc, vars.len())?;
    for var in vars {
        memory.push(if var.name.text() == SECRET { word } else { 0 })?;
    }
    Ok(memory)
}

/// Sums up the runs of an accepted program, and of its code, from two starts, if they are fit.
fn sum_up_from<'w>(
    alloc: Global,
    rounds: u32,
    coded: &Coded,
    memories: &Memories,
    schedule: &[u32],
) -> Result<Answer<'w>, Stop<'w>>
    requires coded { IsAcceptedCode coded.now }
    requires left { IsRunOf coded.now.program memories.now.left schedule.now }
    requires right { IsRunOf coded.now.program memories.now.right schedule.now }
    ensures { let p = view.program coded.now.program in let l = memories.now.left in let r = memories.now.right in
        Gets (UnlessRejected (unfit_by p (first_bad_start (plain p) l r)) (spec.AllRunTogether rounds p coded.now.code l r schedule.now)) result }
{
    check_starts(
        alloc,
        &coded.program,
        memories.left.as_slice(),
        memories.right.as_slice(),
    )?;
    let report = run_all(alloc, rounds, coded, memories, schedule)?;
    Ok(Answer::Ran(report))
}

/// The report on all four runs from fit starts, which agree.
fn run_all(
    alloc: Global,
    rounds: u32,
    coded: &Coded,
    memories: &Memories,
    schedule: &[u32],
) -> Result<Blob, NoMemory>
    requires coded { IsAcceptedCode coded.now }
    requires left { IsRunOf coded.now.program memories.now.left schedule.now }
    requires right { IsRunOf coded.now.program memories.now.right schedule.now }
    requires fit { AreFitStarts (plain (view.program coded.now.program)) memories.now.left memories.now.right }
    ensures { IfOk result (λ text. spec.AllRunTogether rounds (view.program coded.now.program) coded.now.code memories.now.left memories.now.right
        schedule.now (replies.ran text)) }
{
    let mut text = List::new(alloc);
    add_head(rounds, &coded.totals, &mut text)?;
    add_source_runs(alloc, coded, memories, schedule, &mut text)?;
    add_code_runs(alloc, coded, memories, schedule, &mut text)?;
    Ok(text)
}

/// Adds what is told of two runs of a secure program from fit starts, which agree.
fn add_source_runs(
    alloc: Global,
    coded: &Coded,
    memories: &Memories,
    schedule: &[u32],
    text: &mut Blob,
) -> Result<(), NoMemory>
    requires coded { IsAcceptedCode coded.now }
    requires left { IsRunOf coded.now.program memories.now.left schedule.now }
    requires right { IsRunOf coded.now.program memories.now.right schedule.now }
    requires fit { AreFitStarts (plain (view.program coded.now.program)) memories.now.left memories.now.right }
    ensures agree { OnOk result (let p = plain (view.program coded.now.program) in
        AgreeThroughout p (begin p memories.now.left) (begin p memories.now.right) schedule.now) }
    ensures text { OnOk result (text.new ≡ text.old
        ++ spec.source_summary (view.program coded.now.program) memories.now.left memories.now.right schedule.now) }
{
    let program = &coded.program;
    let stayed = stayed_from(alloc, program, &memories.left, schedule)?;
    let mut left = source_at(alloc, program, &memories.left, schedule.len())?;
    let mut right = source_at(alloc, program, &memories.right, schedule.len())?;
    let apart = pair(program, &mut left, &mut right, schedule);
    prove!(apart.is_none());
    add_source_part(program, &left, &right, schedule.len() as u32, stayed, text)
}

/// How many steps stay of a run of a program from a memory.
fn stayed_from(
    alloc: Global,
    program: &Program,
    memory: &List<u32>,
    schedule: &[u32],
) -> Result<u32, NoMemory>
    requires formed { IsWellFormed (view.program program.now) }
    requires run { IsRunOf program.now memory.now schedule.now }
    ensures { IfOk result (λ steps. steps ≡ stayed (plain (view.program program.now)) memory.now schedule.now) }
{
    let mut source = source_at(alloc, program, memory, schedule.len())?;
    Ok(run(&mut source, schedule))
}

/// A program at its start from a copy of a memory.
fn source_at<'p>(
    alloc: Global,
    program: &'p Program,
    memory: &List<u32>,
    room: usize,
) -> Result<Source<'p>, NoMemory>
    requires formed { IsWellFormed (view.program program.now) }
    requires memory { length memory.now ≡ length program.now.vars }
    ensures program { IfOk result (λ source. source.program ≡ program.now) }
    ensures run { IfOk result (λ source. run_of source ≡ begin (plain (view.program program.now)) memory.now) }
    ensures room { IfOk result (λ source. source.room ≡ room) }
{
    Source::start(alloc, program, copied(alloc, memory)?, room)
}

/// Adds what is told of two runs of secure code from fit starts, which agree.
fn add_code_runs(
    alloc: Global,
    coded: &Coded,
    memories: &Memories,
    schedule: &[u32],
    text: &mut Blob,
) -> Result<(), NoMemory>
    requires coded { IsAcceptedCode coded.now }
    requires left { IsRunOf coded.now.program memories.now.left schedule.now }
    requires right { IsRunOf coded.now.program memories.now.right schedule.now }
    requires fit { AreFitStarts (plain (view.program coded.now.program)) memories.now.left memories.now.right }
    ensures agree { OnOk result (CodeAgreesThroughout (plain (view.program coded.now.program)) coded.now.code
        (code_start coded.now.code memories.now.left) (code_start coded.now.code memories.now.right) schedule.now) }
    ensures text { OnOk result (text.new ≡ text.old
        ++ spec.code_summary (view.program coded.now.program) coded.now.code memories.now.left memories.now.right schedule.now) }
{
    let mut left = code_at(alloc, &coded.code, &memories.left, schedule.len())?;
    let mut right = code_at(alloc, &coded.code, &memories.right, schedule.len())?;
    let apart = pair_code(&coded.program, &mut left, &mut right, schedule);
    prove!(apart.is_none());
    add_code_part(&coded.program, &left, &right, schedule.len() as u32, text)
}

/// Code at its start from a copy of a memory.
fn code_at<'c>(
    alloc: Global,
    code: &'c Code,
    memory: &List<u32>,
    room: usize,
) -> Result<Risc<'c>, NoMemory>
    requires { length memory.now ≡ length (code.now).vars }
    ensures parts { IfOk result (λ risc. risc.parts ≡ code.now) }
    ensures state { IfOk result (λ risc. risc.state ≡ code_start code.now memory.now) }
    ensures room { IfOk result (λ risc. risc.room ≡ room) }
{
    start(alloc, code, copied(alloc, memory)?, room)
}

fn copied(alloc: Global, memory: &List<u32>) -> Result<List<u32>, NoMemory>
    ensures { IfOk result (λ copy. copy ≡ memory.now) }
{
    let mut copy = List::with_capacity(alloc, memory.len())?;
    copy.extend_from_slice(memory.as_slice())?;
    Ok(copy)
}
