//! Replays of a schedule on any machine: on one, or on two side by side; and those of programs.

ghost use Rattle.std.specs.Prelude.{◌≡◌, ◌↔◌, ◌+◌, ◌<◌, ◌≤◌, false, length, take, IsTrue, MatchOption};
ghost use Rattle.cov_expr.specs.declared.limits.TheConstants.{MOST_ENTRIES};
ghost use Rattle.watch.specs.Watches.{expr_of, words_of};
ghost use Rattle.cov_expr.specs.Entailment.{Holds};
ghost use Rattle.cov_expr.specs.Words.{IsSchedule};
ghost use Rattle.cov_ast.specs.Plain.{plain};
ghost use Rattle.cov_ast.specs.View as view;
ghost use Rattle.cov_ast.specs.WellFormed.{IsWellFormed};
ghost use Rattle.flow_model.specs.Runs as runs;
ghost use Rattle.flow_model.specs.Source as spec;
ghost use Rattle.schedule_replay.specs.Inside.{HasSameFront, KeepsAgreement};
ghost use Rattle.schedule_replay.specs.Inside as inside;
ghost use Rattle.schedule_replay.specs.Machines.{AreDeclaredBy, ComeApart, DifferIn, DoAgree, HasStepped, StayTogether, answer_of, declared_by, part_run, shared_in, state_after, stayed_of};
ghost use Rattle.schedule_replay.specs.Replays.{AgreeThroughout, IsFirstStepApart, StopsAt};
ghost use Rattle.source_machine.specs.SourceMachine.{run_of};

use crate::machine::Machine;
use cov_ast::Program;
use flow_model::{Differ, Stepped, agree};
use source_machine::{Change, Source};
use watch::Watch;

/// Where a run until an expression holds stopped.
#[derive(Clone, Copy, PartialEq, Eq)]
pub struct Until {
    /// How many steps were run.
    pub steps: u32,
    /// How many of them stayed.
    pub stayed: u32,
    /// Whether the expression holds there. Where it doesn't, the whole schedule was run.
    pub hit: bool,
}

/// Where two runs don't agree.
#[derive(Clone, Copy, PartialEq, Eq)]
pub struct Found {
    /// The first step after which they don't agree, counted from 1.
    pub step: u32,
    /// What they don't agree on there.
    pub differ: Differ,
}

/// Runs a whole schedule, and answers how many of its steps stayed. It takes no memory.
pub fn run(s: &mut Source<'_>, schedule: &[u32]) -> u32
    requires threads { IsSchedule (length (s.old).program.threads) schedule.now }
    requires entries { length schedule.now ≤ MOST_ENTRIES }
    requires room { length (run_of s.old).outputs + length schedule.now ≤ (s.old).room }
    ensures program { (s.new).program ≡ (s.old).program }
    ensures room { (s.new).room ≡ (s.old).room }
    ensures run { run_of s.new ≡ spec.run_from (run_of s.old) schedule.now }
    ensures stayed { result ≡ spec.stayed_from (run_of s.old) schedule.now }
{
    run_on(s, schedule)
}

/// Runs a schedule until an expression holds: it stops after the least number of steps, 0 included, after which the
/// watch hits, or at the end of the schedule. It learns of the memory by the watch alone, which it asks at the start and
/// after each step that stored, and takes no memory itself.
pub fn run_until(s: &mut Source<'_>, schedule: &[u32], w: &Watch) -> Until
    requires threads { IsSchedule (length (s.old).program.threads) schedule.now }
    requires entries { length schedule.now ≤ MOST_ENTRIES }
    requires room { length (run_of s.old).outputs + length schedule.now ≤ (s.old).room }
    requires words { words_of w.now ≡ length (s.old).program.vars }
    ensures program { (s.new).program ≡ (s.old).program }
    ensures room { (s.new).room ≡ (s.old).room }
    ensures run { run_of s.new ≡ spec.run_from (run_of s.old) (take result.steps schedule.now) }
    ensures stops { StopsAt (expr_of w.now) (run_of s.old) schedule.now result }
{
    let mut stayed = 0;
    let mut stored = true;
    for (i, t) in schedule.iter().enumerate() {
        if hits(stored, s, w) {
            return Until {
                steps: i as u32,
                stayed,
                hit: true,
            };
        }
        stored = stores(s.change(*t));
        stayed += advance(s, *t);
    }
    let hit = hits(stored, s, w);
    Until {
        steps: schedule.len() as u32,
        stayed,
        hit,
    }
}

/// Runs a schedule on two machines of one program, side by side, until they don't agree after a step. `None` comes
/// exactly where they agree after each step, and both have run the whole schedule then; else both stand after the
/// first step after which they don't. The start is not looked at. It takes no memory, and the time of one look at each
/// output, and at the declarations and the threads for each step that stores, puts out, or takes or frees a lock.
pub fn pair<'p>(
    p: &'p Program,
    a: &mut Source<'p>,
    b: &mut Source<'p>,
    schedule: &[u32],
) -> Option<Found>
    requires formed { IsWellFormed (view.program p.now) }
    requires first { (a.old).program ≡ p.now }
    requires second { (b.old).program ≡ p.now }
    requires threads { IsSchedule (length p.now.threads) schedule.now }
    requires entries { length schedule.now ≤ MOST_ENTRIES }
    requires first_room { length (run_of a.old).outputs + length schedule.now ≤ (a.old).room }
    requires second_room { length (run_of b.old).outputs + length schedule.now ≤ (b.old).room }
    ensures found { MatchOption result (AgreeThroughout (plain (view.program p.now)) (run_of a.old) (run_of b.old) schedule.now)
        (λ found. IsFirstStepApart (plain (view.program p.now)) (run_of a.old) (run_of b.old) schedule.now found) }
    ensures first_program { (a.new).program ≡ p.now }
    ensures second_program { (b.new).program ≡ p.now }
    ensures first_room { (a.new).room ≡ (a.old).room }
    ensures second_room { (b.new).room ≡ (b.old).room }
    ensures first_run { run_of a.new ≡ spec.run_from (run_of a.old) (part_run schedule.now result) }
    ensures second_run { run_of b.new ≡ spec.run_from (run_of b.old) (part_run schedule.now result) }
{
    pair_on(p, a, b, schedule)
}

/// Runs a whole schedule on a machine, and answers how many of its steps stayed. It takes no memory.
pub fn run_on<M: Machine>(m: &mut M, schedule: &[u32]) -> u32
    requires threads { IsSchedule (declared_by M.semantics (M.seen m.old)).threads schedule.now }
    requires entries { length schedule.now ≤ MOST_ENTRIES }
    requires room { length (shared_in M.semantics (M.seen m.old)).outputs + length schedule.now ≤ (M.seen m.old).room }
    ensures code { (M.seen m.new).code ≡ (M.seen m.old).code }
    ensures room { (M.seen m.new).room ≡ (M.seen m.old).room }
    ensures state { (M.seen m.new).state ≡ state_after M.semantics (M.seen m.old).code (M.seen m.old).state schedule.now }
    ensures stayed { result ≡ stayed_of M.semantics (M.seen m.old).code (M.seen m.old).state schedule.now }
{
    let mut stayed = 0;
    for t in schedule {
        stayed += advance(m, *t);
    }
    stayed
}

/// Runs a schedule on two machines that run the same, side by side, until they don't agree after a step. `None` comes exactly
/// where they agree after each step, and both have run the whole schedule then; else both stand after the first step after
/// which they don't. The start is not looked at. It takes no memory, and the time of one look at each output, and at the
/// declarations and the threads for each step that isn't quiet.
pub fn pair_on<M: Machine>(p: &Program, a: &mut M, b: &mut M, schedule: &[u32]) -> Option<Found>
    requires formed { IsWellFormed (view.program p.now) }
    requires equal { (M.seen b.old).code ≡ (M.seen a.old).code }
    requires declared { AreDeclaredBy (declared_by M.semantics (M.seen a.old)) p.now }
    requires threads { IsSchedule (length p.now.threads) schedule.now }
    requires entries { length schedule.now ≤ MOST_ENTRIES }
    requires first_room { length (shared_in M.semantics (M.seen a.old)).outputs + length schedule.now ≤ (M.seen a.old).room }
    requires second_room { length (shared_in M.semantics (M.seen b.old)).outputs + length schedule.now ≤ (M.seen b.old).room }
    ensures found { MatchOption result (StayTogether M.semantics (plain (view.program p.now)) (M.seen a.old).code (M.seen a.old).state (M.seen b.old).state schedule.now)
        (λ found. ComeApart M.semantics (plain (view.program p.now)) (M.seen a.old).code (M.seen a.old).state (M.seen b.old).state schedule.now found) }
    ensures first_code { (M.seen a.new).code ≡ (M.seen a.old).code }
    ensures second_code { (M.seen b.new).code ≡ (M.seen a.old).code }
    ensures first_room { (M.seen a.new).room ≡ (M.seen a.old).room }
    ensures second_room { (M.seen b.new).room ≡ (M.seen b.old).room }
    ensures first_state { (M.seen a.new).state ≡ state_after M.semantics (M.seen a.old).code (M.seen a.old).state (part_run schedule.now result) }
    ensures second_state { (M.seen b.new).state ≡ state_after M.semantics (M.seen a.old).code (M.seen b.old).state (part_run schedule.now result) }
{
    let mut compared = 0;
    for (i, t) in schedule.iter().enumerate() {
        let kept = step_both(a, b, *t);
        if let Some(differ) = difference_unless(i > 0 && kept, p, a, b, compared) {
            return Some(Found {
                step: i as u32 + 1,
                differ,
            });
        }
        compared = a.said().len();
    }
    None
}

/// One step of a thread, and 1 where it stayed, else 0.
fn advance<M: Machine>(m: &mut M, t: u32) -> u32
    requires thread { t < (declared_by M.semantics (M.seen m.old)).threads }
    requires room { length (shared_in M.semantics (M.seen m.old)).outputs < (M.seen m.old).room }
    ensures stepped { HasStepped M.semantics (M.seen m.old) (M.seen m.new) t }
    ensures stayed { result ≡ runs.count_of (answer_of M.semantics (M.seen m.old) t) }
    ensures small { result ≤ 1 }
{
    count(m.step(t))
}

/// One step of a thread on two machines that run the same, and whether they surely agree after it if they did before: where
/// neither went on, or where the step was quiet and the thread stands alike.
fn step_both<M: Machine>(a: &mut M, b: &mut M, t: u32) -> bool
    requires equal { (M.seen b.old).code ≡ (M.seen a.old).code }
    requires thread { t < (declared_by M.semantics (M.seen a.old)).threads }
    requires first_room { length (shared_in M.semantics (M.seen a.old)).outputs < (M.seen a.old).room }
    requires second_room { length (shared_in M.semantics (M.seen b.old)).outputs < (M.seen b.old).room }
    ensures first { HasStepped M.semantics (M.seen a.old) (M.seen a.new) t }
    ensures second { HasStepped M.semantics (M.seen b.old) (M.seen b.new) t }
    ensures kept { IsTrue result → KeepsAgreement M.semantics (M.seen a.old).state (M.seen b.old).state (M.seen a.new).state (M.seen b.new).state }
{
    let quiet = a.is_quiet(t);
    let first = a.step(t);
    let second = b.step(t);
    if has_moved(first) || has_moved(second) {
        quiet && a.is_alike(b, t)
    } else {
        true
    }
}

/// What two machines that run the same don't agree on, if anything, by a look at all of them unless it is known that they agree.
fn difference_unless<M: Machine>(
    known: bool,
    p: &Program,
    a: &M,
    b: &M,
    compared: usize,
) -> Option<Differ>
    requires formed { IsWellFormed (view.program p.now) }
    requires equal { (M.seen a.now).code ≡ (M.seen b.now).code }
    requires declared { AreDeclaredBy (declared_by M.semantics (M.seen a.now)) p.now }
    requires compared { HasSameFront compared (shared_in M.semantics (M.seen a.now)).outputs (shared_in M.semantics (M.seen b.now)).outputs }
    requires known { IsTrue known → DoAgree M.semantics (plain (view.program p.now)) (M.seen a.now).state (M.seen b.now).state }
    ensures { MatchOption result (DoAgree M.semantics (plain (view.program p.now)) (M.seen a.now).state (M.seen b.now).state)
        (λ d. DifferIn M.semantics (plain (view.program p.now)) (M.seen a.now).state (M.seen b.now).state d × ¬ DoAgree M.semantics (plain (view.program p.now)) (M.seen a.now).state (M.seen b.now).state) }
{
    if known {
        None
    } else {
        difference(p, a, b, compared)
    }
}

/// What two machines that run the same don't agree on, if anything. So many outputs were compared to be the same already.
fn difference<M: Machine>(p: &Program, a: &M, b: &M, compared: usize) -> Option<Differ>
    requires formed { IsWellFormed (view.program p.now) }
    requires equal { (M.seen a.now).code ≡ (M.seen b.now).code }
    requires declared { AreDeclaredBy (declared_by M.semantics (M.seen a.now)) p.now }
    requires compared { HasSameFront compared (shared_in M.semantics (M.seen a.now)).outputs (shared_in M.semantics (M.seen b.now)).outputs }
    ensures { MatchOption result (DoAgree M.semantics (plain (view.program p.now)) (M.seen a.now).state (M.seen b.now).state)
        (λ d. DifferIn M.semantics (plain (view.program p.now)) (M.seen a.now).state (M.seen b.now).state d × ¬ DoAgree M.semantics (plain (view.program p.now)) (M.seen a.now).state (M.seen b.now).state) }
{
    if let Some(differ) = agree(p, a.memory(), a.holders(), b.memory(), b.holders()) {
        return Some(differ);
    }
    if !same_words(a.said(), b.said(), compared) {
        return Some(Differ::Output);
    }
    a.first_apart(b).map(Differ::Thread)
}

/// Whether a thread went on.
fn has_moved(stepped: Stepped) -> bool
    ensures { result ≡ runs.has_moved stepped }
{
    match stepped {
        Stepped::Moved => true,
        Stepped::Stayed | Stepped::Idle => false,
    }
}

/// 1 for a step that stayed, else 0.
fn count(stepped: Stepped) -> u32
    ensures count { result ≡ runs.count_of stepped }
    ensures small { result ≤ 1 }
{
    match stepped {
        Stepped::Stayed => 1,
        Stepped::Moved | Stepped::Idle => 0,
    }
}

/// Whether a step stores.
fn stores(change: Change) -> bool
    ensures { result ≡ inside.stores change }
{
    match change {
        Change::Word(_) => true,
        Change::Nothing | Change::Holder(_) | Change::Outputs => false,
    }
}

/// Whether a watch hits in the memory of a machine. Where nothing was stored since it missed, it isn't asked.
fn hits(stored: bool, s: &Source<'_>, w: &Watch) -> bool
    requires words { words_of w.now ≡ length (s.now).program.vars }
    requires missed { stored ≡ false → ¬ Holds (expr_of w.now) (run_of s.now).memory }
    ensures { IsTrue result ↔ Holds (expr_of w.now) (run_of s.now).memory }
{
    stored && w.hits(s.memory())
}

/// Whether two lists are the same that begin with so many words of which that is known.
fn same_words(left: &[u32], right: &[u32], compared: usize) -> bool
    requires { HasSameFront compared left.now right.now }
    ensures { IsTrue result ↔ (left.now ≡ right.now) }
{
    same_slice(&left[compared..], &right[compared..])
}

fn same_slice(left: &[u32], right: &[u32]) -> bool
    ensures { IsTrue result ↔ (left.now ≡ right.now) }
{
    left == right
}
