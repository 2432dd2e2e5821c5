//! The verdict on a program of which some answers are kept: each thread that is open is judged.

ghost use Rattle.std.specs.Prelude.{◌≡◌, ◌<◌, ◌≤◌, None, Some, map, length, replicate, sum_by, IfOk, All, IsTrue};
ghost use Rattle.cov_ast.specs.Obligations.{all_hold};
ghost use Rattle.cov_ast.specs.View as view;
ghost use Rattle.cov_ast.specs.WellFormed.{IsWellFormed};
ghost use Rattle.cov_expr.specs.declared.limits.TheConstants.{MOST_THREADS};
ghost use Rattle.mode_compat.specs.Compatible.{threads_of};
ghost use Rattle.mode_compat.specs.Declared.{declaration_obligations};
ghost use Rattle.thread_swap.specs.Inside.Sums.{AreSmall};
ghost use Rattle.thread_swap.specs.Judges.{Passes, risen, says_of};
ghost use Rattle.thread_swap.specs.Swaps as spec;
ghost use Rattle.thread_swap.specs.Swaps.{AreSaid, Asks, due, open_at, settled, verdict_on, all_said, judged_together};

use crate::judge::{Judge, Said};
use crate::judged::Judged;
use cov_ast::{CheckFault, Program};
use cov_expr::{List, NoMemory};
use std::alloc::Global;
use typing_law::Count;
use verify::check_declared;

/// What is kept of the threads of a program, and its verdict.
#[derive(Drop)]
pub struct Settled {
    pub answers: List<Option<Said>>,
    pub verdict: Judged,
}

/// Judges a program of which some answers are kept: its declarations, and where they keep the rules, each thread that is open.
pub fn settle<J: Judge>(
    alloc: Global,
    p: &Program,
    kept: &[Option<Said>],
    judge: &mut J,
) -> Result<Settled, NoMemory>
    requires formed { IsWellFormed (view.program p.now) }
    requires complete { length kept.now ≡ length p.now.threads }
    requires fits { AreSaid (J.judging judge.old) (view.program p.now) kept.now }
    ensures answers { IfOk result (λ made. made.answers ≡ settled (J.judging judge.old) (view.program p.now) kept.now) }
    ensures verdict { IfOk result (λ made. made.verdict ≡ verdict_on (J.judging judge.old) (view.program p.now)) }
    ensures passes { Passes (J.judging judge.old) (J.judging judge.new) }
    ensures asks { Asks (J.judging judge.old).judged (J.judging judge.new).judged (due (view.program p.now) kept.now) result }
{
    match check_declared(alloc, p) {
        Ok(()) => settle_threads(alloc, p, kept, judge),
        Err(CheckFault::Refused(refusal)) => {
            let mut answers = List::new(alloc);
            answers.extend_from_slice(kept)?;
            Ok(Settled {
                answers,
                verdict: Judged::Refused(refusal),
            })
        }
        Err(CheckFault::NoMemory) => Err(NoMemory),
    }
}

/// Judges each thread that is open, of a program whose declarations keep the rules.
fn settle_threads<J: Judge>(
    alloc: Global,
    p: &Program,
    kept: &[Option<Said>],
    judge: &mut J,
) -> Result<Settled, NoMemory>
    requires formed { IsWellFormed (view.program p.now) }
    requires declared { IsTrue (all_hold (declaration_obligations (view.program p.now))) }
    requires complete { length kept.now ≡ length p.now.threads }
    requires fits { AreSaid (J.judging judge.old) (view.program p.now) kept.now }
    ensures answers { IfOk result (λ made. made.answers ≡ map Some (all_said (J.judging judge.old) (view.program p.now))) }
    ensures verdict { IfOk result (λ made. made.verdict ≡ judged_together (all_said (J.judging judge.old) (view.program p.now))) }
    ensures passes { Passes (J.judging judge.old) (J.judging judge.new) }
    ensures asks { Asks (J.judging judge.old).judged (J.judging judge.new).judged
        (sum_by (open_at (view.program p.now) kept.now) (threads_of (view.program p.now))) result }
{
    let all = judge_all(alloc, p, kept, judge)?;
    let answers = all_kept(alloc, all.as_slice())?;
    Ok(Settled {
        answers,
        verdict: together(all.as_slice()),
    })
}

/// What is said of each thread, in their order.
fn judge_all<J: Judge>(
    alloc: Global,
    p: &Program,
    kept: &[Option<Said>],
    judge: &mut J,
) -> Result<List<Said>, NoMemory>
    requires formed { IsWellFormed (view.program p.now) }
    requires declared { IsTrue (all_hold (declaration_obligations (view.program p.now))) }
    requires complete { length kept.now ≡ length p.now.threads }
    requires fits { AreSaid (J.judging judge.old) (view.program p.now) kept.now }
    ensures says { IfOk result (λ all. all ≡ all_said (J.judging judge.old) (view.program p.now)) }
    ensures few { IfOk result (λ all. length all ≤ MOST_THREADS) }
    ensures small { IfOk result AreSmall }
    ensures passes { Passes (J.judging judge.old) (J.judging judge.new) }
    ensures asks { Asks (J.judging judge.old).judged (J.judging judge.new).judged
        (sum_by (open_at (view.program p.now) kept.now) (threads_of (view.program p.now))) result }
{
    let mut all = List::new(alloc);
    for t in 0..p.threads.len() {
        let said = judge_open(alloc, p, kept, t as u32, judge)?;
        all.push(said)?;
    }
    Ok(all)
}

/// What is said of a thread: what is kept, or where it is open, what the judge says.
fn judge_open<J: Judge>(
    alloc: Global,
    p: &Program,
    kept: &[Option<Said>],
    t: u32,
    judge: &mut J,
) -> Result<Said, NoMemory>
    requires formed { IsWellFormed (view.program p.now) }
    requires declared { IsTrue (all_hold (declaration_obligations (view.program p.now))) }
    requires complete { length kept.now ≡ length p.now.threads }
    requires fits { AreSaid (J.judging judge.old) (view.program p.now) kept.now }
    requires thread { t < length p.now.threads }
    ensures says { IfOk result (λ said. said ≡ says_of (J.judging judge.old) (view.program p.now) t) }
    ensures passes { Passes (J.judging judge.old) (J.judging judge.new) }
    ensures asks { (J.judging judge.new).judged ≡ risen (J.judging judge.old).judged (open_at (view.program p.now) kept.now t) }
{
    match kept[t as usize] {
        Some(said) => Ok(said),
        None => judge.judge(alloc, p, t),
    }
}

/// The verdict by what is said of each thread.
fn together(all: &[Said]) -> Judged
    requires few { length all.now ≤ MOST_THREADS }
    requires small { AreSmall all.now }
    ensures { result ≡ judged_together all.now }
{
    let mut count = Count {
        statements: 0,
        entailments: 0,
    };
    for said in all {
        match said {
            Ok(checked) => {
                count.statements += checked.statements;
                count.entailments += checked.entailments;
            }
            Err(refusal) => return Judged::Refused(*refusal),
        }
    }
    Judged::Accepted(count)
}

/// Keeps what is said of each thread.
fn all_kept(alloc: Global, all: &[Said]) -> Result<List<Option<Said>>, NoMemory>
    ensures { IfOk result (λ answers. answers ≡ map Some all.now) }
{
    let mut answers = List::new(alloc);
    for said in all {
        answers.push(Some(*said))?;
    }
    Ok(answers)
}

/// Keeps nothing of any thread.
pub fn all_open(alloc: Global, p: &Program) -> Result<List<Option<Said>>, NoMemory>
    ensures { IfOk result (λ answers. answers ≡ spec.all_open (view.program p.now)) }
{
    let answers = nothings(alloc, p.threads.len())?;
    Ok(answers)
}

/// So many times nothing.
fn nothings<T: Drop>(alloc: Global, count: usize) -> Result<List<Option<T>>, NoMemory>
    ensures { IfOk result (λ made. made ≡ replicate count None) }
{
    let mut made = List::new(alloc);
    for i in 0..count {
        let _ = i;
        made.push(None)?;
    }
    Ok(made)
}
