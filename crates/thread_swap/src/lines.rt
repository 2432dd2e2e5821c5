//! The verdict on a program, and after each replaced thread.

ghost use Rattle.std.specs.Prelude.{◌≡◌, ◌+◌, ◌-◌, ◌≤◌, ◌<◌, IfOk, OnErr, length, map, All};
ghost use Rattle.cov_ast.specs.View as view;
ghost use Rattle.cov_ast.specs.WellFormed.{IsWellFormed};
ghost use Rattle.thread_swap.specs.Judges.{Passes, risen};
ghost use Rattle.thread_swap.specs.Replacements.{IsNamed, IsReplacement, thread_named};
ghost use Rattle.thread_swap.specs.SwapLines as spec;
ghost use Rattle.thread_swap.specs.SwapLines.{all_checked, line_on, opened, put_in};
ghost use Rattle.thread_swap.specs.Swaps.{Asks, Fits, due, settled};

use crate::judge::Judge;
use crate::line::Line;
use crate::swapper::Swapper;
use cov_ast::{Program, ThreadDecl};
use cov_expr::{List, Name, NoMemory};
use std::alloc::Global;

/// The verdict on a program, and on it after each of some threads is put in the place of that of its name, each with how many statements
/// were judged for it. The judge is asked of the threads that are open alone.
pub fn swap_lines<J: Judge>(
    alloc: Global,
    p: Program,
    replacements: List<ThreadDecl>,
    judge: &mut J,
) -> Result<List<Line>, NoMemory>
    requires formed { IsWellFormed (view.program p) }
    requires fit { All (IsReplacement (view.program p)) (map view.thread replacements) }
    ensures lines { IfOk result (λ lines. lines ≡ spec.swap_lines (J.judging judge.old) (view.program p) (map view.thread replacements)) }
    ensures passes { Passes (J.judging judge.old) (J.judging judge.new) }
    ensures count { IfOk result (λ lines. (J.judging judge.new).judged ≡ (J.judging judge.old).judged + all_checked lines) }
    ensures least { (J.judging judge.old).judged ≤ (J.judging judge.new).judged }
    ensures most { OnErr result ((J.judging judge.new).judged
        ≤ (J.judging judge.old).judged + all_checked (spec.swap_lines (J.judging judge.old) (view.program p) (map view.thread replacements))) }
{
    let mut lines = List::new(alloc);
    let before = judge.judged();
    let mut swapper = Swapper::start(alloc, p, judge)?;
    lines.push(line(&swapper, before, judge))?;
    let mut rest = replacements;
    for i in 0..rest.len() {
        let _ = i;
        let d = rest.remove(0);
        let line = put_in(alloc, &mut swapper, d, judge)?;
        lines.push(line)?;
    }
    Ok(lines)
}

/// Puts a thread in the place of that of its name, and tells what is to be told then.
fn put_in<J: Judge>(
    alloc: Global,
    swapper: &mut Swapper,
    d: ThreadDecl,
    judge: &mut J,
) -> Result<Line, NoMemory>
    requires named { IsNamed (view.program (swapper.old).program) (view.thread d) }
    requires formed { IsWellFormed (put_in (view.program (swapper.old).program) (view.thread d)) }
    requires fits { Fits swapper.old (J.judging judge.old) }
    ensures program { IfOk result (λ _. view.program (swapper.new).program ≡ put_in (view.program (swapper.old).program) (view.thread d)) }
    ensures answers { IfOk result (λ _. (swapper.new).answers
        ≡ settled (J.judging judge.old) (put_in (view.program (swapper.old).program) (view.thread d))
        (opened (view.program (swapper.old).program) (swapper.old).answers (view.thread d))) }
    ensures line { IfOk result (λ line. line ≡ line_on (J.judging judge.old) (put_in (view.program (swapper.old).program) (view.thread d))
        (opened (view.program (swapper.old).program) (swapper.old).answers (view.thread d)) (J.judging judge.old).judged) }
    ensures fits { Fits swapper.new (J.judging judge.new) }
    ensures passes { Passes (J.judging judge.old) (J.judging judge.new) }
    ensures asks { Asks (J.judging judge.old).judged (J.judging judge.new).judged
        (due (put_in (view.program (swapper.old).program) (view.thread d))
        (opened (view.program (swapper.old).program) (swapper.old).answers (view.thread d))) result }
{
    let t = thread_number(swapper.program(), d.name);
    let before = judge.judged();
    swapper.replace(alloc, t, d, judge)?;
    Ok(line(swapper, before, judge))
}

/// What is told of a program, where a judge had this count before.
fn line<J: Judge>(swapper: &Swapper, before: u64, judge: &J) -> Line
    requires { before ≤ (J.judging judge.now).judged }
    ensures verdict { result.verdict ≡ (swapper.now).verdict }
    ensures checked { result.checked ≡ (J.judging judge.now).judged - before }
{
    Line {
        verdict: *swapper.verdict(),
        checked: judge.judged() - before,
    }
}

/// The number of the thread with a name.
fn thread_number(p: &Program, name: Name) -> u32
    requires { IsWellFormed (view.program p.now) }
    ensures { result ≡ thread_named (view.program p.now) name }
{
    for t in 0..p.threads.len() {
        if name == p.threads.as_slice()[t].name {
            return t as u32;
        }
    }
    p.threads.len() as u32
}
