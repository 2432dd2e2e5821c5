//! What a trial runs on: two memories, and a schedule for both.

ghost use Rattle.std.specs.Prelude.{◌≡◌, ◌<◌, ◌≤◌, length, get_or, if◌then◌else◌, IfOk};
ghost use Rattle.cov_expr.specs.declared.limits.TheConstants.{MOST_TRIALS};
ghost use Rattle.cov_expr.specs.Words.{HasVarsBelow, IsMemory, IsSchedule};
ghost use Rattle.cov_ast.specs.Plain.{class_term, plain};
ghost use Rattle.cov_ast.specs.View as view;
ghost use Rattle.cov_ast.specs.WellFormed.{IsWellFormed};
ghost use Rattle.flow_model.specs.FirstDifference.{is_true_in};
ghost use Rattle.watch.specs.TrialWords.{IsTrialWord, raw_word};
ghost use Rattle.refute.specs.Trials as spec;

use cov_ast::{Class, Program};
use cov_expr::{List, NoMemory, eval};
use std::alloc::Global;
use watch::{Maker, drawn};

/// How many entries the schedule of a trial has, where there are threads.
const TRIAL_STEPS: u32 = 200;

/// What a trial runs on.
#[derive(Drop)]
pub struct Trial {
    /// The first memory: a word for each variable, 0 to 3.
    pub left: List<u32>,
    /// The second memory. What is low in the first has the same word in both.
    pub right: List<u32>,
    /// The schedule of both runs: 200 turns, or none where there is no thread.
    pub entries: List<u32>,
}

impl Trial {
    ghost use Rattle.refute.specs.Trials.{IsTrial};

    /// What the trial with a number runs on, be it fit or not. It takes the memory of the three lists, and evaluates each class once.
    pub fn new(alloc: Global, p: &Program, i: u32, m: &Maker) -> Result<Trial, NoMemory>
        requires formed { IsWellFormed (view.program p.now) }
        requires first { 1 ≤ i }
        requires last { i ≤ MOST_TRIALS }
        ensures made { IfOk result (λ made. IsTrial (plain (view.program p.now)) i made) }
        ensures left { IfOk result (λ made. IsMemory (length p.now.vars) made.left) }
        ensures right { IfOk result (λ made. IsMemory (length p.now.vars) made.right) }
        ensures threads { IfOk result (λ made. IsSchedule (length p.now.threads) made.entries) }
        ensures few { IfOk result (λ made. length made.entries ≤ 200) }
    {
        let left = first_memory(alloc, p, i, m)?;
        let right = second_memory(alloc, p, i, left.as_slice(), m)?;
        let entries = schedule(alloc, p, i)?;
        Ok(Trial {
            left,
            right,
            entries,
        })
    }
}

/// The first memory of a trial.
pub fn first_memory(alloc: Global, p: &Program, i: u32, m: &Maker) -> Result<List<u32>, NoMemory>
    requires formed { IsWellFormed (view.program p.now) }
    requires first { 1 ≤ i }
    requires last { i ≤ MOST_TRIALS }
    ensures words { IfOk result (λ made. made ≡ spec.first_memory (plain (view.program p.now)) i) }
    ensures memory { IfOk result (λ made. IsMemory (length p.now.vars) made) }
{
    let mut made = List::with_capacity(alloc, p.vars.len())?;
    for x in 0..p.vars.len() {
        made.push(m.word(i, 1, x as u32))?;
    }
    Ok(made)
}

/// The second memory of a trial: what is low in the first is the same in it.
pub fn second_memory(
    alloc: Global,
    p: &Program,
    i: u32,
    left: &[u32],
    m: &Maker,
) -> Result<List<u32>, NoMemory>
    requires formed { IsWellFormed (view.program p.now) }
    requires first { 1 ≤ i }
    requires last { i ≤ MOST_TRIALS }
    requires left { left.now ≡ spec.first_memory (plain (view.program p.now)) i }
    ensures words { IfOk result (λ made. made ≡ spec.second_memory (plain (view.program p.now)) i) }
    ensures memory { IfOk result (λ made. IsMemory (length p.now.vars) made) }
{
    let mut made = List::with_capacity(alloc, left.len())?;
    for (x, var) in p.vars.as_slice().iter().enumerate() {
        made.push(second_word(&var.class, x as u32, i, left, m))?;
    }
    Ok(made)
}

/// The schedule of a trial.
pub fn schedule(alloc: Global, p: &Program, i: u32) -> Result<List<u32>, NoMemory>
    requires formed { IsWellFormed (view.program p.now) }
    requires last { i ≤ MOST_TRIALS }
    ensures entries { IfOk result (λ made. made ≡ spec.schedule (plain (view.program p.now)) i) }
    ensures threads { IfOk result (λ made. IsSchedule (length p.now.threads) made) }
    ensures few { IfOk result (λ made. length made ≤ 200) }
{
    let threads = p.threads.len() as u32;
    if threads == 0 {
        return Ok(List::new(alloc));
    }
    let mut made = List::with_capacity(alloc, TRIAL_STEPS as usize)?;
    for j in 0..TRIAL_STEPS {
        made.push(drawn(1_000_000 + 256 * i + j) % threads)?;
    }
    Ok(made)
}

/// The word of a variable of a class in the second memory of a trial.
fn second_word(class: &Class, x: u32, i: u32, left: &[u32], m: &Maker) -> u32
    requires class { HasVarsBelow (class_term (view.class class.now)) (length left.now) }
    requires inside { x < length left.now }
    requires word { IsTrialWord i 2 x }
    ensures { result ≡ (if is_true_in (class_term (view.class class.now)) left.now then get_or left.now x 0 else raw_word i 2 x) }
{
    if is_low(class, left) {
        left[x as usize]
    } else {
        m.word(i, 2, x)
    }
}

/// Whether a class holds in a memory.
fn is_low(class: &Class, m: &[u32]) -> bool
    requires { HasVarsBelow (class_term (view.class class.now)) (length m.now) }
    ensures { result ≡ is_true_in (class_term (view.class class.now)) m.now }
{
    match class {
        Class::Low => true,
        Class::High => false,
        Class::When(e) => eval(e, m) != 0,
    }
}
