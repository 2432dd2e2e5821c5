//! A thread that runs: its frames, its pending word, and its next step.

ghost use Rattle.std.specs.Prelude.{◌≡◌, ◌+◌, ◌<◌, ◌≤◌, ◌∷◌, None, Some, max, option_map, map, length, IfOk, IfSome, vec_capacity};
ghost use Rattle.cov_expr.specs.View.{term};
ghost use Rattle.cov_expr.specs.Words.{HasVarsBelow};
ghost use Rattle.cov_ast.specs.Syntax.{more};
ghost use Rattle.cov_ast.specs.View as view;
ghost use Rattle.cov_ast.specs.WellFormed.{block_size, most_size};
ghost use Rattle.flow_model.specs.FirstDifference.{holders_of};
ghost use Rattle.flow_model.specs.Source.{holder, is_held_by};
ghost use Rattle.flow_model.specs.declared.machine.Stepped.TheVariants as stepped;
ghost use Rattle.source_machine.specs.Inside.Entries as spec;
ghost use Rattle.source_machine.specs.Inside.Entries.{outer, AreFrames};
ghost use Rattle.source_machine.specs.Inside.Firsts.{alike_words, first_change, first_stm, same_word, stand_alike, stm_change};
ghost use Rattle.source_machine.specs.Inside.Stacks.{frames_of, rooms, stack_of, turned_from, turned_to, Starts};
ghost use Rattle.source_machine.specs.Inside.Turns as turns;

use crate::change::Change;
use crate::height::height;
use crate::shared::Shared;
use cov_ast::{Stmt, StmtKind};
use cov_expr::{Expr, NoMemory, eval};
use flow_model::Stepped;
use std::alloc::Global;

/// What remains of a thread: frames, and the word that the expression of its first statement gave, where it was evaluated.
///
/// A frame is what is left of a block, as a place in the program. The last frame is the innermost. Each begins with a
/// statement that takes a step, so none is empty. A frame below the body of a loop begins with that loop, which is thus
/// tried again where the body ends.
pub struct Thread<'p> {
    frames: Vec<&'p [Stmt]>,
    word: Option<u32>,
}

impl Drop for Thread<'_> {
    fn drop(self) {
        let Thread { frames, word: _ } = self;
        drop(frames);
    }
}

impl<'p> Thread<'p> {
    /// A thread in front of its body, with room for all frames that it ever has.
    pub fn start(alloc: Global, body: &'p [Stmt]) -> Result<Thread<'p>, NoMemory>
        requires { block_size (view.block body.now) < most_size }
        ensures { IfOk result (λ thread. Starts (view.block body.now) thread) }
    {
        let mut frames = Vec::with_capacity(alloc, height(body))?;
        enter(&mut frames, body);
        Ok(Thread { frames, word: None })
    }

    /// The statement at which the thread stands, with those behind it in its block, if anything remains of the thread.
    pub fn first(&self) -> Option<(&'p Stmt, &'p [Stmt])>
        ensures stm { option_map (λ q. (q.0.now.at, view.kind q.0.now.kind)) result ≡ first_stm (frames_of self.now) }
        ensures frames { IfSome result (λ q. frames_of self.now
            ≡ more q.0.now.at (view.kind q.0.now.kind) (map view.proof q.0.now.proofs) (view.block q.1.now) ∷ outer (frames_of self.now)) }
    {
        match self.frames.as_slice().split_last() {
            Some((block, _)) => block.split_first(),
            None => None,
        }
    }

    /// Whether another thread in the same body stands where this one does, but for a word that is to be stored or put out.
    pub fn stands_like(&self, other: &Thread<'p>) -> bool
        ensures { result ≡ stand_alike (first_stm (frames_of self.now)) (self.now).word (first_stm (frames_of other.now)) (other.now).word }
    {
        match (self.first(), other.first()) {
            (None, None) => true,
            (Some((a, _)), Some((b, _))) => {
                a.at == b.at && alike_words(&a.kind, self.word, other.word)
            }
            _ => false,
        }
    }

    /// What the next step of this thread changes beside what remains of it, where it doesn't stay.
    pub fn change(&self) -> Change
        ensures { result ≡ first_change (first_stm (frames_of self.now)) (self.now).word }
    {
        match self.first() {
            Some((stmt, _)) => change_at(&stmt.kind, self.word),
            None => Change::Nothing,
        }
    }

    /// One step of this thread, whose number is `t`.
    pub fn turn(&mut self, shared: &mut Shared, t: u32) -> Stepped
        requires frames { AreFrames (length shared.old.memory) (length shared.old.holders) (vec_capacity self.old.frames) (frames_of self.old) }
        requires outputs { length shared.old.said.items < vec_capacity shared.old.said }
        ensures turned { turned_to shared.new self.new result ≡ turned_from t shared.old self.old }
        ensures room { rooms shared.new self.new ≡ rooms shared.old self.old }
    {
        let Some((stmt, rest)) = self.first() else {
            return Stepped::Idle;
        };
        match &stmt.kind {
            StmtKind::Skip | StmtKind::Note(_) => self.pass(rest),
            StmtKind::Assign(x, e, _, _) => self.assign(shared, *x, e, rest),
            StmtKind::Lock(l) => self.lock(shared, t, *l, rest),
            StmtKind::Unlock(l) => self.unlock(shared, t, *l, rest),
            StmtKind::If(e, a, b, _) => self.branch(shared, e, a.as_slice(), b.as_slice(), rest),
            StmtKind::While(e, _, body) => self.repeat(shared, e, body.as_slice(), rest),
            StmtKind::Output(e) => self.put_out(shared, e, rest),
        }
    }

    /// At an assignment: evaluates, or stores.
    fn assign(&mut self, shared: &mut Shared, x: u32, e: &Expr, rest: &'p [Stmt]) -> Stepped
        requires variable { x < length shared.old.memory }
        requires reads { HasVarsBelow (term e.now) (length shared.old.memory) }
        requires room { length (outer (frames_of self.old)) + spec.height (view.block rest.now) ≤ vec_capacity self.old.frames }
        ensures turned { turned_to shared.new self.new result
            ≡ turns.assigned shared.old.memory (holders_of shared.old.holders) shared.old.said.items (frames_of self.old) (view.block rest.now) x (term e.now) self.old.word }
        ensures room { rooms shared.new self.new ≡ rooms shared.old self.old }
    {
        let Some(word) = self.word else {
            return self.wait(eval(e, shared.memory.as_slice()));
        };
        shared.memory.set(x as usize, word);
        self.pass(rest)
    }

    /// At a lock: takes it where it is free, and else stays.
    fn lock(&mut self, shared: &mut Shared, t: u32, l: u32, rest: &'p [Stmt]) -> Stepped
        requires lock { l < length shared.old.holders }
        requires room { length (outer (frames_of self.old)) + spec.height (view.block rest.now) ≤ vec_capacity self.old.frames }
        ensures turned { turned_to shared.new self.new result
            ≡ turns.locked shared.old.memory (holders_of shared.old.holders) shared.old.said.items (frames_of self.old) (view.block rest.now) t self.old.word l
            (holder (holders_of shared.old.holders) l) }
        ensures room { rooms shared.new self.new ≡ rooms shared.old self.old }
    {
        if shared.is_held(l) {
            return Stepped::Stayed;
        }
        shared.set_holder(l, Some(t));
        self.pass(rest)
    }

    /// At an unlock: frees the lock where the thread holds it, and else stays.
    fn unlock(&mut self, shared: &mut Shared, t: u32, l: u32, rest: &'p [Stmt]) -> Stepped
        requires lock { l < length shared.old.holders }
        requires room { length (outer (frames_of self.old)) + spec.height (view.block rest.now) ≤ vec_capacity self.old.frames }
        ensures turned { turned_to shared.new self.new result
            ≡ turns.unlocked shared.old.memory (holders_of shared.old.holders) shared.old.said.items (frames_of self.old) (view.block rest.now) self.old.word l
            (is_held_by (holder (holders_of shared.old.holders) l) t) }
        ensures room { rooms shared.new self.new ≡ rooms shared.old self.old }
    {
        if !shared.is_held_by(l, t) {
            return Stepped::Stayed;
        }
        shared.set_holder(l, None);
        self.pass(rest)
    }

    /// At a branch: evaluates the guard, or enters a block.
    fn branch(
        &mut self,
        shared: &Shared,
        e: &Expr,
        a: &'p [Stmt],
        b: &'p [Stmt],
        rest: &'p [Stmt],
    ) -> Stepped
        requires reads { HasVarsBelow (term e.now) (length shared.now.memory) }
        requires room { length (outer (frames_of self.old)) + max (1 + max (spec.height (view.block a.now)) (spec.height (view.block b.now))) (spec.height (view.block rest.now))
            ≤ vec_capacity self.old.frames }
        ensures turned { turned_to shared.now self.new result
            ≡ turns.branched shared.now.memory (holders_of shared.now.holders) shared.now.said.items (frames_of self.old) (view.block rest.now)
            (term e.now) (view.block a.now) (view.block b.now) self.old.word }
        ensures room { vec_capacity self.new.frames ≡ vec_capacity self.old.frames }
    {
        let Some(word) = self.word else {
            return self.wait(eval(e, shared.memory.as_slice()));
        };
        self.pass(rest);
        self.go_into(if word != 0 { a } else { b })
    }

    /// At a loop: evaluates the guard, or enters the body in front of the loop, or goes past it.
    fn repeat(&mut self, shared: &Shared, e: &Expr, body: &'p [Stmt], rest: &'p [Stmt]) -> Stepped
        requires reads { HasVarsBelow (term e.now) (length shared.now.memory) }
        requires room { length (outer (frames_of self.old)) + max (1 + spec.height (view.block body.now)) (spec.height (view.block rest.now)) ≤ vec_capacity self.old.frames }
        ensures turned { turned_to shared.now self.new result
            ≡ turns.looped shared.now.memory (holders_of shared.now.holders) shared.now.said.items (frames_of self.old) (view.block rest.now)
            (term e.now) (view.block body.now) self.old.word }
        ensures room { vec_capacity self.new.frames ≡ vec_capacity self.old.frames }
    {
        let Some(word) = self.word else {
            return self.wait(eval(e, shared.memory.as_slice()));
        };
        if word != 0 {
            self.go_into(body)
        } else {
            self.pass(rest)
        }
    }

    /// At an output: evaluates, or puts out.
    fn put_out(&mut self, shared: &mut Shared, e: &Expr, rest: &'p [Stmt]) -> Stepped
        requires reads { HasVarsBelow (term e.now) (length shared.old.memory) }
        requires outputs { length shared.old.said.items < vec_capacity shared.old.said }
        requires room { length (outer (frames_of self.old)) + spec.height (view.block rest.now) ≤ vec_capacity self.old.frames }
        ensures turned { turned_to shared.new self.new result
            ≡ turns.put_out shared.old.memory (holders_of shared.old.holders) shared.old.said.items (frames_of self.old) (view.block rest.now) (term e.now) self.old.word }
        ensures room { rooms shared.new self.new ≡ rooms shared.old self.old }
    {
        let Some(word) = self.word else {
            return self.wait(eval(e, shared.memory.as_slice()));
        };
        shared.said.push_reserved(word);
        self.pass(rest)
    }

    /// Keeps the word that the expression of the first statement gave.
    fn wait(&mut self, word: u32) -> Stepped
        ensures moved { result ≡ stepped.Moved }
        ensures thread { self.new ≡ record { frames = self.old.frames; word = Some word } }
    {
        self.word = Some(word);
        Stepped::Moved
    }

    /// Goes past the first statement, behind which this is left of its block.
    fn pass(&mut self, rest: &'p [Stmt]) -> Stepped
        requires { length (outer (frames_of self.old)) + spec.height (view.block rest.now) ≤ vec_capacity self.old.frames }
        ensures moved { result ≡ stepped.Moved }
        ensures frames { frames_of self.new ≡ turns.past (view.block rest.now) (frames_of self.old) }
        ensures word { self.new.word ≡ None }
        ensures room { vec_capacity self.new.frames ≡ vec_capacity self.old.frames }
    {
        self.frames.pop();
        self.go_into(rest)
    }

    /// Goes into a block, in front of what remains.
    fn go_into(&mut self, block: &'p [Stmt]) -> Stepped
        requires { length (frames_of self.old) + spec.height (view.block block.now) ≤ vec_capacity self.old.frames }
        ensures moved { result ≡ stepped.Moved }
        ensures frames { frames_of self.new ≡ spec.entered (view.block block.now) (frames_of self.old) }
        ensures word { self.new.word ≡ None }
        ensures room { vec_capacity self.new.frames ≡ vec_capacity self.old.frames }
    {
        enter(&mut self.frames, block);
        self.word = None;
        Stepped::Moved
    }
}

/// Puts what runs of a block on top of other frames, if there is anything.
fn enter<'p>(frames: &mut Vec<&'p [Stmt]>, block: &'p [Stmt])
    requires { length frames.old.items + spec.height (view.block block.now) ≤ vec_capacity frames.old }
    ensures stack { stack_of frames.new.items ≡ spec.entered (view.block block.now) (stack_of frames.old.items) }
    ensures capacity { vec_capacity frames.new ≡ vec_capacity frames.old }
{
    let block = without_notes(block);
    if !block.is_empty() {
        frames.push_reserved(block);
    }
}

/// A block from its first statement on that takes a step.
fn without_notes(block: &[Stmt]) -> &[Stmt]
    ensures { view.block result.now ≡ spec.without_notes (view.block block.now) }
{
    for (i, stmt) in block.iter().enumerate() {
        if !is_note(&stmt.kind) {
            return &block[i..];
        }
    }
    &block[block.len()..]
}

fn is_note(kind: &StmtKind) -> bool
    ensures { result ≡ spec.is_note (view.kind kind.now) }
{
    match kind {
        StmtKind::Note(_) => true,
        StmtKind::Skip | StmtKind::Assign(_, _, _, _) | StmtKind::Output(_) => false,
        StmtKind::Lock(_) | StmtKind::Unlock(_) => false,
        StmtKind::If(_, _, _, _) | StmtKind::While(_, _, _) => false,
    }
}

/// What a step at a statement changes, whose expression was evaluated where there is a word.
fn change_at(kind: &StmtKind, word: Option<u32>) -> Change
    ensures { result ≡ stm_change (view.kind kind.now) word }
{
    match (kind, word) {
        (StmtKind::Lock(l) | StmtKind::Unlock(l), _) => Change::Holder(*l),
        (StmtKind::Assign(x, _, _, _), Some(_)) => Change::Word(*x),
        (StmtKind::Output(_), Some(_)) => Change::Outputs,
        (StmtKind::Assign(_, _, _, _) | StmtKind::Output(_), None) => Change::Nothing,
        (StmtKind::Skip | StmtKind::Note(_), _) => Change::Nothing,
        (StmtKind::If(_, _, _, _) | StmtKind::While(_, _, _), _) => Change::Nothing,
    }
}

/// Whether the words that the expression of a statement gave are alike: only those that are tested count.
fn alike_words(kind: &StmtKind, a: Option<u32>, b: Option<u32>) -> bool
    ensures { result ≡ alike_words (view.kind kind.now) a b }
{
    match kind {
        StmtKind::Assign(_, _, _, _) | StmtKind::Output(_) => a.is_some() == b.is_some(),
        StmtKind::If(_, _, _, _) | StmtKind::While(_, _, _) => same_word(a, b),
        StmtKind::Skip | StmtKind::Lock(_) | StmtKind::Unlock(_) | StmtKind::Note(_) => true,
    }
}

fn same_word(a: Option<u32>, b: Option<u32>) -> bool
    ensures { result ≡ same_word a b }
{
    match (a, b) {
        (None, None) => true,
        (Some(v), Some(w)) => v == w,
        _ => false,
    }
}
