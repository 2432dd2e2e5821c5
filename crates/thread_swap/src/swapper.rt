//! A program of which threads are replaced, with its verdict.

ghost use Rattle.std.specs.Prelude.{◌≡◌, ◌<◌, None, Some, set, slice_get, slice_set, length, IfOk, OnErr, OnOk};
ghost use Rattle.cov_ast.specs.Obligations.{first_false};
ghost use Rattle.cov_ast.specs.View as view;
ghost use Rattle.cov_ast.specs.WellFormed.{IsWellFormed, places};
ghost use Rattle.mode_compat.specs.Declared.{declaration_obligations};
ghost use Rattle.thread_swap.specs.Judges.{Judging, Passes};
ghost use Rattle.thread_swap.specs.Swaps.{Asks, Fits, RisesByAtMost, all_open, due, settled, swapped, verdict_on};

use crate::judge::{Judge, Said};
use crate::judged::Judged;
use crate::settle::{all_open, settle};
use cov_ast::{Program, ThreadDecl};
use cov_expr::{List, NoMemory};
use std::alloc::Global;
use std::marker::Model;
use std::mem::replace;

/// A program with its verdict, and what was said of each of its threads. A thread is *open* from when it is given until it is judged.
/// Threads aren't judged while an obligation of the declarations (W3 to W9) doesn't hold, so that several may be open then.
///
/// A swapper *fits* a judge where each answer that it keeps is what that judge says of the thread. Its verdict is that from scratch, by
/// any judge that it fits.
#[derive(Drop)]
pub struct Swapper {
    program: Program,
    answers: List<Option<Said>>,
    verdict: Judged,
}

impl Model for Swapper {
    ghost use Rattle.thread_swap.specs.Swaps.{Swapping, IsStanding};

    ghost Value = { Swapping };

    ghost use Rattle.std.specs.Coded.{codes};
    ghost use Rattle.cov_expr.specs.contracts.expr.Expr as e;
    ghost use Rattle.cov_ast.specs.contracts.stmt.Stmt as stmt;
    ghost use Rattle.cov_ast.specs.contracts.stmt.StmtKind as kind;
    ghost use Rattle.cov_ast.specs.contracts.cert.Cert as cert;
    ghost use Rattle.cov_ast.specs.View as tree;

    ghost coded = { Prim.hlevel (codes, e.the_row.coded, stmt.the_row.coded, kind.the_row.coded, cert.the_row.coded) };

    ghost view = { λ s. record { program = s.program; answers = s.answers; verdict = s.verdict } };

    ghost invariant = { λ s. IsStanding (tree.program s.program) s.answers s.verdict };
}

impl Swapper {
    /// A program at the start: each of its threads is judged, where its declarations keep the rules. Where memory runs out the program is
    /// dropped.
    pub fn start<J: Judge>(alloc: Global, p: Program, judge: &mut J) -> Result<Swapper, NoMemory>
        requires { IsWellFormed (view.program p) }
        ensures program { IfOk result (λ s. s.program ≡ p) }
        ensures answers { IfOk result (λ s. s.answers ≡ settled (J.judging judge.old) (view.program p) (all_open (view.program p))) }
        ensures verdict { IfOk result (λ s. s.verdict ≡ verdict_on (J.judging judge.old) (view.program p)) }
        ensures fits { IfOk result (λ s. Fits s (J.judging judge.new)) }
        ensures passes { Passes (J.judging judge.old) (J.judging judge.new) }
        ensures asks { Asks (J.judging judge.old).judged (J.judging judge.new).judged
            (due (view.program p) (all_open (view.program p))) result }
    {
        let open = all_open(alloc, &p)?;
        let settled = settle(alloc, &p, open.as_slice(), judge)?;
        Ok(Swapper {
            program: p,
            answers: settled.answers,
            verdict: settled.verdict,
        })
    }

    /// Puts a declaration in the place of a thread, by the number of the thread. Where the declarations keep the rules then, each thread
    /// that is open is judged once, that one among them; so where they kept them before, that one alone. Where memory runs out the
    /// declaration is dropped and nothing has changed, but that the judge may have been asked.
    pub fn replace<J: Judge>(
        &mut self,
        alloc: Global,
        t: u32,
        d: ThreadDecl,
        judge: &mut J,
    ) -> Result<(), NoMemory>
        requires thread { t < length (self.old).program.threads }
        requires formed { IsWellFormed (swapped (view.program (self.old).program) t (view.thread d)) }
        requires fits { Fits self.old (J.judging judge.old) }
        ensures program { OnOk result (view.program (self.new).program ≡ swapped (view.program (self.old).program) t (view.thread d)) }
        ensures answers { OnOk result ((self.new).answers
            ≡ settled (J.judging judge.old) (swapped (view.program (self.old).program) t (view.thread d)) (set (self.old).answers t None)) }
        ensures verdict { OnOk result ((self.new).verdict
            ≡ verdict_on (J.judging judge.old) (swapped (view.program (self.old).program) t (view.thread d))) }
        ensures unchanged { OnErr result (self.new ≡ self.old) }
        ensures fits { Fits self.new (J.judging judge.new) }
        ensures passes { Passes (J.judging judge.old) (J.judging judge.new) }
        ensures asks { Asks (J.judging judge.old).judged (J.judging judge.new).judged
            (due (swapped (view.program (self.old).program) t (view.thread d)) (set (self.old).answers t None)) result }
        ensures alone { first_false (declaration_obligations (view.program (self.old).program)) ≡ None
            → RisesByAtMost (J.judging judge.old).judged (J.judging judge.new).judged (length (places (view.block d.body))) }
    {
        let thread = put(&mut self.program.threads, t as usize, d);
        let said = self.answers.as_slice()[t as usize];
        self.answers.set(t as usize, None);
        match settle(alloc, &self.program, self.answers.as_slice(), judge) {
            Ok(settled) => {
                self.answers = settled.answers;
                self.verdict = settled.verdict;
                Ok(())
            }
            Err(_) => {
                self.program.threads.set(t as usize, thread);
                self.answers.set(t as usize, said);
                Err(NoMemory)
            }
        }
    }

    /// The verdict on the program: that from scratch, by any judge that it fits.
    pub fn verdict(&self) -> &Judged
        ensures same { result.now ≡ (self.now).verdict }
        ensures scratch { (j : Judging) → Fits self.now j → result.now ≡ verdict_on j (view.program (self.now).program) }
    {
        &self.verdict
    }

    /// The program.
    pub fn program(&self) -> &Program
        ensures same { result.now ≡ (self.now).program }
        ensures formed { IsWellFormed (view.program result.now) }
    {
        &self.program
    }
}

/// Puts a declaration in the place of another, and gives that one back.
fn put(threads: &mut List<ThreadDecl>, t: usize, d: ThreadDecl) -> ThreadDecl
    requires { t < length threads.old }
    ensures put { threads.new ≡ slice_set threads.old t d }
    ensures old { slice_get threads.old t ≡ Some result }
{
    replace(&mut threads.as_mut_slice()[t], d)
}
