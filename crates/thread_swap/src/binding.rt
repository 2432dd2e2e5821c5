//! The threads of a text, each for the place of the thread of a program that has its name.

ghost use Rattle.std.specs.Prelude.{◌≡◌, ◌==◌, ◌&&◌, map, option_map, All, IfOk, MatchResult, None};
ghost use Rattle.cov_ast.specs.Ready.{IsReady};
ghost use Rattle.cov_ast.specs.View as view;
ghost use Rattle.cov_ast.specs.WellFormed.{IsWellFormed};
ghost use Rattle.thread_swap.specs.Binding as spec;
ghost use Rattle.thread_swap.specs.Binding.{IsFault, bound, first_fault};
ghost use Rattle.thread_swap.specs.Replacements.{IsReplacement};

use crate::bound_threads::bound_threads;
use crate::names::has_name;
use crate::swap_fault::SwapFault;
use cov_ast::{Parsed, Program, ThreadDecl};
use cov_expr::List;
use std::alloc::Global;
use std::mem::replace;

/// The threads of a text, in its order, by the variables and locks of a program: each may stand in the place of the thread of the
/// program that has its name. Names of threads may repeat. Else the first fault of the text, kind by kind.
pub fn bind(alloc: Global, p: &Program, e: Parsed) -> Result<List<ThreadDecl>, SwapFault>
    requires formed { IsWellFormed (view.program p.now) }
    requires ready { IsReady (view.parsed e) }
    ensures binds { MatchResult result
        (λ threads. (first_fault (view.program p.now) (view.parsed e) ≡ None) × (map view.thread threads ≡ bound (view.program p.now) (view.parsed e)))
        (IsFault (first_fault (view.program p.now) (view.parsed e))) }
    ensures fit { IfOk result (λ threads. All (IsReplacement (view.program p.now)) (map view.thread threads)) }
{
    if may_not_put_out(p, &e) {
        return Err(SwapFault::Version);
    }
    if let Some(at) = declared_at(&e) {
        return Err(SwapFault::Declares(at));
    }
    if let Some(at) = no_thread_at(p, e.threads.as_slice()) {
        return Err(SwapFault::NoThread(at));
    }
    let mut rest = e;
    let threads = replace(&mut rest.threads, List::new(alloc));
    bound_threads(alloc, p, &rest, threads)
}

/// Whether a text is of version 2 and a program of version 1.
fn may_not_put_out(p: &Program, e: &Parsed) -> bool
    ensures { result ≡ (e.now.version == 2 && p.now.version == 1) }
{
    e.version == 2 && p.version == 1
}

/// Where the first variable or lock is declared.
fn declared_at(e: &Parsed) -> Option<u32>
    ensures { option_map SwapFault.Declares result ≡ spec.declares_fault (map view.var e.now.vars) (map view.lock e.now.locks) }
{
    match e.vars.as_slice().first() {
        Some(var) => Some(var.at),
        None => match e.locks.as_slice().first() {
            Some(lock) => Some(lock.at),
            None => None,
        },
    }
}

/// Where the first thread is declared whose name no thread of a program has.
fn no_thread_at(p: &Program, threads: &[ThreadDecl]) -> Option<u32>
    ensures { option_map SwapFault.NoThread result ≡ spec.thread_fault (view.program p.now) (map view.thread threads.now) }
{
    for thread in threads {
        if !has_name(p.threads.as_slice(), thread.name) {
            return Some(thread.at);
        }
    }
    None
}
