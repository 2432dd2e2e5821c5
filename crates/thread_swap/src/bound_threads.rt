//! Threads of a text by the ids of a program.
//!
//! The resolver of names gives them, of a text that has the variables and locks of the program. It wants the names of threads to differ:
//! where some repeat, it gets one thread at a time.

ghost use Rattle.std.specs.Prelude.{◌≡◌, ◌∷◌, [], map, IfOk, IsTrue, MatchResult, None};
ghost use Rattle.std.specs.Str.{bytes_eq};
ghost use Rattle.cov_ast.specs.Ready.{IsReady};
ghost use Rattle.cov_ast.specs.View as view;
ghost use Rattle.cov_ast.specs.WellFormed.{IsWellFormed, are_distinct, names_of};
ghost use Rattle.thread_swap.specs.Binding.{IsFault, thread_fault, unknown_fault, version_fault};
ghost use Rattle.thread_swap.specs.Inside.Over.{AreBound, bare_lock, bare_var, over, threads_in};
ghost use Rattle.thread_swap.specs.Replacements.{IsNamed};

use crate::names::names_differ;
use crate::swap_fault::SwapFault;
use cov_ast::{CheckFault, Class, LockDecl, Parsed, Program, ThreadDecl, VarDecl, copy_uses};
use cov_expr::{List, NoMemory};
use policy_class::resolve;
use std::alloc::Global;
use std::mem::replace;

/// Threads, in their order, by the ids of a program, or else where the names of their text are first used as what the program doesn't
/// have. Names of threads may repeat.
pub fn bound_threads(
    alloc: Global,
    p: &Program,
    names: &Parsed,
    threads: List<ThreadDecl>,
) -> Result<List<ThreadDecl>, SwapFault>
    requires formed { IsWellFormed (view.program p.now) }
    requires ready { IsReady (threads_in (view.parsed names.now) (map view.thread threads)) }
    requires version { version_fault (view.program p.now) (view.parsed names.now) ≡ None }
    requires named { thread_fault (view.program p.now) (map view.thread threads) ≡ None }
    ensures { MatchResult result
        (λ made. (unknown_fault (view.program p.now) (view.parsed names.now) ≡ None)
        × AreBound (view.program p.now) (view.parsed names.now) (map view.thread threads) (map view.thread made))
        (IsFault (unknown_fault (view.program p.now) (view.parsed names.now))) }
{
    if names_differ(threads.as_slice()) {
        return bound_apart(alloc, p, names, threads);
    }
    match bound_apart(alloc, p, names, List::new(alloc)) {
        Ok(_) => each_bound(alloc, p, names, threads),
        Err(fault) => Err(fault),
    }
}

/// One thread after another.
fn each_bound(
    alloc: Global,
    p: &Program,
    names: &Parsed,
    threads: List<ThreadDecl>,
) -> Result<List<ThreadDecl>, SwapFault>
    requires formed { IsWellFormed (view.program p.now) }
    requires ready { IsReady (threads_in (view.parsed names.now) (map view.thread threads)) }
    requires version { version_fault (view.program p.now) (view.parsed names.now) ≡ None }
    requires named { thread_fault (view.program p.now) (map view.thread threads) ≡ None }
    ensures { MatchResult result
        (λ made. AreBound (view.program p.now) (view.parsed names.now) (map view.thread threads) (map view.thread made))
        (IsFault (unknown_fault (view.program p.now) (view.parsed names.now))) }
{
    let mut rest = threads;
    let mut made = List::new(alloc);
    for t in 0..rest.len() {
        let _ = t;
        let thread = rest.remove(0);
        match bound_thread(alloc, p, names, thread) {
            Ok(bound) => made.push(bound)?,
            Err(fault) => return Err(fault),
        }
    }
    Ok(made)
}

/// One thread.
fn bound_thread(
    alloc: Global,
    p: &Program,
    names: &Parsed,
    thread: ThreadDecl,
) -> Result<ThreadDecl, SwapFault>
    requires formed { IsWellFormed (view.program p.now) }
    requires ready { IsReady (threads_in (view.parsed names.now) (view.thread thread ∷ [])) }
    requires version { version_fault (view.program p.now) (view.parsed names.now) ≡ None }
    requires named { IsNamed (view.program p.now) (view.thread thread) }
    ensures { MatchResult result
        (λ made. AreBound (view.program p.now) (view.parsed names.now) (view.thread thread ∷ []) (view.thread made ∷ []))
        (IsFault (unknown_fault (view.program p.now) (view.parsed names.now))) }
{
    let mut one = List::new(alloc);
    one.push(thread)?;
    match bound_apart(alloc, p, names, one) {
        Ok(made) => {
            let mut made = made;
            Ok(made.remove(0))
        }
        Err(fault) => Err(fault),
    }
}

/// Threads whose names differ from one another and from those of the variables and locks of the program.
fn bound_apart(
    alloc: Global,
    p: &Program,
    names: &Parsed,
    threads: List<ThreadDecl>,
) -> Result<List<ThreadDecl>, SwapFault>
    requires formed { IsWellFormed (view.program p.now) }
    requires ready { IsReady (threads_in (view.parsed names.now) (map view.thread threads)) }
    requires version { version_fault (view.program p.now) (view.parsed names.now) ≡ None }
    requires differ { IsTrue (are_distinct bytes_eq (names_of (view.program p.now).vars (view.program p.now).locks (map view.thread threads))) }
    ensures { MatchResult result
        (λ made. (unknown_fault (view.program p.now) (view.parsed names.now) ≡ None)
        × AreBound (view.program p.now) (view.parsed names.now) (map view.thread threads) (map view.thread made))
        (IsFault (unknown_fault (view.program p.now) (view.parsed names.now))) }
{
    let text = text_over(alloc, p, names, threads)?;
    match resolve(alloc, text) {
        Ok(made) => {
            let mut made = made;
            Ok(replace(&mut made.threads, List::new(alloc)))
        }
        Err(CheckFault::Refused(refusal)) => Err(SwapFault::Unknown(refusal.place)),
        Err(CheckFault::NoMemory) => Err(SwapFault::NoMemory),
    }
}

/// A text of threads with the variables and locks of a program, of which the names alone are kept, and with the names of a text.
fn text_over(
    alloc: Global,
    p: &Program,
    names: &Parsed,
    threads: List<ThreadDecl>,
) -> Result<Parsed, NoMemory>
    ensures { IfOk result (λ made. view.parsed made ≡ over (view.program p.now) (threads_in (view.parsed names.now) (map view.thread threads))) }
{
    let vars = bare_vars(alloc, p.vars.as_slice())?;
    let locks = bare_locks(alloc, p.locks.as_slice())?;
    let uses = copy_uses(alloc, names.uses.as_slice())?;
    let table = names.names.copy(alloc)?;
    Ok(Parsed {
        version: names.version,
        names: table,
        uses,
        vars,
        locks,
        threads,
    })
}

fn bare_vars(alloc: Global, vars: &[VarDecl]) -> Result<List<VarDecl>, NoMemory>
    ensures { IfOk result (λ made. map view.var made ≡ map bare_var (map view.var vars.now)) }
{
    let mut made = List::new(alloc);
    for var in vars {
        made.push(VarDecl {
            name: var.name,
            at: var.at,
            class: Class::Low,
        })?;
    }
    Ok(made)
}

fn bare_locks(alloc: Global, locks: &[LockDecl]) -> Result<List<LockDecl>, NoMemory>
    ensures { IfOk result (λ made. map view.lock made ≡ map bare_lock (map view.lock locks.now)) }
{
    let mut made = List::new(alloc);
    for lock in locks {
        made.push(LockDecl {
            name: lock.name,
            at: lock.at,
            nowrite: List::new(alloc),
            hide: List::new(alloc),
            inv: None,
        })?;
    }
    Ok(made)
}
