//! What steps touch.

ghost use Rattle.std.specs.Prelude.{◌≡◌, option_map};
ghost use Rattle.cov_ast.specs.Plain.{plain};
ghost use Rattle.cov_ast.specs.View as view;
ghost use Rattle.statement_parts.specs.Parts as table;
ghost use Rattle.statement_paths.specs.Paths as paths;
ghost use Rattle.entail_losses.specs.LeftOut as spec;

use cov_ast::{LockDecl, NumberSet, Program, Stmt, StmtKind};
use statement_parts::{Parts, Store, parts_of};
use statement_paths::Step;

/// Takes out of a set what a step touches: the variables of locks, and where `stores`, those that are stored to.
pub fn keep_untouched(p: &Program, stores: bool, step: &Step<'_>, kept: &mut NumberSet)
    ensures { kept.new ≡ spec.untouched_by (plain (view.program p.now)) stores (paths.step step.now) kept.old }
{
    match step {
        Step::Passed(stmt) => keep_past(p, stores, &stmt.kind, kept),
        Step::Yes(_, _) | Step::No(_, _) | Step::Head(_, _) => {}
    }
}

/// Takes out what a statement that is passed touches, also in its blocks. Each statement of them is looked at once.
#[cycle(blocks)]
fn keep_past(p: &Program, stores: bool, kind: &StmtKind, kept: &mut NumberSet)
    ensures { kept.new ≡ spec.without_all kept.old (spec.touched (plain (view.program p.now)) stores (view.kind kind.now)) }
{
    take_own(p, stores, &parts_of(kind), kept);
    match kind {
        StmtKind::If(_, a, b, _) => {
            keep_past_all(p, stores, a.as_slice(), kept);
            keep_past_all(p, stores, b.as_slice(), kept);
        }
        StmtKind::While(_, _, b) => keep_past_all(p, stores, b.as_slice(), kept),
        _ => {}
    }
}

/// The same of the statements of a block.
#[cycle(blocks)]
fn keep_past_all(p: &Program, stores: bool, body: &[Stmt], kept: &mut NumberSet)
    ensures { kept.new ≡ spec.without_all kept.old (spec.touched_in (plain (view.program p.now)) stores (view.block body.now)) }
{
    for stmt in body {
        keep_past(p, stores, &stmt.kind, kept);
    }
}

/// Takes out what a statement touches by its own parts.
#[tactic(auto, using(crate::proofs::StableLaws::without_both))]
fn take_own(p: &Program, stores: bool, parts: &Parts<'_>, kept: &mut NumberSet)
    ensures { kept.new ≡ spec.without_all kept.old (spec.own_touched (plain (view.program p.now)) stores (table.parts_of parts.now)) }
{
    take_stored(stores, parts.store, kept);
    take_under(p, parts.taken, kept);
    take_under(p, parts.returned, kept);
}

/// Takes out the variable of a store, where stores count.
fn take_stored(stores: bool, store: Option<Store<'_>>, kept: &mut NumberSet)
    ensures { kept.new ≡ spec.without_all kept.old (spec.stored_by stores (option_map table.store_of store.entry)) }
{
    if stores && let Some(store) = store {
        kept.put(store.variable, false);
    }
}

/// Takes out the variables under a lock, if there is one.
fn take_under(p: &Program, lock: Option<u32>, kept: &mut NumberSet)
    ensures { kept.new ≡ spec.without_all kept.old (spec.all_under (plain (view.program p.now)) lock) }
{
    if let Some(l) = lock
        && let Some(lock) = p.locks.as_slice().get(l as usize)
    {
        take_listed(lock, kept);
    }
}

/// Takes out the variables that a lock lists.
#[tactic(auto, using(crate::proofs::StableLaws::without_both))]
fn take_listed(lock: &LockDecl, kept: &mut NumberSet)
    ensures { kept.new ≡ spec.without_all kept.old (spec.listed (view.lock lock.now)) }
{
    take_all(lock.nowrite.as_slice(), kept);
    take_all(lock.hide.as_slice(), kept);
}

/// Takes out numbers.
fn take_all(numbers: &[u32], kept: &mut NumberSet)
    ensures { kept.new ≡ spec.without_all kept.old numbers.now }
{
    for x in numbers {
        kept.put(*x, false);
    }
}
