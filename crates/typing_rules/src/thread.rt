//! A whole thread: its check, the entailments that it has, and a search for certificates of them.

ghost use Rattle.std.specs.Prelude.{◌≡◌, ◌<◌, ◌^◌, length, map, option_map, slice_get, Err, IfOk, IsTrue, MatchResult, None};
ghost use Rattle.cov_ast.specs.Obligations.{Decides, all_hold, first_false};
ghost use Rattle.cov_ast.specs.Plain.{plain};
ghost use Rattle.cov_ast.specs.View as view;
ghost use Rattle.cov_ast.specs.WellFormed.{IsWellFormed};
ghost use Rattle.flow_model.specs.Game.{IsSecureThread};
ghost use Rattle.mode_compat.specs.Declared.{declaration_obligations};
ghost use Rattle.typing_law.specs.Counts.{DecidesWith, counts};
ghost use Rattle.typing_law.specs.ThreadEntailments.{entailment_among, thread_entailments, view_entail};
ghost use Rattle.typing_law.specs.ThreadObligations.{thread_obligations};
ghost use Rattle.typing_rules.specs.Beside.{beside_certificates};
ghost use Rattle.typing_rules.specs.Keeping.{asked_in_thread, kept_for, view_kept, view_searched, wanted_among};
ghost use Rattle.typing_rules.specs.Searched.{searched_in_thread};

use crate::count::statements;
use crate::kept::{Kept, Searched, copies, searches};
use crate::locks::check_end;
use crate::purpose::{Purpose, Wanted};
use crate::walk::Walk;
use cov_ast::{CheckFault, Program};
use cov_expr::{List, NoMemory};
use std::alloc::Global;
use typing_law::{Count, Entail, Site, entailments_are_obligations, true_obligations_are_secure};
use typing_state::Point;

/// Checks the statements of a thread of a program whose declarations keep the rules.
///
/// `Ok` comes exactly where every obligation of the thread holds, with how much was checked, and then the thread is secure,
/// whatever the others do within what it assumes of them. The first obligation that doesn't hold is refused.
pub fn check_thread(alloc: Global, p: &Program, t: u32) -> Result<Count, CheckFault>
    requires formed { IsWellFormed (view.program p.now) }
    requires declared { IsTrue (all_hold (declaration_obligations (view.program p.now))) }
    requires thread { t < length p.now.threads }
    ensures answer { DecidesWith (thread_obligations (view.program p.now) t) (counts (view.program p.now) t) result }
    ensures bounded { IfOk result (λ count. (count.statements < 2 ^ 21) × (count.entailments < 2 ^ 31)) }
    ensures secure { IfOk result (λ _. IsSecureThread (plain (view.program p.now)) t) }
{
    match check_statements(alloc, p, t) {
        Ok(entailments) => {
            true_obligations_are_secure();
            let statements = statements(p.threads.as_slice()[t as usize].body.as_slice());
            Ok(Count {
                statements,
                entailments,
            })
        }
        Err(fault) => Err(fault),
    }
}

/// Checks the statements of a thread in their order, and then its end. How many entailments there were.
fn check_statements(alloc: Global, p: &Program, t: u32) -> Result<u64, CheckFault>
    requires formed { IsWellFormed (view.program p.now) }
    requires declared { IsTrue (all_hold (declaration_obligations (view.program p.now))) }
    requires thread { t < length p.now.threads }
    ensures { MatchResult result
        (λ entailments. (first_false (thread_obligations (view.program p.now) t) ≡ None)
        × (entailments ≡ (counts (view.program p.now) t).entailments))
        (λ fault. Decides (thread_obligations (view.program p.now) t) (Err fault)) }
{
    let walk = Walk {
        alloc,
        program: p,
        thread: t,
        purpose: Purpose::Judge,
    };
    let thread = &p.threads.as_slice()[t as usize];
    let start = Point::start(alloc, p, t)?;
    let mut none = List::new(alloc);
    match walk.block(thread.body.as_slice(), start, &mut none) {
        Ok(end) => {
            let site = Site {
                thread: t,
                place: thread.end,
            };
            match check_end(p, site, end.point.modes()) {
                Ok(()) => Ok(end.entailments),
                Err(fault) => Err(fault),
            }
        }
        Err(fault) => Err(fault),
    }
}

/// Checks the statements of a thread of a program whose declarations keep the rules, whatever certificates it has: `Ok` comes exactly where every obligation
/// of the thread holds that isn't about certificates (V9, V13). The first of these that doesn't hold is refused.
///
/// No certificate is looked at, and no entailment is kept, so it takes memory for points alone.
pub fn check_beside_certificates(alloc: Global, p: &Program, t: u32) -> Result<(), CheckFault>
    requires formed { IsWellFormed (view.program p.now) }
    requires declared { IsTrue (all_hold (declaration_obligations (view.program p.now))) }
    requires thread { t < length p.now.threads }
    ensures { Decides (beside_certificates (view.program p.now) t) result }
{
    // No entailment has the number 0, so none is copied.
    let walk = Walk {
        alloc,
        program: p,
        thread: t,
        purpose: Purpose::Collect(Wanted::Numbered(0, 0)),
    };
    let thread = &p.threads.as_slice()[t as usize];
    let start = Point::start(alloc, p, t)?;
    let mut none = List::new(alloc);
    match walk.block(thread.body.as_slice(), start, &mut none) {
        Ok(end) => {
            let site = Site {
                thread: t,
                place: thread.end,
            };
            check_end(p, site, end.point.modes())
        }
        Err(fault) => Err(fault),
    }
}

/// What has to follow at the statements of a thread of a program whose declarations keep the rules, in the order in which it
/// is tried: up to the first obligation that doesn't hold, where those about certificates (V9, V13) don't count. No
/// certificate is looked at.
///
/// Each entailment has copies of its hypotheses, so the list takes memory in proportion to what they spell.
pub fn entailments(alloc: Global, p: &Program, t: u32) -> Result<List<Entail>, NoMemory>
    requires formed { IsWellFormed (view.program p.now) }
    requires declared { IsTrue (all_hold (declaration_obligations (view.program p.now))) }
    requires thread { t < length p.now.threads }
    ensures { IfOk result (λ listed. map view_entail listed ≡ thread_entailments (view.program p.now) t) }
{
    wanted_entailments(alloc, p, t, Wanted::Every)
}

/// The first of the entailments that `entailments` lists whose statement is at a place, and which has a number there. `None` comes
/// where there is none.
///
/// Of those that the walk comes by only what has this number at this place is copied, so it takes no memory for the others
/// once their statement is passed.
pub fn entailment_at(
    alloc: Global,
    p: &Program,
    t: u32,
    place: u32,
    number: u32,
) -> Result<Option<Entail>, NoMemory>
    requires formed { IsWellFormed (view.program p.now) }
    requires declared { IsTrue (all_hold (declaration_obligations (view.program p.now))) }
    requires thread { t < length p.now.threads }
    ensures { IfOk result (λ found. option_map view_entail found ≡ entailment_among (thread_entailments (view.program p.now) t) place number) }
{
    let found = wanted_entailments(alloc, p, t, Wanted::Numbered(place, number))?;
    Ok(first(found))
}

/// The first of a list.
fn first(mut found: List<Entail>) -> Option<Entail>
    ensures { result ≡ slice_get found 0 }
{
    if found.is_empty() {
        None
    } else {
        Some(found.remove(0))
    }
}

/// Those of the entailments of a thread that are wanted.
fn wanted_entailments(
    alloc: Global,
    p: &Program,
    t: u32,
    wanted: Wanted,
) -> Result<List<Entail>, NoMemory>
    requires formed { IsWellFormed (view.program p.now) }
    requires declared { IsTrue (all_hold (declaration_obligations (view.program p.now))) }
    requires thread { t < length p.now.threads }
    ensures { IfOk result (λ listed. map view_entail listed ≡ wanted_among wanted (thread_entailments (view.program p.now) t)) }
{
    let kept = kept_of_thread(alloc, p, t, Purpose::Collect(wanted))?;
    copies(alloc, kept)
}

/// What a search of a depth comes to for each of the entailments that `entailments` lists and that have no valid certificate, in their order.
///
/// No entailment is copied, so it takes memory for what it finds, and while it searches.
pub fn searched_entailments(
    alloc: Global,
    p: &Program,
    t: u32,
    depth: u32,
) -> Result<List<Searched>, NoMemory>
    requires formed { IsWellFormed (view.program p.now) }
    requires declared { IsTrue (all_hold (declaration_obligations (view.program p.now))) }
    requires thread { t < length p.now.threads }
    ensures { IfOk result (λ made. map view_searched made ≡ searched_in_thread depth (view.program p.now) t) }
{
    let kept = kept_of_thread(alloc, p, t, Purpose::Search(depth))?;
    entailments_are_obligations();
    searches(alloc, kept)
}

/// What a walk over a thread keeps.
fn kept_of_thread(
    alloc: Global,
    p: &Program,
    t: u32,
    purpose: Purpose,
) -> Result<List<Kept>, NoMemory>
    requires formed { IsWellFormed (view.program p.now) }
    requires declared { IsTrue (all_hold (declaration_obligations (view.program p.now))) }
    requires thread { t < length p.now.threads }
    ensures { IfOk result (λ kept. map view_kept kept ≡ kept_for purpose (asked_in_thread (view.program p.now) t)) }
{
    let walk = Walk {
        alloc,
        program: p,
        thread: t,
        purpose,
    };
    let thread = &p.threads.as_slice()[t as usize];
    let start = Point::start(alloc, p, t)?;
    let mut kept = List::new(alloc);
    match walk.block(thread.body.as_slice(), start, &mut kept) {
        Ok(_) => Ok(kept),
        Err(CheckFault::Refused(_)) => Ok(kept),
        Err(CheckFault::NoMemory) => Err(NoMemory),
    }
}
