//! The other entailments for which a thread, and those behind it, would be refused by V9, and the first refusal of each by a rule that isn't about certificates.

ghost use Rattle.std.specs.Prelude.{◌≡◌, ◌<◌, ◌≤◌, ◌++◌, IfOk, IsTrue, OnOk, length, map};
ghost use Rattle.cov_ast.specs.Obligations.{all_hold};
ghost use Rattle.cov_ast.specs.View as view;
ghost use Rattle.cov_ast.specs.WellFormed.{IsWellFormed};
ghost use Rattle.cov_expr.specs.declared.limits.TheConstants.{MOST_THREADS};
ghost use Rattle.mode_compat.specs.Declared.{declaration_obligations};
ghost use Rattle.typing_rules.specs.Keeping.{view_searched};
ghost use Rattle.entail_refused.specs.Inside.SearchedOthers.{listed};
ghost use Rattle.entail_refused.specs.OtherRefusals as spec;

use cov_ast::{CheckFault, Detail, Program, Refusal, Rule, ThreadDecl};
use cov_expr::{List, NoMemory};
use std::alloc::Global;
use typing_rules::{Searched, check_beside_certificates, searched_entailments};
use verify::check_declared;

/// Of the thread of a refusal by V9 or V13 and of those behind it, the first refusal of each by a rule other than V9 and V13, if one fails; and then the other refusals by V9 of these
/// threads, in the order in which entailments are tried: those that are tried where no such rule fails before in their thread. None of a refusal for another rule.
/// It takes twice the time of a check of these threads, and memory for the refusals.
pub fn other_refusals(
    alloc: Global,
    p: &Program,
    refusal: &Refusal,
) -> Result<List<Refusal>, NoMemory>
    requires { IsWellFormed (view.program p.now) }
    ensures { IfOk result (λ made. made ≡ spec.other_refusals (view.program p.now) refusal.now) }
{
    match refusal.rule {
        Rule::V9 => others_behind(alloc, p, refusal.thread, refusal.place, refusal.detail),
        Rule::V13 => others_behind(alloc, p, refusal.thread, 0, Detail::Number(0)),
        _ => Ok(List::new(alloc)),
    }
}

/// Those beside the entailment that a refusal for V9 names.
fn others_behind(
    alloc: Global,
    p: &Program,
    thread: Option<u32>,
    place: u32,
    detail: Detail,
) -> Result<List<Refusal>, NoMemory>
    requires { IsWellFormed (view.program p.now) }
    ensures { IfOk result (λ made. made ≡ spec.others_behind (view.program p.now) thread place detail) }
{
    match (thread, detail) {
        (Some(t), Detail::Number(n)) => {
            if (t as usize) < p.threads.len() {
                others_declared(alloc, p, t, place, n)
            } else {
                Ok(List::new(alloc))
            }
        }
        _ => Ok(List::new(alloc)),
    }
}

/// Those of a thread, where the declarations keep the rules.
fn others_declared(
    alloc: Global,
    p: &Program,
    t: u32,
    place: u32,
    number: u32,
) -> Result<List<Refusal>, NoMemory>
    requires formed { IsWellFormed (view.program p.now) }
    requires thread { t < length p.now.threads }
    ensures { IfOk result (λ made. made ≡ spec.others_declared (view.program p.now) t place number) }
{
    match check_declared(alloc, p) {
        Ok(()) => others_onward(alloc, p, t, place, number),
        Err(CheckFault::Refused(_)) => Ok(List::new(alloc)),
        Err(CheckFault::NoMemory) => Err(NoMemory),
    }
}

/// Those of a thread, and then of the threads behind it, with what fails by another rule in front.
fn others_onward(
    alloc: Global,
    p: &Program,
    t: u32,
    place: u32,
    number: u32,
) -> Result<List<Refusal>, NoMemory>
    requires formed { IsWellFormed (view.program p.now) }
    requires declared { IsTrue (all_hold (declaration_obligations (view.program p.now))) }
    requires thread { t < length p.now.threads }
    ensures { IfOk result (λ made. made ≡ spec.others_onward (view.program p.now) t place number) }
{
    let mut made = List::new(alloc);
    add_beside_from(alloc, p, t, p.threads.as_slice(), &mut made)?;
    add_others_in(alloc, p, t, place, number, &mut made)?;
    add_later(alloc, p, t, p.threads.as_slice(), &mut made)?;
    Ok(made)
}

/// Adds, of threads from one on, the first refusal of each by a rule that isn't about certificates.
fn add_beside_from(
    alloc: Global,
    p: &Program,
    t: u32,
    threads: &[ThreadDecl],
    made: &mut List<Refusal>,
) -> Result<(), NoMemory>
    requires formed { IsWellFormed (view.program p.now) }
    requires declared { IsTrue (all_hold (declaration_obligations (view.program p.now))) }
    requires all { length threads.now ≡ length p.now.threads }
    requires few { length threads.now ≤ MOST_THREADS }
    ensures { OnOk result (made.new ≡ made.old ++ spec.beside_among (view.program p.now) t 0 (map view.thread threads.now)) }
{
    for (u, _) in threads.iter().enumerate() {
        if t <= u as u32 {
            match check_beside_certificates(alloc, p, u as u32) {
                Ok(()) => {}
                Err(CheckFault::Refused(refusal)) => made.push(refusal)?,
                Err(CheckFault::NoMemory) => {
                    return Err(NoMemory);
                }
            }
        }
    }
    Ok(())
}

/// Adds those of the threads behind one.
fn add_later(
    alloc: Global,
    p: &Program,
    t: u32,
    threads: &[ThreadDecl],
    made: &mut List<Refusal>,
) -> Result<(), NoMemory>
    requires formed { IsWellFormed (view.program p.now) }
    requires declared { IsTrue (all_hold (declaration_obligations (view.program p.now))) }
    requires all { length threads.now ≡ length p.now.threads }
    requires few { length threads.now ≤ MOST_THREADS }
    ensures { OnOk result (made.new ≡ made.old ++ spec.later_among (view.program p.now) t 0 (map view.thread threads.now)) }
{
    for (u, _) in threads.iter().enumerate() {
        if t < u as u32 {
            add_others_in(alloc, p, u as u32, 0, 0, made)?;
        }
    }
    Ok(())
}

/// Adds those of a thread.
fn add_others_in(
    alloc: Global,
    p: &Program,
    t: u32,
    place: u32,
    number: u32,
    made: &mut List<Refusal>,
) -> Result<(), NoMemory>
    requires formed { IsWellFormed (view.program p.now) }
    requires declared { IsTrue (all_hold (declaration_obligations (view.program p.now))) }
    requires thread { t < length p.now.threads }
    ensures { OnOk result (made.new ≡ made.old ++ spec.others_in (view.program p.now) t place number) }
{
    let more = others_in(alloc, p, t, place, number)?;
    made.extend_from_slice(more.as_slice())
}

/// Those of a thread.
fn others_in(
    alloc: Global,
    p: &Program,
    t: u32,
    place: u32,
    number: u32,
) -> Result<List<Refusal>, NoMemory>
    requires formed { IsWellFormed (view.program p.now) }
    requires declared { IsTrue (all_hold (declaration_obligations (view.program p.now))) }
    requires thread { t < length p.now.threads }
    ensures { IfOk result (λ made. made ≡ spec.others_in (view.program p.now) t place number) }
{
    // At depth 0 the search is soon over; only which entailments have no valid certificate is asked.
    let searched = searched_entailments(alloc, p, t, 0)?;
    others_among(alloc, t, place, number, searched.as_slice())
}

/// Those among entailments that have no valid certificate.
fn others_among(
    alloc: Global,
    t: u32,
    place: u32,
    number: u32,
    searched: &[Searched],
) -> Result<List<Refusal>, NoMemory>
    ensures { IfOk result (λ made. made ≡ listed t place number (map view_searched searched.now)) }
{
    let mut made = List::new(alloc);
    for entailment in searched {
        if !(entailment.place == place && entailment.number == number) {
            made.push(Refusal {
                rule: Rule::V9,
                thread: Some(t),
                place: entailment.place,
                detail: Detail::Number(entailment.number),
            })?;
        }
    }
    Ok(made)
}
