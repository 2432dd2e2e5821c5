//! What a deeper search finds for entailments of a program that are open.

ghost use Rattle.std.specs.Prelude.{◌≡◌, ◌<◌, ◌++◌, IfOk, IsTrue, OnOk, length, map, take};
ghost use Rattle.cov_ast.specs.Obligations.{all_hold};
ghost use Rattle.cov_ast.specs.View as view;
ghost use Rattle.cov_ast.specs.WellFormed.{IsWellFormed};
ghost use Rattle.cov_expr.specs.View.{term};
ghost use Rattle.deeper_text.specs.DeeperText as spec;
ghost use Rattle.deeper_text.specs.Inside.{found};
ghost use Rattle.entail_text.specs.Findings.{found_for};
ghost use Rattle.mode_compat.specs.Declared.{declaration_obligations};
ghost use Rattle.typing_law.specs.ThreadEntailments.{entailment_among, thread_entailments, view_entail};

use annotate::Open;
use cov_ast::{Cert, Program};
use cov_expr::{List, NoMemory};
use entail_text::{Finding, found_for};
use std::alloc::Global;
use typing_law::Entail;
use typing_rules::entailment_at;

/// How many open entailments of a program are searched for: a search for one may take most of a second.
pub const MOST_TRIED: usize = 64;

/// A certificate that is found for an entailment of a program.
#[derive(Drop)]
pub struct Found {
    /// The number of its thread.
    pub thread: u32,
    /// The byte offset of its statement.
    pub place: u32,
    /// Its number among those of the statement, from 1 on.
    pub number: u32,
    /// The certificate, which is valid.
    pub cert: Cert,
}

/// What is found for the first of open entailments of a program.
pub fn find_first(alloc: Global, p: &Program, left: &[Open]) -> Result<List<Found>, NoMemory>
    requires formed { IsWellFormed (view.program p.now) }
    requires declared { IsTrue (all_hold (declaration_obligations (view.program p.now))) }
    ensures { IfOk result (λ made. map found made ≡ spec.all_found (view.program p.now) (take MOST_TRIED left.now)) }
{
    if left.len() <= MOST_TRIED {
        find_each(alloc, p, left)
    } else {
        find_each(alloc, p, &left[..MOST_TRIED])
    }
}

/// What is found for each of some entailments.
fn find_each(alloc: Global, p: &Program, left: &[Open]) -> Result<List<Found>, NoMemory>
    requires formed { IsWellFormed (view.program p.now) }
    requires declared { IsTrue (all_hold (declaration_obligations (view.program p.now))) }
    ensures { IfOk result (λ made. map found made ≡ spec.all_found (view.program p.now) left.now) }
{
    let mut made = List::new(alloc);
    for entailment in left {
        add_found(alloc, p, entailment, &mut made)?;
    }
    Ok(made)
}

/// Adds what is found for an entailment, where there is its thread.
fn add_found(
    alloc: Global,
    p: &Program,
    left: &Open,
    made: &mut List<Found>,
) -> Result<(), NoMemory>
    requires formed { IsWellFormed (view.program p.now) }
    requires declared { IsTrue (all_hold (declaration_obligations (view.program p.now))) }
    ensures { OnOk result (map found made.new ≡ map found made.old ++ spec.found_of (view.program p.now) left.now) }
{
    if (left.thread as usize) < p.threads.len() {
        add_listed(alloc, p, left, made)
    } else {
        Ok(())
    }
}

/// Adds what is found for an entailment, where it is listed.
fn add_listed(
    alloc: Global,
    p: &Program,
    left: &Open,
    made: &mut List<Found>,
) -> Result<(), NoMemory>
    requires formed { IsWellFormed (view.program p.now) }
    requires declared { IsTrue (all_hold (declaration_obligations (view.program p.now))) }
    requires thread { left.now.thread < length p.now.threads }
    ensures { OnOk result (map found made.new ≡ map found made.old
        ++ spec.found_where left.now (entailment_among (thread_entailments (view.program p.now) left.now.thread) left.now.place left.now.number)) }
{
    match entailment_at(alloc, p, left.thread, left.place, left.number)? {
        Some(listed) => add_shown(alloc, left, &listed, made),
        None => Ok(()),
    }
}

/// Adds what is found by the hypotheses and the goal of an entailment.
fn add_shown(
    alloc: Global,
    left: &Open,
    listed: &Entail,
    made: &mut List<Found>,
) -> Result<(), NoMemory>
    ensures { OnOk result (map found made.new ≡ map found made.old ++ spec.found_where left.now (Some (view_entail listed.now))) }
{
    match found_for(alloc, &listed.hyps, &listed.goal)? {
        Finding::Shown(cert) => {
            made.push(Found {
                thread: left.thread,
                place: left.place,
                number: left.number,
                cert,
            })?;
            Ok(())
        }
        Finding::Broken(_) => Ok(()),
        Finding::Neither => Ok(()),
    }
}
