//! What searches come to for an entailment.

ghost use Rattle.std.specs.Prelude.{◌≡◌, ◌++◌, IfOk, OnOk, is_some, map};
ghost use Rattle.cov_expr.specs.View.{term};
ghost use Rattle.entail_text.specs.Findings as spec;

use cert_search::{MOST_DEPTH, find, find_lent, lent_each};
use cov_ast::Cert;
use cov_expr::{Expr, List, NoMemory, copy};
use entail_counter::{Binding, counterexample, nodes_left_by};
use entail_search::find_deeper;
use std::alloc::Global;

/// What is found for an entailment.
#[derive(Drop)]
pub enum Finding {
    /// A certificate that is valid.
    Shown(Cert),
    /// A memory in which all hypotheses hold and the goal doesn't.
    Broken(List<Binding>),
    /// Neither.
    Neither,
}

impl Finding {
    /// Whether it is a certificate.
    pub fn is_shown(&self) -> bool
        ensures { result ≡ spec.is_shown (spec.seen self.now) }
    {
        matches!(self, Finding::Shown(_))
    }
}

/// What is found for an entailment: a valid certificate of the greatest depth of which all are searched; where there is none, a memory that breaks it, if a
/// search finds one; and else a certificate of a deeper search. It takes the time and the memory of these searches.
#[tactic(auto, unfolding(crate::specs::Findings::suggested, crate::specs::Findings::deeper_suggested))]
pub fn found_for(alloc: Global, hyps: &List<Expr>, goal: &Expr) -> Result<Finding, NoMemory>
    ensures { IfOk result (λ found. spec.seen found ≡ spec.found_for (map term hyps.now) (term goal.now)) }
{
    match find(alloc, hyps, goal, MOST_DEPTH)? {
        Some(cert) => Ok(Finding::Shown(cert)),
        None => match counterexample(alloc, hyps.as_slice(), goal)? {
            Some(m) => Ok(Finding::Broken(m)),
            None => {
                let deeper_suggested = if nodes_left_by(
                    hyps.as_slice(),
                    goal,
                    MOST_SEARCHED,
                ).is_some()
                {
                    find_deeper(alloc, hyps, goal)?
                } else {
                    None
                };
                match deeper_suggested {
                    Some(cert) => Ok(Finding::Shown(cert)),
                    None => Ok(Finding::Neither),
                }
            }
        },
    }
}

/// How many nodes hypotheses and a goal may have together, so that a deeper search is made: its time grows with them, and with the disjunctions among the hypotheses.
pub const MOST_SEARCHED: u32 = 1_000;

/// Whether a certificate is found for an entailment, were one predicate more known. It takes the time and the memory of that search.
#[tactic(auto, unfolding(crate::specs::Findings::suggested))]
pub fn would_help(alloc: Global, hyps: &[Expr], goal: &Expr, more: &Expr) -> Result<bool, NoMemory>
    ensures { IfOk result (λ helps. helps ≡ spec.would_help (map term hyps.now) (term goal.now) (term more.now)) }
{
    let mut known = lent_each(alloc, hyps)?;
    known.push(more)?;
    let found = find_lent(alloc, known.as_slice(), goal, MOST_DEPTH)?;
    Ok(found.is_some())
}

/// Whether a memory is found that breaks an entailment, were some predicates more known. It takes the time and the memory of that search.
pub fn is_hopeless(
    alloc: Global,
    hyps: &[Expr],
    goal: &Expr,
    more: &[Expr],
) -> Result<bool, NoMemory>
    ensures { IfOk result (λ hopeless. hopeless ≡ spec.is_hopeless (map term hyps.now) (term goal.now) (map term more.now)) }
{
    let mut known = List::with_capacity(alloc, hyps.len())?;
    add_copies(alloc, hyps, &mut known)?;
    add_copies(alloc, more, &mut known)?;
    let found = counterexample(alloc, known.as_slice(), goal)?;
    Ok(found.is_some())
}

/// Adds copies of some expressions.
fn add_copies(alloc: Global, all: &[Expr], made: &mut List<Expr>) -> Result<(), NoMemory>
    ensures { OnOk result (map term made.new ≡ map term made.old ++ map term all.now) }
{
    for e in all {
        let one = copy(alloc, e)?;
        made.push(one)?;
    }
    Ok(())
}
