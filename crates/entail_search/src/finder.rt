//! The deeper search for a certificate.

ghost use Rattle.std.specs.Prelude.{◌≡◌, true, Some, IfOk, map, option_map};
ghost use Rattle.cov_expr.specs.Entailment.{Entails};
ghost use Rattle.cov_expr.specs.View.{term};
ghost use Rattle.cov_ast.specs.View as view;
ghost use Rattle.entail_cert.specs.Valid as valid;
ghost use Rattle.entail_search.specs.Deeper as spec;
ghost use Rattle.entail_search.specs.Sound.{FindsSound, FindsTrue};

use crate::splits::{MOST_SPLITS, by_splits};
use crate::within::{cert_height, cert_nodes, has_fit_expressions};
use cert_search::lent_each;
use cov_ast::Cert;
use cov_expr::{Expr, List, MOST_CERT_NODES, MOST_HEIGHT, NoMemory};
use entail_cert::{CertFault, check_cert};
use std::alloc::Global;

/// Whether a certificate is valid.
fn is_valid(alloc: Global, hyps: &List<Expr>, goal: &Expr, c: &Cert) -> Result<bool, NoMemory>
    ensures holds { IfOk result (λ holds. holds ≡ valid.is_valid (map term hyps.now) (term goal.now) (view.cert c.now)) }
    ensures entails { IfOk result (λ holds. holds ≡ true → Entails (map term hyps.now) (term goal.now)) }
{
    match check_cert(alloc, hyps, goal, c) {
        Ok(()) => Ok(true),
        Err(CertFault::Invalid(_)) => Ok(false),
        Err(CertFault::NoMemory) => Err(NoMemory),
    }
}

/// A valid certificate for the claim that a goal holds in every memory in which all hypotheses hold, by a deeper search than that of `cert_search`. It and
/// its expressions are within the limits of those of a text, and mention no other variables than the hypotheses and the goal.
///
/// `None` says nothing: the claim may be true, and another certificate valid.
///
/// Facts of order are read off the hypotheses: their comparisons by `<=` and `<`, what `!(a < b)`, `!(a <= b)` and `a == b` say of order, and `0 < a` of
/// `a != 0` and `!(a == 0)`. Chains of up to 8 of them are facts too. A part of the goal that `&&` and `||` join is tried by a search of depth 1, and then by
/// each fact: where the fact says it, or with a bound at either end, or leaves a value none. A goal `!e` is tried by what follows from `e`, and `a || b` by `b`
/// where `a` doesn't hold. Where all that fails, hypotheses that are disjunctions are taken apart: each of the first 4 with the parts nested in it, up to 4
/// deep, and in each part once more.
///
/// So at most 4,161 lists of hypotheses are looked at, each also with one hypothesis more. For each part of the goal there are a search of depth 1 and, for
/// each of at most 64 facts, at most five certificates of one node. Memory is taken for the facts of one list at a time, with their certificates, and for
/// pointers to hypotheses. Want of memory may come in the place of each answer, and does where there are more than 4,000,000,000 hypotheses.
#[tactic(auto, using(crate::proofs::Sound::told))]
pub fn find_deeper(alloc: Global, hyps: &List<Expr>, goal: &Expr) -> Result<Option<Cert>, NoMemory>
    ensures sound { FindsSound (map term hyps.now) (term goal.now) result }
    ensures entails { FindsTrue (map term hyps.now) (term goal.now) result }
    // Which one comes.
    ensures first { IfOk result (λ found. option_map view.cert found ≡ spec.deeper (map term hyps.now) (term goal.now)) }
{
    let given = lent_each(alloc, hyps.as_slice())?;
    match by_splits(alloc, given.as_slice(), goal, MOST_SPLITS)? {
        Some(c) => {
            if cert_nodes(&c) <= MOST_CERT_NODES
                && cert_height(&c) <= MOST_HEIGHT
                && has_fit_expressions(hyps.as_slice(), goal, &c)
                && is_valid(alloc, hyps, goal, &c)?
            {
                Ok(Some(c))
            } else {
                Ok(None)
            }
        }
        None => Ok(None),
    }
}
