//! Texts with certificates put in by two searches, one behind the other.

ghost use Rattle.std.specs.Prelude.{◌≡◌, IfOk, IsTrue, length, map, take};
ghost use Rattle.annotate.specs.Annotated as annotated;
ghost use Rattle.annotate.specs.AnnotatedText.{IsAsRead, annotated_text, with_choices};
ghost use Rattle.cert_search.specs.declared.finder.TheConstants.{MOST_DEPTH};
ghost use Rattle.cov_ast.specs.Obligations.{all_hold};
ghost use Rattle.cov_ast.specs.View as view;
ghost use Rattle.cov_ast.specs.WellFormed.{IsWellFormed};
ghost use Rattle.cov_print.specs.Spelling.{spelling};
ghost use Rattle.deeper_text.specs.DeeperText as spec;
ghost use Rattle.deeper_text.specs.Inside.{AreOfThreads, found};
ghost use Rattle.mode_compat.specs.Declared.{declaration_obligations};
ghost use Rattle.policy_class.specs.Resolved.{name_obligations, resolved};

use crate::chosen::choose_found;
use crate::found::{Found, find_first};
use crate::laws::deeper_texts_are_read;
use annotate::{Outcome, annotate, name_numbers, text_with};
use cert_search::MOST_DEPTH;
use cov_ast::{CheckFault, Parsed, Program};
use cov_expr::NoMemory;
use policy_class::resolve;
use std::alloc::Global;
use tree_copies::copy_text;

/// What `annotate` makes at the greatest depth of the text of a program, into which certificates are put before that: those that a deeper search finds for the first of the
/// entailments that would stay open otherwise. The names of the text are in order, and so are the declarations of the program.
///
/// Where a certificate is put in, `annotate` searches once more. It takes memory for two copies of the text, and for what the searches take.
pub fn annotate_deeper(alloc: Global, p: Parsed, q: &Program) -> Result<Outcome, NoMemory>
    requires read { IsAsRead (view.parsed p) }
    requires names { IsTrue (all_hold (name_obligations (view.parsed p))) }
    requires resolved { view.program q.now ≡ resolved (view.parsed p) }
    requires formed { IsWellFormed (view.program q.now) }
    requires declared { IsTrue (all_hold (declaration_obligations (view.program q.now))) }
    ensures spelled { IfOk result (λ made. made.spelled ≡ spelling (annotated_text MOST_DEPTH (spec.deeper_text (view.parsed p)))) }
    ensures first { IfOk result (λ made. made.first ≡ annotated.first_refused MOST_DEPTH (resolved (spec.deeper_text (view.parsed p)))) }
    ensures unproved { IfOk result (λ made. made.unproved ≡ annotated.unproved MOST_DEPTH (resolved (spec.deeper_text (view.parsed p)))) }
{
    let again = copy_text(alloc, &p)?;
    let outcome = annotate(alloc, again, q, MOST_DEPTH)?;
    let found = find_first(alloc, q, outcome.unproved.as_slice())?;
    if found.is_empty() {
        Ok(outcome)
    } else {
        annotate_with(alloc, p, found.as_slice())
    }
}

/// The same, with what is found.
fn annotate_with(alloc: Global, p: Parsed, all: &[Found]) -> Result<Outcome, NoMemory>
    requires read { IsAsRead (view.parsed p) }
    requires names { IsTrue (all_hold (name_obligations (view.parsed p))) }
    requires formed { IsWellFormed (resolved (view.parsed p)) }
    requires declared { IsTrue (all_hold (declaration_obligations (resolved (view.parsed p)))) }
    requires found { map found all.now ≡ spec.all_found (resolved (view.parsed p)) (spec.tried (resolved (view.parsed p))) }
    ensures spelled { IfOk result (λ made. made.spelled ≡ spelling (annotated_text MOST_DEPTH (spec.deeper_text (view.parsed p)))) }
    ensures first { IfOk result (λ made. made.first ≡ annotated.first_refused MOST_DEPTH (resolved (spec.deeper_text (view.parsed p)))) }
    ensures unproved { IfOk result (λ made. made.unproved ≡ annotated.unproved MOST_DEPTH (resolved (spec.deeper_text (view.parsed p)))) }
{
    deeper_texts_are_read();
    let text = text_with_found(alloc, p, all)?;
    annotate_text(alloc, text)
}

/// The text with what is found.
fn text_with_found(alloc: Global, p: Parsed, all: &[Found]) -> Result<Parsed, NoMemory>
    requires { AreOfThreads (length p.threads) (map found all.now) }
    ensures { IfOk result (λ made. view.parsed made ≡ with_choices (spec.chosen_among (map found all.now)) (view.parsed p)) }
{
    let numbers = name_numbers(alloc, &p)?;
    let chosen = choose_found(alloc, all, &numbers, p.threads.len())?;
    text_with(alloc, p, chosen.as_slice())
}

/// What `annotate` makes of a text of which the names and the declarations are in order.
fn annotate_text(alloc: Global, text: Parsed) -> Result<Outcome, NoMemory>
    requires read { IsAsRead (view.parsed text) }
    requires names { IsTrue (all_hold (name_obligations (view.parsed text))) }
    requires declared { IsTrue (all_hold (declaration_obligations (resolved (view.parsed text)))) }
    ensures spelled { IfOk result (λ made. made.spelled ≡ spelling (annotated_text MOST_DEPTH (view.parsed text))) }
    ensures first { IfOk result (λ made. made.first ≡ annotated.first_refused MOST_DEPTH (resolved (view.parsed text))) }
    ensures unproved { IfOk result (λ made. made.unproved ≡ annotated.unproved MOST_DEPTH (resolved (view.parsed text))) }
{
    let again = copy_text(alloc, &text)?;
    match resolve(alloc, again) {
        Ok(program) => annotate(alloc, text, &program, MOST_DEPTH),
        Err(CheckFault::Refused(_)) => unreachable!(),
        Err(CheckFault::NoMemory) => Err(NoMemory),
    }
}
