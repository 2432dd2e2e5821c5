//! Texts with certificates put in by a search.

ghost use Rattle.std.specs.Prelude.{◌≡◌, ◌++◌, ◌≤◌, length, IfOk, IsTrue, OnOk};
ghost use Rattle.cov_ast.specs.Obligations.{all_hold, first_false};
ghost use Rattle.cov_ast.specs.Ready.{IsReady};
ghost use Rattle.cov_ast.specs.View as view;
ghost use Rattle.cov_ast.specs.WellFormed.{IsWellFormed};
ghost use Rattle.cert_search.specs.declared.finder.TheConstants.{MOST_DEPTH};
ghost use Rattle.cov_print.specs.Spelling.{spelling};
ghost use Rattle.mode_compat.specs.Declared.{declaration_obligations};
ghost use Rattle.policy_class.specs.Resolved.{name_obligations, resolved};
ghost use Rattle.typing_law.specs.Accepted.{program_obligations};
ghost use Rattle.annotate.specs.Annotated as spec;
ghost use Rattle.annotate.specs.AnnotatedText.{annotated_text, IsAsRead, put_in_text};
ghost use Rattle.annotate.specs.Inside.Choosing.{chosen_in};

use crate::choices::ThreadChoices;
use crate::choosing::choose;
use crate::laws::{
    annotated_text_is_read, refusals_are_of_the_annotated_text, unproved_entailments_are_not_found,
};
use crate::made_uses::made_uses;
use crate::numbers::name_numbers;
use crate::outcome::{Open, Outcome};
use crate::put_in::put_in_threads;
use cov_ast::{CheckFault, Parsed, Program, Refusal};
use cov_expr::{List, NoMemory};
use cov_print::print;
use policy_class::resolve;
use std::alloc::Global;
use verify::check_program;

/// The text of a program with a certificate for each entailment that has no valid one and for which a search of a depth finds one, as it is spelled; what is refused
/// first of it; and which of its entailments stay open. The names of the text are in order, and so are the declarations of the program.
///
/// The text is changed in place. It takes memory for what is found, and for the spelling.
pub fn annotate(alloc: Global, p: Parsed, q: &Program, depth: u32) -> Result<Outcome, NoMemory>
    requires read { IsAsRead (view.parsed p) }
    requires names { IsTrue (all_hold (name_obligations (view.parsed p))) }
    requires resolved { view.program q.now ≡ resolved (view.parsed p) }
    requires formed { IsWellFormed (view.program q.now) }
    requires declared { IsTrue (all_hold (declaration_obligations (view.program q.now))) }
    requires depth { depth ≤ MOST_DEPTH }
    ensures spelled { IfOk result (λ made. made.spelled ≡ spelling (annotated_text depth (view.parsed p))) }
    ensures first { IfOk result (λ made. made.first ≡ spec.first_refused depth (view.program q.now)) }
    ensures unproved { IfOk result (λ made. made.unproved ≡ spec.unproved depth (view.program q.now)) }
{
    annotated_text_is_read();
    refusals_are_of_the_annotated_text();
    let mut unproved = List::new(alloc);
    let text = searched_text(alloc, p, q, depth, &mut unproved)?;
    let spelled = print(alloc, &text)?;
    let first = first_refusal(alloc, text)?;
    Ok(Outcome {
        spelled,
        first,
        unproved,
    })
}

/// The text with what a search of a depth finds. Entailments that stay open are added to others.
fn searched_text(
    alloc: Global,
    p: Parsed,
    q: &Program,
    depth: u32,
    unproved: &mut List<Open>,
) -> Result<Parsed, NoMemory>
    requires resolved { view.program q.now ≡ resolved (view.parsed p) }
    requires formed { IsWellFormed (view.program q.now) }
    requires declared { IsTrue (all_hold (declaration_obligations (view.program q.now))) }
    ensures text { IfOk result (λ made. view.parsed made ≡ annotated_text depth (view.parsed p)) }
    ensures unproved { OnOk result (unproved.new ≡ unproved.old ++ spec.unproved depth (view.program q.now)) }
{
    let numbers = name_numbers(alloc, &p)?;
    let chosen = choose(alloc, q, depth, &numbers, unproved)?;
    unproved_entailments_are_not_found();
    text_with(alloc, p, chosen.as_slice())
}

/// The text with what is chosen for each of its threads, each variable of a certificate by the number of its name.
pub fn text_with(alloc: Global, p: Parsed, chosen: &[ThreadChoices]) -> Result<Parsed, NoMemory>
    requires { length chosen.now ≡ length p.threads }
    ensures { IfOk result (λ made. view.parsed made ≡ put_in_text (chosen_in chosen.now) (view.parsed p)) }
{
    let mut made = p;
    let uses = made_uses(alloc, &made, chosen)?;
    made.uses = uses;
    put_in_threads(alloc, chosen, made.threads.as_mut_slice())?;
    Ok(made)
}

/// The first obligation of a text that doesn't hold, if there is one: of its names, and then of its program.
fn first_refusal(alloc: Global, text: Parsed) -> Result<Option<Refusal>, NoMemory>
    requires { IsReady (view.parsed text) }
    ensures { IfOk result (λ first. first ≡ first_false (name_obligations (view.parsed text) ++ program_obligations (resolved (view.parsed text)))) }
{
    match resolve(alloc, text) {
        Ok(program) => first_of_program(alloc, &program),
        Err(CheckFault::Refused(refusal)) => Ok(Some(refusal)),
        Err(CheckFault::NoMemory) => Err(NoMemory),
    }
}

/// The first obligation of a program that doesn't hold, if there is one.
fn first_of_program(alloc: Global, program: &Program) -> Result<Option<Refusal>, NoMemory>
    requires { IsWellFormed (view.program program.now) }
    ensures { IfOk result (λ first. first ≡ first_false (program_obligations (view.program program.now))) }
{
    match check_program(alloc, program) {
        Ok(_) => Ok(None),
        Err(CheckFault::Refused(refusal)) => Ok(Some(refusal)),
        Err(CheckFault::NoMemory) => Err(NoMemory),
    }
}
