//! Programs with certificates put in by a search: the annotated program, which of its entailments are open, and its text.
//!
//! - [`annotate`]: the text of a program with what a search of a depth finds, as it is spelled, what is refused first of it, and which of its entailments stay open ([`Outcome`], [`Open`]).
//! - [`text_with`]: a text with certificates that are chosen otherwise, for each thread by the places of its statements ([`ThreadChoices`], [`Choice`]), with the number of its name
//!   for each variable ([`name_numbers`]).
//! - `specs/WithCertificates.antt`: certificates put in among the proofs of statements.
//! - `specs/Annotated.antt`: which certificates a search of a depth chooses for a program, which entailments of the annotated program are open, and which of its
//!   obligations is refused first.
//! - `specs/AnnotatedText.antt`: the text of that program: certificates in the numbers of names, and every use of a name. What is asked of a text is that it is
//!   as reading gives it (`IsAsRead`), so with its uses in order.
//! - `specs/NotFound.antt`: the entailments for which nothing is found.
//! - `specs/Inside` has words of private contracts: `Choosing.antt` what is chosen as the code keeps it, of which `text_with` speaks too, `Searches.antt` what searches come to, `Putting.antt` what a walk makes
//!   that puts certificates in, and `Going.antt` the uses of names that a walk comes by.
//! - [`chosen_certificates_stand`], [`choices_are_for_listed_entailments`], [`proofs_alone_change`], [`listed_entailments_are_annotated`],
//!   [`unproved_entailments_are_not_found`], [`refusals_are_of_the_annotated_text`], [`annotated_programs_are_formed`], [`listed_entailments_are_in_range`]: laws of the program.
//! - [`texts_are_as_read`], [`certificates_may_be_put_in`], [`annotated_text_is_read`], [`annotated_texts_are_within_limits`], [`annotated_spelling_is_read`], [`uses_stay_in_order`]: laws of the text.
//!
//! `annotation.rt` goes from one to the next: `numbers.rt` has the numbers of the names of variables, `choosing.rt` searches for what is chosen, `choices.rt` keeps it by
//! places, `made_uses.rt` makes the uses of the text (by `uses.rt` and `kept_uses.rt`), and `put_in.rt` puts certificates into it. `placing.rt` has what both walks ask
//! of what is chosen for a statement. `proofs/Examples.antt` computes worked rows.
#![tactic(auto)]

mod annotation;
mod choices;
mod choosing;
mod kept_uses;
mod laws;
mod made_uses;
mod numbers;
mod outcome;
mod placing;
mod put_in;
mod uses;

pub use annotation::{annotate, text_with};
pub use choices::{Choice, ThreadChoices};
pub use laws::{
    annotated_programs_are_formed, annotated_spelling_is_read, annotated_text_is_read,
    annotated_texts_are_within_limits, certificates_may_be_put_in,
    choices_are_for_listed_entailments, chosen_certificates_stand,
    listed_entailments_are_annotated, listed_entailments_are_in_range, proofs_alone_change,
    refusals_are_of_the_annotated_text, texts_are_as_read, unproved_entailments_are_not_found,
    uses_stay_in_order,
};
pub use numbers::name_numbers;
pub use outcome::{Open, Outcome};
