//! Where what an entailment of a statement asks comes from: the question, its hypotheses, and the types of its goal.
//!
//! - [`question`]: what the entailment with a number asks, of those of the statement at a place ([`Question`], [`End`]): of which variable,
//!   of which lock, at the end of which block. [`add_question`]: the same as a line of text. [`questions`] and [`add_question_line`]: the
//!   same of a statement that is at hand ([`Asked`]).
//! - [`add_given`]: the predicates that a step on the way to a statement may give ([`Given`], [`GivenTerm`], [`HypothesisSource`]), of a state by
//!   [`state_source`]. [`remarks`]: a few words on each hypothesis, with the line of its origin, the last step that gives it ([`Origin`], [`origin_of`],
//!   [`origin_at`]). [`add_origin`] and [`add_any_origin`]: the words on one.
//! - [`variables_of`]: the variables whose types make up the goal of a question. [`vars_of`]: those of an expression, if there is one. [`add_class`]: the words on the class of a variable,
//!   and [`is_class`] whether an expression is one.
//! - [`lock_over`]: the first lock that a variable is under.
//! - [`add_type_lines`]: a line for each variable whose type makes up the goal: the last step on the way that sets it, and the last after it
//!   that changed it, and what would set another; and where the first is an assignment, such lines for the variables of its value in front of it, and so on.
//!
//! Laws have no body. Of questions: [`each_entailment_has_a_question`] and [`what_is_listed_is_asked`], that they go by the rules of types.
//! Of hypotheses: [`predicates_have_origins`], that each predicate of a point is given by a step to it. Of types:
//! [`types_are_from_their_origins`], that this goes by the rules of types, and [`goals_are_of_their_questions`] and
//! [`goals_depend_on_their_variables`], that the types in the lines are those of the goal.
//!
//! | `src/` | `specs/` | what it has |
//! |---|---|---|
//! | `question_statements`, `assignments`, `question_states` | `Questions` | what the entailments of a statement ask, in their order |
//! | `kinds`, `numbered_question` | `Questions` | the kinds of questions; what is asked by a place and a number |
//! | `question_lines`, `question_laws` | `QuestionLines`, `OwnEntailments` | the sentences; the entailments of a statement by the rules of types |
//! | `given`, `hypothesis_origin` | `Origins`, `GivenViews` | what a step may give, and which step is the origin |
//! | `remark`, `hypothesis_laws` | `Remarks` | the words on an origin; that each predicate of a point has one |
//! | `type_origin`, `type_steps` | `TypeOrigins` | what in a step sets the type of a variable, and the last that does |
//! | `type_changes` | `TypeChanges` | what may forget it, and the last step behind the origin that did |
//! | `goal_variables` | `AskedVariables` | whose types make up a goal |
//! | `locks` | `LocksOver` | the first lock that a variable is under |
//! | `known_types` | `KnownTypes` | what is known of the variables at a point |
//! | `followed_types` | `FollowedTypes` | of which variables is told behind those of a goal |
//! | `type_lines`, `type_classes`, `type_words` | `TypeLines` | the lines, by what is known of the variables at the point |
//! | `type_laws` | `TypesFromOrigins`, `GoalTypes` | what an origin and a change say of the type at a point; the goal of a question, by the types there |
//! | | `AskedHypotheses` | from what it is to follow what a question asks |
#![tactic(auto)]

mod assignments;
mod followed_types;
mod given;
mod goal_variables;
mod hypothesis_laws;
mod hypothesis_origin;
mod kinds;
mod known_types;
mod locks;
mod numbered_question;
mod question_laws;
mod question_lines;
mod question_statements;
mod question_states;
mod remark;
mod type_changes;
mod type_classes;
mod type_laws;
mod type_lines;
mod type_origin;
mod type_steps;
mod type_words;

pub use given::{Given, GivenTerm, add_given, state_source};
pub use goal_variables::{variables_of, vars_of};
pub use hypothesis_laws::predicates_have_origins;
pub use hypothesis_origin::{HypothesisSource, Origin, origin_at, origin_of};
pub use kinds::{Asked, End, Question};
pub use locks::lock_over;
pub use numbered_question::question;
pub use question_laws::{each_entailment_has_a_question, what_is_listed_is_asked};
pub use question_lines::{add_question, add_question_line};
pub use question_statements::questions;
pub use remark::{add_any_origin, add_origin, remarks};
pub use type_classes::{add_class, is_class};
pub use type_laws::{
    goals_are_of_their_questions, goals_depend_on_their_variables, types_are_from_their_origins,
};
pub use type_lines::add_type_lines;
