//! Words of 32 bits, expressions over numbered variables, and the small types that every crate uses.
//!
//! - [`List`], [`Name`] and [`NoMemory`]: a vector that contracts see as a list, a name of a text, the want of memory.
//! - [`SPELLINGS`]: the keywords and the signs of texts, each with its [`Kind`]; [`kind_of`] looks a text up there.
//! - [`Expr`]: an expression. Contracts see it as the plain tree `term e` of `specs/Term.antt`.
//! - [`eval`]: its value in a memory. [`same`]: whether two trees are equal.
//! - [`closed`], [`mentions`], [`has_conjunct`], [`vars`]: its parts. [`copy`], [`subst`]: trees made from others.
//! - [`has_number`]: whether a number, as that of a variable, stands in a list. [`has_same`]: whether an expression does.
//! - [`width_at_most`], [`height_at_most`], [`nodes_at_most`], [`nodes_left`]: its measures.
//! - [`MOST_BYTES`] and the constants beside it: the limits of texts, programs, other inputs, listings and objects.
//! - [`same_is_equality`] and the functions beside it have no body: their contracts are laws.
#![tactic(auto)]

mod build;
mod byte;
mod expr;
mod kind;
mod laws;
mod limits;
mod list;
mod measures;
mod name;
mod parts;
mod spelling;

pub use build::{boxed, copy, subst};
pub use byte::{is_digit, is_lower, is_word};
pub use expr::{Expr, HOLE, Op, apply, eval, same};
pub use kind::Kind;
pub use laws::{
    closed_mentions_nothing, hole_is_the_largest_word, limits_have_their_values, same_is_equality,
    substitution_is_a_store, value_depends_on_mentioned, values_are_words,
};
pub use limits::{
    MOST_BLOCKS, MOST_BRACKETS, MOST_BYTES, MOST_CERT_NODES, MOST_ENTRIES, MOST_EXPRESSION_BYTES,
    MOST_HEIGHT, MOST_INPUT_BYTES, MOST_LISTING_BYTES, MOST_LOCKS, MOST_MARKS, MOST_NAME_BYTES,
    MOST_NODES, MOST_OBJECT_BYTES, MOST_PREDICATES, MOST_ROUNDS, MOST_STATEMENTS, MOST_THREADS,
    MOST_TRIALS, MOST_TYPES, MOST_VARIABLES,
};
pub use list::{Blob, List, NoMemory};
pub use measures::{height_at_most, nodes_at_most, nodes_left, width_at_most};
pub use name::Name;
pub use parts::{closed, has_conjunct, has_number, has_same, mentions, vars};
pub use spelling::{SPELLINGS, is_keyword, kind_of};
