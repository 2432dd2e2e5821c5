//! A search for certificates: for hypotheses and a goal, a valid one of a class, or the word that the class has none.
//!
//! - [`find`] searches the class of a depth, which is at most [`MOST_DEPTH`]. [`find_lent`] does so of hypotheses that are lent one by one, and of any depth;
//!   [`lent_each`] lends those of a list.
//!
//! `specs/Classes.antt` says which certificates a class has, and what a search says. `specs/Searching.antt` says which of several valid ones comes.
//! `specs/Inside` has words of private contracts: `Relevance.antt` which hypotheses more may make a leaf valid, `Replaced.antt` what a replacement makes.
//! `proofs/Rows.antt` computes worked rows.
#![tactic(auto)]

mod conditions;
mod finder;
mod leaves;
mod nodes;
mod relevance;
mod replaced;
mod search;
mod templates;

pub use finder::{MOST_DEPTH, find, find_lent, lent_each};
