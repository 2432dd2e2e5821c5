//! The grammar of programs as data, and the proof that reading it with one token of look-ahead is exact.
//!
//! **What is promised.** [`reading_is_exact`]: of all tokens of a text, reading gives a tree exactly where they spell it, and
//! else stops in front of the first token with which no program goes on. [`tree_or_fault_is_one`]: all tokens spell one
//! tree, or have one first wrong token, and never both. Both hold of programs, of a whole expression, and of each rule that
//! stands within itself.
//!
//! **What has to be believed** is in the first files of `specs/`, in this order:
//! - `PlacedTrees`: what a program is, with places.
//! - `Shapes`: what a right side is, and which tokens spell which of its values.
//! - `Grammar`: the rules, a definition each, below the rule in the usual notation.
//! - `Spells`: `Is`, the tokens spell the value; `FirstWrong`, the first wrong token, by the language alone.
//!
//! The others speak of the reader: `LookAhead` and `FirstKinds` (the LL(1) condition), `Reading` (what is read), `ReaderAnswers`
//! (what code answers), `ReadingLaws` (the two laws).
//!
//! **How to read by it.** Code takes a [`TokenReader`] and has one function for each right side with a name, with the clause
//! `Gives view tokens.new result (reading SHAPE tokens.old)`. [`TokenReader::finish`] makes the answer for a whole text. The
//! lemmas for that are public and generic in the right side, so that a reader of another grammar over the same tokens cites
//! them too: `proofs/Repeats.antt` (lists), `proofs/Stops.antt` (faults), `proofs/Turns.antt` (`rule_is`: what a rule reads),
//! `proofs/Wholes.antt` (whole texts), `proofs/Exactness.antt` (the two laws).
//!
//! **How it is proved.** Four facts, each one induction over the eight forms of a right side, and none for a rule of the
//! grammar: reading is honest (`Honest`, `Many`, `Shapely`), complete (`Complete`), has turns enough (`Turns`), and the
//! tables are right for the grammar, by computation (`TableLaws`). `proofs/Examples.antt` computes worked examples.
#![tactic(auto)]

mod fault;
mod laws;
mod reader;
mod stop;
mod token;

pub use cov_expr::Kind;
pub use fault::TokenFault;
pub use laws::{reading_is_exact, tree_or_fault_is_one};
pub use reader::{TokenReader, is, is_any};
pub use stop::Stop;
pub use token::Token;
