//! Texts of programs as trees.
//!
//! - [`parse`]: the program that a text spells, or its first fault; [`parse_expr`]: the same of one expression.
//!   `cov_text` says what a text spells and which fault is its first.
//! - [`read_tokens`]: the tokens of a text and its names ([`Tokens`]), or its lexical fault (`specs/ReadTokens.antt`). What the version of the
//!   text doesn't have is foreign.
//!
//! | `src/` | what it has |
//! |---|---|
//! | `text` | from bytes to the tree that callers get: tokens, the reader (`cov_read`), the limits and that tree, one behind the other |
//! | `tokens`, `versions`, `name_uses` | the tokens of a text as the grammar takes them, with its names by number, and where they use names |
//! | `limits`, `counts`, `measures` | the fault of least place of the limits that a tree with places doesn't keep (`Limits` of `cov_text`) |
//! | `programs`, `stmts`, `annotations`, `certs`, `exprs`, `turned` | the tree that callers get (`GivenTrees` of `cov_text`), into which what was read is moved |
//!
//! `specs/Inside` has words of private contracts, which no promise cites.
#![tactic(auto)]

mod annotations;
mod certs;
mod counts;
mod exprs;
mod limits;
mod measures;
mod name_uses;
mod programs;
mod stmts;
mod text;
mod tokens;
mod turned;
mod versions;

pub use text::{ParsedExpr, parse, parse_expr};
pub use tokens::{Tokens, read_tokens};
