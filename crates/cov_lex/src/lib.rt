//! Texts of programs as tokens.
//!
//! - [`lex`]: the tokens of a text, or its lexical fault of least offset. Contracts see both as `tokens_of` of
//!   `specs/Lexing.antt`, which is the only reading of a text as tokens.
//! - [`tokens`]: the same as the grammar takes them, with the kind of each keyword and sign, as `specs/Classified.antt` says.
//! - [`Token`], [`TokenKind`]: where a token stands, and what it is. `specs/Tokens.antt` says which bytes each kind has.
//! - [`digits_value`]: the number that digits are.
//! - [`LexFault`]: why a text has no tokens.
#![tactic(auto)]

mod fault;
mod lexer;
mod number;
mod piece;
mod token;

pub use fault::LexFault;
pub use lexer::{lex, tokens};
pub use number::digits_value;
pub use token::{Token, TokenKind};
