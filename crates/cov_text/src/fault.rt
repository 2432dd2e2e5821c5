//! Why a text isn't read: the faults of its bytes, its tokens and its limits.

ghost use Rattle.std.specs.Prelude.{◌≡◌};
ghost use Rattle.cov_text.specs.declared.fault.ParseFault.TheVariants as faults;
ghost use Rattle.cov_text.specs.Text.{lexical, unexpected, fault_of};

use cov_expr::NoMemory;
use cov_grammar::TokenFault;
use cov_lex::LexFault;

/// What a text may have only so many of.
#[derive(Clone, Copy, Debug, PartialEq, Eq)]
pub enum Counted {
    /// Variables: `MOST_VARIABLES`.
    Variables,
    /// Locks: `MOST_LOCKS`.
    Locks,
    /// Threads: `MOST_THREADS`.
    Threads,
    /// Statements of all threads, nested ones included: `MOST_STATEMENTS`.
    Statements,
    /// Nodes of an expression: `MOST_NODES`.
    Nodes,
    /// Nodes of a certificate, without the expressions inside: `MOST_CERT_NODES`.
    CertNodes,
    /// Predicates of a state: `MOST_PREDICATES`.
    Predicates,
    /// Types of a state: `MOST_TYPES`.
    Types,
}

/// Why a text isn't read. Each fault but the last has the offset of a byte.
#[derive(Clone, Copy, Debug, PartialEq, Eq)]
pub enum ParseFault {
    /// A byte that begins no token, blank or comment.
    BadByte(u32),
    /// A number above 4294967295, at its first digit.
    NumberTooLarge(u32),
    /// A word of more than 32 bytes, at its first letter.
    NameTooLong(u32),
    /// The first token with which no text of the language goes on, or the length of the text, whose tokens can go on.
    Unexpected(u32),
    /// The first of too many.
    TooMany(Counted, u32),
    /// Brackets, marks, blocks, an expression or a certificate that nest too deep.
    TooDeep(u32),
    /// Memory ran out.
    NoMemory,
}

impl From<NoMemory> for ParseFault {
    ghost from_gives = { λ _ fault. fault ≡ faults.NoMemory };

    fn from(_error: NoMemory) -> Self {
        ParseFault::NoMemory
    }
}

impl From<LexFault> for ParseFault {
    ghost from_gives = { λ error fault. fault ≡ lexical error };

    fn from(error: LexFault) -> Self {
        match error {
            LexFault::BadByte(at) => ParseFault::BadByte(at),
            LexFault::NumberTooLarge(at) => ParseFault::NumberTooLarge(at),
            LexFault::NameTooLong(at) => ParseFault::NameTooLong(at),
            LexFault::NoMemory => ParseFault::NoMemory,
        }
    }
}

impl From<TokenFault> for ParseFault {
    ghost from_gives = { λ error fault. fault ≡ unexpected error };

    fn from(error: TokenFault) -> Self {
        match error {
            TokenFault::Unexpected(at) => ParseFault::Unexpected(at),
            TokenFault::NoMemory => ParseFault::NoMemory,
        }
    }
}

impl From<Excess> for ParseFault {
    ghost from_gives = { λ error fault. fault ≡ fault_of error };

    fn from(error: Excess) -> Self {
        match error.limit {
            Limit::TooMany(counted) => ParseFault::TooMany(counted, error.at),
            Limit::TooDeep => ParseFault::TooDeep(error.at),
        }
    }
}

/// A limit that a tree doesn't keep, and the offset where it breaks it.
#[derive(Clone, Copy)]
pub struct Excess {
    pub at: u32,
    pub limit: Limit,
}

/// A limit of trees.
#[derive(Clone, Copy)]
pub enum Limit {
    TooMany(Counted),
    TooDeep,
}
