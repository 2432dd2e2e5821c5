//! Limits of texts, programs and their parts, and of the other inputs. What is past one is refused.
//!
//! - Of each text: [`MOST_BYTES`], [`MOST_BRACKETS`], [`MOST_MARKS`], [`MOST_NAME_BYTES`].
//! - Of a program: [`MOST_VARIABLES`], [`MOST_LOCKS`], [`MOST_THREADS`], [`MOST_STATEMENTS`], [`MOST_BLOCKS`].
//! - Of an expression, a certificate, a state: [`MOST_NODES`], [`MOST_HEIGHT`], [`MOST_CERT_NODES`],
//!   [`MOST_PREDICATES`], [`MOST_TYPES`].
//! - Of the other inputs: [`MOST_INPUT_BYTES`], [`MOST_ENTRIES`], [`MOST_EXPRESSION_BYTES`], [`MOST_ROUNDS`],
//!   [`MOST_TRIALS`].
//! - Of a listing and of an object that are read back: [`MOST_LISTING_BYTES`], [`MOST_OBJECT_BYTES`], which the calls ask for and don't
//!   try.
//!
//! Their values are pinned by `AreTheLimits` of `specs/Limits.antt`.

/// Bytes of the text of a program.
pub const MOST_BYTES: usize = 1_048_576;

/// Brackets of a text that are open at once.
pub const MOST_BRACKETS: u32 = 200;

/// Marks `!` in a row.
pub const MOST_MARKS: u32 = 64;

/// Bytes of a name of a variable, a lock or a thread.
pub const MOST_NAME_BYTES: usize = 32;

/// Variables of a program.
pub const MOST_VARIABLES: usize = 256;

/// Locks of a program.
pub const MOST_LOCKS: usize = 64;

/// Threads of a program.
pub const MOST_THREADS: usize = 16;

/// Statements of all threads, nested ones included.
pub const MOST_STATEMENTS: u32 = 20_000;

/// Blocks inside one another.
pub const MOST_BLOCKS: u32 = 64;

/// Nodes of an expression.
pub const MOST_NODES: u32 = 1000;

/// Height of an expression, and of a certificate. A leaf has height 1.
pub const MOST_HEIGHT: u32 = 64;

/// Nodes of a certificate, without the expressions inside.
pub const MOST_CERT_NODES: u32 = 10_000;

/// Predicates of a state, and of a point.
pub const MOST_PREDICATES: usize = 64;

/// Types of a state.
pub const MOST_TYPES: usize = 256;

/// Bytes of a JSON file: a start, a schedule.
pub const MOST_INPUT_BYTES: usize = 4_194_304;

/// Entries of a schedule, each a turn of one thread.
pub const MOST_ENTRIES: usize = 100_000;

/// Bytes of an expression that is given as a word of a command.
pub const MOST_EXPRESSION_BYTES: usize = 4_096;

/// Rounds of a generated program.
pub const MOST_ROUNDS: u32 = 200;

/// Trials of a program, numbered from 1.
pub const MOST_TRIALS: u32 = 1000;

/// Bytes of a text that is read as a listing.
pub const MOST_LISTING_BYTES: usize = 268_435_456;

/// Bytes that are read as an object.
pub const MOST_OBJECT_BYTES: usize = 16_777_216;
