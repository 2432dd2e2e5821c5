//! The call of `check` alone: what the program does with the command line of a first verdict, as a library.
//!
//! - [`check_call`] takes the words of a command line, the files (a shelf) and the output (a sink), and ends with a status. Of the words `check P` it promises what
//!   the top call (`top_call`) does, by the same definitions; words of no other form are taken. So it stands on less, and is proved and built sooner.
//!
//! | `src/` | `specs/` | what it has |
//! |---|---|---|
//! | `call` | `Checking`, `Secured` | the call; what is done with the words; what it says of a file that it is accepted |
#![tactic(auto)]

mod call;

pub use call::check_call;
