//! What a command takes: the words of a command line, and files that are read as programs, one behind the other.
//!
//! What a command does is a plan (`specs/Plans`): what it reads, one behind the other, what it may reply then, and of how many statements
//! a judge of threads is asked for that. Which calls of a shelf a reading makes, how it ends by them, and how it ends over files that are
//! told, are said once (`specs/Readings`), by recursion.
//!
//! | `src/` | `specs/` | what it has |
//! |---|---|---|
//! | `words` | | the words of the command line, as the programs take them from the system |
//! | | `Readings`, `Rejections`, `Plans`, `Steps` | readings: how they end by the calls of a shelf, and over files; why something that was read is rejected; plans; the readings of one file |
//! | `files` | `Programs` | how a file is fetched, and read as a program |
#![tactic(auto)]

mod files;
mod words;

pub use files::{fetch, parse_text, read_program, read_text, text_fault, unread};
pub use words::command_line;
