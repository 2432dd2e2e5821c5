//! The compiler: the RISC code of an accepted program.
//!
//! - [`compile`]: the code of the program of a verdict, as `compiled` of `compiled_code` defines it. [`parts_of`]: its parts, where there is no verdict at hand.
//!
//! Each thread is one walk over its statements, which adds lines at the end. A jump forwards gets its target once the end of
//! its block is known. Registers that keep a stable variable are recorded by a plan of `regalloc`, and which variables are
//! stable is told by the modes of the thread at the locks that it holds there.
#![tactic(auto)]

mod emitter;
mod expressions;
mod program;
mod statements;

pub use program::{compile, parts_of};
