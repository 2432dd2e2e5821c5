//! What a text spells, and its first fault.
//!
//! - [`ParseFault`], [`Counted`]: why a text isn't read; [`Excess`], [`Limit`]: the limit that a tree doesn't keep.
//! - [`deep`]: where brackets or marks nest too deep.
//!
//! `specs/Text.antt` says what a text spells and which fault is its first, `specs/Versioned.antt` which words its version
//! has, `specs/GivenTrees.antt` which tree callers get, `specs/Limits.antt` the limits of trees, `specs/Named.antt` which numbers declarations are named by. That a text has one tree or
//! one fault, and what every tree of a text keeps, is proved here, apart from the code that reads it.
#![tactic(auto)]

mod depth;
mod fault;

pub use depth::deep;
pub use fault::{Counted, Excess, Limit, ParseFault};
