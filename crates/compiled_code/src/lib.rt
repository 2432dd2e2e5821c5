//! The code of a program as a definition, and that it is good code: it matches the program step for step, is as secure as the
//! program, and meets the load bound.
//!
//! The definitions stand in `specs/`: `Compiled` has the code, `Matches` when code matches a program, `SecureCode` the secure
//! code, `LoadBound` how often code may load a variable, `GoodCode` all three, and `Records` when what registers keep is true.
//! `proofs/Examples.antt` computes worked rows.
//!
//! Each function is a law, without code of its own: [`compiled_matches`], [`compiled_is_secure`], [`loads_are_few`],
//! [`records_last`] and [`compiled_is_good`] speak of accepted programs, [`compiled_is_code`] of every well formed one.
#![tactic(auto)]

mod laws;

pub use laws::{
    compiled_is_code, compiled_is_good, compiled_is_secure, compiled_matches, loads_are_few,
    records_last,
};
