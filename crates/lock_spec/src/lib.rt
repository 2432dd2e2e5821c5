//! The rules of locks: which variables a lock stands for, and what its invariant may speak of.
//!
//! - [`check_locks`]: no variable stands in two lists of locks (W4), and an invariant speaks of the variables of its lock
//!   alone (W5).
//! - [`under`]: the lock that a variable is under.
#![tactic(auto)]

mod locks;

pub use locks::{check_locks, under};
