//! Whether the modes of the threads fit together, and what follows from it: what one thread may write is disjoint from
//! what another has stable.
//!
//! - [`check_modes`]: what a thread assumes is under no lock (W6), controls are kept with what they control (W7, W8), and
//!   what one thread assumes every other guarantees (W9).
//! - [`writable_and_stable_are_disjoint`] and [`sets_are_holdings`] have no body: their contracts are laws.
#![tactic(auto)]

mod controls;
mod laws;
mod locked;
mod modes;
mod pairs;

pub use laws::{sets_are_holdings, writable_and_stable_are_disjoint};
pub use modes::check_modes;
