//! What the machines do, and what it means that two runs agree.
//!
//! The definitions stand in `specs/`: `Runs` has runs of any machine, alone and side by side, `Source` the source machine,
//! `Holdings` what is hidden, stable and writable under given holders, `Agreement` when memories, states and starts agree,
//! `Secure` the secure program, `Game` the secure thread, `Composable` what lets secure threads make a secure program, and
//! `FirstDifference` on what two memories or two states don't agree first.
//!
//! - [`agree`] and [`starts`]: whether two memories agree, and whether they are fit to start from; where not, what comes first.
//! - [`threads_compose`] has no body: its contract is a law, and so it is with [`no_difference_is_agreement`] and
//!   [`no_bad_start_is_fitness`].
#![tactic(auto)]

mod agreement;
mod laws;
mod machine;
mod marks;
mod start;

pub use agreement::{Differ, agree};
pub use laws::{no_bad_start_is_fitness, no_difference_is_agreement, threads_compose};
pub use machine::{Holder, Stepped};
pub use start::{BadStart, starts};
