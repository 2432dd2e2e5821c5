//! Starts and schedules from JSON, and replays: a schedule is run on one machine, or on two side by side.
//!
//! - [`read_start`] and [`read_schedule`]: the words of a start and the entries of a schedule, or the first fault.
//! - [`run`]: runs a schedule. [`run_until`]: until an expression holds. [`pair`]: on two machines, until they don't
//!   agree.
//! - [`run_code`] and [`pair_code`]: the same as [`run`] and [`pair`] on code.
//! - [`Machine`], [`run_on`] and [`pair_on`]: what a machine has to give, and the replays of any that gives it.
//!
//! What a JSON value says stands in `specs/Starts.antt` and `specs/Schedules.antt`, as functions of the value that
//! `serde_json` reads (`specs/Json.antt`). What replays answer is said of every machine in `Runs.antt` of `flow_model`;
//! `specs/Machines.antt` has what a machine gives for it, and `specs/Replays.antt` and `specs/CodeReplays.antt` have the words
//! for programs and for code. `specs/Inside` has words of private contracts alone. Replays take no memory.
#![tactic(auto)]

mod code_replays;
mod fault;
mod machine;
mod replays;
mod schedule;
mod start;
mod values;

pub use code_replays::{pair_code, run_code};
pub use fault::{ScheduleFault, StartFault};
pub use machine::Machine;
pub use replays::{Found, Until, pair, pair_on, run, run_on, run_until};
pub use schedule::read_schedule;
pub use start::read_start;
