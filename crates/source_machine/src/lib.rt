//! The source machine: runs a program step by step, under any schedule.
//!
//! - [`Source`]: a program that runs, with its memory, the holders of its locks, what it put out, and what remains of each
//!   thread. Only `start` takes memory.
//! - [`Change`]: what a step of a thread changes beside what remains of the thread.
//!
//! What runs do stands in `flow_model/specs`, over lists of items, and is promised as it stands there: `begin`, `step`,
//! `stays_at`, `says` and `first_place` in `Source.antt`, and in `Agreement.antt` when items are alike. A machine starts as `begin`
//! of its plain program, each of its steps is a `step` of its run, which stays exactly where `stays_at` says so, and
//! `done`, `place`, `change`, `same_list` and `same_lists` speak of the items that remain.
//!
//! The code keeps frames with places in the one program. `specs/Frames.antt` says for which items they stand, and
//! `specs/SourceMachine.antt` what contracts see of a machine, which run it stands for, and what its calls answer.
//! `specs/Inside` has words of private contracts alone.
#![tactic(auto)]

mod change;
mod height;
mod shared;
mod source;
mod thread;

pub use change::Change;
pub use source::Source;
