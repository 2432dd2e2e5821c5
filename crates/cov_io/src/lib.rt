//! The outside of the program: where files are read from, and where the report is written to.
//!
//! - [`Shelf`]: files are fetched from it by name, with a limit of length. [`MemShelf`] holds them in memory and fails
//!   at chosen calls; [`DiskShelf`] reads them by the calls of a [`Disk`], and is a [`FileShelf`] over the files of the
//!   system.
//! - [`Sink`]: bytes are put to it. [`MemSink`] keeps them in memory and fails at chosen puts; [`OutputSink`] writes
//!   them by the call of an [`Output`], and is a [`StdSink`] over standard output.
//! - [`write_whole`]: puts all of a text.
//!
//! What a call may answer is said by the traits, for every implementation: `Gives` of `specs/Shelves.antt` for a fetch,
//! `Puts` and `Writes` of `specs/Sinks.antt` for a put and for a whole write. Each is by cases on the answer and speaks
//! of what the shelf or the sink means before and after the call: what it holds, where it tells that, and how often a
//! call failed. So a fault is never answered unless the count of the object at hand rose in the call.
//!
//! The two implementations in memory are exact: `specs/MemShelves.antt` and `specs/MemSinks.antt` have their next answer
//! and their next state as functions.
//!
//! A disk and an output may tell too, and count how often a call was interrupted and how often one failed. So it is
//! proved, of every disk and output, that what is fetched is all the bytes under the very name that was asked for, that
//! this name alone is opened, once, and that no byte is read but up to one past the limit (`HasAsked` of
//! `specs/Disks.antt`), and that as many bytes are answered as were written; and `IsCaused` of `specs/Disks.antt` and
//! `IsPutCaused` of `specs/Outputs.antt` say that a fault stands for one error, or for a call that was interrupted each
//! time that it was made, and that no other answer had an error. [`retries_have_their_value`] has no body: it says how often that is. The system tells nothing: its three calls stand in
//! `src/system.rt`.
#![tactic(auto)]

mod counts;
mod disk;
mod disk_shelf;
mod laws;
mod mem_shelf;
mod mem_sink;
mod output;
mod output_sink;
mod shelf;
mod sink;
mod system;
mod trouble;

pub use disk::Disk;
pub use disk_shelf::{DiskShelf, FileShelf};
pub use laws::retries_have_their_value;
pub use mem_shelf::MemShelf;
pub use mem_sink::MemSink;
pub use output::Output;
pub use output_sink::{OutputSink, StdSink};
pub use shelf::{Fetched, Shelf, ShelfFault};
pub use sink::{Failed, Sink, write_whole};
pub use trouble::CallError;
