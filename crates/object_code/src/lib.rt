//! Code as bytes.
//!
//! - [`object`]: the object of a code. `specs/Object.antt` says which bytes that are.
//! - [`read_object`]: the code of an object, or the first byte with which no object goes on. `specs/ObjectAnswers.antt` says what it
//!   answers.
//! - [`no_object_begins_another`] and the functions beside it have no body: their contracts are laws.
#![tactic(auto)]

mod bytes;
mod fault;
mod field;
mod laws;
mod line;
mod opcode;
mod parts;
mod read;
mod repeated;
mod stop;

pub use bytes::object;
pub use fault::ObjectFault;
pub use laws::{no_object_begins_another, objects_have_two_faults, objects_tell_code};
pub use read::read_object;
