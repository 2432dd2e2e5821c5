//! The sentences of the faults of a text.

ghost use Rattle.std.specs.Prelude.{◌≡◌, ◌++◌, OnOk};
ghost use Rattle.explain.specs.FaultSentences as spec;

use crate::bytes::add_byte_sentence;
use crate::words::add_token_sentence;
use call_reports::FaultKind;
use cov_expr::{Blob, NoMemory};

/// Adds the sentence of a fault of a text, by the text from its place on.
pub fn add_fault_sentence(kind: FaultKind, rest: &[u8], text: &mut Blob) -> Result<(), NoMemory>
    ensures { OnOk result (text.new ≡ text.old ++ spec.fault_sentence kind rest.now) }
{
    match kind {
        FaultKind::Token => add_token_sentence(rest, text),
        FaultKind::Byte => add_byte_sentence(rest, text),
        FaultKind::Number => text.extend_from_slice(b"this number is above 4294967295"),
        FaultKind::Name => text.extend_from_slice(b"this word has more than 32 bytes"),
        FaultKind::Limit => {
            text.extend_from_slice(
                b"what begins here passes a limit of programs: on how many of its kind there are, or how many parts it has",
            )
        }
        FaultKind::Depth => {
            text.extend_from_slice(
                b"what begins here passes a limit of programs: on how deep it lies in others, or how high it is",
            )
        }
        FaultKind::Unknown => text.extend_from_slice(b"this name is that of no variable"),
    }
}
