//! The words on a state on the way to a point.

ghost use Rattle.std.specs.Prelude.{◌≡◌, ◌++◌, OnOk};
ghost use Rattle.entail_losses.specs.StateWords as spec;

use crate::left_out_states::StateKind;
use cov_expr::{Blob, NoMemory};
use text_parts::{add_number, position};

/// Adds what a state is.
pub fn add_kind(kind: StateKind, text: &mut Blob) -> Result<(), NoMemory>
    ensures { OnOk result (text.new ≡ text.old ++ spec.kind_text kind) }
{
    let kind_text = match kind {
        StateKind::Join => "join of the `if`",
        StateKind::Inv => "inv of the `while`",
        StateKind::Note => "note",
    };
    text.extend_from_slice(kind_text.as_bytes())
}

/// Adds the line of a state.
pub fn add_line(bytes: &[u8], at: u32, text: &mut Blob) -> Result<(), NoMemory>
    ensures { OnOk result (text.new ≡ text.old ++ spec.line_text bytes.now at) }
{
    text.extend_from_slice(b", line ")?;
    add_number(position(bytes, at as usize).line, text)
}

/// Adds the line of a state, and ends the line of text.
pub fn add_line_part(bytes: &[u8], at: u32, text: &mut Blob) -> Result<(), NoMemory>
    ensures { OnOk result (text.new ≡ text.old ++ spec.line_part bytes.now at) }
{
    add_line(bytes, at, text)?;
    text.extend_from_slice(b"\n")
}
