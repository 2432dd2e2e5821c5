//! The lines of what stores forgot.

ghost use Rattle.std.specs.Prelude.{◌≡◌, ◌++◌, OnOk, Some, map};
ghost use Rattle.cov_ast.specs.Plain.{plain};
ghost use Rattle.cov_ast.specs.View as view;
ghost use Rattle.entail_losses.specs.Forgotten.{seen};
ghost use Rattle.entail_losses.specs.ForgottenLines as spec;

use crate::forgotten_found::ForgottenPart;
use crate::left_out_states::StateAt;
use crate::state_words::{add_kind, add_line_part};
use cov_ast::{NameTable, Program};
use cov_expr::{Blob, NoMemory};
use cov_print::add_expr;
use entail_origins::add_origin;

/// Adds a line for each part of a predicate that a store forgot: the part, what gives the whole, and what would keep it.
pub fn add_forgotten_lines(
    p: &Program,
    names: &NameTable,
    bytes: &[u8],
    found: &[ForgottenPart],
    text: &mut Blob,
) -> Result<(), NoMemory>
    ensures { OnOk result (text.new ≡ text.old ++ spec.forgotten_lines (plain (view.program p.now)) names.now bytes.now (map seen found.now)) }
{
    for one in found {
        add_forgotten_line(p, names, bytes, false, one, text)?;
    }
    Ok(())
}

/// Adds the line of one part, with whether it alone would help.
pub fn add_forgotten_line(
    p: &Program,
    names: &NameTable,
    bytes: &[u8],
    helps: bool,
    one: &ForgottenPart,
    text: &mut Blob,
) -> Result<(), NoMemory>
    ensures { OnOk result (text.new ≡ text.old ++ spec.forgotten_line (plain (view.program p.now)) names.now bytes.now helps (seen one.now)) }
{
    text.extend_from_slice(label(helps).as_bytes())?;
    add_expr(names, false, &one.part, text)?;
    text.extend_from_slice(b"   (part of the ")?;
    add_origin(p, bytes, one.origin, text)?;
    text.extend_from_slice(b")")?;
    text.extend_from_slice(
        b": a store since to another variable of it forgets the whole in any case; this part would be kept, had a note right behind that line listed it",
    )?;
    add_states(bytes, one.state, text)
}

/// What stands in front of a part.
fn label(helps: bool) -> &'static str
    ensures { result.now ≡ spec.label helps }
{
    if helps {
        "  would help:   "
    } else {
        "  forgotten:    "
    }
}

/// Adds which states have to list a part, beside a note, and ends the line.
fn add_states(bytes: &[u8], state: Option<StateAt>, text: &mut Blob) -> Result<(), NoMemory>
    ensures { OnOk result (text.new ≡ text.old ++ spec.states_text bytes.now state) }
{
    match state {
        Some(state) => {
            text.extend_from_slice(b", and each state since, such as the ")?;
            add_kind(state.kind, text)?;
            add_line_part(bytes, state.at, text)
        }
        None => text.extend_from_slice(b"\n"),
    }
}
