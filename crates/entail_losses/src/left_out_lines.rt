//! The lines of what was left out.

ghost use Rattle.std.specs.Prelude.{◌≡◌, ◌++◌, OnOk, Some, map};
ghost use Rattle.cov_expr.specs.View.{term};
ghost use Rattle.cov_ast.specs.Plain.{plain};
ghost use Rattle.cov_ast.specs.View as view;
ghost use Rattle.entail_losses.specs.LeftOut.{seen};
ghost use Rattle.entail_losses.specs.LeftOutLines as spec;

use crate::left_out_found::LeftOut;
use crate::left_out_states::{StateAt, StateKind};
use crate::state_words::{add_kind, add_line, add_line_part};
use cov_ast::{NameTable, Program};
use cov_expr::{Blob, NoMemory};
use cov_print::add_expr;
use entail_origins::{Origin, add_origin};

/// Adds a line for each predicate that was left out.
pub fn add_left_out_lines(
    p: &Program,
    names: &NameTable,
    bytes: &[u8],
    found: &[LeftOut],
    text: &mut Blob,
) -> Result<(), NoMemory>
    ensures { OnOk result (text.new ≡ text.old ++ spec.left_out_lines (plain (view.program p.now)) names.now bytes.now (map seen found.now)) }
{
    for one in found {
        add_left_out_line(p, names, bytes, false, one, text)?;
    }
    Ok(())
}

/// Adds the line of a predicate that was left out, with whether it alone would help.
pub fn add_left_out_line(
    p: &Program,
    names: &NameTable,
    bytes: &[u8],
    helps: bool,
    one: &LeftOut,
    text: &mut Blob,
) -> Result<(), NoMemory>
    ensures { OnOk result (text.new ≡ text.old ++ spec.left_out_line (plain (view.program p.now)) names.now bytes.now helps (seen one.now)) }
{
    text.extend_from_slice(label(helps).as_bytes())?;
    add_expr(names, false, &one.term, text)?;
    add_origin_part(p, bytes, one.origin, text)?;
    let state_label = if helps {
        match one.state.kind {
            StateKind::Join | StateKind::Note => ", left out by the ",
            StateKind::Inv => ", if each turn keeps it; left out by the ",
        }
    } else {
        ", by the "
    };
    text.extend_from_slice(state_label.as_bytes())?;
    add_kind(one.state.kind, text)?;
    add_line(bytes, one.state.at, text)?;
    add_further_part(bytes, one.last, text)
}

/// What stands in front of a predicate.
fn label(helps: bool) -> &'static str
    ensures { result.now ≡ spec.label helps }
{
    if helps {
        "  would help:   "
    } else {
        "  left out:     "
    }
}

/// Adds what gives a predicate, and its line.
pub fn add_origin_part(
    p: &Program,
    bytes: &[u8],
    origin: Origin,
    text: &mut Blob,
) -> Result<(), NoMemory>
    ensures { OnOk result (text.new ≡ text.old ++ spec.origin_part (plain (view.program p.now)) bytes.now origin) }
{
    text.extend_from_slice(b"   (")?;
    add_origin(p, bytes, origin, text)?;
    text.extend_from_slice(b")")
}

/// Adds that the states behind that one have to list a predicate too, if there are some, and ends the line.
fn add_further_part(bytes: &[u8], last: Option<StateAt>, text: &mut Blob) -> Result<(), NoMemory>
    ensures { OnOk result (text.new ≡ text.old ++ spec.further_part bytes.now last) }
{
    match last {
        Some(last) => {
            text.extend_from_slice(b"; each state since has to list it too, up to the ")?;
            add_kind(last.kind, text)?;
            add_line_part(bytes, last.at, text)
        }
        None => text.extend_from_slice(b"\n"),
    }
}
