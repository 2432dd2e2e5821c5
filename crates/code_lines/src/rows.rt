//! Lines of code with their positions.

ghost use Rattle.std.specs.Prelude.{◌≡◌, ◌<◌, ◌+◌, ◌^◌, ◌++◌, All, OnOk, length};
ghost use Rattle.code_lines.specs.CodeLines as spec;
ghost use Rattle.code_text.specs.Listing.{IsSpelled};

use code_text::add_line;
use cov_expr::{Blob, NoMemory};
use risc_machine::{Line, Parts};
use text_parts::add_number;

/// Adds lines, each behind its position, of which the first is given.
pub fn add_rows(parts: &Parts, from: usize, lines: &[Line], text: &mut Blob) -> Result<(), NoMemory>
    requires spelled { All (IsSpelled (parts.now).vars (parts.now).locks) lines.now }
    requires few { from + length lines.now < 2 ^ 64 }
    ensures { OnOk result (text.new ≡ text.old ++ spec.rows parts.now from lines.now) }
{
    for (i, line) in lines.iter().enumerate() {
        add_position(from + i, text)?;
        add_line(parts, line, text)?;
    }
    Ok(())
}

/// Adds a position, with blanks around it.
pub fn add_position(i: usize, text: &mut Blob) -> Result<(), NoMemory>
    ensures { OnOk result (text.new ≡ text.old ++ spec.position i) }
{
    text.extend_from_slice(blanks(i))?;
    add_number(i, text)?;
    text.extend_from_slice(b"  ")
}

/// The blanks in front of a position.
fn blanks(i: usize) -> &'static [u8]
    ensures { result.now ≡ spec.blanks i }
{
    if i < 10 {
        b"    "
    } else if i < 100 {
        b"   "
    } else if i < 1000 {
        b"  "
    } else if i < 10000 {
        b" "
    } else {
        b""
    }
}
