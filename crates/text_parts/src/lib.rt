//! Parts of a text: names of a program's variables and locks, and numbers; and lines and columns of a text, and what it looks like
//! around a place.
//!
//! - [`add_variable_name`], [`add_variable_names`], [`add_lock_name`], [`add_number`], [`add_line_of`]: each adds its part to a text and leaves what stands there. A number that no
//!   declaration has adds nothing.
//! - [`variable_names`]: the names of all variables, with which expressions of the program are spelled (`specs/VariableNames.antt`).
//! - [`position`]: the line and the column of a place, both counted from 1 ([`LineColumn`]).
//! - [`add_excerpt`]: the line of a place and, below it, a caret under the place.
//! - [`excerpts_have_their_lengths`] has no body: how much of a line is shown.
//! - [`halves`]: the bytes before a place, and those from it on.
//!
//! A place is the offset of a byte, or the length of the text; what is past it is taken as that. `specs/Lines.antt` says what
//! its line and its column are, and `specs/Excerpts.antt` what an excerpt shows.
#![tactic(auto)]

mod excerpt;
mod laws;
mod lines;
mod names;

ghost use Rattle.std.specs.Prelude.{◌≡◌, ◌++◌, OnOk, decimal, flat_map};
ghost use Rattle.cov_ast.specs.Declarations.{lock_at, name_of};
ghost use Rattle.cov_ast.specs.Plain.{plain};
ghost use Rattle.cov_ast.specs.View as view;
ghost use Rattle.text_parts.specs.Lines.{line};
ghost use Rattle.text_parts.specs.VariableNames.{spaced_name};

use cov_ast::Program;
use cov_expr::{Blob, NoMemory};
pub use excerpt::add_excerpt;
use itoa::Buffer;
pub use laws::excerpts_have_their_lengths;
pub use lines::{LineColumn, halves, position};
pub use names::variable_names;

/// Adds the name of a variable.
pub fn add_variable_name(p: &Program, x: u32, text: &mut Blob) -> Result<(), NoMemory>
    ensures { OnOk result (text.new ≡ text.old ++ name_of (plain (view.program p.now)) x) }
{
    match p.vars.as_slice().get(x as usize) {
        Some(var) => text.extend_from_slice(var.name.text()),
        None => Ok(()),
    }
}

/// Adds the names of variables, each behind a blank.
pub fn add_variable_names(p: &Program, xs: &[u32], text: &mut Blob) -> Result<(), NoMemory>
    ensures { OnOk result (text.new ≡ text.old ++ flat_map (spaced_name (plain (view.program p.now))) xs.now) }
{
    for x in xs {
        text.extend_from_slice(b" ")?;
        add_variable_name(p, *x, text)?;
    }
    Ok(())
}

/// Adds the name of a lock.
pub fn add_lock_name(p: &Program, l: u32, text: &mut Blob) -> Result<(), NoMemory>
    ensures { OnOk result (text.new ≡ text.old ++ (lock_at (plain (view.program p.now)) l).name) }
{
    match p.locks.as_slice().get(l as usize) {
        Some(lock) => text.extend_from_slice(lock.name.text()),
        None => Ok(()),
    }
}

/// Adds a number in decimal.
pub fn add_number(n: usize, text: &mut Blob) -> Result<(), NoMemory>
    ensures { OnOk result (text.new ≡ text.old ++ decimal n) }
{
    let mut buffer = Buffer::new();
    text.extend_from_slice(buffer.format(n).as_bytes())
}

/// Adds the number of the line of a place.
pub fn add_line_of(bytes: &[u8], place: u32, text: &mut Blob) -> Result<(), NoMemory>
    ensures { OnOk result (text.new ≡ text.old ++ decimal (line bytes.now place)) }
{
    add_number(position(bytes, place as usize).line, text)
}
