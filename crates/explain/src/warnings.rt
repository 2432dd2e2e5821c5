//! The lines of what is warned of.

ghost use Rattle.std.specs.Prelude.{◌≡◌, ◌≤◌, ◌++◌, length, OnOk};
ghost use Rattle.cov_ast.specs.Plain.{plain};
ghost use Rattle.cov_ast.specs.View as view;
ghost use Rattle.cov_expr.specs.declared.limits.TheConstants.{MOST_BYTES};
ghost use Rattle.explain.specs.WarningSentences as spec;
ghost use Rattle.explain.specs.HiddenText as hidden;
ghost use Rattle.explain.specs.Warnings as found;

use crate::explanation::add_where;
use crate::hidden::text_warnings;
use crate::merged::{merged_by_place, of_program};
use crate::sentences::add_cause_sentence;
use crate::warning::Warning;
use cov_ast::Program;
use cov_expr::{Blob, NoMemory};
use std::alloc::Global;

/// Adds what is warned of in a program, and in the bytes of its text.
pub fn add_warnings(
    alloc: Global,
    name: &str,
    bytes: &[u8],
    program: &Program,
    text: &mut Blob,
) -> Result<(), NoMemory>
    requires { length bytes.now ≤ MOST_BYTES }
    ensures { OnOk result (text.new ≡ text.old
        ++ spec.warning_lines name.now bytes.now (found.warnings (plain (view.program program.now)) bytes.now)) }
{
    let first = of_program(alloc, program)?;
    let second = text_warnings(alloc, bytes)?;
    let found = merged_by_place(alloc, first.as_slice(), second.as_slice())?;
    add_warning_lines(name, bytes, found.as_slice(), text)
}

/// Adds what is warned of in bytes alone.
pub fn add_text_warnings(
    alloc: Global,
    name: &str,
    bytes: &[u8],
    text: &mut Blob,
) -> Result<(), NoMemory>
    requires { length bytes.now ≤ MOST_BYTES }
    ensures { OnOk result (text.new ≡ text.old ++ spec.warning_lines name.now bytes.now (hidden.text_warnings bytes.now)) }
{
    let found = text_warnings(alloc, bytes)?;
    add_warning_lines(name, bytes, found.as_slice(), text)
}

/// Adds a line for each warning.
fn add_warning_lines(
    name: &str,
    bytes: &[u8],
    found: &[Warning],
    text: &mut Blob,
) -> Result<(), NoMemory>
    ensures { OnOk result (text.new ≡ text.old ++ spec.warning_lines name.now bytes.now found.now) }
{
    for warning in found {
        add_where(name, bytes, warning.place as usize, text)?;
        text.extend_from_slice(b"warning: ")?;
        add_cause_sentence(&warning.cause, text)?;
        text.extend_from_slice(b"\n")?;
    }
    Ok(())
}
