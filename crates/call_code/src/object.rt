//! `object`: the object of the code of an accepted program.

ghost use Rattle.call_code.specs.Objects.{RepliesObject, WritesObject, object_plan};
ghost use Rattle.call_inputs.specs.Plans.{CarriesOut};
ghost use Rattle.call_inputs.specs.Rejections.{UnlessRejected};
ghost use Rattle.call_judge.specs.Check.{rejection};
ghost use Rattle.call_reports.specs.AnswerViews.{Gets};
ghost use Rattle.cov_ast.specs.Ready.{IsReady};
ghost use Rattle.cov_ast.specs.View as view;
ghost use Rattle.risc_machine.specs.Faults.{AreGood};

use crate::codes::coded_text;
use call_inputs::read_program;
use call_reports::{Answer, Stop};
use compiled_code::compiled_is_code;
use cov_ast::Parsed;
use cov_io::Shelf;
use object_code::object as written;
use risc_machine::Code;
use std::alloc::Global;

/// Writes the object of the code of the program of a file.
pub fn object<'w, S: Shelf>(
    alloc: Global,
    name: &'w str,
    shelf: &mut S,
) -> Result<Answer<'w>, Stop<'w>>
    ensures { CarriesOut (S.shelved shelf.old) (S.shelved shelf.new) (object_plan name.now) result }
{
    let parsed = read_program(alloc, name, shelf)?;
    object_text(alloc, parsed)
}

/// Writes the object of the code of what a text spells.
fn object_text<'w>(alloc: Global, parsed: Parsed) -> Result<Answer<'w>, Stop<'w>>
    requires { IsReady (view.parsed parsed) }
    ensures { let p = view.parsed parsed in Gets (UnlessRejected (rejection p) (WritesObject p)) result }
{
    let coded = coded_text(alloc, parsed)?;
    compiled_is_code();
    object_of(alloc, &coded.code)
}

/// Writes the object of code.
fn object_of<'w>(alloc: Global, code: &Code) -> Result<Answer<'w>, Stop<'w>>
    requires { AreGood code.now }
    ensures { Gets (RepliesObject code.now) result }
{
    Ok(Answer::Spelled(written(alloc, code)?))
}
