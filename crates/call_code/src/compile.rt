//! `compile`: the listing of the code of an accepted program.

ghost use Rattle.call_code.specs.Codes.{Compiles, RepliesListing, compile_plan};
ghost use Rattle.call_inputs.specs.Plans.{CarriesOut};
ghost use Rattle.call_inputs.specs.Rejections.{UnlessRejected};
ghost use Rattle.call_judge.specs.Check.{rejection};
ghost use Rattle.call_reports.specs.AnswerViews.{Gets};
ghost use Rattle.cov_ast.specs.Ready.{IsReady};
ghost use Rattle.cov_ast.specs.View as view;
ghost use Rattle.risc_machine.specs.Faults.{AreGood};

use crate::codes::coded_text;
use call_inputs::read_program;
use call_reports::{Answer, Stop};
use code_text::list;
use compiled_code::compiled_is_code;
use cov_ast::Parsed;
use cov_io::Shelf;
use risc_machine::Code;
use std::alloc::Global;

/// Lists the code of the program of a file.
pub fn compile<'w, S: Shelf>(
    alloc: Global,
    name: &'w str,
    shelf: &mut S,
) -> Result<Answer<'w>, Stop<'w>>
    ensures { CarriesOut (S.shelved shelf.old) (S.shelved shelf.new) (compile_plan name.now) result }
{
    let parsed = read_program(alloc, name, shelf)?;
    compile_text(alloc, parsed)
}

/// Lists the code of what a text spells.
fn compile_text<'w>(alloc: Global, parsed: Parsed) -> Result<Answer<'w>, Stop<'w>>
    requires { IsReady (view.parsed parsed) }
    ensures { let p = view.parsed parsed in Gets (UnlessRejected (rejection p) (Compiles p)) result }
{
    let coded = coded_text(alloc, parsed)?;
    compiled_is_code();
    listed(alloc, &coded.code)
}

/// Lists code.
pub fn listed<'w>(alloc: Global, code: &Code) -> Result<Answer<'w>, Stop<'w>>
    requires { AreGood code.now }
    ensures { Gets (RepliesListing code.now) result }
{
    Ok(Answer::Spelled(list(alloc, code)?))
}
