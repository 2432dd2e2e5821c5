//! `fmt`: the canonical spelling of a program.

ghost use Rattle.cov_ast.specs.View as view;
ghost use Rattle.call_text.specs.Format.{Formats};
ghost use Rattle.call_reports.specs.AnswerViews.{Gets};
ghost use Rattle.call_inputs.specs.Plans.{CarriesOut};
ghost use Rattle.call_text.specs.Format.{fmt_plan};

use call_inputs::read_program;
use call_reports::{Answer, Stop};
use cov_ast::Parsed;
use cov_io::Shelf;
use cov_print::print;
use std::alloc::Global;

/// Formats the program of a file.
pub fn format<'w, S: Shelf>(
    alloc: Global,
    name: &'w str,
    shelf: &mut S,
) -> Result<Answer<'w>, Stop<'w>>
    ensures { CarriesOut (S.shelved shelf.old) (S.shelved shelf.new) (fmt_plan name.now) result }
{
    let parsed = read_program(alloc, name, shelf)?;
    spell(alloc, &parsed)
}

/// Spells a program.
pub(crate) fn spell<'w>(alloc: Global, parsed: &Parsed) -> Result<Answer<'w>, Stop<'w>>
    ensures { Gets (Formats (view.parsed parsed.now)) result }
{
    Ok(Answer::Spelled(print(alloc, parsed)?))
}
