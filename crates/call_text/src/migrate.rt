//! `migrate`: the canonical spelling of a program in version 2 of the language.

ghost use Rattle.call_inputs.specs.Plans.{CarriesOut};
ghost use Rattle.call_text.specs.Format.{migrate_plan};

use crate::fmt::spell;
use call_inputs::read_program;
use call_reports::{Answer, Stop};
use cov_io::Shelf;
use std::alloc::Global;

/// Formats the program of a file in version 2 of the language.
pub fn migrate<'w, S: Shelf>(
    alloc: Global,
    name: &'w str,
    shelf: &mut S,
) -> Result<Answer<'w>, Stop<'w>>
    ensures { CarriesOut (S.shelved shelf.old) (S.shelved shelf.new) (migrate_plan name.now) result }
{
    let mut parsed = read_program(alloc, name, shelf)?;
    parsed.version = 2;
    spell(alloc, &parsed)
}
