//! The line of `levels` on a program that is accepted for every level.

ghost use Rattle.std.specs.Prelude.{◌≡◌, IfOk};
ghost use Rattle.call_verdicts.specs.Levels.{levels_words};

use call_reports::{Totals, add_counted};
use cov_expr::{Blob, List, NoMemory};
use std::alloc::Global;

/// The line for so many observers, of each of whom so much is checked.
pub fn levels_line(alloc: Global, observers: usize, totals: &Totals) -> Result<Blob, NoMemory>
    ensures { IfOk result (λ line. line ≡ levels_words observers totals.now) }
{
    let mut line = List::new(alloc);
    line.extend_from_slice(b"levels: ")?;
    add_counted(observers as u64, b" observers, ", &mut line)?;
    add_counted(totals.threads, b" threads, ", &mut line)?;
    add_counted(totals.statements, b" statements, ", &mut line)?;
    add_counted(totals.entailments, b" entailments\n", &mut line)?;
    Ok(line)
}
