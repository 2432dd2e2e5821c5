//! From the bytes of a text to its levels, or its first fault.

ghost use Rattle.std.specs.Prelude.{◌≤◌, length, IfOk};
ghost use Rattle.cov_expr.specs.declared.limits.TheConstants.{MOST_BYTES};
ghost use Rattle.cov_ast.specs.Ready.{IsReady};
ghost use Rattle.cov_ast.specs.View as program_view;
ghost use Rattle.level_text.specs.Lattice.{AreLevels};
ghost use Rattle.level_text.specs.LevelReads.{Reads};
ghost use Rattle.level_text.specs.Views as level_view;

use crate::fault::LevelFault;
use crate::faults::first_fault;
use crate::given::given;
use crate::lattice::Levels;
use crate::read::read_tree;
use cov_ast::Parsed;
use std::alloc::Global;

/// The levels that a text of at most 1 MiB gives for a program, whose text has this tree, or the first fault of the text of levels.
pub fn read_levels(alloc: Global, bytes: &[u8], p: &Parsed) -> Result<Levels, LevelFault>
    requires short { length bytes.now ≤ MOST_BYTES }
    requires ready { IsReady (program_view.parsed p.now) }
    ensures answer { Reads bytes.now (program_view.parsed p.now) result }
    // What is given can be checked.
    ensures levels { IfOk result (λ l. AreLevels (length p.now.vars) (level_view.levels l)) }
{
    let read = read_tree(alloc, bytes)?;
    match first_fault(alloc, p, &read.names, read.tokens.as_slice(), &read.text)? {
        Some(fault) => Err(fault),
        None => Ok(given(alloc, p, &read.names, &read.text)?),
    }
}
