//! The parts of the summary that `big` puts.

ghost use Rattle.std.specs.Prelude.{◌≡◌, ◌++◌, OnOk};
ghost use Rattle.cov_ast.specs.View as view;
ghost use Rattle.schedule_replay.specs.CodeReplays.{DeclaresAsMany};
ghost use Rattle.source_machine.specs.SourceMachine.{run_of};
ghost use Rattle.call_code.specs.Summaries as spec;
ghost use Rattle.call_judge.specs.Check.{accepted_with};

use call_reports::{Totals, add_accepted, add_number, add_numbered};
use cov_ast::Program;
use cov_expr::{Blob, NoMemory};
use replay_reports::add_pairs;
use risc_machine::Risc;
use source_machine::Source;

/// Adds the number of rounds, and the line of a check that accepts a program of which there is so much.
pub fn add_head(rounds: u32, totals: &Totals, text: &mut Blob) -> Result<(), NoMemory>
    ensures { OnOk result (text.new ≡ text.old ++ spec.head rounds (accepted_with totals.now)) }
{
    add_numbered(b"big ", rounds, text)?;
    add_accepted(totals, text)?;
    text.extend_from_slice(b"\n")
}

/// Adds what is told of two runs of a program of so many steps, of which the first stayed so often, and of their machines after them.
pub fn add_source_part<'p>(
    p: &'p Program,
    left: &Source<'p>,
    right: &Source<'p>,
    steps: u32,
    stayed: u32,
    text: &mut Blob,
) -> Result<(), NoMemory>
    requires left { (left.now).program ≡ p.now }
    requires right { (right.now).program ≡ p.now }
    ensures { OnOk result (text.new ≡ text.old ++ spec.source_part (view.program p.now) steps stayed (run_of left.now) (run_of right.now)) }
{
    add_source_head(steps, stayed, text)?;
    add_pairs(p.vars.as_slice(), left.memory(), right.memory(), text)
}

/// Adds that two runs of a program agree after each of so many steps, and how often the first stayed.
fn add_source_head(steps: u32, stayed: u32, text: &mut Blob) -> Result<(), NoMemory>
    ensures { OnOk result (text.new ≡ text.old ++ spec.source_head steps stayed) }
{
    add_agreement(b"source agrees: ", steps, text)?;
    add_numbered(b"stayed ", stayed, text)
}

/// Adds what is told of two runs of its code of so many steps, and of their machines after them.
pub fn add_code_part(
    p: &Program,
    left: &Risc<'_>,
    right: &Risc<'_>,
    steps: u32,
    text: &mut Blob,
) -> Result<(), NoMemory>
    requires left { DeclaresAsMany (left.now).parts p.now }
    requires right { DeclaresAsMany (right.now).parts p.now }
    ensures { OnOk result (text.new ≡ text.old ++ spec.code_part (view.program p.now) steps (left.now).state (right.now).state) }
{
    add_agreement(b"code agrees: ", steps, text)?;
    add_pairs(p.vars.as_slice(), left.memory(), right.memory(), text)
}

fn add_agreement(which: &[u8], steps: u32, text: &mut Blob) -> Result<(), NoMemory>
    ensures { OnOk result (text.new ≡ text.old ++ spec.agreement which.now steps) }
{
    text.extend_from_slice(which)?;
    add_number(steps, text)?;
    text.extend_from_slice(b" steps\n")
}
