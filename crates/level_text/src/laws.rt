//! The law of texts of levels.

ghost use Rattle.std.specs.Prelude.{ℕ, List};
ghost use Rattle.cov_ast.specs.Syntax as syntax;
ghost use Rattle.level_text.specs.LevelReads.{HasOneReading};

/// A law: a text gives one list of levels at most for a program, or has one first fault at most, and never both. So what
/// [`read_levels`](crate::read_levels) answers is the only answer that its contract allows, but for the want of memory.
#[tactic(auto, using(crate::proofs::OneReading::one_reading))]
pub fn one_reading()
    ensures { (text : List ℕ) → (p : syntax.Parsed) → HasOneReading text p }
{}
