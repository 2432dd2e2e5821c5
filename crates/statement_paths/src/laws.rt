//! A law of the locks that are held and of the rules of types.

ghost use Rattle.std.specs.Prelude.{◌≡◌, ℕ};
ghost use Rattle.cov_ast.specs.Plain.{Plain};
ghost use Rattle.cov_ast.specs.Syntax.{Stm};
ghost use Rattle.typing_law.specs.Blocks.{after_stm};
ghost use Rattle.point_law.specs.Point.{Point};
ghost use Rattle.statement_paths.specs.LocksHeld.{held_past};

/// A law: the locks that are held behind a statement are those of the point behind it.
#[tactic(auto, using(crate::proofs::HeldAtPoints::after_held))]
pub fn held_locks_are_those_of_points()
    ensures { (p : Plain) (t : ℕ) (s : Stm) (a : Point) → held_past s a.held ≡ (after_stm p t s a).held }
{}
