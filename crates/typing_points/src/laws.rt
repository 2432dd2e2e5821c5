//! The point that is built is that of the rules.

ghost use Rattle.std.specs.Prelude.{◌≡◌, ℕ, List, Some};
ghost use Rattle.cov_ast.specs.Plain.{Plain};
ghost use Rattle.typing_points.specs.Points.{point_after_steps};
ghost use Rattle.point_law.specs.Point.{Point};
ghost use Rattle.statement_paths.specs.Paths.{Step};
ghost use Rattle.typing_points.specs.PointsBehind.{point_behind};

/// A law: where there is a point behind steps, it is that to which the rules for statements lead.
#[tactic(auto, using(crate::proofs::OfTheRules::of_the_rules))]
pub fn points_are_of_the_rules()
    ensures { (p : Plain) → (t : ℕ) → (steps : List Step) → (a : Point) → point_behind p t steps ≡ Some a → a ≡ point_after_steps p t steps }
{}
