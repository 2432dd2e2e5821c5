//! A law of origins.

ghost use Rattle.std.specs.Prelude.{ℕ, List, IsSome, IsTrue};
ghost use Rattle.cov_ast.specs.Plain.{Plain};
ghost use Rattle.cov_expr.specs.Term.{Term};
ghost use Rattle.cov_expr.specs.Trees.{has_term};
ghost use Rattle.entail_origins.specs.Origins.{origin};
ghost use Rattle.typing_points.specs.Points.{point_after_steps};
ghost use Rattle.statement_paths.specs.Paths.{Step};

/// A law: each predicate of the point of a thread behind steps has an origin in one of them.
pub fn predicates_have_origins()
    ensures { (p : Plain) → (t : ℕ) → (steps : List Step) → (e : Term) → IsTrue (has_term (point_after_steps p t steps).preds e) → IsSome (origin p steps e) }
{}
