//! Laws of the sites of entailments.

ghost use Rattle.std.specs.Prelude.{◌≡◌, ◌<◌, ℕ, List, Some, length};
ghost use Rattle.cov_ast.specs.Plain.{Plain};
ghost use Rattle.cov_ast.specs.Syntax as syntax;
ghost use Rattle.cov_ast.specs.WellFormed.{IsWellFormed};
ghost use Rattle.entail_origins.specs.declared.kinds.Question as questions;
ghost use Rattle.typing_points.specs.Points.{point_after_steps};
ghost use Rattle.statement_paths.specs.Paths as paths;
ghost use Rattle.entail_origins.specs.GoalTypes.{asked_point};
ghost use Rattle.typing_law.specs.ThreadEntailments.{PlacedEntailment, entailment_among, thread_entailments};
ghost use Rattle.entail_refused.specs.SiteHypotheses.{IsOfSite};
ghost use Rattle.entail_refused.specs.Sites.{site_at};

/// A law: the steps of a site lead to the point of which its question asks, where `steps` lead to the statement.
#[tactic(auto, using(crate::proofs::SitePoints::at_the_point))]
pub fn sites_lead_to_the_point_asked()
    ensures { (p : Plain) → (t : ℕ) → (steps : List paths.Step) → (question : questions.Question) → (at : ℕ) → (s : syntax.Stm)
        → point_after_steps p t (site_at steps question at s).steps ≡ asked_point p t question s (point_after_steps p t steps) }
{}

/// A law: each entailment of a thread of a well formed program has a site. Its hypotheses are the predicates of the point to which the
/// steps of the site lead, with one expression more behind them just where the question has one (`asks_more`), and its goal is that of the
/// question at this point.
pub fn hypotheses_are_of_the_site()
    ensures { (p : syntax.Program) → (t place number : ℕ) → IsWellFormed p → t < length p.threads → (g : PlacedEntailment)
        → entailment_among (thread_entailments p t) place number ≡ Some g → IsOfSite p t place number g }
{}
