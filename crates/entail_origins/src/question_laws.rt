//! Laws of the questions and of the rules of types.

ghost use Rattle.std.specs.Prelude.{◌≡◌, ◌<◌, ℕ, length, IsSome};
ghost use Rattle.cov_ast.specs.Plain.{Plain};
ghost use Rattle.cov_ast.specs.Syntax.{Program, Stm};
ghost use Rattle.cov_ast.specs.WellFormed.{IsWellFormed};
ghost use Rattle.typing_law.specs.ThreadEntailments.{entailment_among, thread_entailments};
ghost use Rattle.point_law.specs.Point.{Point};
ghost use Rattle.entail_origins.specs.OwnEntailments.{own_entailments};
ghost use Rattle.entail_origins.specs.Questions as spec;

/// A law: a statement has as many questions as entailments of its own, at every point.
#[tactic(auto, using(crate::proofs::QuestionCounts::as_many))]
pub fn each_entailment_has_a_question()
    ensures { (p : Plain) (t : ℕ) (s : Stm) (a : Point) → length (spec.questions p t a.held s) ≡ length (own_entailments p t s a) }
{}

/// A law: where a thread has an entailment with a number at a place, by the rules of types, a question is given for the two.
#[tactic(auto, using(crate::proofs::EachAsked::each_is_asked))]
pub fn what_is_listed_is_asked()
    ensures { (p : Program) (t place number : ℕ) → IsWellFormed p → t < length p.threads → IsSome (entailment_among (thread_entailments p t) place number)
        → IsSome (spec.asked p t place number) }
{}
