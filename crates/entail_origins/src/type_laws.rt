//! Laws of origins and changes of types, and of goals.

ghost use Rattle.std.specs.Prelude.{◌≡◌, ◌≤◌, ℕ, List, false, length};
ghost use Rattle.cov_ast.specs.Declarations.{is_control};
ghost use Rattle.cov_ast.specs.Plain.{Plain};
ghost use Rattle.cov_ast.specs.Syntax.{Stm};
ghost use Rattle.entail_origins.specs.OwnEntailments.{own_entailments};
ghost use Rattle.entail_origins.specs.declared.kinds.Question.{Question};
ghost use Rattle.statement_paths.specs.Paths.{Step};
ghost use Rattle.point_law.specs.Point.{Point};
ghost use Rattle.entail_origins.specs.AskedVariables.{variables_of};
ghost use Rattle.entail_origins.specs.GoalTypes.{AgreeOnTypes, goal_of, goals, goals_of};
ghost use Rattle.entail_origins.specs.TypesFromOrigins.{TellsOfType};

/// A law, for programs whose classes mention declared variables alone: where no change of the type of a tracked variable is told since it
/// was set, that type at the point of a thread behind steps is what the source of its origin says, or without one its class. A change that is
/// told as known is one: the type is another behind its step, and is still what it became there, since no later step sets or changes it.
pub fn types_are_from_their_origins()
    ensures { (p : Plain) → (t z : ℕ) → (steps : List Step) → ((x : ℕ) → length p.vars ≤ x → is_control p x ≡ false) → is_control p z ≡ false → TellsOfType p t z steps }
{}

/// A law: the goals of the entailments of a statement are, in their order, those of its questions, each at the point of which the
/// question asks.
#[tactic(auto, using(crate::proofs::GoalLaws::as_asked))]
pub fn goals_are_of_their_questions()
    ensures { (p : Plain) → (t : ℕ) → (s : Stm) → (a : Point) → goals (own_entailments p t s a) ≡ goals_of p t s a }
{}

/// A law: the goal of a question depends on the types of its variables alone. At two points where the same locks are held, and these
/// variables have the same types, it is the same.
#[tactic(auto, using(crate::proofs::GoalLaws::same_goal))]
pub fn goals_depend_on_their_variables()
    ensures { (p : Plain) → (t : ℕ) → (question : Question) → (s : Stm) → (a b : Point) → a.held ≡ b.held → AgreeOnTypes (variables_of question s) a b
        → goal_of p t question s a ≡ goal_of p t question s b }
{}
