//! Laws of the lines of V15 and V16, of points with too many predicates and of expressions with too many nodes.

ghost use Rattle.std.specs.Prelude.{◌≡◌, ◌⊎◌, ◌∷◌, ◌&&◌, ℕ, List, Option, None, [], false, true};
ghost use Rattle.std.specs.List.{list_all};
ghost use Rattle.cov_expr.specs.Term.{neg, Term};
ghost use Rattle.cov_ast.specs.Declarations.{invariant_of};
ghost use Rattle.cov_ast.specs.Plain.{plain};
ghost use Rattle.cov_ast.specs.Syntax.{assign, branch, lock, loop, output, Block, Program, Proof, State};
ghost use Rattle.cov_ast.specs.declared.refusal.Detail.{Detail};
ghost use Rattle.cov_ast.specs.declared.refusal.Rule.TheVariants.{V15, V16};
ghost use Rattle.point_law.specs.After.{after_assign, after_lock, meet, with_guard};
ghost use Rattle.point_law.specs.Point.{has_small_types, Point};
ghost use Rattle.point_law.specs.Terms.{is_small};
ghost use Rattle.typing_law.specs.Blocks.{value_type};
ghost use Rattle.typing_law.specs.Entailments.{assign_entailments, guard_follows, is_small_entailment};
ghost use Rattle.typing_law.specs.ThreadObligations.{has_few_preds};
ghost use Rattle.typing_points.specs.Points.{point_after_steps};
ghost use Rattle.refusal_names.specs.LargeTerms.{last_made};
ghost use Rattle.refusal_names.specs.RefusalNames.{line_of};
ghost use Rattle.refusal_names.specs.SpokenParts.{stated_types};
ghost use Rattle.refusal_names.specs.ToldAdded.{IsOfEquation, IsOfGuard, IsOfInvariant};
ghost use Rattle.refusal_names.specs.ToldLarge.{is_given_small, IsOfMade, IsOfValue, IsSmallSoFar, TellsOfLarge};
ghost use Rattle.statement_paths.specs.Paths.{Step};

/// A law: where a point of a statement has more predicates than V15 allows, and the one in front doesn't, the line of V15 tells of what is added there:
/// the equation of an assignment, the invariant of a lock, or the guard of a branch or a loop or its negation, which isn't there yet, while
/// there are as many as there may be.
pub fn one_too_many_is_told()
    ensures assigned { (p : Program) → (bytes : List ℕ) → (t : ℕ) → (a : Point) → has_few_preds a ≡ true → (steps : List Step) → (proofs : List Proof) → (detail : Detail)
        → (x : ℕ) → (e : Term) → (q : Option Term) → (retypes : List (ℕ × Term))
        → has_few_preds (after_assign (plain p) t a x e (value_type (plain p) t a q e) retypes) ≡ false
        → IsOfEquation p t a x e (line_of p bytes t V15 detail steps a.held (assign x e q retypes) proofs) }
    ensures taken { (p : Program) → (bytes : List ℕ) → (t : ℕ) → (a : Point) → has_few_preds a ≡ true → (steps : List Step) → (proofs : List Proof) → (detail : Detail)
        → (l : ℕ) → has_few_preds (after_lock (plain p) t a l) ≡ false → IsOfInvariant p t a l (line_of p bytes t V15 detail steps a.held (lock l) proofs) }
    ensures branched { (p : Program) → (bytes : List ℕ) → (t : ℕ) → (a : Point) → has_few_preds a ≡ true → (steps : List Step) → (proofs : List Proof) → (detail : Detail)
        → (e : Term) → (yes_block no_block : Block) → (join : State)
        → list_all has_few_preds (with_guard (plain p) t a e ∷ with_guard (plain p) t a (neg e) ∷ []) ≡ false
        → IsOfGuard p t a e (line_of p bytes t V15 detail steps a.held (branch e yes_block no_block join) proofs) }
    ensures entered { (p : Program) → (bytes : List ℕ) → (t : ℕ) → (a : Point) → (steps : List Step) → (proofs : List Proof) → (detail : Detail)
        → (e : Term) → (inv : State) → (b : Block) → let head = meet (plain p) t a inv in
        has_few_preds head ≡ true → list_all has_few_preds (with_guard (plain p) t head e ∷ with_guard (plain p) t head (neg e) ∷ []) ≡ false
        → IsOfGuard p t head e (line_of p bytes t V15 detail steps a.held (loop e inv b) proofs) }
{}

/// A law: where the invariants of a program and the predicates and guards on the way have no more nodes than V16 allows, and no step makes anything
/// that has, neither has a predicate at the point behind the steps. So `large_term_is_told` is of each point on the way, if its types are no larger.
pub fn large_predicate_is_made()
    ensures { (p : Program) → (t : ℕ) → ((l : ℕ) → is_small (invariant_of (plain p) l) ≡ true) → (steps : List Step) → list_all is_given_small steps ≡ true
        → last_made steps ≡ None → list_all is_small (point_after_steps (plain p) t steps).preds ≡ true }
{}

/// A law: where a hypothesis, a goal or a type after an assignment or an output has more nodes than V16 allows, at a point behind steps at which nothing
/// has but what the steps make, and the types that are written have no more, the line of V16 tells of what has: of the class of a variable or of
/// a type by `retype`, with the value in the place of the variable; else of what the last of the steps makes that does, whether it is still known or not;
/// else of the type of the value.
pub fn large_term_is_told()
    ensures assigned { (p : Program) → (bytes : List ℕ) → (t : ℕ) → (steps : List Step) → (a : Point) → IsSmallSoFar p steps a → (proofs : List Proof) → (detail : Detail)
        → (x : ℕ) → (e : Term) → (q : Option Term) → (retypes : List (ℕ × Term)) → list_all is_small (stated_types (assign x e q retypes)) ≡ true
        → (list_all is_small_entailment (assign_entailments (plain p) t a x e q retypes)
        && list_all has_small_types (after_assign (plain p) t a x e (value_type (plain p) t a q e) retypes ∷ [])) ≡ false
        → TellsOfLarge p t a e x bytes steps retypes (line_of p bytes t V16 detail steps a.held (assign x e q retypes) proofs) }
    ensures put_out { (p : Program) → (bytes : List ℕ) → (t : ℕ) → (steps : List Step) → (a : Point) → IsSmallSoFar p steps a → (proofs : List Proof) → (detail : Detail)
        → (e : Term) → (list_all is_small_entailment (guard_follows (plain p) t a e ∷ []) && list_all has_small_types (a ∷ [])) ≡ false
        → let text = line_of p bytes t V16 detail steps a.held (output e) proofs in IsOfMade bytes steps text ⊎ IsOfValue p t a e text }
{}
