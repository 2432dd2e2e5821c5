//! Laws of the locks by which lines go, and of the lines of V8, of those that are held at one of two ends alone.

ghost use Rattle.std.specs.Prelude.{◌≡◌, ◌<◌, ℕ, List, Bool, false, length};
ghost use Rattle.cov_expr.specs.Term.{Term};
ghost use Rattle.cov_ast.specs.LocksAlong.{no_locks};
ghost use Rattle.cov_ast.specs.Plain.{Plain};
ghost use Rattle.cov_ast.specs.Syntax.{branch, loop, Block, Program, Proof, State};
ghost use Rattle.cov_ast.specs.Tables.{has};
ghost use Rattle.cov_ast.specs.declared.refusal.Detail.{Detail};
ghost use Rattle.cov_ast.specs.declared.refusal.Rule.TheVariants.{V8};
ghost use Rattle.typing_law.specs.ThreadObligations.{agree, same_held};
ghost use Rattle.refusal_names.specs.RefusalNames.{line_of};
ghost use Rattle.refusal_names.specs.ToldLocks.{IsApart, TellsOfBranch, TellsOfTurn};
ghost use Rattle.typing_points.specs.Points.{point_after_steps};
ghost use Rattle.statement_paths.specs.LocksHeld.{held_along, held_at_end};
ghost use Rattle.statement_paths.specs.Paths.{Step};

/// A law: the locks by which lines of a statement go, those that are held behind the steps to it, are those of the point of the rules there.
pub fn locks_of_lines_are_those_of_rules()
    ensures { (p : Plain) → (t : ℕ) → (steps : List Step) → held_along steps (no_locks p) ≡ (point_after_steps p t steps).held }
{}

/// A law: where other locks are held at two ends, as V8 forbids, there is a lock that is held at one of them alone.
pub fn some_lock_differs()
    ensures { (p : Plain) → (held other : List Bool) → same_held p held other ≡ false → IsApart p held other }
{}

/// A law: of each lock that is held at one end of a branch alone, or at the end of the block of a loop and not at its start or the other way round, as V8
/// forbids, a line tells by which statements of the blocks: which takes it last, or gives it back, so that it is held at the end or
/// isn't; or that none does, so that it is held there just where it is in front.
pub fn differing_lock_is_told()
    ensures branched { (p : Program) → (bytes : List ℕ) → (t : ℕ) → (held : List Bool) → length held ≡ length p.locks → (steps : List Step) → (proofs : List Proof) → (detail : Detail)
        → (e : Term) → (a b : Block) → (join : State) → (l : ℕ) → l < length p.locks → agree (has (held_at_end a held) l) (has (held_at_end b held) l) ≡ false
        → TellsOfBranch p bytes held l a b (line_of p bytes t V8 detail steps held (branch e a b join) proofs) }
    ensures repeated { (p : Program) → (bytes : List ℕ) → (t : ℕ) → (held : List Bool) → length held ≡ length p.locks → (steps : List Step) → (proofs : List Proof) → (detail : Detail)
        → (e : Term) → (inv : State) → (b : Block) → (l : ℕ) → l < length p.locks → agree (has (held_at_end b held) l) (has held l) ≡ false
        → TellsOfTurn p bytes held l b (line_of p bytes t V8 detail steps held (loop e inv b) proofs) }
{}
