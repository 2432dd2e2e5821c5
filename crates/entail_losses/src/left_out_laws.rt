//! Laws of what was lost.

ghost use Rattle.std.specs.Prelude.{◌≡◌, ◌≢◌, ◌⊎◌, ℕ, List, false};
ghost use Rattle.std.specs.List.{Contains};
ghost use Rattle.cov_ast.specs.Plain.{Plain};
ghost use Rattle.cov_expr.specs.Term.{Term};
ghost use Rattle.statement_paths.specs.VariableSets.{stable_after_steps};
ghost use Rattle.statement_paths.specs.Paths.{Step};
ghost use Rattle.entail_losses.specs.About.{is_mentioned};
ghost use Rattle.entail_losses.specs.Forgotten.{ForgottenPart, forgotten_parts};
ghost use Rattle.entail_losses.specs.Joined.{with_joined};
ghost use Rattle.entail_losses.specs.LeftOut.{LeftOut, left_out};
ghost use Rattle.entail_losses.specs.WouldBeJoined.{WouldBeJoined};
ghost use Rattle.entail_losses.specs.WouldBeKept.{WouldBeKept};
ghost use Rattle.entail_losses.specs.Unknowns.{Fact, known, reason};
ghost use Rattle.entail_losses.specs.WouldBeKnown.{AreAmong, WouldBeKnown};
ghost use Rattle.entail_losses.specs.declared.joined_found.TheConstants.{MOST_LEFT_OUT};
ghost use Rattle.entail_losses.specs.declared.joined_given.TheConstants.{MOST_GIVEN};
ghost use Rattle.entail_losses.specs.declared.left_out_found.TheConstants.{MOST_FOUND};
ghost use Rattle.entail_losses.specs.declared.unknown_variables.TheConstants.{MOST_TOLD};
ghost use Rattle.typing_points.specs.Points.{point_after_steps};

/// A law: each predicate that was left out on the way to a point is no hypothesis there, and would be known, did the states behind what
/// gives it list it.
pub fn left_out_would_be_known()
    ensures { (p : Plain) → (t : ℕ) → (steps : List Step) → (hypotheses : List Term) → (o : LeftOut) → Contains (left_out p hypotheses (stable_after_steps p t steps) steps) o → WouldBeKnown p t steps hypotheses o }
{}

/// A law: each part that a store forgot on the way to a point is no hypothesis there, and would be known, did a note directly behind what
/// gives the whole, and the states since, list it.
pub fn forgotten_would_be_kept()
    ensures { (p : Plain) → (t : ℕ) → (steps : List Step) → (hypotheses : List Term) → (told : List LeftOut) → (f : ForgottenPart) → Contains (forgotten_parts hypotheses told p (stable_after_steps p t steps) steps) f → WouldBeKept p t steps hypotheses f }
{}

/// A law: each predicate that the join of a branch left out on the way to a point, beside what was told otherwise, is no hypothesis there; it is known at the ends of both blocks, and would
/// be known at the point, did the join list it, and the states since.
pub fn joined_would_be_known()
    ensures { (p : Plain) → (t : ℕ) → (steps : List Step) → (hypotheses : List Term) → (told : List LeftOut) → (o : LeftOut) → Contains (with_joined hypotheses p told (stable_after_steps p t steps) steps) o → Contains told o ⊎ WouldBeJoined p t steps hypotheses o }
{}

/// A law: something is told of each variable that no hypothesis mentions, where all that is known at the point is among the hypotheses: none that is taken as known is left.
pub fn unknown_variables_are_told()
    ensures { (p : Plain) → (t : ℕ) → (x : ℕ) → (steps : List Step) → (hypotheses : List Term) → AreAmong (point_after_steps p t steps).preds hypotheses → is_mentioned hypotheses x ≡ false → (f : Fact) → reason p t x steps ≢ known f }
{}

/// At most eight predicates are shown that states left out of what steps give, and with those that joins left out of what both blocks give at most sixteen; and at most eight parts. Of a block
/// the last 64 count. Of variables of which nothing is known, four at most are told of.
pub fn few_are_found()
    ensures left_out { MOST_FOUND ≡ 8 }
    ensures all { MOST_LEFT_OUT ≡ 16 }
    ensures given { MOST_GIVEN ≡ 64 }
    ensures told { MOST_TOLD ≡ 4 }
{}
