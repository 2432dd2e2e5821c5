//! Laws of the lines of V3, V5 and V10, of what an evaluation reads, and how wide it is.

ghost use Rattle.std.specs.Prelude.{◌≡◌, ◌<◌, ◌^◌, ℕ, List, Bool, Some, false, count_by, length, nat_le, not};
ghost use Rattle.cov_expr.specs.Term.{Term};
ghost use Rattle.cov_expr.specs.Trees.{occurrences, width};
ghost use Rattle.cov_expr.specs.Words.{HasVarsBelow};
ghost use Rattle.cov_ast.specs.Declarations.{name_of};
ghost use Rattle.cov_ast.specs.Plain.{plain};
ghost use Rattle.cov_ast.specs.Syntax.{Program, Proof, Stm};
ghost use Rattle.cov_ast.specs.WellFormed.{IsWellFormed};
ghost use Rattle.cov_ast.specs.declared.refusal.Detail.{Detail};
ghost use Rattle.cov_ast.specs.declared.refusal.Detail.TheVariants.{One};
ghost use Rattle.cov_ast.specs.declared.refusal.Rule.TheVariants.{V3, V5, V10};
ghost use Rattle.mode_state.specs.Sets.{is_stable};
ghost use Rattle.refusal_names.specs.RefusalNames.{line_of};
ghost use Rattle.refusal_names.specs.SpokenParts.{evaluated_expression};
ghost use Rattle.refusal_names.specs.ToldReads.{TellsOfReads};
ghost use Rattle.refusal_names.specs.UnstableVariables.{TellsOfPart};
ghost use Rattle.refusal_names.specs.WideExpressions.{TellsOfWidth};
ghost use Rattle.statement_paths.specs.Paths.{Step};

/// A law: where a variable of a well formed program isn't stable, as V5 asks of each in the value of a control, the line of V5 by the
/// variable's name tells why, and where it is under no lock what is mostly done.
pub fn unstable_part_is_told()
    ensures { (p : Program) → IsWellFormed p → (bytes : List ℕ) → (t y : ℕ) → (held : List Bool) → y < length p.vars → (steps : List Step) → (s : Stm) → (proofs : List Proof)
        → is_stable (plain p) t held y ≡ false → TellsOfPart p bytes t held y (line_of p bytes t V5 (One (name_of (plain p) y)) steps held s proofs) }
{}

/// A law: where an expression that a statement evaluates has more than one occurrence of variables that aren't stable, as V3 forbids, the line of
/// V3 tells of the first two, and why these variables aren't stable.
pub fn unstable_reads_are_told()
    ensures { (p : Program) → (bytes : List ℕ) → (t : ℕ) → (held : List Bool) → (steps : List Step) → (proofs : List Proof) → (detail : Detail) → (s : Stm) → (e : Term)
        → HasVarsBelow e (length p.vars) → evaluated_expression s ≡ Some e
        → nat_le (count_by (λ x. not (is_stable (plain p) t held x)) (occurrences e)) 1 ≡ false
        → TellsOfReads p bytes t held e (line_of p bytes t V3 detail steps held s proofs) }
{}

/// A law: where an expression that a statement evaluates is wider than V10 allows, the line of V10 tells how wide it is.
pub fn width_is_told()
    ensures { (p : Program) → (bytes : List ℕ) → (t : ℕ) → (held : List Bool) → (steps : List Step) → (proofs : List Proof) → (detail : Detail) → (s : Stm) → (e : Term)
        → evaluated_expression s ≡ Some e → width e < 2 ^ 32 → nat_le (width e) 7 ≡ false
        → TellsOfWidth e (line_of p bytes t V10 detail steps held s proofs) }
{}
