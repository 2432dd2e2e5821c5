//! Laws of the lines of W9, V1, V2, V12, V13 and V14, and of why a variable isn't stable.

ghost use Rattle.std.specs.Prelude.{◌≡◌, ◌≢◌, ◌⊎◌, ◌<◌, ◌≤◌, ◌&&◌, ℕ, List, Bool, All, not, Option, Some, IsSome, IsTrue, [], false, true, length};
ghost use Rattle.std.specs.List.{list_all};
ghost use Rattle.cov_expr.specs.Term.{Term};
ghost use Rattle.cov_expr.specs.Trees.{has_number};
ghost use Rattle.cov_expr.specs.Words.{HasVarsBelow};
ghost use Rattle.cov_ast.specs.Declarations.{have_guaranteed, is_control, name_of};
ghost use Rattle.cov_ast.specs.NameTables.{find_name};
ghost use Rattle.cov_ast.specs.Plain.{plain};
ghost use Rattle.cov_ast.specs.Syntax.{assign, branch, loop, note, Block, Modes, Program, Proof, State, Stm};
ghost use Rattle.cov_ast.specs.WellFormed.{IsWellFormed};
ghost use Rattle.cov_ast.specs.declared.refusal.Detail.{Detail};
ghost use Rattle.cov_ast.specs.declared.refusal.Detail.TheVariants.{Number, One};
ghost use Rattle.cov_ast.specs.declared.refusal.Rule.TheVariants.{V1, V2, V12, V13, V14};
ghost use Rattle.entail_origins.specs.OwnEntailments.{own_entailments};
ghost use Rattle.point_law.specs.Point.{is_over_stable, is_tracked, Point};
ghost use Rattle.typing_law.specs.ThreadObligations.{is_number};
ghost use Rattle.text_parts.specs.VariableNames.{variable_names};
ghost use Rattle.mode_compat.specs.Compatible.{numbered};
ghost use Rattle.mode_state.specs.Sets.{is_stable, may_read, may_write};
ghost use Rattle.refusal_names.specs.ForbiddenAccess.{TellsWhy};
ghost use Rattle.refusal_names.specs.GivenNumbers.{times_given, TellsWhatIsWrong};
ghost use Rattle.refusal_names.specs.GivenTypes.{IsOfAssigned, TellsWhyUntyped};
ghost use Rattle.refusal_names.specs.MissingGuarantees.{guarantee_line, missing, missing_text};
ghost use Rattle.refusal_names.specs.RefusalNames.{line_of};
ghost use Rattle.refusal_names.specs.SpokenParts.{stated_predicates};
ghost use Rattle.refusal_names.specs.StableSets.{held_where_stated};
ghost use Rattle.refusal_names.specs.ToldPredicates.{TellsOfPredicate};
ghost use Rattle.refusal_names.specs.UnstableVariables.{unstable_line, TellsWhyUnstable};
ghost use Rattle.statement_paths.specs.LocksHeld.{held_at_end};
ghost use Rattle.statement_paths.specs.Paths.{Step};

/// A law: by the names of two threads of a well formed program and of a variable, the line of W9 tells of these threads and this variable,
/// that is, of what the second doesn't guarantee of the variable and the first assumes.
pub fn missing_guarantee_is_told()
    ensures { (p : Program) → IsWellFormed p → (bytes : List ℕ) → (t u x : ℕ) → (variable : List ℕ) → t < length p.threads → u < length p.threads → t ≢ u
        → find_name (variable_names p.vars) variable ≡ Some x
        → guarantee_line p bytes (numbered p t).name (numbered p u).name variable
        ≡ missing_text (variable_names p.vars) bytes (numbered p u) (missing (numbered p t).modes (numbered p u).modes x) x }
{}

/// A law: where one thread assumes of a variable what another doesn't guarantee, as W9 asks, a guarantee is missing.
pub fn unmet_assumption_is_missing()
    ensures nowrite { (assuming other : Modes) → (x : ℕ) → IsTrue (has_number assuming.assume_nowrite x) → have_guaranteed other x ≡ false
        → IsSome (missing assuming other x) }
    ensures hide { (assuming other : Modes) → (x : ℕ) → IsTrue (has_number assuming.assume_hide x) → has_number other.guarantee_hide x ≡ false
        → IsSome (missing assuming other x) }
{}

/// A law: where a thread of a well formed program that holds some locks may not read a variable, or not write it, the line of V1, or of V2,
/// by the variable's name tells why: of a guarantee of the thread that forbids it, or of a lock that forbids it and isn't among those. Where
/// it may, there is no line.
pub fn forbidden_access_is_told()
    ensures read { (p : Program) → IsWellFormed p → (bytes : List ℕ) → (t x : ℕ) → (held : List Bool) → t < length p.threads → x < length p.vars
        → (steps : List Step) → (s : Stm) → (proofs : List Proof) → may_read (plain p) t held x ≡ false
        → TellsWhy p bytes t held false x (line_of p bytes t V1 (One (name_of (plain p) x)) steps held s proofs) }
    ensures written { (p : Program) → IsWellFormed p → (bytes : List ℕ) → (t x : ℕ) → (held : List Bool) → t < length p.threads → x < length p.vars
        → (steps : List Step) → (s : Stm) → (proofs : List Proof) → may_write (plain p) t held x ≡ false
        → TellsWhy p bytes t held true x (line_of p bytes t V2 (One (name_of (plain p) x)) steps held s proofs) }
    ensures readable { (p : Program) → IsWellFormed p → (bytes : List ℕ) → (t x : ℕ) → (held : List Bool) → t < length p.threads → x < length p.vars
        → (steps : List Step) → (s : Stm) → (proofs : List Proof) → may_read (plain p) t held x ≡ true
        → line_of p bytes t V1 (One (name_of (plain p) x)) steps held s proofs ≡ [] }
    ensures writable { (p : Program) → IsWellFormed p → (bytes : List ℕ) → (t x : ℕ) → (held : List Bool) → t < length p.threads → x < length p.vars
        → (steps : List Step) → (s : Stm) → (proofs : List Proof) → may_write (plain p) t held x ≡ true
        → line_of p bytes t V2 (One (name_of (plain p) x)) steps held s proofs ≡ [] }
{}

/// A law: where a variable isn't stable for a thread of a program that holds some locks, the line for it, behind those of V3, V4, V12 and
/// V14, tells why: of a lock that has it in a list and isn't among those, or that no lock has and that the thread assumes nothing of it.
pub fn unstable_variable_is_told()
    ensures { (p : Program) → (bytes : List ℕ) → (t x : ℕ) → (held : List Bool) → is_stable (plain p) t held x ≡ false
        → TellsWhyUnstable p bytes t held x (unstable_line (variable_names p.vars) bytes p.locks held x) }
{}

/// A law: where a number that is given breaks V13, by the entailments of the statement itself at a point, the line tells what is wrong:
/// how many entailments there are, where none has the number, or that it is given more than once.
pub fn wrong_number_is_told()
    ensures { (p : Program) → (bytes : List ℕ) → (t n : ℕ) → (s : Stm) → (a : Point) → (steps : List Step) → (proofs : List Proof) → 1 ≤ times_given proofs n
        → is_number (length (own_entailments (plain p) t s a)) proofs n ≡ false
        → TellsWhatIsWrong (length (own_entailments (plain p) t s a)) proofs n (line_of p bytes t V13 (Number n) steps a.held s proofs) }
{}

/// A law: where a predicate that a statement states isn't over variables that are stable there, as V12 asks, the line of V12 tells of the
/// first such predicate, with a variable of it that isn't stable, and why.
pub fn unstable_predicate_is_told()
    ensures { (p : Program) → (bytes : List ℕ) → (t : ℕ) → (held : List Bool) → (steps : List Step) → (proofs : List Proof) → (detail : Detail) → (s : Stm)
        → All (λ e. HasVarsBelow e (length p.vars)) (stated_predicates s)
        → list_all (is_over_stable (plain p) t (held_where_stated s held)) (stated_predicates s) ≡ false
        → TellsOfPredicate p bytes t (held_where_stated s held) (stated_predicates s) (line_of p bytes t V12 detail steps held s proofs) }
{}

/// A law: where V14 forbids that a statement of a well formed program gives a type to a variable, behind those that it gives to others, the
/// line by the variable's name tells why: of a control, of a variable that isn't stable, with the reason of that, or of one that is listed
/// before; or, of an assignment, that the variable that is assigned is no control.
pub fn untyped_variable_is_told()
    ensures noted { (p : Program) → IsWellFormed p → (bytes : List ℕ) → (t z : ℕ) → (held : List Bool) → z < length p.vars → (steps : List Step) → (proofs : List Proof)
        → (before : List ℕ) → (j : State) → (is_tracked (plain p) t held z && not (has_number before z)) ≡ false
        → TellsWhyUntyped p bytes t held before z (line_of p bytes t V14 (One (name_of (plain p) z)) steps held (note j) proofs) }
    ensures entered { (p : Program) → IsWellFormed p → (bytes : List ℕ) → (t z : ℕ) → (held : List Bool) → z < length p.vars → (steps : List Step) → (proofs : List Proof)
        → (before : List ℕ) → (e : Term) → (inv : State) → (b : Block) → (is_tracked (plain p) t held z && not (has_number before z)) ≡ false
        → TellsWhyUntyped p bytes t held before z (line_of p bytes t V14 (One (name_of (plain p) z)) steps held (loop e inv b) proofs) }
    ensures joined { (p : Program) → IsWellFormed p → (bytes : List ℕ) → (t z : ℕ) → (held : List Bool) → z < length p.vars → (steps : List Step) → (proofs : List Proof)
        → (before : List ℕ) → (e : Term) → (a b : Block) → (join : State) → (is_tracked (plain p) t (held_at_end a held) z && not (has_number before z)) ≡ false
        → TellsWhyUntyped p bytes t (held_at_end a held) before z (line_of p bytes t V14 (One (name_of (plain p) z)) steps held (branch e a b join) proofs) }
    ensures retyped { (p : Program) → IsWellFormed p → (bytes : List ℕ) → (t x z : ℕ) → (held : List Bool) → x < length p.vars → z < length p.vars → (steps : List Step)
        → (proofs : List Proof) → (before : List ℕ) → (e : Term) → (q : Option Term) → (retypes : List (ℕ × Term))
        → ((is_control (plain p) x && is_tracked (plain p) t held z) && not (has_number before z)) ≡ false
        → let text = line_of p bytes t V14 (One (name_of (plain p) z)) steps held (assign x e q retypes) proofs in
        IsOfAssigned p x text ⊎ TellsWhyUntyped p bytes t held before z text }
{}
