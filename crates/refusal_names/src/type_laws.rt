//! Laws of the line of V4, of types that aren't over stable controls.

ghost use Rattle.std.specs.Prelude.{◌≡◌, ℕ, List, All, Bool, None, false, length, true};
ghost use Rattle.std.specs.List.{list_all};
ghost use Rattle.cov_expr.specs.Term.{Term};
ghost use Rattle.cov_expr.specs.Words.{HasVarsBelow};
ghost use Rattle.cov_ast.specs.Plain.{plain};
ghost use Rattle.cov_ast.specs.Syntax.{assign, Program, Proof, Stm};
ghost use Rattle.cov_ast.specs.WellFormed.{IsWellFormed};
ghost use Rattle.cov_ast.specs.declared.refusal.Detail.{Detail};
ghost use Rattle.cov_ast.specs.declared.refusal.Rule.TheVariants.{V4};
ghost use Rattle.point_law.specs.Point.{is_over_controls, Point};
ghost use Rattle.typing_law.specs.Blocks.{value_type};
ghost use Rattle.refusal_names.specs.RefusalNames.{line_of};
ghost use Rattle.refusal_names.specs.SpokenParts.{stated_types, type_terms, untyped_value};
ghost use Rattle.refusal_names.specs.StableSets.{held_where_stated};
ghost use Rattle.refusal_names.specs.ToldTypes.{AreTypesOverControls, TellsOfClass, TellsOfType};
ghost use Rattle.statement_paths.specs.Paths.{Step};

/// A law: where a type that a statement states or writes isn't over stable controls, as V4 asks, and a value that it assigns has its type
/// among those, the line of V4 tells of the first such type, with a variable of it that is no control, or a control that isn't stable, and why.
pub fn bad_type_is_told()
    ensures { (p : Program) → (bytes : List ℕ) → (t : ℕ) → (held : List Bool) → (steps : List Step) → (proofs : List Proof) → (detail : Detail) → (s : Stm)
        → untyped_value s ≡ None → All (λ q. HasVarsBelow q (length p.vars)) (stated_types s)
        → list_all (is_over_controls (plain p) t (held_where_stated s held)) (stated_types s) ≡ false
        → TellsOfType p bytes t (held_where_stated s held) (stated_types s) (line_of p bytes t V4 detail steps held s proofs) }
{}

/// A law: where the type of an assigned value for which none is written isn't over stable controls, as V4 asks, at a point of which all types are,
/// the line of V4 tells of the first variable of the value whose type isn't, with a control of its class that isn't stable, and why.
/// Where it is, and the type of a `retype` isn't, the line tells of the first such type.
pub fn bad_class_is_told()
    ensures assigned { (p : Program) → IsWellFormed p → (bytes : List ℕ) → (t : ℕ) → (a : Point) → AreTypesOverControls p t a → (steps : List Step) → (proofs : List Proof)
        → (detail : Detail) → (x : ℕ) → (e : Term) → (retypes : List (ℕ × Term)) → HasVarsBelow e (length p.vars)
        → is_over_controls (plain p) t a.held (value_type (plain p) t a None e) ≡ false
        → TellsOfClass p bytes t a e (line_of p bytes t V4 detail steps a.held (assign x e None retypes) proofs) }
    ensures retyped { (p : Program) → IsWellFormed p → (bytes : List ℕ) → (t : ℕ) → (a : Point) → (steps : List Step) → (proofs : List Proof)
        → (detail : Detail) → (x : ℕ) → (e : Term) → (retypes : List (ℕ × Term)) → HasVarsBelow e (length p.vars)
        → All (λ q. HasVarsBelow q (length p.vars)) (type_terms retypes)
        → is_over_controls (plain p) t a.held (value_type (plain p) t a None e) ≡ true
        → list_all (is_over_controls (plain p) t a.held) (type_terms retypes) ≡ false
        → TellsOfType p bytes t a.held (type_terms retypes) (line_of p bytes t V4 detail steps a.held (assign x e None retypes) proofs) }
{}
