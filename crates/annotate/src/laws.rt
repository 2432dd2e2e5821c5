//! The laws of annotated programs.

ghost use Rattle.std.specs.Prelude.{◌≡◌, ◌⊎◌, ◌<◌, ◌≤◌, ◌++◌, ℕ, All, Contains, IsTrue, List, [], None, Some, drop, get_or, length, map, take, true, unwrap_or};
ghost use Rattle.cov_expr.specs.declared.limits.TheConstants.{MOST_BYTES};
ghost use Rattle.cov_ast.specs.Obligations.{all_hold, first_false};
ghost use Rattle.cov_ast.specs.Plain.{plain};
ghost use Rattle.cov_ast.specs.Ready.{HasUsesInOrder};
ghost use Rattle.cov_ast.specs.Syntax as syntax;
ghost use Rattle.cov_ast.specs.WellFormed.{IsCertInRange, IsWellFormed, places};
ghost use Rattle.cov_grammar.specs.Grammar as grammar;
ghost use Rattle.cov_grammar.specs.PlacedTrees as placed;
ghost use Rattle.cov_text.specs.Limits as limits;
ghost use Rattle.cov_text.specs.GivenTrees.{parsed_of};
ghost use Rattle.cov_text.specs.Text.{IsText, names_of, program_of};
ghost use Rattle.cov_ast.specs.declared.parsed.NameUse.{NameUse};
ghost use Rattle.cov_print.specs.ReadBack.{SpellsProgram};
ghost use Rattle.cov_print.specs.Spelling.{spelling};
ghost use Rattle.cov_print.specs.Unplaced.{unplaced};
ghost use Rattle.mode_compat.specs.Compatible.{no_thread, numbered};
ghost use Rattle.mode_compat.specs.Declared.{declaration_obligations};
ghost use Rattle.policy_class.specs.Resolved.{lock_id, name_obligations, resolved, resolved_cert, var_id};
ghost use Rattle.typing_law.specs.Accepted.{IsAccepted, program_obligations};
ghost use Rattle.typing_law.specs.Entailments.{cert_for};
ghost use Rattle.typing_law.specs.ThreadEntailments.{proofs_at, thread_entailments};
ghost use Rattle.annotate.specs.Annotated.{annotated, choices, first_refused, IsAnnotated, IsChoice, IsOfWordsBelow, unproved};
ghost use Rattle.annotate.specs.AnnotatedText.{annotated_text, AreKeptOrNew, IsAsRead, IsUseOfChosen, put_in_text, unresolved_cert, uses_at, with_choices};
ghost use Rattle.annotate.specs.NotFound.{not_found};
ghost use Rattle.annotate.specs.WithCertificates.{AreRisingAbove, chosen_for, is_given, new_among, program_without_proofs, proof_of, put_in_program, thread_without_proofs, with_certs};

/// Where certificates are put in among the proofs of a statement, each number has the one that is chosen for it, else the one that it had. Each proof keeps its
/// place and its number; it keeps its certificate where none is chosen for the number, and where a proof of the number stands before it. Those that are chosen
/// for numbers without a proof stand behind, in their order.
pub fn chosen_certificates_stand()
    ensures certificates { (chosen : List (ℕ × syntax.Cert)) → (proofs : List syntax.Proof) → (n : ℕ)
        → cert_for (with_certs chosen proofs) n ≡ unwrap_or (chosen_for chosen n) (cert_for proofs n) }
    ensures numbers { (chosen : List (ℕ × syntax.Cert)) → (proofs : List syntax.Proof) → (k : ℕ) → (d : syntax.Proof) → k < length proofs
        → (get_or (with_certs chosen proofs) k d).number ≡ (get_or proofs k d).number }
    ensures others { (chosen : List (ℕ × syntax.Cert)) → (proofs : List syntax.Proof) → (k : ℕ) → (d : syntax.Proof) → k < length proofs
        → (chosen_for chosen (get_or proofs k d).number ≡ None) ⊎ (is_given (take k proofs) (get_or proofs k d).number ≡ true)
        → get_or (with_certs chosen proofs) k d ≡ get_or proofs k d }
    ensures behind { (chosen : List (ℕ × syntax.Cert)) → (proofs : List syntax.Proof)
        → drop (length proofs) (with_certs chosen proofs) ≡ map proof_of (new_among chosen proofs) }
{}

/// What is chosen for the statements of a program is found for entailments that are listed and have no valid certificate, and numbers rise at each place.
pub fn choices_are_for_listed_entailments()
    ensures found { (depth : ℕ) → (p : syntax.Program) → (t : ℕ) → (place : ℕ) → All (IsChoice depth p t place) (choices depth p t place) }
    ensures rising { (depth : ℕ) → (p : syntax.Program) → IsWellFormed p → (t : ℕ) → (place : ℕ)
        → AreRisingAbove 0 (map (λ c. c.0) (choices depth p t place)) }
{}

/// A program and the annotated one differ in proofs alone, and the proofs of each statement are those that it had, with what is chosen for them. So the plain
/// program is the same, and so are the obligations of declarations, and the entailments that are listed of each thread, which no proof has a part in.
pub fn proofs_alone_change()
    ensures rest { (depth : ℕ) → (p : syntax.Program) → program_without_proofs (annotated depth p) ≡ program_without_proofs p }
    ensures proofs { (depth : ℕ) → (p : syntax.Program) → (t : ℕ) → (place : ℕ)
        → proofs_at (numbered (annotated depth p) t).body place ≡ with_certs (choices depth p t place) (proofs_at (numbered p t).body place) }
    ensures plain { (depth : ℕ) → (p : syntax.Program) → plain (annotated depth p) ≡ plain p }
    ensures declarations { (depth : ℕ) → (p : syntax.Program) → declaration_obligations (annotated depth p) ≡ declaration_obligations p }
    ensures entailments { (depth : ℕ) → (p : syntax.Program) → (t : ℕ) → thread_entailments (annotated depth p) t ≡ thread_entailments p t }
    ensures without_proofs { (p : syntax.Program) → (t : ℕ) → thread_entailments (program_without_proofs p) t ≡ thread_entailments p t }
{}

/// What each entailment that is listed has in the annotated program: a valid certificate stays; else a valid one of the class stands there; or the class has none,
/// and what there was stays.
pub fn listed_entailments_are_annotated()
    ensures { (depth : ℕ) → (p : syntax.Program) → IsWellFormed p → (t : ℕ)
        → All (λ g. IsAnnotated depth (proofs_at (numbered p t).body g.place) (proofs_at (numbered (annotated depth p) t).body g.place) g) (thread_entailments p t) }
{}

/// The open entailments of the annotated program are those that are listed of the program without a valid certificate, and for which the search finds none.
pub fn unproved_entailments_are_not_found()
    ensures { (depth : ℕ) → (p : syntax.Program) → IsWellFormed p → unproved depth p ≡ not_found depth p }
{}

/// Nothing is refused of the annotated program exactly where it is accepted. Names of a text that are in order stay so in the annotated text, and then what is
/// refused first of the program is the first obligation of the annotated text that doesn't hold, those of names included.
pub fn refusals_are_of_the_annotated_text()
    ensures accepted { (depth : ℕ) → (p : syntax.Program)
        → (first_refused depth p ≡ None → IsAccepted (annotated depth p)) × (IsAccepted (annotated depth p) → first_refused depth p ≡ None) }
    ensures names { (depth : ℕ) → (p : syntax.Parsed) → IsWellFormed (resolved p) → IsAsRead p
        → IsTrue (all_hold (name_obligations p)) → IsTrue (all_hold (name_obligations (annotated_text depth p))) }
    ensures first { (depth : ℕ) → (p : syntax.Parsed) → IsWellFormed (resolved p) → IsAsRead p → IsTrue (all_hold (name_obligations p))
        → first_false (name_obligations (annotated_text depth p) ++ program_obligations (resolved (annotated_text depth p))) ≡ first_refused depth (resolved p) }
{}

/// The annotated program of a well formed one is well formed: what a search finds for its entailments has variables in range and words.
pub fn annotated_programs_are_formed()
    ensures { (depth : ℕ) → (p : syntax.Program) → IsWellFormed p → IsWellFormed (annotated depth p) }
{}

/// In a text as reading gives it, a certificate in the numbers of names is read as itself, and the annotated text is read as the annotated program. It is again
/// as reading gives it, with the same version, names, variables and locks, and the same threads but for their proofs.
pub fn annotated_text_is_read()
    ensures certificates { (p : syntax.Parsed) → IsWellFormed (resolved p) → IsAsRead p
        → (locks : ℕ) → (c : syntax.Cert) → IsCertInRange (length p.vars) locks c → resolved_cert (var_id p) (lock_id p) (unresolved_cert p c) ≡ c }
    ensures program { (depth : ℕ) → (p : syntax.Parsed) → IsWellFormed (resolved p) → IsAsRead p → resolved (annotated_text depth p) ≡ annotated depth (resolved p) }
    ensures read { (depth : ℕ) → (p : syntax.Parsed) → IsWellFormed (resolved p) → IsAsRead p → IsAsRead (annotated_text depth p) }
    ensures rest { (depth : ℕ) → (p : syntax.Parsed) → let made = annotated_text depth p in
        (made.version ≡ p.version) × (made.names ≡ p.names) × (made.vars ≡ p.vars) × (made.locks ≡ p.locks)
        × (map thread_without_proofs made.threads ≡ map thread_without_proofs p.threads) }
{}

/// Into a text as reading gives it, certificates in the numbers of declared variables may be put, by threads and places of statements. Its names stay in order, it is again as
/// reading gives it, and it is read as its program with these certificates in it, of which the declarations are as before, and so are the entailments that are listed.
pub fn certificates_may_be_put_in()
    ensures names { (chosen : (t : ℕ) → (place : ℕ) → List (ℕ × syntax.Cert)) → (p : syntax.Parsed) → IsWellFormed (resolved p) → IsAsRead p
        → ((t : ℕ) → (place : ℕ) → All (λ c. IsCertInRange (length p.vars) (length p.locks) c.1) (chosen t place))
        → IsTrue (all_hold (name_obligations p)) → IsTrue (all_hold (name_obligations (with_choices chosen p))) }
    ensures read { (chosen : (t : ℕ) → (place : ℕ) → List (ℕ × syntax.Cert)) → (p : syntax.Parsed) → IsWellFormed (resolved p) → IsAsRead p
        → ((t : ℕ) → (place : ℕ) → All (λ c. IsCertInRange (length p.vars) (length p.locks) c.1) (chosen t place)) → IsAsRead (with_choices chosen p) }
    ensures program { (chosen : (t : ℕ) → (place : ℕ) → List (ℕ × syntax.Cert)) → (p : syntax.Parsed) → IsWellFormed (resolved p) → IsAsRead p
        → ((t : ℕ) → (place : ℕ) → All (λ c. IsCertInRange (length p.vars) (length p.locks) c.1) (chosen t place))
        → resolved (with_choices chosen p) ≡ put_in_program chosen (resolved p) }
    ensures declarations { (chosen : (t : ℕ) → (place : ℕ) → List (ℕ × syntax.Cert)) → (p : syntax.Program)
        → declaration_obligations (put_in_program chosen p) ≡ declaration_obligations p }
    ensures entailments { (chosen : (t : ℕ) → (place : ℕ) → List (ℕ × syntax.Cert)) → (p : syntax.Program) → (t : ℕ)
        → thread_entailments (put_in_program chosen p) t ≡ thread_entailments p t }
{}

/// The entailments that are listed of a well formed program are of words and of its variables.
pub fn listed_entailments_are_in_range()
    ensures { (p : syntax.Program) → IsWellFormed p → (t : ℕ) → All (λ g. IsOfWordsBelow (length p.vars) g.entailment) (thread_entailments p t) }
{}

/// Each text of a program that is read is as reading gives it.
pub fn texts_are_as_read()
    ensures { (text : List ℕ) → length text ≤ MOST_BYTES → (tree : placed.Program) → IsText grammar.program limits.in_program text tree
        → IsAsRead (program_of text tree) }
{}

/// The uses of names in a text with certificates put in are listed in the order of the text, where those of the text without them are; where nothing is chosen,
/// the text stays as it is. Each use after is one of those before, with its place and in their order, or one in a certificate that is chosen for the statement at
/// its place. And each use in a certificate that is chosen for a statement is there, at the place of the statement.
pub fn uses_stay_in_order()
    ensures order { (chosen : (t : ℕ) → (place : ℕ) → List (ℕ × syntax.Cert)) → (p : syntax.Parsed) → HasUsesInOrder p → HasUsesInOrder (put_in_text chosen p) }
    ensures kept { (p : syntax.Parsed) → HasUsesInOrder p → put_in_text (λ t place. []) p ≡ p }
    ensures placed { (chosen : (t : ℕ) → (place : ℕ) → List (ℕ × syntax.Cert)) → (p : syntax.Parsed)
        → AreKeptOrNew (IsUseOfChosen chosen) p.uses (put_in_text chosen p).uses }
    ensures new { (chosen : (t : ℕ) → (place : ℕ) → List (ℕ × syntax.Cert)) → (p : syntax.Parsed) → (t : ℕ) → (place : ℕ)
        → Contains (places (get_or p.threads t no_thread).body) place → (n : ℕ) → (c : syntax.Cert) → chosen_for (chosen t place) n ≡ Some c
        → All (Contains (put_in_text chosen p).uses) (uses_at place c) }
{}

/// Where a text is read, each tree of the annotated text is within the limits of a text, places aside, at depths of at most 2.
pub fn annotated_texts_are_within_limits()
    ensures { (text : List ℕ) → (tree : placed.Program) → IsText grammar.program limits.in_program text tree → (depth : ℕ) → depth ≤ 2
        → (made : placed.Program) → (uses : List NameUse) → unplaced (parsed_of (names_of text) uses made) ≡ unplaced (annotated_text depth (program_of text tree))
        → limits.in_program made ≡ None }
{}

/// Where a text is read, its names are in order and its program is well formed, the canonical spelling of the annotated text, of a depth of at most 2, is read as
/// the annotated text, places aside, unless it is longer than a text may be.
pub fn annotated_spelling_is_read()
    ensures { (text : List ℕ) → length text ≤ MOST_BYTES → (tree : placed.Program) → IsText grammar.program limits.in_program text tree
        → IsWellFormed (resolved (program_of text tree)) → IsTrue (all_hold (name_obligations (program_of text tree))) → (depth : ℕ) → depth ≤ 2
        → length (spelling (annotated_text depth (program_of text tree))) ≤ MOST_BYTES
        → SpellsProgram (spelling (annotated_text depth (program_of text tree))) (annotated_text depth (program_of text tree)) }
{}
