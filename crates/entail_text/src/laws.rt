//! The laws of what is told of certificates, of memories and of what would help.

ghost use Rattle.std.specs.Prelude.{◌≡◌, ◌⊎◌, ◌++◌, ℕ, IsTrue, List, Some};
ghost use Rattle.std.specs.List.{list_all};
ghost use Rattle.cov_expr.specs.Term.{Term};
ghost use Rattle.cov_expr.specs.Trees.{has_term};
ghost use Rattle.cov_expr.specs.Words.{AreWords};
ghost use Rattle.cov_ast.specs.Syntax.{Cert};
ghost use Rattle.cov_ast.specs.WellFormed.{CertHasWords};
ghost use Rattle.cert_search.specs.Classes.{HasNone, IsFound};
ghost use Rattle.cert_search.specs.declared.finder.TheConstants.{MOST_DEPTH};
ghost use Rattle.entail_cert.specs.Valid.{is_valid};
ghost use Rattle.entail_counter.specs.Counterexamples.{HasBindings, IsCounterexample, counterexample, memory};
ghost use Rattle.entail_counter.specs.declared.binding.Binding.{Binding};
ghost use Rattle.entail_search.specs.Sound.{IsSound};
ghost use Rattle.entail_text.specs.Findings.{IsEnough, found_for, is_hopeless, neither, shown, would_help};
ghost use Rattle.entail_text.specs.Nodes.{LeadsToFailure, Node, bad};

/// A law: the path of the first node of a certificate that fails leads to a node, and that node's own condition fails. So what is told
/// of a certificate that isn't valid is told of that node.
pub fn failing_node_is_there()
    ensures { (root : Node) → (path : List ℕ) → bad root ≡ Some path → LeadsToFailure root path }
{}

/// A law: what is suggested for an entailment is valid: it is of the class of the first search, so that its expressions are within the limits of those of a text, or of the
/// deeper one, and then it and its expressions are within these limits too. Where neither is found, no certificate of that class is valid.
pub fn suggested_certificates_are_valid()
    ensures valid { (hyps : List Term) → (goal : Term) → (c : Cert) → found_for hyps goal ≡ shown c → IsTrue (is_valid hyps goal c) }
    ensures found { (hyps : List Term) → (goal : Term) → (c : Cert) → found_for hyps goal ≡ shown c → IsFound MOST_DEPTH hyps goal c ⊎ IsSound hyps goal c }
    ensures none { (hyps : List Term) → (goal : Term) → found_for hyps goal ≡ neither → HasNone MOST_DEPTH hyps goal }
{}

/// A law: where a memory is told that breaks an entailment, there is one of words with its values, in each such memory all hypotheses hold and the goal
/// doesn't, and no certificate of words is valid for the entailment. So a memory is never told of an entailment that has a valid one.
pub fn broken_entailments_have_no_certificate()
    ensures there { (hyps : List Term) → (goal : Term) → (m : List Binding) → counterexample hyps goal ≡ Some m → IsCounterexample hyps goal (memory m) × HasBindings m (memory m) }
    ensures each { (hyps : List Term) → (goal : Term) → (m : List Binding) → counterexample hyps goal ≡ Some m
        → (n : List ℕ) → AreWords n → HasBindings m n → IsCounterexample hyps goal n }
    ensures none { (hyps : List Term) → (goal : Term) → (m : List Binding) → counterexample hyps goal ≡ Some m
        → (c : Cert) → CertHasWords c → IsTrue (is_valid hyps goal c) → ⊥ }
{}

/// A law: where one predicate more would help, the entailment with it has a valid certificate of the class of the search. Where it is hopeless with some
/// more, no certificate of words shows the goal by any of the hypotheses and these.
pub fn what_would_help_is_enough()
    ensures enough { (hyps : List Term) → (goal more : Term) → IsTrue (would_help hyps goal more) → IsEnough hyps goal more }
    ensures hopeless { (hyps : List Term) → (goal : Term) → (more : List Term) → IsTrue (is_hopeless hyps goal more)
        → (known : List Term) → IsTrue (list_all (has_term (hyps ++ more)) known) → (c : Cert) → CertHasWords c → IsTrue (is_valid known goal c) → ⊥ }
{}
