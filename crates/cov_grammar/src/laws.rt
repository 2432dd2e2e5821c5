//! The two laws of reading by the grammar: functions with no body.

ghost use Rattle.cov_grammar.specs.PlacedTrees.{Rule};
ghost use Rattle.cov_grammar.specs.Shapes.{rule};
ghost use Rattle.cov_grammar.specs.Grammar.{program, whole};
ghost use Rattle.cov_grammar.specs.ReadingLaws.{IsReadExactly, IsDecided};

/// A law: reading with one token of look-ahead gives a tree exactly where the tokens spell it, and else stops in front of the
/// first token with which no text of the language goes on.
#[tactic(auto, using(crate::proofs::Exactness::program_exactly, crate::proofs::Exactness::whole_exactly, crate::proofs::Exactness::rule_exactly))]
pub fn reading_is_exact()
    ensures programs { IsReadExactly program }
    ensures expressions { IsReadExactly whole }
    ensures rules { (r : Rule) → IsReadExactly (rule r) }
{}

/// A law: all tokens together spell one tree, or have one first wrong token, and never both.
#[tactic(auto, using(crate::proofs::Exactness::program_decided, crate::proofs::Exactness::whole_decided, crate::proofs::Exactness::rule_decided))]
pub fn tree_or_fault_is_one()
    ensures programs { IsDecided program }
    ensures expressions { IsDecided whole }
    ensures rules { (r : Rule) → IsDecided (rule r) }
{}
