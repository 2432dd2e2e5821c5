//! Laws of what a text spells, by the ids of its names: its numbers are words, and so are those of its expressions, certificates, states, statements and
//! declarations.
//!
//! They stand in `proofs/`: `NumberWords` has the numbers of tokens, `WordShapes` a law for each way to make a right side of the grammar, `WordTerms`
//! expressions, and `WordTrees` what is made of them. It has no code, and no contract: `call_judge` and `call_verdicts` draw on it.
#![tactic(auto)]
