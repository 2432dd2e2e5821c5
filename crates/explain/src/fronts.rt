//! Whether tokens are the front of a program, or a whole one, read by the reader of programs.

ghost use Rattle.std.specs.Prelude.{◌≡◌, IfOk};
ghost use Rattle.explain.specs.ExpectedTokens as spec;

use cov_expr::NoMemory;
use cov_grammar::{Stop, Token, TokenReader};
use cov_read::read_program;
use std::alloc::Global;

/// Whether some program begins with these tokens.
#[tactic(auto, unfolding(crate::specs::ExpectedTokens::is_front), using(crate::proofs::FrontLaws::front_read, crate::proofs::FrontLaws::front_stopped))]
pub fn is_front(alloc: Global, tokens: &[Token]) -> Result<bool, NoMemory>
    ensures { IfOk result (λ front. front ≡ spec.is_front tokens.now) }
{
    let mut reader = TokenReader::new(tokens);
    match read_program(&mut reader, alloc) {
        Ok(_) => Ok(reader.is_empty()),
        Err(Stop::Unexpected) => Ok(reader.is_empty()),
        Err(Stop::NoMemory) => Err(NoMemory),
    }
}

/// Whether these tokens are a program.
#[tactic(auto, unfolding(crate::specs::ExpectedTokens::is_whole), using(crate::proofs::FrontLaws::whole_read, crate::proofs::FrontLaws::whole_stopped))]
pub fn is_whole(alloc: Global, tokens: &[Token]) -> Result<bool, NoMemory>
    ensures { IfOk result (λ whole. whole ≡ spec.is_whole tokens.now) }
{
    let mut reader = TokenReader::new(tokens);
    match read_program(&mut reader, alloc) {
        Ok(_) => Ok(reader.is_empty()),
        Err(Stop::Unexpected) => Ok(false),
        Err(Stop::NoMemory) => Err(NoMemory),
    }
}
