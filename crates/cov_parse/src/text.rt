//! Texts as programs and as expressions, or their first fault.

ghost use Rattle.std.specs.Prelude.{◌≡◌, ◌≤◌, ◌<◌, length, All, IfOk};
ghost use Rattle.cov_expr.specs.declared.limits.TheConstants.{MOST_BYTES};
ghost use Rattle.cov_ast.specs.Ready.{HasUsesInOrder, IsReady};
ghost use Rattle.cov_ast.specs.View as ast;
ghost use Rattle.cov_grammar.specs.PlacedTrees.{Program, Placed};
ghost use Rattle.cov_grammar.specs.Grammar as grammar;
ghost use Rattle.cov_grammar.specs.ReaderAnswers as answers;
ghost use Rattle.cov_expr.specs.Term.{Term};
ghost use Rattle.cov_expr.specs.View.{term};
ghost use Rattle.cov_expr.specs.Words.{HasVarsBelow};
ghost use Rattle.cov_read.specs.CertViews as certs;
ghost use Rattle.cov_read.specs.DeclViews as decls;
ghost use Rattle.cov_text.specs.Limits as limits;
ghost use Rattle.cov_text.specs.Text.{IsShallow, IsText, Answers, Only, program_of, expression_of, words_of};
ghost use Rattle.cov_parse.specs.Reads.{Finds, Reads, found_expr, parsed_expr};
ghost use Rattle.cov_text.specs.Uses.{AreUsesOf};

use crate::exprs::expr_of;
use crate::limits::{in_expr, in_program};
use crate::name_uses::uses;
use crate::programs::parsed_of;
use crate::tokens::{Tokens, read_tokens};
use cov_ast::{NameTable, NameUse, Parsed};
use cov_expr::{Expr, List};
use cov_grammar::{Token, TokenFault, TokenReader};
use cov_read::{PlacedProgram, Whole, read_program, read_whole};
use cov_text::{ParseFault, deep};
use std::alloc::Global;

/// What a text spells that is one expression.
#[derive(Drop)]
pub struct ParsedExpr {
    pub names: NameTable,
    /// Every use of a name, in the order of the text.
    pub uses: List<NameUse>,
    /// Each variable is named by the number of its name.
    pub expr: Expr,
}

/// The program that a text of at most 1 MiB spells, or its first fault.
pub fn parse(alloc: Global, bytes: &[u8]) -> Result<Parsed, ParseFault>
    requires { length bytes.now ≤ MOST_BYTES }
    // What is answered is what the text spells, within the limits; else its first fault.
    ensures answer { Answers grammar.program limits.in_program bytes.now ast.parsed (program_of bytes.now) result }
    // Ids of the tree are numbers of names, its declarations are within bounds, the places of a thread's statements differ,
    // nothing is put out in version 1, and the list of uses has each name that the declarations use, in the order of the
    // text.
    ensures ready { IfOk result (λ p. IsReady (ast.parsed p)) }
    ensures in_order { IfOk result (λ p. HasUsesInOrder (ast.parsed p)) }
    // What the text spells within the limits is answered.
    ensures only { (tree : Program) → IsText grammar.program limits.in_program bytes.now tree → Only ast.parsed (program_of bytes.now tree) result }
{
    read_program_text(alloc, bytes)
}

fn read_program_text(alloc: Global, bytes: &[u8]) -> Result<Parsed, ParseFault>
    requires { length bytes.now ≤ MOST_BYTES }
    ensures { Answers grammar.program limits.in_program bytes.now ast.parsed (program_of bytes.now) result }
{
    let Tokens { names, tokens } = read_text(alloc, bytes)?;
    let (program, uses) = tree_in(alloc, tokens, bytes)?;
    Ok(parsed_of(alloc, names, uses, program)?)
}

/// The same, and the memory of the tokens is given back: the tree that callers get takes it.
fn tree_in(
    alloc: Global,
    tokens: List<Token>,
    bytes: &[u8],
) -> Result<(PlacedProgram, List<NameUse>), ParseFault>
    requires short { length bytes.now ≤ MOST_BYTES }
    requires shallow { IsShallow bytes.now }
    requires tokens { tokens ≡ words_of bytes.now }
    ensures { Finds bytes.now result }
{
    tree_of(alloc, tokens.as_slice(), bytes)
}

/// The program that the tokens of a text are, within the limits, and where it uses names.
fn tree_of(
    alloc: Global,
    tokens: &[Token],
    bytes: &[u8],
) -> Result<(PlacedProgram, List<NameUse>), ParseFault>
    requires short { length bytes.now ≤ MOST_BYTES }
    requires shallow { IsShallow bytes.now }
    requires tokens { tokens.now ≡ words_of bytes.now }
    ensures { Finds bytes.now result }
{
    let program = tokens_as_program(alloc, tokens, bytes.len() as u32)?;
    if let Some(excess) = in_program(&program) {
        return Err(ParseFault::from(excess));
    }
    let uses = uses(alloc, tokens)?;
    Ok((program, uses))
}

/// The expression that a text of at most 1 MiB spells, or its first fault.
pub fn parse_expr(alloc: Global, bytes: &[u8]) -> Result<ParsedExpr, ParseFault>
    requires { length bytes.now ≤ MOST_BYTES }
    ensures answer { Answers grammar.whole limits.in_expr bytes.now parsed_expr (expression_of bytes.now) result }
    // Each variable, and each name of the list of uses, is the number of a name.
    ensures below { IfOk result (λ p. HasVarsBelow (term p.expr) (length p.names)) }
    ensures used { IfOk result (λ p. All (λ u. u.name < length p.names) p.uses) }
    // The list of uses has the variables of the expression, in the order of the text.
    ensures in_order { IfOk result (λ p. AreUsesOf p.uses (term p.expr)) }
    ensures only { (tree : Placed Term) → IsText grammar.whole limits.in_expr bytes.now tree → Only parsed_expr (expression_of bytes.now tree) result }
{
    read_expr_text(alloc, bytes)
}

fn read_expr_text(alloc: Global, bytes: &[u8]) -> Result<ParsedExpr, ParseFault>
    requires { length bytes.now ≤ MOST_BYTES }
    ensures { Answers grammar.whole limits.in_expr bytes.now parsed_expr (expression_of bytes.now) result }
{
    let Tokens { names, tokens } = read_text(alloc, bytes)?;
    let (expr, uses) = expr_in(alloc, tokens.as_slice(), bytes)?;
    Ok(ParsedExpr { names, uses, expr })
}

/// The expression that the tokens of a text are, within the limits, and where it uses names.
fn expr_in(
    alloc: Global,
    tokens: &[Token],
    bytes: &[u8],
) -> Result<(Expr, List<NameUse>), ParseFault>
    requires short { length bytes.now ≤ MOST_BYTES }
    requires shallow { IsShallow bytes.now }
    requires tokens { tokens.now ≡ words_of bytes.now }
    ensures { Answers grammar.whole limits.in_expr bytes.now (found_expr bytes.now) (expression_of bytes.now) result }
{
    let whole = tokens_as_expr(alloc, tokens, bytes.len() as u32)?;
    if let Some(excess) = in_expr(&whole) {
        return Err(ParseFault::from(excess));
    }
    let uses = uses(alloc, tokens)?;
    Ok((expr_of(whole), uses))
}

/// The tokens of a text and its names, or the first fault of its bytes or its brackets.
fn read_text(alloc: Global, bytes: &[u8]) -> Result<Tokens, ParseFault>
    requires { length bytes.now ≤ MOST_BYTES }
    ensures { Reads bytes.now result }
{
    let read = read_tokens(alloc, bytes)?;
    match deep(read.tokens.as_slice()) {
        Some(at) => Err(ParseFault::TooDeep(at)),
        None => Ok(read),
    }
}

/// The program that tokens are, in a text of so many bytes.
#[tactic(auto, using(crate::proofs::ParseLaws::program_answers))]
fn tokens_as_program(alloc: Global, tokens: &[Token], end: u32) -> Result<PlacedProgram, TokenFault>
    ensures { answers.Answers grammar.program decls.program end tokens.now result }
{
    let mut reader = TokenReader::new(tokens);
    let read = read_program(&mut reader, alloc);
    reader.finish(read, end)
}

/// The expression that tokens are, in a text of so many bytes.
#[tactic(auto, using(crate::proofs::ParseLaws::expr_answers))]
fn tokens_as_expr(alloc: Global, tokens: &[Token], end: u32) -> Result<Whole, TokenFault>
    ensures { answers.Answers grammar.whole certs.whole end tokens.now result }
{
    let mut reader = TokenReader::new(tokens);
    let read = read_whole(&mut reader, alloc, false);
    reader.finish(read, end)
}
