//! Texts as tokens, from their first byte to their last.

ghost use Rattle.std.specs.Prelude.{◌≡◌, [], ◌∷◌, ◌++◌, ◌≤◌, ◌<◌, length, map, IfOk, OnOk};
ghost use Rattle.cov_expr.specs.declared.limits.TheConstants.{MOST_BYTES};
ghost use Rattle.cov_lex.specs.Classified.{classified_of, AreClassified};
ghost use Rattle.cov_lex.specs.Inside as inside;
ghost use Rattle.cov_lex.specs.Lexing.{Gives, tokens_of};
ghost use Rattle.cov_lex.specs.Tokens.{AreTokens};

use crate::fault::LexFault;
use crate::piece::{Piece, front};
use crate::token::{Token, TokenKind};
use cov_expr::{Kind, List, NoMemory, is_lower};
use std::alloc::Global;

/// The tokens of a text of at most 1 MiB as the grammar takes them, in order, or its lexical fault of least offset. Of each keyword
/// and sign they have the kind, of each number the value; names have no number yet. It reads each byte once, and
/// takes memory for the tokens alone.
#[tactic(auto, unfolding(crate::specs::Classified::classified_of, crate::specs::Lexing::tokens_of))]
pub fn tokens(alloc: Global, bytes: &[u8]) -> Result<List<cov_grammar::Token>, LexFault>
    requires { length bytes.now ≤ MOST_BYTES }
    ensures reading { Gives result (classified_of bytes.now) }
    ensures tokens { IfOk result (AreClassified bytes.now) }
{
    let mut tokens = List::new(alloc);
    let mut at = 0;
    while at < bytes.len() {
        match front(&bytes[at..], at as u32)? {
            Piece::Gap(len) => at += len,
            Piece::Part(kind, value, len) => {
                add_token(&mut tokens, kind, at as u32, (at + len) as u32, value)?;
                at += len;
            }
        }
    }
    Ok(tokens)
}

/// Adds a token at the end.
#[inline(always)]
fn add_token(
    tokens: &mut List<cov_grammar::Token>,
    kind: Kind,
    at: u32,
    end: u32,
    value: u32,
) -> Result<(), NoMemory>
    ensures ok { OnOk result (tokens.new ≡ tokens.old ++ (record { kind = kind; at = at; end = end; value = value }) ∷ []) }
{
    tokens.push(cov_grammar::Token {
        kind,
        at,
        end,
        value,
    })
}

/// The tokens of a text of at most 1 MiB, in order, or its lexical fault of least offset. It reads each byte once, and
/// takes memory for the tokens alone.
pub fn lex(alloc: Global, bytes: &[u8]) -> Result<List<Token>, LexFault>
    requires { length bytes.now ≤ MOST_BYTES }
    ensures reading { Gives result (tokens_of bytes.now) }
    ensures tokens { IfOk result (AreTokens bytes.now) }
{
    let classified = tokens(alloc, bytes)?;
    Ok(all_lexical(alloc, bytes, classified.as_slice())?)
}

/// Tokens of a text without their kinds.
fn all_lexical(
    alloc: Global,
    bytes: &[u8],
    tokens: &[cov_grammar::Token],
) -> Result<List<Token>, NoMemory>
    requires { AreClassified bytes.now tokens.now }
    ensures { IfOk result (λ list. list ≡ map (inside.lexical bytes.now) tokens.now) }
{
    let mut list = List::new(alloc);
    for token in tokens {
        list.push(lexical(bytes, *token))?;
    }
    Ok(list)
}

/// A token without its kind, where it stands in a text. A keyword begins with a letter, and a sign doesn't.
fn lexical(bytes: &[u8], token: cov_grammar::Token) -> Token
    requires { token.at < length bytes.now }
    ensures { result ≡ inside.lexical bytes.now token }
{
    let kind = match token.kind {
        Kind::Name => TokenKind::Name,
        Kind::Number => TokenKind::Number(token.value),
        _ if is_lower(bytes[token.at as usize]) => TokenKind::Keyword,
        _ => TokenKind::Sign,
    };
    Token {
        kind,
        at: token.at,
        end: token.end,
    }
}
