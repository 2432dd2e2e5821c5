//! What could stand at a place, by the bytes in front of it.

ghost use Rattle.std.specs.Prelude.{◌≡◌, ◌≤◌, ◌++◌, ◌∷◌, [], length, map, take, IfOk, OnOk};
ghost use Rattle.std.specs.List.{filter};
ghost use Rattle.cov_expr.specs.declared.limits.TheConstants.{MOST_BYTES};
ghost use Rattle.cov_expr.specs.Spellings.{spellings};
ghost use Rattle.cov_text.specs.Text.{words_of};
ghost use Rattle.explain.specs.ExpectedLines.{are_version};
ghost use Rattle.explain.specs.ExpectedTokens as spec;
ghost use Rattle.explain.specs.Inside.Following as inside;

use crate::fronts::{is_front, is_whole};
use crate::next::Next;
use cov_expr::{Kind, List, NoMemory, SPELLINGS};
use cov_grammar::{Token, is};
use cov_lex::LexFault;
use cov_parse::read_tokens;
use std::alloc::Global;
use text_parts::halves;

/// What could stand at a place of a text of at most 1 MiB, behind the bytes in front of it: a name, a number, keywords and signs in the
/// order of their table, and the end of the text. Nothing could, where these bytes have no tokens.
#[tactic(auto, unfolding(crate::specs::ExpectedTokens::following), using(crate::proofs::FollowLaws::behind_tokens, crate::proofs::FollowLaws::behind_fault))]
pub fn expected(alloc: Global, bytes: &[u8], at: u32) -> Result<List<Next>, NoMemory>
    requires { length bytes.now ≤ MOST_BYTES }
    ensures { IfOk result (λ found. found ≡ spec.expected bytes.now at) }
{
    let (front, _) = halves(bytes, at as usize);
    match read_tokens(alloc, front) {
        Ok(read) => {
            let mut tokens = read.tokens;
            behind_tokens(alloc, &mut tokens)
        }
        Err(LexFault::NoMemory) => Err(NoMemory),
        Err(LexFault::BadByte(_) | LexFault::NumberTooLarge(_) | LexFault::NameTooLong(_)) => {
            Ok(List::new(alloc))
        }
    }
}

/// Whether `version` alone stands in front of a place of a text of at most 1 MiB.
#[tactic(auto, using(crate::proofs::FollowLaws::version_read, crate::proofs::FollowLaws::version_fault))]
pub fn is_behind_version(alloc: Global, bytes: &[u8], at: u32) -> Result<bool, NoMemory>
    requires { length bytes.now ≤ MOST_BYTES }
    ensures { IfOk result (λ following. following ≡ are_version (words_of (take at bytes.now))) }
{
    let (front, _) = halves(bytes, at as usize);
    match read_tokens(alloc, front) {
        Ok(read) => {
            let are_version = match read.tokens.as_slice() {
                [first] => is(Kind::Version, first.kind),
                _ => false,
            };
            Ok(are_version)
        }
        Err(LexFault::NoMemory) => Err(NoMemory),
        Err(LexFault::BadByte(_) | LexFault::NumberTooLarge(_) | LexFault::NameTooLong(_)) => {
            Ok(false)
        }
    }
}

/// What could stand behind the tokens of a text.
fn behind_tokens(alloc: Global, tokens: &mut List<Token>) -> Result<List<Next>, NoMemory>
    ensures { IfOk result (λ found. found ≡ filter (inside.could_follow tokens.old) spec.candidates) }
{
    let mut found = List::new(alloc);
    add_possible(alloc, tokens, Next::Token(Kind::Name), &mut found)?;
    add_possible(alloc, tokens, Next::Token(Kind::Number), &mut found)?;
    add_table(alloc, tokens, &mut found)?;
    add_possible(alloc, tokens, Next::End, &mut found)?;
    Ok(found)
}

/// Adds the keywords and signs that could stand behind tokens.
fn add_table(
    alloc: Global,
    tokens: &mut List<Token>,
    found: &mut List<Next>,
) -> Result<(), NoMemory>
    ensures found { OnOk result (found.new ≡ found.old ++ filter (inside.could_follow tokens.old) (spec.of_kinds spellings)) }
    ensures tokens { OnOk result (tokens.new ≡ tokens.old) }
{
    add_spelled(alloc, tokens, &SPELLINGS, found)
}

/// Adds the kinds of those spellings that could stand behind tokens.
fn add_spelled(
    alloc: Global,
    tokens: &mut List<Token>,
    spellings: &[(&[u8], Kind)],
    found: &mut List<Next>,
) -> Result<(), NoMemory>
    ensures found { OnOk result (found.new ≡ found.old ++ filter (inside.could_follow tokens.old) (spec.of_kinds (map (λ s. (s.0.now, s.1)) spellings.now))) }
    ensures tokens { OnOk result (tokens.new ≡ tokens.old) }
{
    for (_, kind) in spellings {
        add_possible(alloc, tokens, Next::Token(*kind), found)?;
    }
    Ok(())
}

/// Adds what could stand behind tokens, if it could.
#[tactic(auto, using(crate::proofs::FollowLaws::last_off))]
fn add_possible(
    alloc: Global,
    tokens: &mut List<Token>,
    next: Next,
    found: &mut List<Next>,
) -> Result<(), NoMemory>
    ensures found { OnOk result (found.new ≡ found.old ++ filter (inside.could_follow tokens.old) (next ∷ [])) }
    ensures tokens { OnOk result (tokens.new ≡ tokens.old) }
{
    let could_follow = match next {
        Next::Token(kind) => {
            let names_version = match tokens.as_slice().first() {
                Some(first) => is(Kind::Version, first.kind),
                None => false,
            };
            let foreign = is(Kind::Output, kind) && !names_version;
            let next = Token {
                kind: if foreign { Kind::Foreign } else { kind },
                at: 0,
                end: 0,
                value: 2,
            };
            tokens.push(next)?;
            let front = is_front(alloc, tokens.as_slice())?;
            tokens.pop();
            front
        }
        Next::End => is_whole(alloc, tokens.as_slice())?,
    };
    if could_follow {
        found.push(next)?;
    }
    Ok(())
}
