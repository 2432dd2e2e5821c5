//! The tokens that are still to be read, and how one is taken off.

ghost use Rattle.std.specs.Prelude.{◌≡◌, ◌+◌, length, [], ◌∷◌, false, true, MatchOption, IfErr, IsTrue, ◌↔◌};
ghost use Rattle.cov_grammar.specs.declared.stop.Stop.TheVariants as stops;
ghost use Rattle.cov_grammar.specs.Shapes.{head};
ghost use Rattle.cov_grammar.specs.Spells.{spot};
ghost use Rattle.cov_grammar.specs.LookAhead.{kind_is, has, starts};
ghost use Rattle.cov_grammar.specs.Reading.{take_kind, got, stopped};
ghost use Rattle.cov_grammar.specs.ReaderAnswers.{Gives, Shorter, whole_answer};

use crate::fault::TokenFault;
use crate::stop::Stop;
use crate::token::Token;
use cov_expr::Kind;
use std::marker::Model;

/// The tokens of a text that are still to be read. Contracts see it as their list.
///
/// A reader of a right side takes one of these, and answers a value or a [`Stop`]. Where a token can't stand it stays in
/// front of it.
#[derive(Drop)]
pub struct TokenReader<'t> {
    left: &'t [Token],
}

impl<'t> Model for TokenReader<'t> {
    ghost use Rattle.std.specs.Prelude.{List};
    ghost use Rattle.cov_grammar.specs.declared.token.Token.{Token};

    ghost Value = { List Token };

    ghost view = { λ r. r.left.now };
}

/// Whether a kind is the wanted one.
pub fn is(wanted: Kind, kind: Kind) -> bool
    ensures { result ≡ kind_is wanted kind }
{
    wanted == kind
}

/// Whether a kind is one of the wanted ones.
pub fn is_any(wanted: &[Kind], kind: Kind) -> bool
    ensures { result ≡ has wanted.now kind }
{
    for other in wanted {
        if is(*other, kind) {
            return true;
        }
    }
    false
}

impl<'t> TokenReader<'t> {
    /// A reader in front of these tokens.
    pub fn new(tokens: &'t [Token]) -> Self
        ensures { result ≡ tokens.now }
    {
        TokenReader { left: tokens }
    }
}

impl TokenReader<'_> {
    /// The place of the next token. Where none is left it is the end of the text, which the caller knows.
    pub fn place(&self, end: u32) -> u32
        ensures { result ≡ spot end self.now }
    {
        match self.left.first() {
            Some(token) => token.at,
            None => end,
        }
    }

    /// How many tokens are left.
    pub fn len(&self) -> usize
        ensures { result ≡ length self.now }
    {
        self.left.len()
    }

    /// Whether no token is left.
    pub fn is_empty(&self) -> bool
        ensures { IsTrue result ↔ (self.now ≡ []) }
    {
        self.left.is_empty()
    }

    /// Whether the next token is of a kind.
    pub fn at(&self, kind: Kind) -> bool
        ensures { result ≡ starts (kind ∷ []) (head self.now) }
    {
        match self.left.first() {
            Some(token) => is(kind, token.kind),
            None => false,
        }
    }

    /// Whether the next token is of one of these kinds.
    pub fn at_any(&self, kinds: &[Kind]) -> bool
        ensures { result ≡ starts kinds.now (head self.now) }
    {
        match self.left.first() {
            Some(token) => is_any(kinds, token.kind),
            None => false,
        }
    }

    /// Takes off the next token, if it is of a kind.
    pub fn take(&mut self, kind: Kind) -> Option<Token>
        ensures found { MatchOption result (starts (kind ∷ []) (head self.old) ≡ false) (λ token. starts (kind ∷ []) (head self.old) ≡ true) }
        ensures left { MatchOption result ((take_kind kind self.old ≡ stopped self.old) × (self.new ≡ self.old)) (λ token. take_kind kind self.old ≡ got token self.new) }
        ensures shorter { MatchOption result (self.new ≡ self.old) (λ token. length self.old ≡ length self.new + 1) }
    {
        match self.left.split_first() {
            Some((token, left)) if is(kind, token.kind) => {
                self.left = left;
                Some(*token)
            }
            _ => None,
        }
    }

    /// Takes off the next token, which has to be of a kind.
    pub fn expect(&mut self, kind: Kind) -> Result<Token, Stop>
        ensures reads { Gives (λ t. t) self.new result (take_kind kind self.old) }
        ensures fault { IfErr result (λ stop. stop ≡ stops.Unexpected) }
        ensures shorter { Shorter self.old self.new result }
    {
        self.take(kind).ok_or(Stop::Unexpected)
    }

    /// The answer for all tokens of a text, from what was read at its front: a token that is left is wrong too. A fault has
    /// the place of the next token, or `end`.
    pub fn finish<T: Drop>(&self, read: Result<T, Stop>, end: u32) -> Result<T, TokenFault>
        ensures { result ≡ whole_answer end self.now read }
    {
        match read {
            Ok(value) if self.is_empty() => Ok(value),
            Ok(_) | Err(Stop::Unexpected) => Err(TokenFault::Unexpected(self.place(end))),
            Err(Stop::NoMemory) => Err(TokenFault::NoMemory),
        }
    }
}
