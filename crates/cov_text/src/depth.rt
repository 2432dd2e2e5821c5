//! Where the brackets or the marks of a text nest too deep.

ghost use Rattle.std.specs.Prelude.{◌≡◌};
ghost use Rattle.cov_text.specs.Depth as spec;

use cov_expr::{MOST_BRACKETS, MOST_MARKS};
use cov_grammar::{Kind, Token, is};

/// What a token does to the count of open brackets and of marks in a row.
#[derive(Clone, Copy)]
enum Effect {
    Opens,
    Closes,
    Marks,
    Other,
}

fn effect_of(kind: Kind) -> Effect
    ensures { spec.Shows result (spec.effect kind) }
{
    if is(Kind::OpenParen, kind) || is(Kind::OpenBracket, kind) || is(Kind::OpenBrace, kind) {
        Effect::Opens
    } else if is(Kind::CloseParen, kind)
        || is(Kind::CloseBracket, kind)
        || is(Kind::CloseBrace, kind)
    {
        Effect::Closes
    } else if is(Kind::Bang, kind) {
        Effect::Marks
    } else {
        Effect::Other
    }
}

/// The place of the first token that opens a bracket past the most, or is a mark past the most in a row.
pub fn deep(tokens: &[Token]) -> Option<u32>
    ensures { result ≡ spec.deep 0 0 tokens.now }
{
    let mut open: u32 = 0;
    let mut marks: u32 = 0;
    for token in tokens {
        match effect_of(token.kind) {
            Effect::Opens => {
                if open == MOST_BRACKETS {
                    return Some(token.at);
                }
                open += 1;
                marks = 0;
            }
            Effect::Closes => {
                open = open.saturating_sub(1);
                marks = 0;
            }
            Effect::Marks => {
                if marks == MOST_MARKS {
                    return Some(token.at);
                }
                marks += 1;
            }
            Effect::Other => marks = 0,
        }
    }
    None
}
