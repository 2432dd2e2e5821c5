//! Which tokens the version of a text doesn't have.

ghost use Rattle.std.specs.Prelude.{◌≡◌, ◌++◌, map, take, drop};
ghost use Rattle.cov_text.specs.Versioned.{versioned, of_first, behind_version, is_other_number};

use cov_grammar::{Kind, Token, is};

/// Makes those tokens of a text foreign that its version doesn't have.
pub fn fit_version(tokens: &mut [Token])
    ensures { tokens.new ≡ versioned tokens.old }
{
    let Some(first) = tokens.first() else {
        return;
    };
    if is(Kind::Version, first.kind) {
        fit_number(tokens);
    } else {
        fit_outputs(tokens);
    }
}

/// Makes the outputs foreign.
fn fit_outputs(tokens: &mut [Token])
    ensures { tokens.new ≡ map of_first tokens.old }
{
    for token in tokens.iter_mut() {
        fit_output(token);
    }
}

/// Makes a token foreign, if it is an output. Hardly any is, and no other is written.
fn fit_output(token: &mut Token)
    ensures { token.new ≡ of_first token.old }
{
    if is(Kind::Output, token.kind) {
        token.kind = Kind::Foreign;
    }
}

/// Makes the number behind `version` foreign, if it isn't 2.
fn fit_number(tokens: &mut [Token])
    ensures { tokens.new ≡ take 1 tokens.old ++ behind_version (drop 1 tokens.old) }
{
    if tokens.len() > 1 && is_other(tokens[1]) {
        tokens[1].kind = Kind::Foreign;
    }
}

/// Whether a token is a number other than 2.
fn is_other(token: Token) -> bool
    ensures { result ≡ is_other_number token }
{
    is(Kind::Number, token.kind) && token.value != 2
}
