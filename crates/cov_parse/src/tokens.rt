//! The tokens of a text with its names numbered.

ghost use Rattle.std.specs.Prelude.{◌≡◌, ◌≤◌, ◌<◌, ◌-◌, length, take, drop, slice_get, Some, IsTrue, IfOk, OnOk};
ghost use Rattle.std.specs.List.{IsDistinct};
ghost use Rattle.std.specs.Str.{bytes_eq};
ghost use Rattle.cov_expr.specs.declared.limits.TheConstants.{MOST_BYTES};
ghost use Rattle.cov_ast.specs.NameTables.{number_of, with_name};
ghost use Rattle.cov_expr.specs.Names.{IsName};
ghost use Rattle.cov_lex.specs.Classified.{AreClassified};
ghost use Rattle.cov_text.specs.Text.{names_of, numbered_of};
ghost use Rattle.cov_parse.specs.ReadTokens.{AreRead};

use crate::versions::fit_version;
use cov_ast::NameTable;
use cov_expr::{List, Name, NoMemory};
use cov_grammar::{Kind, Token, is};
use cov_lex::LexFault;
use std::alloc::Global;

/// How many guesses at numbers of names are kept.
const GUESSES: usize = 1024;

/// The names of a text in the order in which they first occur, and its tokens. The value of a name is its number there. What
/// the version of the text doesn't have is foreign.
#[derive(Drop)]
pub struct Tokens {
    pub names: NameTable,
    pub tokens: List<Token>,
}

/// The tokens of a text of at most 1 MiB as the grammar takes them, and its names, or the lexical fault of least offset. Names are
/// looked up by hashing.
pub fn read_tokens(alloc: Global, bytes: &[u8]) -> Result<Tokens, LexFault>
    requires { length bytes.now ≤ MOST_BYTES }
    ensures { AreRead bytes.now result }
{
    let mut tokens = cov_lex::tokens(alloc, bytes)?;
    let names = number_names(alloc, bytes, &mut tokens)?;
    fit_version(tokens.as_mut_slice());
    Ok(Tokens { names, tokens })
}

/// Gives each name among the tokens of a text its number, and answers the names.
fn number_names(
    alloc: Global,
    bytes: &[u8],
    tokens: &mut List<Token>,
) -> Result<NameTable, NoMemory>
    requires short { length bytes.now ≤ MOST_BYTES }
    requires tokens { AreClassified bytes.now tokens.old }
    ensures names { IfOk result (λ names. names ≡ names_of bytes.now) }
    ensures tokens { OnOk result (tokens.new ≡ numbered_of bytes.now) }
{
    let mut names = NameTable::new(alloc);
    let mut guesses = [0; GUESSES];
    for i in 0..tokens.len() {
        let token = tokens.as_slice()[i];
        if is(Kind::Name, token.kind) {
            let value = number_of(bytes, &mut names, &mut guesses, token)?;
            tokens.set(i, Token { value, ..token });
        }
    }
    Ok(names)
}

/// The number of the name that a token is. One that wasn't there yet is put at the end of the names.
#[tactic(auto, using(crate::proofs::NameLaws::number_there, crate::proofs::NameLaws::names_stay))]
fn number_of(
    bytes: &[u8],
    names: &mut NameTable,
    guesses: &mut [u32; GUESSES],
    token: Token,
) -> Result<u32, NoMemory>
    requires room { length names.old < 4294967295 }
    requires order { token.at ≤ token.end }
    requires within { token.end ≤ length bytes.now }
    requires name { IsName (take (token.end - token.at) (drop token.at bytes.now)) }
    ensures number { IfOk result (λ id. id ≡ number_of names.old (take (token.end - token.at) (drop token.at bytes.now))) }
    ensures names { OnOk result (names.new ≡ with_name names.old (take (token.end - token.at) (drop token.at bytes.now))) }
{
    let text = &bytes[token.at as usize..token.end as usize];
    let place = place_of_guess(text);
    let guess = guesses[place];
    if is_name_at(names, guess, text) {
        return Ok(guess);
    }
    let number = names.add(Name::known(text))?;
    guesses[place] = number;
    Ok(number)
}

/// Where the guess stands that is for a text: names that end alike share one.
fn place_of_guess(text: &[u8]) -> usize
    ensures { result < 1024 }
{
    let sum = match text {
        [.., a, b, c] => *a as usize * 100 + *b as usize * 10 + *c as usize,
        [a, b] => *a as usize * 10 + *b as usize,
        [a] => *a as usize,
        [] => 0,
    };
    sum % GUESSES
}

/// Whether a number is that of a name in the table.
fn is_name_at(names: &NameTable, number: u32, text: &[u8]) -> bool
    ensures found { IsTrue result → slice_get names.now number ≡ Some text.now }
    ensures distinct { IsDistinct bytes_eq names.now }
{
    number < names.len() && names.name(number).text() == text
}
