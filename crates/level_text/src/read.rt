//! From bytes to the tree of a text of levels, or its first fault.

ghost use Rattle.std.specs.Prelude.{◌≡◌, ◌≤◌, ◌<◌, length, map, option_map, IfOk};
ghost use Rattle.cov_expr.specs.declared.limits.TheConstants.{MOST_BYTES};
ghost use Rattle.cov_grammar.specs.ReaderAnswers as answers;
ghost use Rattle.cov_parse.specs.Reads.{Reads};
ghost use Rattle.cov_read.specs.CertViews as certs;
ghost use Rattle.cov_text.specs.Limits as limits;
ghost use Rattle.cov_text.specs.Text.{Answers};
ghost use Rattle.level_text.specs.TextFaults as spec;
ghost use Rattle.level_text.specs.TextGrammar as grammar;
ghost use Rattle.level_text.specs.TextViews as views;
ghost use Rattle.level_text.specs.Inside.Trees.{read_of, made_of};

use crate::reader::read_level_text;
use crate::text::{ListedVar, PlacedLevels};
use cov_ast::NameTable;
use cov_expr::{List, MOST_HEIGHT, MOST_NODES};
use cov_grammar::{Token, TokenFault, TokenReader};
use cov_parse::{Tokens, read_tokens};
use cov_read::Whole;
use cov_text::{Counted, Excess, Limit, ParseFault, deep};
use std::alloc::Global;

/// A text with its tree.
pub struct ReadText {
    pub names: NameTable,
    pub tokens: List<Token>,
    pub text: PlacedLevels,
}

impl Drop for ReadText {
    fn drop(self) {
        let ReadText {
            names,
            tokens,
            text,
        } = self;
        drop(names);
        drop(tokens);
        drop(text);
    }
}

/// The tree that a text of at most 1 MiB spells, or its first fault.
pub fn read_tree(alloc: Global, bytes: &[u8]) -> Result<ReadText, ParseFault>
    requires { length bytes.now ≤ MOST_BYTES }
    ensures { Answers grammar.level_text spec.in_level_text bytes.now read_of (made_of bytes.now) result }
{
    let Tokens { names, tokens } = read_words(alloc, bytes)?;
    let text = tokens_as_levels(alloc, tokens.as_slice(), bytes.len() as u32)?;
    if let Some(excess) = in_level_text(&text) {
        return Err(ParseFault::from(excess));
    }
    Ok(ReadText {
        names,
        tokens,
        text,
    })
}

/// The tokens of a text and its names, or the first fault of its bytes or its brackets.
fn read_words(alloc: Global, bytes: &[u8]) -> Result<Tokens, ParseFault>
    requires { length bytes.now ≤ MOST_BYTES }
    ensures { Reads bytes.now result }
{
    let read = read_tokens(alloc, bytes)?;
    match deep(read.tokens.as_slice()) {
        Some(at) => Err(ParseFault::TooDeep(at)),
        None => Ok(read),
    }
}

/// The text that tokens are, in a text of so many bytes.
#[tactic(auto, using(crate::proofs::TextAnswers::text_answers))]
fn tokens_as_levels(alloc: Global, tokens: &[Token], end: u32) -> Result<PlacedLevels, TokenFault>
    ensures { answers.Answers grammar.level_text views.level_text end tokens.now result }
{
    let mut reader = TokenReader::new(tokens);
    let read = read_level_text(&mut reader, alloc);
    reader.finish(read, end)
}

/// The fault of least place of the expressions.
fn in_level_text(text: &PlacedLevels) -> Option<Excess>
    ensures { result ≡ spec.in_level_text (views.level_text text.now) }
{
    in_listings(text.listings.as_slice())
}

fn in_listings(listings: &[ListedVar]) -> Option<Excess>
    ensures { result ≡ limits.least spec.in_listing (map views.listing listings.now) }
{
    let mut found = None;
    for listing in listings {
        found = sooner(found, in_listing(listing));
    }
    found
}

fn in_listing(listing: &ListedVar) -> Option<Excess>
    ensures { result ≡ spec.in_listing (views.listing listing.now) }
{
    match &listing.choice {
        Some(choice) => in_expr(&choice.condition),
        None => None,
    }
}

/// The fault of an expression.
fn in_expr(e: &Whole) -> Option<Excess>
    ensures { result ≡ limits.in_expr (certs.whole e.now) }
{
    let deep = above(e.at, MOST_HEIGHT, e.expr.height, Limit::TooDeep, None);
    above(
        e.at,
        MOST_NODES,
        e.expr.nodes,
        Limit::TooMany(Counted::Nodes),
        deep,
    )
}

/// The fault that a measure is above its bound; or, where it isn't, another.
fn above(at: u32, most: u32, n: u32, limit: Limit, rest: Option<Excess>) -> Option<Excess>
    ensures { result ≡ limits.above at most n limit rest }
{
    if most < n {
        Some(Excess { at, limit })
    } else {
        rest
    }
}

/// The one of two faults that has the lesser place; at one place the first.
fn sooner(a: Option<Excess>, b: Option<Excess>) -> Option<Excess>
    ensures { result ≡ limits.sooner a b }
{
    match (a, b) {
        (None, y) => y,
        (Some(x), None) => Some(x),
        (Some(x), Some(y)) => { if x.at <= y.at { Some(x) } else { Some(y) } }
    }
}
