//! Tokens as states, as types and as the proofs of a statement.

ghost use Rattle.std.specs.Prelude.{◌≡◌, ◌≤◌, length, map, List, [], option_map, IfOk};
ghost use Rattle.cov_expr.specs.declared.kind.Kind.TheVariants as kinds;
ghost use Rattle.cov_grammar.specs.Shapes.{seq, opt};
ghost use Rattle.cov_grammar.specs.Grammar as grammar;
ghost use Rattle.cov_grammar.specs.Reading.{reading};
ghost use Rattle.cov_grammar.specs.ReaderAnswers.{Gives, Shorter};
ghost use Rattle.cov_read.specs.CertViews as views;
ghost use Rattle.cov_read.specs.StateViews as states;

use crate::cert::Whole;
use crate::certs::{read_cert, read_number, read_whole, read_wholes};
use crate::state::{PlacedProof, PlacedState, Typed};
use cov_expr::{List, NoMemory};
use cov_grammar::{Kind, Stop, TokenReader};
use std::alloc::Global;

/// Predicates, if an expression is next.
#[tactic(auto, unfolding(cov_grammar::specs::LookAhead::kind_is))]
fn read_predicates(reader: &mut TokenReader<'_>, alloc: Global) -> Result<List<Whole>, Stop>
    ensures reads { Gives (map views.whole) reader.new result (reading (grammar.listed (grammar.separated kinds.Comma grammar.whole)) reader.old) }
    ensures shorter { length reader.new ≤ length reader.old }
{
    if reader.at_any(&[Kind::Bang, Kind::Number, Kind::Name, Kind::OpenParen]) {
        read_wholes(reader, alloc)
    } else {
        Ok(List::new(alloc))
    }
}

/// A name and its class.
fn read_typed(reader: &mut TokenReader<'_>, alloc: Global) -> Result<Typed, Stop>
    ensures reads { Gives states.typed reader.new result (reading grammar.type_of_name reader.old) }
    ensures shorter { Shorter reader.old reader.new result }
{
    let name = reader.expect(Kind::Name)?;
    reader.expect(Kind::Colon)?;
    let class = read_whole(reader, alloc, false)?;
    Ok(Typed {
        name: name.value,
        class,
    })
}

/// One name with its class, or several with commas between them.
fn read_typed_list(reader: &mut TokenReader<'_>, alloc: Global) -> Result<List<Typed>, Stop>
    ensures reads { Gives (map states.typed) reader.new result (reading (grammar.separated kinds.Comma grammar.type_of_name) reader.old) }
    ensures shorter { length reader.new ≤ length reader.old }
{
    let mut list = List::new(alloc);
    let first = read_typed(reader, alloc)?;
    list.push(first)?;
    'items: while let Some(_) = reader.take(Kind::Comma) {
        let next = read_typed(reader, alloc)?;
        list.push(next)?;
    }
    Ok(list)
}

#[tactic(auto, unfolding(cov_grammar::specs::Grammar::types))]
fn read_types(reader: &mut TokenReader<'_>, alloc: Global) -> Result<List<Typed>, Stop>
    ensures reads { Gives (map states.typed) reader.new result (reading grammar.types reader.old) }
    ensures shorter { length reader.new ≤ length reader.old }
{
    if let Some(_) = reader.take(Kind::Semicolon) {
        read_typed_list(reader, alloc)
    } else {
        Ok(List::new(alloc))
    }
}

/// A state in braces.
#[tactic(auto, unfolding(cov_grammar::specs::Grammar::state))]
pub fn read_state(reader: &mut TokenReader<'_>, alloc: Global) -> Result<PlacedState, Stop>
    ensures reads { Gives states.state reader.new result (reading grammar.state reader.old) }
    ensures shorter { length reader.new ≤ length reader.old }
{
    let open = reader.expect(Kind::OpenBrace)?;
    let preds = read_predicates(reader, alloc)?;
    let types = read_types(reader, alloc)?;
    reader.expect(Kind::CloseBrace)?;
    Ok(PlacedState {
        at: open.at,
        preds,
        types,
    })
}

/// A state in memory of its own.
fn boxed(alloc: Global, state: PlacedState) -> Result<Box<PlacedState>, NoMemory>
    ensures { IfOk result (λ made. made.value ≡ state) }
{
    Ok(Box::new(alloc, state)?)
}

/// A state behind a word, if the word is next.
pub fn read_state_behind(
    reader: &mut TokenReader<'_>,
    alloc: Global,
    word: Kind,
) -> Result<Option<Box<PlacedState>>, Stop>
    ensures reads { Gives (option_map (λ j. states.state j.value)) reader.new result (reading (opt (grammar.◌▸◌ word grammar.state)) reader.old) }
    ensures shorter { length reader.new ≤ length reader.old }
{
    if let Some(_) = reader.take(word) {
        let state = read_state(reader, alloc)?;
        Ok(Some(boxed(alloc, state)?))
    } else {
        Ok(None)
    }
}

/// A proof with its number.
#[tactic(auto, unfolding(cov_grammar::specs::Grammar::proof))]
fn read_proof(reader: &mut TokenReader<'_>, alloc: Global) -> Result<PlacedProof, Stop>
    ensures reads { Gives states.proof reader.new result (reading grammar.proof reader.old) }
    ensures shorter { Shorter reader.old reader.new result }
{
    let number = read_number(reader)?;
    reader.expect(Kind::Colon)?;
    let at = reader.place(0);
    let cert = read_cert(reader, alloc)?;
    Ok(PlacedProof { number, at, cert })
}

fn read_proof_list(reader: &mut TokenReader<'_>, alloc: Global) -> Result<List<PlacedProof>, Stop>
    ensures reads { Gives (map states.proof) reader.new result (reading (grammar.separated kinds.Comma grammar.proof) reader.old) }
    ensures shorter { length reader.new ≤ length reader.old }
{
    let mut list = List::new(alloc);
    let first = read_proof(reader, alloc)?;
    list.push(first)?;
    'items: while let Some(_) = reader.take(Kind::Comma) {
        let next = read_proof(reader, alloc)?;
        list.push(next)?;
    }
    Ok(list)
}

/// The proofs behind by, if it is next.
#[tactic(auto, unfolding(cov_grammar::specs::Grammar::proofs))]
pub fn read_proofs(reader: &mut TokenReader<'_>, alloc: Global) -> Result<List<PlacedProof>, Stop>
    ensures reads { Gives (map states.proof) reader.new result (reading grammar.proofs reader.old) }
    ensures shorter { length reader.new ≤ length reader.old }
{
    if let Some(_) = reader.take(Kind::By) {
        reader.expect(Kind::OpenBrace)?;
        let list = read_proof_list(reader, alloc)?;
        reader.expect(Kind::CloseBrace)?;
        Ok(list)
    } else {
        Ok(List::new(alloc))
    }
}
