//! Tokens as a text of levels.

ghost use Rattle.std.specs.Prelude.{◌≡◌, ◌≤◌, length, map, option_map};
ghost use Rattle.cov_expr.specs.declared.kind.Kind.TheVariants as kinds;
ghost use Rattle.cov_grammar.specs.Shapes.{seq, opt, many};
ghost use Rattle.cov_grammar.specs.Grammar as grammar;
ghost use Rattle.cov_grammar.specs.Reading.{reading};
ghost use Rattle.cov_grammar.specs.ReaderAnswers.{Gives, Shorter};
ghost use Rattle.level_text.specs.TextGrammar as spec;
ghost use Rattle.level_text.specs.TextViews as views;

use crate::text::{Choice, LevelDecl, ListedVar, NamedAt, PlacedLevels};
use cov_expr::List;
use cov_grammar::{Kind, Stop, TokenReader};
use cov_read::read_whole;
use std::alloc::Global;

fn read_named(reader: &mut TokenReader<'_>) -> Result<NamedAt, Stop>
    ensures reads { Gives views.named reader.new result (reading grammar.named reader.old) }
    ensures shorter { Shorter reader.old reader.new result }
{
    let name = reader.expect(Kind::Name)?;
    Ok(NamedAt {
        name: name.value,
        at: name.at,
    })
}

fn read_names(reader: &mut TokenReader<'_>, alloc: Global) -> Result<List<NamedAt>, Stop>
    ensures reads { Gives (map views.named) reader.new result (reading (grammar.separated kinds.Comma grammar.named) reader.old) }
    ensures shorter { length reader.new ≤ length reader.old }
{
    let mut list = List::new(alloc);
    let first = read_named(reader)?;
    list.push(first)?;
    'items: while let Some(_) = reader.take(Kind::Comma) {
        let next = read_named(reader)?;
        list.push(next)?;
    }
    Ok(list)
}

/// The names behind a colon, if it is next.
fn read_lower(reader: &mut TokenReader<'_>, alloc: Global) -> Result<List<NamedAt>, Stop>
    ensures reads { Gives (map views.named) reader.new result (reading (grammar.listed (grammar.◌▸◌ kinds.Colon (grammar.separated kinds.Comma grammar.named))) reader.old) }
    ensures shorter { length reader.new ≤ length reader.old }
{
    if let Some(_) = reader.take(Kind::Colon) {
        read_names(reader, alloc)
    } else {
        Ok(List::new(alloc))
    }
}

#[tactic(auto, unfolding(crate::specs::TextGrammar::level))]
fn read_level(reader: &mut TokenReader<'_>, alloc: Global) -> Result<LevelDecl, Stop>
    ensures reads { Gives views.level reader.new result (reading spec.level reader.old) }
    ensures shorter { Shorter reader.old reader.new result }
{
    reader.expect(Kind::Level)?;
    let name = read_named(reader)?;
    let lower = read_lower(reader, alloc)?;
    reader.expect(Kind::Semicolon)?;
    Ok(LevelDecl { name, lower })
}

/// What decides between two levels, if it is next.
fn read_choice(reader: &mut TokenReader<'_>, alloc: Global) -> Result<Option<Choice>, Stop>
    ensures reads { Gives (option_map views.choice) reader.new result (reading (opt (grammar.◌▸◌ kinds.When (seq grammar.whole (grammar.◌▸◌ kinds.Else grammar.named)))) reader.old) }
    ensures shorter { length reader.new ≤ length reader.old }
{
    if let Some(_) = reader.take(Kind::When) {
        let condition = read_whole(reader, alloc, false)?;
        reader.expect(Kind::Else)?;
        let other = read_named(reader)?;
        Ok(Some(Choice { condition, other }))
    } else {
        Ok(None)
    }
}

#[tactic(auto, unfolding(crate::specs::TextGrammar::listing))]
fn read_listing(reader: &mut TokenReader<'_>, alloc: Global) -> Result<ListedVar, Stop>
    ensures reads { Gives views.listing reader.new result (reading spec.listing reader.old) }
    ensures shorter { Shorter reader.old reader.new result }
{
    reader.expect(Kind::Var)?;
    let var = read_named(reader)?;
    reader.expect(Kind::Colon)?;
    let level = read_named(reader)?;
    let choice = read_choice(reader, alloc)?;
    reader.expect(Kind::Semicolon)?;
    Ok(ListedVar { var, level, choice })
}

#[tactic(auto, unfolding(crate::specs::TextGrammar::levels))]
fn read_levels_list(reader: &mut TokenReader<'_>, alloc: Global) -> Result<List<LevelDecl>, Stop>
    ensures reads { Gives (map views.level) reader.new result (reading spec.levels reader.old) }
    ensures shorter { length reader.new ≤ length reader.old }
{
    let mut list = List::new(alloc);
    let first = read_level(reader, alloc)?;
    list.push(first)?;
    'items: while reader.at(Kind::Level) {
        let next = read_level(reader, alloc)?;
        list.push(next)?;
    }
    Ok(list)
}

fn read_listings(reader: &mut TokenReader<'_>, alloc: Global) -> Result<List<ListedVar>, Stop>
    ensures reads { Gives (map views.listing) reader.new result (reading (many spec.listing) reader.old) }
    ensures shorter { length reader.new ≤ length reader.old }
{
    let mut list = List::new(alloc);
    'items: while reader.at(Kind::Var) {
        let next = read_listing(reader, alloc)?;
        list.push(next)?;
    }
    Ok(list)
}

/// A whole text of levels.
#[tactic(auto, unfolding(crate::specs::TextGrammar::level_text))]
pub fn read_level_text(reader: &mut TokenReader<'_>, alloc: Global) -> Result<PlacedLevels, Stop>
    ensures reads { Gives views.level_text reader.new result (reading spec.level_text reader.old) }
    ensures shorter { length reader.new ≤ length reader.old }
{
    let levels = read_levels_list(reader, alloc)?;
    let listings = read_listings(reader, alloc)?;
    Ok(PlacedLevels { levels, listings })
}
