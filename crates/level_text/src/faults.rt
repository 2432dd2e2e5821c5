//! The first fault of a text of levels beyond its grammar and its limits.

ghost use Rattle.std.specs.Prelude.{◌≡◌, ◌<◌, [], length, map, option_map, All, IfOk};
ghost use Rattle.cov_ast.specs.View as program_view;
ghost use Rattle.cov_expr.specs.Trees as tree;
ghost use Rattle.level_text.specs.Inside.NamedBelow.{AreNamedBelow};
ghost use Rattle.level_text.specs.TextFaults.{sooner};
ghost use Rattle.level_text.specs.TextFaults as spec;
ghost use Rattle.level_text.specs.TextViews as views;

use crate::fault::LevelFault;
use crate::lattice::MOST_LEVELS;
use crate::markers::first_barred;
use crate::places::{first_outside, outside, sooner};
use crate::repeats::named_again;
use crate::text::{Choice, LevelDecl, ListedVar, NamedAt, PlacedLevels};
use crate::variables::{unknown_variable, variables};
use cov_ast::{NameTable, Parsed};
use cov_expr::{List, NoMemory};
use cov_grammar::Token;
use std::alloc::Global;

/// The first fault of a text that is in the grammar and its limits.
pub fn first_fault(
    alloc: Global,
    p: &Parsed,
    names: &NameTable,
    tokens: &[Token],
    text: &PlacedLevels,
) -> Result<Option<LevelFault>, NoMemory>
    requires { AreNamedBelow (length names.now) tokens.now (views.level_text text.now) }
    ensures { IfOk result (λ fault. fault ≡ spec.first_fault names.now (program_view.parsed p.now) tokens.now (views.level_text text.now)) }
{
    if let Some(at) = past_most(text) {
        return Ok(Some(LevelFault::Many(at)));
    }
    if let Some(at) = named_again(alloc, names, text)? {
        return Ok(Some(LevelFault::Same(at)));
    }
    let variables = variables(alloc, tokens)?;
    if let Some(at) = unknown(alloc, p, names, variables.as_slice(), text)? {
        return Ok(Some(LevelFault::Unknown(at)));
    }
    match first_barred(p, names, variables.as_slice(), text.levels.as_slice()) {
        Some(at) => Ok(Some(LevelFault::Plain(at))),
        None => Ok(None),
    }
}

/// The name of the level past the most.
fn past_most(text: &PlacedLevels) -> Option<u32>
    ensures { result ≡ spec.past_most (views.level_text text.now) }
{
    match text.levels.as_slice().get(MOST_LEVELS) {
        Some(level) => Some(level.name.at),
        None => None,
    }
}

/// The least place of an unknown name.
fn unknown(
    alloc: Global,
    p: &Parsed,
    names: &NameTable,
    variables: &[NamedAt],
    text: &PlacedLevels,
) -> Result<Option<u32>, NoMemory>
    requires { All (λ x. x.0 < length names.now) (map views.named variables.now) }
    ensures { IfOk result (λ found. found ≡ sooner (spec.unknown_lower [] (views.level_text text.now).levels)
        (sooner (spec.unknown_level (views.level_text text.now)) (spec.unknown_variable names.now (program_view.parsed p.now) (map views.named variables.now)))) }
{
    let lower = unknown_lower(alloc, text.levels.as_slice())?;
    let declared = declared_levels(alloc, text.levels.as_slice())?;
    let level = unknown_level(declared.as_slice(), text.listings.as_slice());
    let variable = unknown_variable(p, names, variables);
    Ok(sooner(lower, sooner(level, variable)))
}

/// The numbers of the declared levels.
pub fn declared_levels(alloc: Global, levels: &[LevelDecl]) -> Result<List<u32>, NoMemory>
    ensures { IfOk result (λ made. made ≡ map (λ v. v.name.0) (map views.level levels.now)) }
{
    let mut made = List::new(alloc);
    for level in levels {
        made.push(level.name.name)?;
    }
    Ok(made)
}

/// The least place of a name behind a colon that isn't that of a level declared earlier.
fn unknown_lower(alloc: Global, levels: &[LevelDecl]) -> Result<Option<u32>, NoMemory>
    ensures { IfOk result (λ found. found ≡ spec.unknown_lower [] (map views.level levels.now)) }
{
    let mut before = List::new(alloc);
    let mut found = None;
    for level in levels {
        found = sooner(
            found,
            first_outside(before.as_slice(), level.lower.as_slice()),
        );
        before.push(level.name.name)?;
    }
    Ok(found)
}

/// The least place of a level of a class that isn't declared.
fn unknown_level(declared: &[u32], listings: &[ListedVar]) -> Option<u32>
    ensures { result ≡ spec.least_place (λ c. spec.first_failing (tree.has_number declared.now) (spec.levels_of_listing c)) (map views.listing listings.now) }
{
    let mut found = None;
    for listing in listings {
        found = sooner(found, unknown_in(declared, listing));
    }
    found
}

fn unknown_in(declared: &[u32], listing: &ListedVar) -> Option<u32>
    ensures { result ≡ spec.first_failing (tree.has_number declared.now) (spec.levels_of_listing (views.listing listing.now)) }
{
    sooner(
        outside(declared, &listing.level),
        unknown_other(declared, &listing.choice),
    )
}

fn unknown_other(declared: &[u32], choice: &Option<Choice>) -> Option<u32>
    ensures { result ≡ spec.first_failing (tree.has_number declared.now) (spec.other_level (option_map views.choice choice.now)) }
{
    match choice {
        Some(choice) => sooner(outside(declared, &choice.other), None),
        None => None,
    }
}
