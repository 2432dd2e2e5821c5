//! Levels that are declared, and variables that are listed, a second time.

ghost use Rattle.std.specs.Prelude.{◌≡◌, ◌<◌, [], length, map, if◌then◌else◌, Some, None, All, IfOk, OnOk};
ghost use Rattle.cov_ast.specs.NameTables.{with_name};
ghost use Rattle.policy_class.specs.Resolved.{is_among};
ghost use Rattle.level_text.specs.TextFaults as spec;
ghost use Rattle.level_text.specs.TextViews as views;

use crate::places::sooner;
use crate::text::{LevelDecl, ListedVar, NamedAt, PlacedLevels};
use cov_ast::NameTable;
use cov_expr::{List, Name, NoMemory};
use std::alloc::Global;

/// The least place of a name that is declared or listed a second time.
pub fn named_again(
    alloc: Global,
    names: &NameTable,
    text: &PlacedLevels,
) -> Result<Option<u32>, NoMemory>
    requires levels { All (λ v. v.name.0 < length names.now) (views.level_text text.now).levels }
    requires listings { All (λ c. c.var.0 < length names.now) (views.level_text text.now).listings }
    ensures { IfOk result (λ found. found ≡ spec.named_again names.now (views.level_text text.now)) }
{
    let levels = level_names(alloc, text.levels.as_slice())?;
    let listed = listed_names(alloc, text.listings.as_slice())?;
    let first = first_again(alloc, names, levels.as_slice())?;
    let second = first_again(alloc, names, listed.as_slice())?;
    Ok(sooner(first, second))
}

fn level_names(alloc: Global, levels: &[LevelDecl]) -> Result<List<NamedAt>, NoMemory>
    ensures { IfOk result (λ made. map views.named made ≡ map (λ v. v.name) (map views.level levels.now)) }
{
    let mut made = List::new(alloc);
    for level in levels {
        made.push(level.name)?;
    }
    Ok(made)
}

fn listed_names(alloc: Global, listings: &[ListedVar]) -> Result<List<NamedAt>, NoMemory>
    ensures { IfOk result (λ made. map views.named made ≡ map (λ c. c.var) (map views.listing listings.now)) }
{
    let mut made = List::new(alloc);
    for listing in listings {
        made.push(listing.var)?;
    }
    Ok(made)
}

/// The least place of a name that is among those before it.
fn first_again(alloc: Global, names: &NameTable, list: &[NamedAt]) -> Result<Option<u32>, NoMemory>
    requires { All (λ x. x.0 < length names.now) (map views.named list.now) }
    ensures { IfOk result (λ found. found ≡ spec.first_again names.now [] (map views.named list.now)) }
{
    let mut before = NameTable::new(alloc);
    let mut found = None;
    for named in list {
        let name = names.name(named.name);
        found = sooner(found, again(&before, name, named.at));
        add_name(&mut before, name)?;
    }
    Ok(found)
}

/// The place, if the name is there.
fn again(before: &NameTable, name: Name, at: u32) -> Option<u32>
    ensures { result ≡ (if is_among before.now name then Some at else None) }
{
    match before.find(name) {
        Some(_) => Some(at),
        None => None,
    }
}

/// Adds a name, while there is room for its number.
fn add_name(before: &mut NameTable, name: Name) -> Result<(), NoMemory>
    ensures { OnOk result (before.new ≡ with_name before.old name) }
{
    if before.len() == u32::MAX {
        return Err(NoMemory);
    }
    before.add(name)?;
    Ok(())
}
