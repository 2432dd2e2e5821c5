//! The levels that a text gives for a program.

ghost use Rattle.std.specs.Prelude.{◌≡◌, ◌<◌, ◌≤◌, ◌==◌, length, map, option_map, get_or, All, IfOk};
ghost use Rattle.std.specs.List.{position_or_len};
ghost use Rattle.std.specs.Str.{bytes_eq};
ghost use Rattle.cov_ast.specs.View as program_view;
ghost use Rattle.cov_ast.specs.Ready.{IsReady};
ghost use Rattle.cov_expr.specs.View.{term};
ghost use Rattle.cov_expr.specs.Words.{HasWords};
ghost use Rattle.cov_text.specs.GivenTrees.{name_of};
ghost use Rattle.policy_class.specs.Resolved.{var_names, resolved_term};
ghost use Rattle.level_text.specs.declared.lattice.TheConstants.{MOST_LEVELS};
ghost use Rattle.level_text.specs.Inside.GivenBy.{ClassHasWords, level_by, class_by, listing_by};
ghost use Rattle.level_text.specs.Inside.NamedBelow.{IsListingBelow};
ghost use Rattle.level_text.specs.TextFaults as spec;
ghost use Rattle.level_text.specs.TextViews as views;
ghost use Rattle.level_text.specs.Views as level_view;

use crate::faults::declared_levels;
use crate::lattice::{LevelClass, Levels};
use crate::text::{Choice, LevelDecl, ListedVar, NamedAt, PlacedLevels};
use cov_ast::{NameTable, Parsed};
use cov_expr::{Expr, HOLE, List, Name, NoMemory, boxed};
use std::alloc::Global;

/// The place of the variable with a name among the program's declarations, or their count.
fn variable_id(p: &Parsed, name: Name) -> u32
    requires { IsReady (program_view.parsed p.now) }
    ensures { result ≡ position_or_len (bytes_eq name) (var_names (program_view.parsed p.now)) }
{
    let mut place = 0;
    for var in p.vars.as_slice() {
        if var.name == name {
            return place;
        }
        place += 1;
    }
    place
}

/// That of each name of the text.
fn variable_ids(alloc: Global, p: &Parsed, names: &NameTable) -> Result<List<u32>, NoMemory>
    requires { IsReady (program_view.parsed p.now) }
    ensures { IfOk result (λ ids. ids ≡ map (λ name. position_or_len (bytes_eq name) (var_names (program_view.parsed p.now))) names.now) }
{
    let mut ids = List::new(alloc);
    for number in 0..names.len() {
        ids.push(variable_id(p, names.name(number)))?;
    }
    Ok(ids)
}

/// The number that stands at an index, or else another.
fn id_of(ids: &[u32], count: u32, number: u32) -> u32
    ensures { result ≡ get_or ids.now number count }
{
    match ids.get(number as usize) {
        Some(id) => *id,
        None => count,
    }
}

/// An expression with the ids of its variables.
fn with_ids(alloc: Global, ids: &[u32], count: u32, e: &Expr) -> Result<Expr, NoMemory>
    ensures ids { IfOk result (λ made. term made ≡ resolved_term (λ n. get_or ids.now n count) (λ n. get_or ids.now n count) (term e.now)) }
    ensures words { IfOk result (λ made. HasWords (term made)) }
{
    match e {
        Expr::Const(k) => Ok(Expr::Const(*k)),
        Expr::Var(x) if *x == HOLE => Ok(Expr::Var(*x)),
        Expr::Var(x) => Ok(Expr::Var(id_of(ids, count, *x))),
        Expr::Not(a) => Ok(Expr::Not(boxed(alloc, with_ids(alloc, ids, count, a)?)?)),
        Expr::Bin(op, a, b) => {
            let left = boxed(alloc, with_ids(alloc, ids, count, a)?)?;
            let right = boxed(alloc, with_ids(alloc, ids, count, b)?)?;
            Ok(Expr::Bin(*op, left, right))
        }
    }
}

// Levels

/// The id of a declared level, or the count of these.
fn level_id(declared: &[u32], number: u32) -> u32
    requires { length declared.now ≤ MOST_LEVELS }
    ensures { result ≡ level_by declared.now number }
{
    let mut place = 0;
    for other in declared {
        if *other == number {
            return place;
        }
        place += 1;
    }
    place
}

/// The names of the levels.
fn names_of(alloc: Global, names: &NameTable, levels: &[LevelDecl]) -> Result<List<Name>, NoMemory>
    requires { All (λ v. v.name.0 < length names.now) (map views.level levels.now) }
    ensures { IfOk result (λ made. made ≡ map (λ v. name_of names.now v.name.0) (map views.level levels.now)) }
{
    let mut made = List::new(alloc);
    for level in levels {
        made.push(names.name(level.name.name))?;
    }
    Ok(made)
}

fn ids_of(alloc: Global, declared: &[u32], lower: &[NamedAt]) -> Result<List<u32>, NoMemory>
    requires { length declared.now ≤ MOST_LEVELS }
    ensures { IfOk result (λ made. made ≡ map (λ n. level_by declared.now n.0) (map views.named lower.now)) }
{
    let mut made = List::new(alloc);
    for named in lower {
        made.push(level_id(declared, named.name))?;
    }
    Ok(made)
}

/// Those that each level is declared to lie above.
fn below_of(
    alloc: Global,
    declared: &[u32],
    levels: &[LevelDecl],
) -> Result<List<List<u32>>, NoMemory>
    requires { length declared.now ≤ MOST_LEVELS }
    ensures { IfOk result (λ made. made ≡ map (λ v. map (λ n. level_by declared.now n.0) v.lower) (map views.level levels.now)) }
{
    let mut made = List::new(alloc);
    for level in levels {
        let lower = ids_of(alloc, declared, level.lower.as_slice())?;
        made.push(lower)?;
    }
    Ok(made)
}

// Classes

fn class_of(
    alloc: Global,
    ids: &[u32],
    count: u32,
    declared: &[u32],
    level: NamedAt,
    choice: &Option<Choice>,
) -> Result<LevelClass, NoMemory>
    requires { length declared.now ≤ MOST_LEVELS }
    ensures class { IfOk result (λ made. level_view.class made ≡ class_by ids.now count declared.now (views.named level) (option_map views.choice choice.now)) }
    ensures words { IfOk result (λ made. ClassHasWords (level_view.class made)) }
{
    match choice {
        None => Ok(LevelClass::At(level_id(declared, level.name))),
        Some(choice) => {
            let condition = with_ids(alloc, ids, count, &choice.condition.expr.expr)?;
            let first = level_id(declared, level.name);
            let second = level_id(declared, choice.other.name);
            Ok(LevelClass::When(condition, first, second))
        }
    }
}

fn classes_of(
    alloc: Global,
    ids: &[u32],
    count: u32,
    declared: &[u32],
    listings: &[ListedVar],
) -> Result<List<(u32, LevelClass)>, NoMemory>
    requires { length declared.now ≤ MOST_LEVELS }
    ensures classes { IfOk result (λ made. map level_view.listed made ≡ map (listing_by ids.now count declared.now) (map views.listing listings.now)) }
    ensures words { IfOk result (λ made. All (λ c. ClassHasWords c.1) (map level_view.listed made)) }
{
    let mut made = List::new(alloc);
    for listing in listings {
        let class = class_of(alloc, ids, count, declared, listing.level, &listing.choice)?;
        made.push((id_of(ids, count, listing.var.name), class))?;
    }
    Ok(made)
}

/// The levels that a text gives.
pub fn given(
    alloc: Global,
    p: &Parsed,
    names: &NameTable,
    text: &PlacedLevels,
) -> Result<Levels, NoMemory>
    requires ready { IsReady (program_view.parsed p.now) }
    requires few { length text.now.levels ≤ MOST_LEVELS }
    requires levels { All (λ v. v.name.0 < length names.now) (views.level_text text.now).levels }
    requires listings { All (IsListingBelow (length names.now)) (views.level_text text.now).listings }
    ensures levels { IfOk result (λ l. level_view.levels l ≡ spec.levels_given names.now (program_view.parsed p.now) (views.level_text text.now)) }
    ensures words { IfOk result (λ l. All (λ c. ClassHasWords c.1) (level_view.levels l).classes) }
{
    let ids = variable_ids(alloc, p, names)?;
    let count = p.vars.len() as u32;
    let declared = declared_levels(alloc, text.levels.as_slice())?;
    let below = below_of(alloc, declared.as_slice(), text.levels.as_slice())?;
    let classes = classes_of(
        alloc,
        ids.as_slice(),
        count,
        declared.as_slice(),
        text.listings.as_slice(),
    )?;
    let names = names_of(alloc, names, text.levels.as_slice())?;
    Ok(Levels {
        names,
        below,
        classes,
    })
}
