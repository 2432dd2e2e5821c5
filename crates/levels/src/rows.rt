//! Which levels lie at or below which.

ghost use Rattle.std.specs.Prelude.{◌≡◌, ◌==◌, ◌||◌, length, IfOk};
ghost use Rattle.std.specs.List.{list_any};
ghost use Rattle.levels.specs.Order as spec;
ghost use Rattle.level_text.specs.Views as view;

use cov_ast::NumberSet;
use cov_expr::{List, NoMemory};
use level_text::Levels;
use std::alloc::Global;

/// For each level those at or below it.
pub fn level_rows(alloc: Global, l: &Levels) -> Result<List<NumberSet>, NoMemory>
    ensures { IfOk result (λ rows. rows ≡ spec.rows_of (view.levels l.now)) }
{
    let mut rows = List::new(alloc);
    for lower in l.below.as_slice() {
        let next = next_row(alloc, l.names.len(), rows.as_slice(), lower.as_slice())?;
        rows.push(next)?;
    }
    Ok(rows)
}

/// Those at or below the next level, by what lies at or below those before it.
fn next_row(
    alloc: Global,
    count: usize,
    rows: &[NumberSet],
    lower: &[u32],
) -> Result<NumberSet, NoMemory>
    ensures { IfOk result (λ row. row ≡ spec.next_row count rows.now lower.now) }
{
    let mut marks = List::new(alloc);
    for a in 0..count {
        marks.push(is_below_next(rows, a, lower))?;
    }
    Ok(NumberSet::from_marks(marks))
}

/// Whether a level lies at or below the next one.
fn is_below_next(rows: &[NumberSet], a: usize, lower: &[u32]) -> bool
    ensures { result ≡ (a == length rows.now || list_any (spec.is_in_row rows.now a) lower.now) }
{
    a == rows.len() || is_below_any(rows, a, lower)
}

/// Whether a level lies at or below one of others.
fn is_below_any(rows: &[NumberSet], a: usize, lower: &[u32]) -> bool
    ensures { result ≡ list_any (spec.is_in_row rows.now a) lower.now }
{
    lower.iter().any(|b| is_in_row(rows, a, *b))
}

fn is_in_row(rows: &[NumberSet], a: usize, b: u32) -> bool
    ensures { result ≡ spec.is_in_row rows.now a b }
{
    match rows.get(b as usize) {
        Some(row) => row.has_index(a),
        None => false,
    }
}
