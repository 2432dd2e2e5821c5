//! Which variables are markers, and what stands for them in annotations.

ghost use Rattle.std.specs.Prelude.{◌≡◌, map, position, IfOk};
ghost use Rattle.std.specs.Str.{bytes_eq};
ghost use Rattle.cov_expr.specs.Term.{flag};
ghost use Rattle.cov_ast.specs.View as program_view;
ghost use Rattle.levels.specs.Projection as spec;
ghost use Rattle.level_text.specs.Views as view;

use cov_ast::{NumberSet, VarDecl};
use cov_expr::{List, Name, NoMemory};
use level_text::Levels;
use std::alloc::Global;

/// For each variable the number that stands for it in annotations, if it is a marker, for an observer who sees these levels.
pub fn marks(
    alloc: Global,
    seen: &NumberSet,
    l: &Levels,
    vars: &[VarDecl],
) -> Result<List<Option<u32>>, NoMemory>
    ensures { IfOk result (λ marks. marks ≡ spec.marks_of seen.now (view.levels l.now) (map program_view.var vars.now)) }
{
    let mut marks = List::new(alloc);
    for var in vars {
        marks.push(mark(seen, l.names.as_slice(), var))?;
    }
    Ok(marks)
}

/// The number that stands for a variable in annotations, if it is a marker, for an observer who sees these of the levels with these names.
pub fn mark(seen: &NumberSet, names: &[Name], var: &VarDecl) -> Option<u32>
    ensures { result ≡ spec.mark_of seen.now names.now (program_view.var var.now) }
{
    match level_of(names, var.name) {
        Some(level) => Some(number(seen.has_index(level))),
        None => None,
    }
}

/// The level with a name.
fn level_of(names: &[Name], name: Name) -> Option<usize>
    ensures { result ≡ position (bytes_eq name) names.now }
{
    names.iter().position(|other| *other == name)
}

/// A truth value as a number.
pub fn number(seen: bool) -> u32
    ensures { result ≡ flag seen }
{
    if seen { 1 } else { 0 }
}
