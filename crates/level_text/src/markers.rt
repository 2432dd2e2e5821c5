//! Markers that are more than markers.

ghost use Rattle.std.specs.Prelude.{◌≡◌, ◌<◌, ◌==◌, length, map, All};
ghost use Rattle.std.specs.List.{list_any};
ghost use Rattle.cov_ast.specs.NameTables.{number_of};
ghost use Rattle.cov_ast.specs.View as program_view;
ghost use Rattle.level_text.specs.TextFaults as spec;
ghost use Rattle.level_text.specs.TextViews as views;

use crate::places::sooner;
use crate::stands::in_program;
use crate::text::{LevelDecl, NamedAt};
use crate::variables::is_variable;
use cov_ast::{NameTable, Parsed};
use cov_expr::Name;

/// The least place of a level whose name is that of a variable which is more than a marker.
pub fn first_barred(
    p: &Parsed,
    names: &NameTable,
    variables: &[NamedAt],
    levels: &[LevelDecl],
) -> Option<u32>
    requires { All (λ v. v.name.0 < length names.now) (map views.level levels.now) }
    ensures { result ≡ spec.first_barred names.now (program_view.parsed p.now) (map views.named variables.now) (map views.level levels.now) }
{
    let mut found = None;
    for level in levels {
        found = sooner(found, barred(p, names, variables, &level.name));
    }
    found
}

/// The place of the name of a level, if it is that of such a variable.
fn barred(p: &Parsed, names: &NameTable, variables: &[NamedAt], level: &NamedAt) -> Option<u32>
    requires { level.now.name < length names.now }
    ensures { result ≡ spec.barred names.now (program_view.parsed p.now) (map views.named variables.now) (views.named level.now) }
{
    if is_barred(p, variables, level.name, names.name(level.name)) {
        Some(level.at)
    } else {
        None
    }
}

fn is_barred(p: &Parsed, variables: &[NamedAt], number: u32, name: Name) -> bool
    ensures { result ≡ spec.is_barred (program_view.parsed p.now) (map views.named variables.now) number name }
{
    is_variable(p, name) && (is_used(variables, number) || in_program(p, number_in(p, name)))
}

/// Whether a number is that of a name which is used.
fn is_used(variables: &[NamedAt], number: u32) -> bool
    ensures { result ≡ list_any (λ n. n.0 == number) (map views.named variables.now) }
{
    for variable in variables {
        if variable.name == number {
            return true;
        }
    }
    false
}

/// The number of a name in the program's text, or behind the last.
fn number_in(p: &Parsed, name: Name) -> u32
    ensures { result ≡ number_of p.now.names name }
{
    match p.names.find(name) {
        Some(number) => number,
        None => p.names.len(),
    }
}
