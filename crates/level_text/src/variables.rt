//! The names that a text of levels uses as variables.

ghost use Rattle.std.specs.Prelude.{◌≡◌, ◌<◌, length, map, All, IfOk};
ghost use Rattle.cov_ast.specs.View as program_view;
ghost use Rattle.policy_class.specs.Resolved.{is_among, var_names};
ghost use Rattle.level_text.specs.TextFaults as spec;
ghost use Rattle.level_text.specs.TextViews as views;

use crate::places::sooner;
use crate::text::NamedAt;
use cov_ast::{NameTable, Parsed};
use cov_expr::{List, Name, NoMemory};
use cov_grammar::{Kind, Token, is};
use std::alloc::Global;

/// The names that are used as variables.
pub fn variables(alloc: Global, tokens: &[Token]) -> Result<List<NamedAt>, NoMemory>
    ensures { IfOk result (λ list. map views.named list ≡ spec.variables_of tokens.now) }
{
    let mut list = List::new(alloc);
    let mut before = Kind::Semicolon;
    for token in tokens {
        if is(Kind::Name, token.kind) && !is_level_behind(before) {
            list.push(NamedAt {
                name: token.value,
                at: token.at,
            })?;
        }
        before = token.kind;
    }
    Ok(list)
}

/// Whether a name behind such a token is that of a level.
fn is_level_behind(before: Kind) -> bool
    ensures { result ≡ spec.is_level_behind before }
{
    is(Kind::Level, before)
        || is(Kind::Colon, before)
        || is(Kind::Comma, before)
        || is(Kind::Else, before)
}

/// Whether a name is that of a variable of the program.
pub fn is_variable(p: &Parsed, name: Name) -> bool
    ensures { result ≡ is_among (var_names (program_view.parsed p.now)) name }
{
    for var in p.vars.as_slice() {
        if var.name == name {
            return true;
        }
    }
    false
}

/// The least place of a name that is used as a variable and isn't one of the program.
pub fn unknown_variable(p: &Parsed, names: &NameTable, variables: &[NamedAt]) -> Option<u32>
    requires { All (λ x. x.0 < length names.now) (map views.named variables.now) }
    ensures { result ≡ spec.unknown_variable names.now (program_view.parsed p.now) (map views.named variables.now) }
{
    let mut found = None;
    for variable in variables {
        found = sooner(found, unknown_name(p, names, variable));
    }
    found
}

fn unknown_name(p: &Parsed, names: &NameTable, variable: &NamedAt) -> Option<u32>
    requires { variable.now.name < length names.now }
    ensures { result ≡ spec.failing (spec.is_variable names.now (program_view.parsed p.now)) (views.named variable.now) }
{
    if is_variable(p, names.name(variable.name)) {
        None
    } else {
        Some(variable.at)
    }
}
