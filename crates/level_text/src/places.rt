//! Least places.

ghost use Rattle.std.specs.Prelude.{◌≡◌, map};
ghost use Rattle.cov_expr.specs.Trees as tree;
ghost use Rattle.level_text.specs.TextFaults as spec;
ghost use Rattle.level_text.specs.TextViews as views;

use crate::text::NamedAt;
use cov_expr::has_number;

/// The lesser of two places.
pub fn sooner(a: Option<u32>, b: Option<u32>) -> Option<u32>
    ensures { result ≡ spec.sooner a b }
{
    match (a, b) {
        (None, y) => y,
        (Some(x), None) => Some(x),
        (Some(x), Some(y)) => { if x <= y { Some(x) } else { Some(y) } }
    }
}

/// The least place of a name that isn't among the numbers.
pub fn first_outside(numbers: &[u32], names: &[NamedAt]) -> Option<u32>
    ensures { result ≡ spec.first_failing (tree.has_number numbers.now) (map views.named names.now) }
{
    let mut found = None;
    for name in names {
        found = sooner(found, outside(numbers, name));
    }
    found
}

/// The place of a name, where its number isn't among the numbers.
pub fn outside(numbers: &[u32], name: &NamedAt) -> Option<u32>
    ensures { result ≡ spec.failing (tree.has_number numbers.now) (views.named name.now) }
{
    if has_number(numbers, name.name) {
        None
    } else {
        Some(name.at)
    }
}
