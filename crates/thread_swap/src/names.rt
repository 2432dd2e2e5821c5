//! Names of threads.

ghost use Rattle.std.specs.Prelude.{◌≡◌, map};
ghost use Rattle.std.specs.Str.{bytes_eq};
ghost use Rattle.cov_ast.specs.View as view;
ghost use Rattle.cov_ast.specs.WellFormed.{are_distinct};
ghost use Rattle.policy_class.specs.Resolved.{is_among};

use cov_ast::ThreadDecl;
use cov_expr::Name;

/// Whether one of some threads has a name.
pub fn has_name(threads: &[ThreadDecl], name: Name) -> bool
    ensures { result ≡ is_among (map (λ t. t.name) (map view.thread threads.now)) name }
{
    for thread in threads {
        if name == thread.name {
            return true;
        }
    }
    false
}

/// Whether no two threads have the same name.
pub fn names_differ(threads: &[ThreadDecl]) -> bool
    ensures { result ≡ are_distinct bytes_eq (map (λ t. t.name) (map view.thread threads.now)) }
{
    for i in 0..threads.len() {
        if has_name(&threads[i + 1..], threads[i].name) {
            return false;
        }
    }
    true
}
