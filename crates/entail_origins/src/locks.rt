//! The first lock that a variable is under.

ghost use Rattle.std.specs.Prelude.{◌≡◌, map, option_map};
ghost use Rattle.cov_ast.specs.View as view;
ghost use Rattle.entail_origins.specs.LocksOver as spec;

use cov_ast::LockDecl;

/// The first of some locks that has a variable in a list. It takes time in proportion to the lists.
pub fn lock_over(x: u32, locks: &[LockDecl]) -> Option<&LockDecl>
    ensures { option_map (λ l. view.lock l.now) result ≡ spec.lock_over x (map view.lock locks.now) }
{
    for lock in locks {
        if lock.lists(x) {
            return Some(lock);
        }
    }
    None
}
