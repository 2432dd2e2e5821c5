//! Certificates with other numbers in the place of their variables.

ghost use Rattle.std.specs.Prelude.{◌≡◌, get_or};
ghost use Rattle.cov_ast.specs.View as view;
ghost use Rattle.policy_class.specs.Resolved.{resolved_cert};

use crate::certs::resolve_cert;
use crate::ids::Ids;
use cov_ast::Cert;
use cov_expr::List;
use std::alloc::Global;
use std::marker::Model;

/// A number for each variable: those of a list for the first variables, and one for all past these. Contracts see both.
#[derive(Drop)]
pub struct Renumbering {
    ids: Ids,
}

impl Model for Renumbering {
    ghost use Rattle.std.specs.Prelude.{List, ℕ};

    ghost Value = { List ℕ × ℕ };

    ghost view = { λ r. (r.ids.vars, r.ids.var_count) };
}

impl Renumbering {
    /// These numbers, and one for all variables past them.
    pub fn new(alloc: Global, numbers: List<u32>, past: u32) -> Self
        ensures { result ≡ (numbers, past) }
    {
        Renumbering {
            ids: Ids {
                vars: numbers,
                locks: List::new(alloc),
                var_count: past,
                lock_count: 0,
            },
        }
    }
}

/// Puts its number in the place of each variable of a certificate. The hole of a template stays.
pub fn renumber_cert(numbers: &Renumbering, cert: &mut Cert)
    ensures { view.cert cert.new ≡ resolved_cert (λ x. get_or numbers.now.0 x numbers.now.1) (λ l. l) (view.cert cert.old) }
{
    resolve_cert(&numbers.ids, cert);
}
