//! Whether each name is declared as what it is used, a variable or a lock (W2).

ghost use Rattle.std.specs.Prelude.{◌<◌, [], ◌∷◌, length, map, All};
ghost use Rattle.cov_ast.specs.View as view;
ghost use Rattle.cov_ast.specs.Obligations.{Decides};
ghost use Rattle.policy_class.specs.Resolved as spec;
ghost use Rattle.policy_class.specs.Inside.Ids.{AreIdsOf};

use crate::ids::Ids;
use cov_ast::{CheckFault, Detail, NameUse, Parsed, Rule, refused};

/// Refuses a text for the first name that is used as a variable or as a lock and isn't declared so (W2).
pub fn check_uses(p: &Parsed, ids: &Ids) -> Result<(), CheckFault>
    requires ids { AreIdsOf (view.parsed p.now) ids.now }
    requires range { All (λ u. u.name < length p.now.names) p.now.uses }
    ensures { Decides (map (spec.use_obligation (view.parsed p.now)) p.now.uses) result }
{
    for used in p.uses.as_slice() {
        if let Err(fault) = check_use(p, ids, used) {
            return Err(fault);
        }
    }
    Ok(())
}

fn check_use(p: &Parsed, ids: &Ids, used: &NameUse) -> Result<(), CheckFault>
    requires ids { AreIdsOf (view.parsed p.now) ids.now }
    requires range { used.now.name < length p.now.names }
    ensures { Decides (spec.use_obligation (view.parsed p.now) used.now ∷ []) result }
{
    if ids.has(used) {
        return Ok(());
    }
    let name = p.names.name(used.name);
    Err(refused(Rule::W2, used.at, Detail::One(name)))
}
