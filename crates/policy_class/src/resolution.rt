//! The resolver of names: from a text that was read to the program that it stands for.

ghost use Rattle.std.specs.Prelude.{◌≡◌, IfOk};
ghost use Rattle.cov_ast.specs.View as view;
ghost use Rattle.cov_ast.specs.Ready.{IsReady};
ghost use Rattle.cov_ast.specs.Obligations.{Decides};
ghost use Rattle.cov_ast.specs.WellFormed.{AreOfWords, IsWellFormed};
ghost use Rattle.policy_class.specs.Resolved as spec;
ghost use Rattle.policy_class.specs.Inside.Ids.{AreIdsOf};

use crate::ids::{Ids, ids_of};
use crate::names::declared_names;
use crate::programs::resolved_program;
use crate::uses::check_uses;
use cov_ast::{CheckFault, Parsed, Program};
use std::alloc::Global;

/// The program that a text stands for: each number of a name becomes the id of the declaration with that name. Refuses a text
/// for the first name that is declared a second time (W1), or else for the first name that is used as a variable or as a lock
/// and isn't declared so (W2).
///
/// Names are looked up by hashing, and the trees are renumbered in place. It takes memory for the declared names and for two
/// ids of each name of the text, and none for the program.
pub fn resolve(alloc: Global, p: Parsed) -> Result<Program, CheckFault>
    requires { IsReady (view.parsed p) }
    ensures names { Decides (spec.name_obligations (view.parsed p)) (spec.without_value result) }
    ensures program { IfOk result (λ made. view.program made ≡ spec.resolved (view.parsed p)) }
    ensures formed { IfOk result (λ made. IsWellFormed (view.program made)) }
{
    let ids = checked_ids(alloc, &p)?;
    Ok(resolved_program(&ids, p))
}

/// The ids of the names of a text, each of which is declared once, and as what it is used.
fn checked_ids(alloc: Global, p: &Parsed) -> Result<Ids, CheckFault>
    requires { IsReady (view.parsed p.now) }
    ensures names { Decides (spec.name_obligations (view.parsed p.now)) (spec.without_value result) }
    ensures ids { IfOk result (AreIdsOf (view.parsed p.now)) }
    ensures formed { IfOk result (λ _. let made = spec.resolved (view.parsed p.now) in
        AreOfWords made.vars made.locks made.threads → IsWellFormed made) }
{
    let declared = declared_names(alloc, p)?;
    let ids = ids_of(alloc, p, &declared)?;
    check_uses(p, &ids)?;
    Ok(ids)
}
