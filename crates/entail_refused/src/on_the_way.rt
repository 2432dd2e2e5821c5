//! To which variables is stored in front of a statement, in the text.

ghost use Rattle.std.specs.Prelude.{◌≡◌, IfOk, option_map};
ghost use Rattle.cov_ast.specs.View as view;
ghost use Rattle.statement_parts.specs.Parts as parts;
ghost use Rattle.entail_refused.specs.OnTheWay as spec;
ghost use Rattle.entail_refused.specs.Sites as sites;

use crate::site::Site;
use cov_ast::{NumberSet, Program};
use cov_expr::NoMemory;
use statement_parts::{Nested, Store, add_assigned, parts_of};
use statement_paths::Step;
use std::alloc::Global;

/// The variables to which statements in front of one store, with what stands in their blocks, or it itself.
pub fn stored_before(alloc: Global, p: &Program, site: &Site<'_>) -> Result<NumberSet, NoMemory>
    ensures { IfOk result (λ made. made ≡ spec.stored_before (view.program p.now) (sites.site site.now)) }
{
    let mut stored = NumberSet::new(alloc, p.vars.len())?;
    let steps = site.steps.as_slice();
    for step in steps {
        match step {
            Step::Passed(stmt) => {
                let parts = parts_of(&stmt.kind);
                add_own(parts.store, &mut stored);
                match parts.nested {
                    Nested::None => {}
                    Nested::Turn(b) => add_assigned(b, &mut stored),
                    Nested::Either(a, b) => {
                        add_assigned(a, &mut stored);
                        add_assigned(b, &mut stored);
                    }
                }
            }
            Step::Yes(_, _) | Step::No(_, _) | Step::Head(_, _) => {}
        }
    }
    add_own(parts_of(site.kind).store, &mut stored);
    Ok(stored)
}

/// Adds the one to which a statement stores itself, if it does.
fn add_own(store: Option<Store<'_>>, stored: &mut NumberSet)
    ensures { stored.new ≡ spec.with_own stored.old (option_map parts.store_of store.entry) }
{
    match store {
        Some(store) => stored.put(store.variable, true),
        None => {}
    }
}
