//! The variables to which statements store.

ghost use Rattle.std.specs.Prelude.{◌≡◌};
ghost use Rattle.cov_ast.specs.Tables.{with_all};
ghost use Rattle.cov_ast.specs.View as view;
ghost use Rattle.statement_parts.specs.Parts.{assigned, collected, collected_in};

use cov_ast::{NumberSet, Stmt, StmtKind};

/// Adds to a set the variables to which the statements of a block store, also in their blocks. Each statement is looked at once.
#[cycle(blocks)]
pub fn add_assigned(body: &[Stmt], stored: &mut NumberSet)
    ensures { stored.new ≡ with_all stored.old (collected_in assigned (view.block body.now)) }
{
    for stmt in body {
        add_of_kind(&stmt.kind, stored);
    }
}

/// Adds those to which a statement stores.
#[cycle(blocks)]
fn add_of_kind(kind: &StmtKind, stored: &mut NumberSet)
    ensures { stored.new ≡ with_all stored.old (collected assigned (view.kind kind.now)) }
{
    match kind {
        StmtKind::Assign(x, _, _, _) => stored.put(*x, true),
        StmtKind::If(_, a, b, _) => {
            add_assigned(a.as_slice(), stored);
            add_assigned(b.as_slice(), stored);
        }
        StmtKind::While(_, _, b) => add_assigned(b.as_slice(), stored),
        _ => {}
    }
}
