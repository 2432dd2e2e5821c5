//! How many statements a block has.

ghost use Rattle.std.specs.Prelude.{◌≡◌, ◌<◌, length};
ghost use Rattle.cov_ast.specs.View as view;
ghost use Rattle.cov_ast.specs.WellFormed.{block_size, places, places_within, stm_size, most_size};

use cov_ast::{Stmt, StmtKind};

/// How many statements a block has, those in others and notes included.
#[cycle(statements)]
pub fn statements(body: &[Stmt]) -> u64
    requires { block_size (view.block body.now) < most_size }
    ensures { result ≡ length (places (view.block body.now)) }
{
    let mut count = 0;
    for stmt in body {
        count += 1 + statements_within(&stmt.kind);
    }
    count
}

/// How many statements stand in the blocks of a statement.
#[cycle(statements)]
fn statements_within(kind: &StmtKind) -> u64
    requires { stm_size (view.kind kind.now) < most_size }
    ensures { result ≡ length (places_within (view.kind kind.now)) }
{
    match kind {
        StmtKind::If(_, a, b, _) => statements(a.as_slice()) + statements(b.as_slice()),
        StmtKind::While(_, _, b) => statements(b.as_slice()),
        _ => 0,
    }
}
