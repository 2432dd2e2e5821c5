//! How many frames a thread needs at most for a block.

ghost use Rattle.std.specs.Prelude.{◌≡◌, ◌<◌};
ghost use Rattle.cov_ast.specs.View as view;
ghost use Rattle.cov_ast.specs.WellFormed.{block_size, most_size, stm_size};
ghost use Rattle.source_machine.specs.Inside.Entries as spec;

use cov_ast::{Stmt, StmtKind};

/// How many frames a thread has at most while it runs a block.
#[cycle(heights)]
#[tactic(auto, using(crate::proofs::FrameLaws::height_small))]
pub fn height(block: &[Stmt]) -> usize
    requires { block_size (view.block block.now) < most_size }
    ensures height { result ≡ spec.height (view.block block.now) }
    ensures small { result < most_size }
{
    let mut most = 0;
    for stmt in block {
        most = most.max(kind_height(&stmt.kind));
    }
    most
}

#[cycle(heights)]
fn kind_height(kind: &StmtKind) -> usize
    requires { stm_size (view.kind kind.now) < most_size }
    ensures { result ≡ spec.stm_height (view.kind kind.now) }
{
    match kind {
        StmtKind::If(_, a, b, _) => 1 + height(a.as_slice()).max(height(b.as_slice())),
        StmtKind::While(_, _, b) => 1 + height(b.as_slice()),
        StmtKind::Note(_) => 0,
        _ => 1,
    }
}
