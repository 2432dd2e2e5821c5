//! The locks that are held along steps of a text.

ghost use Rattle.std.specs.Prelude.{◌≡◌, ◌<◌, IfOk, length, map};
ghost use Rattle.cov_ast.specs.Plain.{plain};
ghost use Rattle.cov_ast.specs.View as view;
ghost use Rattle.cov_ast.specs.WellFormed.{IsWellFormed};
ghost use Rattle.mode_state.specs.Sets.{modes_at};
ghost use Rattle.statement_paths.specs.Paths.{step};
ghost use Rattle.cov_ast.specs.LocksAlong.{no_locks};
ghost use Rattle.statement_paths.specs.LocksHeld as spec;

use crate::way::Step;
use cov_ast::{Program, Stmt, StmtKind};
use cov_expr::NoMemory;
use mode_state::ModeState;
use statement_parts::parts_of;
use std::alloc::Global;

/// The modes of a thread, with the locks that it holds at the end of steps from the start of its text.
pub fn modes_along(
    alloc: Global,
    p: &Program,
    t: u32,
    steps: &[Step<'_>],
) -> Result<ModeState, NoMemory>
    requires formed { IsWellFormed (view.program p.now) }
    requires thread { t < length p.now.threads }
    ensures { IfOk result (λ made. let q = plain (view.program p.now) in
        made ≡ modes_at q t (spec.held_along (map step steps.now) (no_locks q))) }
{
    let mut modes = ModeState::start(alloc, p, t)?;
    for next in steps {
        follow_step(next, &mut modes);
    }
    Ok(modes)
}

/// Takes and gives back the locks that are taken and given back in a step.
pub fn follow_step(next: &Step<'_>, modes: &mut ModeState)
    ensures { modes.new ≡ record modes.old { held = spec.held_after (step next.now) (modes.old).held } }
{
    match next {
        Step::Passed(stmt) => pass_statement(&stmt.kind, modes),
        Step::Yes(_, _) | Step::No(_, _) | Step::Head(_, _) => {}
    }
}

/// Takes and gives back locks as the statements of a block do. Each of them is looked at once, and no second block of a branch is.
#[cycle(blocks)]
pub fn pass_block(body: &[Stmt], modes: &mut ModeState)
    ensures { modes.new ≡ record modes.old { held = spec.held_at_end (view.block body.now) (modes.old).held } }
{
    for stmt in body {
        pass_statement(&stmt.kind, modes);
    }
}

/// Takes and gives back locks as a statement does.
#[cycle(blocks)]
fn pass_statement(kind: &StmtKind, modes: &mut ModeState)
    ensures { modes.new ≡ record modes.old { held = spec.held_past (view.kind kind.now) (modes.old).held } }
{
    match kind {
        StmtKind::If(_, a, _, _) => pass_block(a.as_slice(), modes),
        _ => {
            let parts = parts_of(kind);
            match (parts.taken, parts.returned) {
                (Some(l), _) => modes.take(l),
                (None, Some(l)) => modes.give(l),
                (None, None) => {}
            }
        }
    }
}
