//! The statements that no run comes to.

ghost use Rattle.std.specs.Prelude.{◌≡◌, ◌++◌, false, flat_map, map, OnOk};
ghost use Rattle.cov_ast.specs.View as view;
ghost use Rattle.cov_expr.specs.View.{term};
ghost use Rattle.explain.specs.Inside.StatementWalks.{block_unreached, cuts_off, stm_front, stm_unreached};
ghost use Rattle.explain.specs.NeverReached as spec;

use crate::unused::is_closed_false;
use crate::warning::{Cause, Warning};
use cov_ast::{Stmt, StmtKind, ThreadDecl};
use cov_expr::{Expr, List, NoMemory, closed, eval};

/// Adds what is warned of in the statements of threads, in the order of the text. Each statement is looked at once.
pub fn add_threads(threads: &[ThreadDecl], found: &mut List<Warning>) -> Result<(), NoMemory>
    ensures { OnOk result (found.new ≡ found.old ++ flat_map (λ t. block_unreached false t.body) (map view.thread threads.now)) }
{
    for thread in threads {
        add_block(thread.body.as_slice(), false, found)?;
    }
    Ok(())
}

/// Adds what is warned of in a block that is cut off, or isn't.
#[cycle(blocks)]
fn add_block(body: &[Stmt], is_cut_off: bool, found: &mut List<Warning>) -> Result<(), NoMemory>
    ensures { OnOk result (found.new ≡ found.old ++ block_unreached is_cut_off (view.block body.now)) }
{
    let mut cut_off = is_cut_off;
    for stmt in body {
        add_front(&stmt.kind, stmt.at, cut_off, found)?;
        add_blocks(&stmt.kind, found)?;
        cut_off = cuts_off(&stmt.kind, cut_off);
    }
    Ok(())
}

/// Adds what is warned of in the blocks of a statement.
#[cycle(blocks)]
fn add_blocks(kind: &StmtKind, found: &mut List<Warning>) -> Result<(), NoMemory>
    ensures { OnOk result (found.new ≡ found.old ++ stm_unreached (view.kind kind.now)) }
{
    match kind {
        StmtKind::If(e, a, b, _) => {
            add_block(a.as_slice(), is_closed_false(e), found)?;
            add_block(b.as_slice(), is_closed_true(e), found)
        }
        StmtKind::While(e, _, b) => add_block(b.as_slice(), is_closed_false(e), found),
        _ => Ok(()),
    }
}

/// Adds a statement that is cut off. A note is none.
fn add_front(
    kind: &StmtKind,
    place: u32,
    is_cut_off: bool,
    found: &mut List<Warning>,
) -> Result<(), NoMemory>
    ensures { OnOk result (found.new ≡ found.old ++ stm_front is_cut_off (view.kind kind.now) place) }
{
    if is_cut_off && !matches!(kind, StmtKind::Note(_)) {
        let cause = Cause::NeverReached;
        found.push(Warning { place, cause })?;
    }
    Ok(())
}

/// Whether what stands behind a statement is cut off.
fn cuts_off(kind: &StmtKind, is_cut_off: bool) -> bool
    ensures { result ≡ cuts_off is_cut_off (view.kind kind.now) }
{
    match kind {
        StmtKind::While(e, _, _) => is_closed_true(e),
        StmtKind::Note(_) => is_cut_off,
        _ => false,
    }
}

/// Whether an expression isn't 0, without a look at memory.
#[tactic(auto, using(crate::proofs::ClosedLaws::closed_in_range))]
fn is_closed_true(e: &Expr) -> bool
    ensures { result ≡ spec.is_closed_true (term e.now) }
{
    closed(e) && eval(e, &[]) != 0
}
