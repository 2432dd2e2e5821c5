//! The faults of too many: the first variable, lock, thread or statement past the most.

ghost use Rattle.std.specs.Prelude.{◌≡◌, map, flat_map};
ghost use Rattle.cov_grammar.specs.PlacedTrees.{stms};
ghost use Rattle.cov_text.specs.Limits as spec;
ghost use Rattle.cov_parse.specs.Inside.Measures.{counted, onward};
ghost use Rattle.cov_read.specs.StmtViews as stmts;
ghost use Rattle.cov_read.specs.DeclViews as decls;

use cov_expr::{MOST_LOCKS, MOST_STATEMENTS, MOST_THREADS, MOST_VARIABLES};
use cov_read::{PlacedProgram, PlacedStmt, PlacedStmtKind, PlacedThread};
use cov_text::{Counted, Excess, Limit};

/// How many statements may still come, or the place of the first one that is too many.
#[derive(Clone, Copy)]
pub enum Counting {
    Left(u32),
    Past(u32),
}

/// The fault of the first variable past the most.
pub fn past_variables(program: &PlacedProgram) -> Option<Excess>
    ensures { result ≡ spec.past_variables (decls.program program.now) }
{
    let vars = program.vars.as_slice();
    if vars.len() <= MOST_VARIABLES {
        return None;
    }
    Some(Excess {
        at: vars[MOST_VARIABLES].at,
        limit: Limit::TooMany(Counted::Variables),
    })
}

/// The fault of the first lock past the most.
pub fn past_locks(program: &PlacedProgram) -> Option<Excess>
    ensures { result ≡ spec.past_locks (decls.program program.now) }
{
    let locks = program.locks.as_slice();
    if locks.len() <= MOST_LOCKS {
        return None;
    }
    Some(Excess {
        at: locks[MOST_LOCKS].at,
        limit: Limit::TooMany(Counted::Locks),
    })
}

/// The fault of the first thread past the most.
pub fn past_threads(program: &PlacedProgram) -> Option<Excess>
    ensures { result ≡ spec.past_threads (decls.program program.now) }
{
    let threads = program.threads.as_slice();
    if threads.len() <= MOST_THREADS {
        return None;
    }
    Some(Excess {
        at: threads[MOST_THREADS].at,
        limit: Limit::TooMany(Counted::Threads),
    })
}

/// The fault of the first statement past the most.
pub fn past_statements(program: &PlacedProgram) -> Option<Excess>
    ensures { result ≡ spec.past_statements (decls.program program.now) }
{
    match count_threads(program.threads.as_slice(), MOST_STATEMENTS) {
        Counting::Left(_) => None,
        Counting::Past(at) => Some(Excess {
            at,
            limit: Limit::TooMany(Counted::Statements),
        }),
    }
}

/// Counts the statements of threads, of which so many may come.
fn count_threads(threads: &[PlacedThread], room: u32) -> Counting
    ensures { result ≡ counted room (flat_map (λ h. spec.places_of h.body) (map decls.thread threads.now)) }
{
    let mut left = room;
    for thread in threads {
        match count_stmts(thread.body.as_slice(), left) {
            Counting::Left(n) => left = n,
            Counting::Past(at) => return Counting::Past(at),
        }
    }
    Counting::Left(left)
}

/// Counts statements, those inside others too.
#[cycle(count)]
fn count_stmts(body: &[PlacedStmt], room: u32) -> Counting
    ensures { result ≡ counted room (spec.places (stms (map stmts.stmt body.now))) }
{
    let mut left = room;
    for stmt in body {
        if left == 0 {
            return Counting::Past(stmt.at);
        }
        match count_inside(&stmt.kind, left - 1) {
            Counting::Left(n) => left = n,
            Counting::Past(at) => return Counting::Past(at),
        }
    }
    Counting::Left(left)
}

/// Counts the statements behind others.
#[cycle(count)]
fn count_more(before: Counting, body: &[PlacedStmt]) -> Counting
    ensures { result ≡ onward before (spec.places (stms (map stmts.stmt body.now))) }
{
    match before {
        Counting::Left(n) => count_stmts(body, n),
        Counting::Past(at) => Counting::Past(at),
    }
}

#[cycle(count)]
fn count_inside(kind: &PlacedStmtKind, room: u32) -> Counting
    ensures { result ≡ counted room (spec.places_in (stmts.kind kind.now)) }
{
    match kind {
        PlacedStmtKind::If(_, _, first, _, second, _, _) => {
            count_more(count_stmts(first.as_slice(), room), second.as_slice())
        }
        PlacedStmtKind::While(_, _, _, body, _) => count_stmts(body.as_slice(), room),
        _ => Counting::Left(room),
    }
}
