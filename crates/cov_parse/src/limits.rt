//! The fault of least place of the limits that a program doesn't keep.

ghost use Rattle.std.specs.Prelude.{◌≡◌, map, option_map};
ghost use Rattle.cov_grammar.specs.PlacedTrees.{stms};
ghost use Rattle.cov_text.specs.Limits as spec;
ghost use Rattle.cov_read.specs.CertViews as certs;
ghost use Rattle.cov_read.specs.StateViews as states;
ghost use Rattle.cov_read.specs.StmtViews as stmts;
ghost use Rattle.cov_read.specs.DeclViews as decls;

use crate::counts::{past_locks, past_statements, past_threads, past_variables};
use crate::measures::{cert_height, cert_nodes};
use cov_expr::{
    MOST_BLOCKS, MOST_CERT_NODES, MOST_HEIGHT, MOST_NODES, MOST_PREDICATES, MOST_TYPES,
};
use cov_read::{
    Braces, ClassDecl, PlacedCert, PlacedLock, PlacedProgram, PlacedProof, PlacedState, PlacedStmt,
    PlacedStmtKind, PlacedThread, PlacedVariable, Typed, Whole,
};
use cov_text::{Counted, Excess, Limit};

/// The one of two faults that has the lesser place; at one place the first.
fn sooner(a: Option<Excess>, b: Option<Excess>) -> Option<Excess>
    ensures { result ≡ spec.sooner a b }
{
    match (a, b) {
        (None, y) => y,
        (Some(x), None) => Some(x),
        (Some(x), Some(y)) => { if x.at <= y.at { Some(x) } else { Some(y) } }
    }
}

/// The fault that a measure is above its bound; or, where it isn't, another.
fn above(at: u32, most: u32, n: u32, limit: Limit, rest: Option<Excess>) -> Option<Excess>
    ensures { result ≡ spec.above at most n limit rest }
{
    if most < n {
        Some(Excess { at, limit })
    } else {
        rest
    }
}

/// The fault of an expression.
pub fn in_expr(e: &Whole) -> Option<Excess>
    ensures { result ≡ spec.in_expr (certs.whole e.now) }
{
    let deep = above(e.at, MOST_HEIGHT, e.expr.height, Limit::TooDeep, None);
    above(
        e.at,
        MOST_NODES,
        e.expr.nodes,
        Limit::TooMany(Counted::Nodes),
        deep,
    )
}

fn in_exprs(es: &[Whole]) -> Option<Excess>
    ensures { result ≡ spec.least spec.in_expr (map certs.whole es.now) }
{
    let mut found = None;
    for e in es {
        found = sooner(found, in_expr(e));
    }
    found
}

fn in_option(e: &Option<Whole>) -> Option<Excess>
    ensures { result ≡ spec.in_option (option_map certs.whole e.now) }
{
    match e {
        Some(e) => in_expr(e),
        None => None,
    }
}

fn in_pairs(pairs: &[Typed]) -> Option<Excess>
    ensures { result ≡ spec.least spec.in_pair (map states.typed pairs.now) }
{
    let mut found = None;
    for pair in pairs {
        found = sooner(found, in_expr(&pair.class));
    }
    found
}

/// The fault of least place of the expressions in a certificate.
fn inside_cert(cert: &PlacedCert) -> Option<Excess>
    ensures { result ≡ spec.inside_cert (certs.cert cert.now) }
{
    match cert {
        PlacedCert::Auto
        | PlacedCert::Calc
        | PlacedCert::Refl
        | PlacedCert::Ring
        | PlacedCert::Range => None,
        PlacedCert::Hyp(_) | PlacedCert::Clash(_) | PlacedCert::Absurd(_, _) => None,
        PlacedCert::And(c, d) | PlacedCert::Cases(_, c, d) => sooner(
            inside_cert(c),
            inside_cert(d),
        ),
        PlacedCert::Split(e, c, d) | PlacedCert::Have(e, c, d) => {
            sooner(in_expr(e), sooner(inside_cert(c), inside_cert(d)))
        }
        PlacedCert::Left(c)
        | PlacedCert::Right(c)
        | PlacedCert::Unpack(_, c)
        | PlacedCert::Not(c)
        | PlacedCert::Contra(c) => { inside_cert(c) }
        PlacedCert::Fwd(_, e, c) | PlacedCert::Rev(_, e, c) => sooner(in_expr(e), inside_cert(c)),
        PlacedCert::Axiom(_, es, c) => sooner(in_exprs(es.as_slice()), inside_cert(c)),
    }
}

fn in_proof(proof: &PlacedProof) -> Option<Excess>
    ensures { result ≡ spec.in_proof (states.proof proof.now) }
{
    let at = proof.at;
    let deep = above(
        at,
        MOST_HEIGHT,
        cert_height(&proof.cert),
        Limit::TooDeep,
        None,
    );
    let whole = above(
        at,
        MOST_CERT_NODES,
        cert_nodes(&proof.cert),
        Limit::TooMany(Counted::CertNodes),
        deep,
    );
    sooner(whole, inside_cert(&proof.cert))
}

fn in_proofs(proofs: &[PlacedProof]) -> Option<Excess>
    ensures { result ≡ spec.least spec.in_proof (map states.proof proofs.now) }
{
    let mut found = None;
    for proof in proofs {
        found = sooner(found, in_proof(proof));
    }
    found
}

/// The fault that so many are above a bound.
fn crowd(at: u32, most: usize, n: usize, limit: Limit, rest: Option<Excess>) -> Option<Excess>
    ensures { result ≡ spec.above at most n limit rest }
{
    if most < n {
        Some(Excess { at, limit })
    } else {
        rest
    }
}

fn in_state(state: &PlacedState) -> Option<Excess>
    ensures { result ≡ spec.in_state (states.state state.now) }
{
    let types = crowd(
        state.at,
        MOST_TYPES,
        state.types.len(),
        Limit::TooMany(Counted::Types),
        None,
    );
    let preds = crowd(
        state.at,
        MOST_PREDICATES,
        state.preds.len(),
        Limit::TooMany(Counted::Predicates),
        types,
    );
    let inside = sooner(
        in_exprs(state.preds.as_slice()),
        in_pairs(state.types.as_slice()),
    );
    sooner(preds, inside)
}

fn in_state_option(state: &Option<Box<PlacedState>>) -> Option<Excess>
    ensures { result ≡ spec.in_state_option (option_map (λ j. states.state j.value) state.now) }
{
    match state {
        Some(state) => in_state(state),
        None => None,
    }
}

/// The fault of least place of the parts of an assignment.
fn in_assigned(
    e: &Whole,
    class: &Option<Whole>,
    retypes: &[Typed],
    proofs: &[PlacedProof],
) -> Option<Excess>
    ensures { result ≡ spec.sooner (spec.in_expr (certs.whole e.now)) (spec.sooner (spec.in_option (option_map certs.whole class.now)) (spec.sooner (spec.least spec.in_pair (map states.typed retypes.now)) (spec.least spec.in_proof (map states.proof proofs.now)))) }
{
    let behind = sooner(in_pairs(retypes), in_proofs(proofs));
    sooner(in_expr(e), sooner(in_option(class), behind))
}

/// The fault of least place of a statement, in which so many blocks more may be nested.
#[cycle(block)]
fn in_stm(room: u32, kind: &PlacedStmtKind) -> Option<Excess>
    ensures { result ≡ spec.in_stm room (stmts.kind kind.now) }
{
    let inner = room.saturating_sub(1);
    match kind {
        PlacedStmtKind::Skip | PlacedStmtKind::Lock(_) => None,
        PlacedStmtKind::Assign(_, e, class, retypes, proofs) => {
            in_assigned(e, class, retypes.as_slice(), proofs.as_slice())
        }
        PlacedStmtKind::Unlock(_, proofs) => in_proofs(proofs.as_slice()),
        PlacedStmtKind::If(e, first, first_body, second, second_body, state, proofs) => {
            let behind = sooner(in_state_option(state), in_proofs(proofs.as_slice()));
            let second = in_block(inner, *second, second_body.as_slice());
            let first = in_block(inner, *first, first_body.as_slice());
            sooner(in_expr(e), sooner(first, sooner(second, behind)))
        }
        PlacedStmtKind::While(e, state, braces, body, proofs) => {
            let body = in_block(inner, *braces, body.as_slice());
            let behind = sooner(body, in_proofs(proofs.as_slice()));
            sooner(in_expr(e), sooner(in_state_option(state), behind))
        }
        PlacedStmtKind::Note(state, proofs) => sooner(
            in_state(state),
            in_proofs(proofs.as_slice()),
        ),
        PlacedStmtKind::Output(e, proofs) => sooner(in_expr(e), in_proofs(proofs.as_slice())),
    }
}

#[cycle(block)]
fn in_block(room: u32, braces: Braces, body: &[PlacedStmt]) -> Option<Excess>
    ensures { result ≡ spec.in_block room (stmts.block_of braces (map stmts.stmt body.now)) }
{
    let deep = if room == 0 {
        Some(Excess {
            at: braces.begin,
            limit: Limit::TooDeep,
        })
    } else {
        None
    };
    sooner(deep, in_stms(room, body))
}

#[cycle(block)]
fn in_stms(room: u32, body: &[PlacedStmt]) -> Option<Excess>
    ensures { result ≡ spec.in_stms room (stms (map stmts.stmt body.now)) }
{
    let mut found = None;
    for stmt in body {
        found = sooner(found, in_stm(room, &stmt.kind));
    }
    found
}

fn in_var(var: &PlacedVariable) -> Option<Excess>
    ensures { result ≡ spec.in_var (decls.var var.now) }
{
    match &var.class {
        ClassDecl::Low | ClassDecl::High => None,
        ClassDecl::When(e) => in_expr(e),
    }
}

fn in_vars(vars: &[PlacedVariable]) -> Option<Excess>
    ensures { result ≡ spec.least spec.in_var (map decls.var vars.now) }
{
    let mut found = None;
    for var in vars {
        found = sooner(found, in_var(var));
    }
    found
}

fn in_locks(locks: &[PlacedLock]) -> Option<Excess>
    ensures { result ≡ spec.least spec.in_lock (map decls.lock locks.now) }
{
    let mut found = None;
    for lock in locks {
        found = sooner(found, in_option(&lock.inv));
    }
    found
}

fn in_threads(threads: &[PlacedThread]) -> Option<Excess>
    ensures { result ≡ spec.least spec.in_thread (map decls.thread threads.now) }
{
    let mut found = None;
    for thread in threads {
        found = sooner(
            found,
            in_block(MOST_BLOCKS, thread.braces, thread.body.as_slice()),
        );
    }
    found
}

/// The fault of least place of a program's limits.
pub fn in_program(program: &PlacedProgram) -> Option<Excess>
    ensures { result ≡ spec.in_program (decls.program program.now) }
{
    let vars = program.vars.as_slice();
    let locks = program.locks.as_slice();
    let threads = program.threads.as_slice();
    let inside = sooner(in_vars(vars), sooner(in_locks(locks), in_threads(threads)));
    let statements = sooner(past_statements(program), inside);
    let crowds = sooner(past_threads(program), statements);
    sooner(past_variables(program), sooner(past_locks(program), crowds))
}
