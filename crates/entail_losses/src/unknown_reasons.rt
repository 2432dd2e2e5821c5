//! Why nothing is known of a variable behind steps.

ghost use Rattle.std.specs.Prelude.{◌≡◌, ◌<◌, ℕ, IfOk, length, map, option_map};
ghost use Rattle.cov_expr.specs.Trees as tree;
ghost use Rattle.cov_expr.specs.View.{term};
ghost use Rattle.cov_ast.specs.Declarations.{lock_at};
ghost use Rattle.cov_ast.specs.Plain.{plain};
ghost use Rattle.cov_ast.specs.Tables.{has};
ghost use Rattle.cov_ast.specs.View as view;
ghost use Rattle.cov_ast.specs.WellFormed.{IsWellFormed};
ghost use Rattle.entail_losses.specs.Unknowns as spec;
ghost use Rattle.entail_origins.specs.GivenViews.{given_term};
ghost use Rattle.point_law.specs.Terms.{each_variable};
ghost use Rattle.statement_parts.specs.Parts as table;
ghost use Rattle.statement_paths.specs.Paths as paths;

use crate::left_out_found::is_over;
use crate::left_out_states::{StateAt, StateKind, kind_of_state};
use crate::unknown_about::is_statement_about;
use cov_ast::{NumberSet, Program, State, StmtKind, first_outside};
use cov_expr::{Expr, NoMemory, mentions};
use entail_origins::{GivenTerm, HypothesisSource, Origin, state_source};
use mode_state::ModeState;
use statement_parts::{Nested, Parts, Store, parts_of};
use statement_paths::{Step, follow_step, stable_set};
use std::alloc::Global;

/// A predicate, with what gives it.
#[derive(Clone, Copy)]
pub struct Fact<'p> {
    pub origin: Origin,
    pub term: GivenTerm<'p>,
}

/// What forgets a predicate, with the byte offset of its statement.
#[derive(Clone, Copy)]
pub enum Loss {
    /// A store to this variable.
    Stored(u32, u32),
    /// The return of this lock.
    Returned(u32, u32),
}

/// What the last step that counts tells of a variable, with the byte offset of its statement.
#[derive(Clone, Copy)]
pub enum Reason<'p> {
    /// No step counts.
    Unmentioned,
    /// An assignment to it of a value over itself.
    Own(u32),
    /// An assignment to it that gives no equation, since this variable isn't stable there.
    NoEquation(u32, u32),
    /// A guard that mentions it and gives no predicate, for the same reason.
    NoGuard(u32, u32),
    /// A state that lists no predicate that mentions it.
    Unlisted(StateAt),
    /// This lock, which it is under, and whose invariant doesn't mention it.
    Taken(u32, u32),
    /// Something gives a predicate that mentions it, which is known since.
    Known(Fact<'p>),
    /// The same, and it is forgotten since.
    Forgotten(Fact<'p>, Loss),
}

/// Why nothing is known of a variable behind steps from the start of a thread. Each step is looked at once, each statement in the blocks of one that is passed too, and for each step the
/// variables of the program.
pub fn reason_of<'p>(
    alloc: Global,
    p: &'p Program,
    t: u32,
    x: u32,
    steps: &[Step<'p>],
) -> Result<Reason<'p>, NoMemory>
    requires formed { IsWellFormed (view.program p.now) }
    requires thread { t < length p.now.threads }
    ensures { IfOk result (λ made. spec.seen made ≡ spec.reason (plain (view.program p.now)) t x (map paths.step steps.now)) }
{
    let mut modes = ModeState::start(alloc, p, t)?;
    let mut so_far = Reason::Unmentioned;
    for step in steps {
        follow_step(step, &mut modes);
        let stable = stable_set(alloc, p, &modes)?;
        so_far = after_step(p, x, &stable, step, so_far);
    }
    Ok(so_far)
}

/// What a step makes of what was told so far, where these variables are stable behind it.
fn after_step<'p>(
    p: &'p Program,
    x: u32,
    stable: &NumberSet,
    step: &Step<'p>,
    so_far: Reason<'p>,
) -> Reason<'p>
    ensures { spec.seen result ≡ spec.after_step x stable.now (plain (view.program p.now)) (paths.step step.now) (spec.seen so_far.entry) }
{
    match step {
        Step::Passed(stmt) => {
            let parts = parts_of(&stmt.kind);
            let stored = after_any_store(x, stable, stmt.at, parts.store, so_far);
            let taken = after_taken(p, x, stmt.at, parts.taken, stored);
            let returned = after_return(stable, stmt.at, parts.returned, taken);
            after_stated(p, x, stable, stmt.at, &stmt.kind, &parts, returned)
        }
        Step::Yes(at, guard) => after_guard(
            x,
            stable,
            *at,
            HypothesisSource::GuardHolds,
            GivenTerm::Written(guard),
            guard,
            so_far,
        ),
        Step::No(at, guard) => after_guard(
            x,
            stable,
            *at,
            HypothesisSource::GuardFails,
            GivenTerm::Negation(guard),
            guard,
            so_far,
        ),
        Step::Head(at, inv) => {
            let otherwise = behind_state(StateKind::Inv, *at, so_far);
            after_state(x, HypothesisSource::LoopState, *at, inv, otherwise)
        }
    }
}

/// The same of what a statement states, if it states something: of a loop, also that its guard doesn't hold.
fn after_stated<'p>(
    p: &Program,
    x: u32,
    stable: &NumberSet,
    at: u32,
    kind: &StmtKind,
    parts: &Parts<'p>,
    so_far: Reason<'p>,
) -> Reason<'p>
    ensures { let ps = table.parts_of parts.now in
        spec.seen result ≡ spec.after_stated x stable.now (plain (view.program p.now)) ps.nested ps.guard at (view.kind kind.now) ps.state (spec.seen so_far.entry) }
{
    let Some(state) = parts.state else {
        return so_far;
    };
    let otherwise = unless_listed(p, x, parts.nested, at, kind, so_far);
    let stated = after_state(x, state_source(parts.nested), at, state, otherwise);
    match parts.left_guard() {
        Some(guard) => after_guard(
            x,
            stable,
            at,
            HypothesisSource::LoopLeft,
            GivenTerm::Negation(guard),
            guard,
            stated,
        ),
        None => stated,
    }
}

/// What is told behind a statement whose state lists nothing of a variable.
fn unless_listed<'p>(
    p: &Program,
    x: u32,
    nested: Nested<'_>,
    at: u32,
    stmt: &StmtKind,
    so_far: Reason<'p>,
) -> Reason<'p>
    ensures { spec.seen result ≡ spec.unless_listed x (plain (view.program p.now)) (table.nested_of nested.entry) at (view.kind stmt.now) (spec.seen so_far.entry) }
{
    let kind = kind_of_state(nested);
    match nested {
        Nested::None => behind_state(kind, at, so_far),
        Nested::Turn(_) | Nested::Either(_, _) => {
            if is_statement_about(p, x, stmt) {
                Reason::Unlisted(StateAt { kind, at })
            } else {
                behind_state(kind, at, so_far)
            }
        }
    }
}

/// The same of a store, if there is one.
fn after_any_store<'p>(
    x: u32,
    stable: &NumberSet,
    at: u32,
    store: Option<Store<'p>>,
    so_far: Reason<'p>,
) -> Reason<'p>
    ensures { spec.seen result ≡ spec.after_any_store x stable.now at (option_map table.store_of store.entry) (spec.seen so_far.entry) }
{
    match store {
        Some(store) => {
            if store.variable == x {
                after_own(x, stable, at, store.value)
            } else if mentions(store.value, x)
                && !mentions(store.value, store.variable)
                && stable.has(store.variable)
                && is_over(stable, store.value)
            {
                equation(at, store.variable, store.value)
            } else {
                after_store(at, store.variable, so_far)
            }
        }
        None => so_far,
    }
}

/// The same of an assignment to the variable itself, which begins anew.
fn after_own<'p>(x: u32, stable: &NumberSet, at: u32, value: &'p Expr) -> Reason<'p>
    ensures { spec.seen result ≡ spec.after_own x stable.now at (term value.now) }
{
    if mentions(value, x) {
        Reason::Own(at)
    } else if !stable.has(x) {
        Reason::NoEquation(at, x)
    } else {
        match first_outside(value, stable) {
            Some(y) => Reason::NoEquation(at, y),
            None => equation(at, x, value),
        }
    }
}

/// An equation that an assignment gives.
fn equation(at: u32, y: u32, value: &Expr) -> Reason<'_>
    ensures { spec.seen result ≡ spec.known (spec.equation at y (term value.now)) }
{
    known(
        at,
        HypothesisSource::Assigned,
        GivenTerm::Equation(y, value),
    )
}

/// A predicate that something at a place gives.
fn known(at: u32, source: HypothesisSource, made: GivenTerm<'_>) -> Reason<'_>
    ensures { spec.seen result ≡ spec.known (spec.fact_at at source (given_term made.entry)) }
{
    Reason::Known(Fact {
        origin: Origin { source, at },
        term: made,
    })
}

/// What a store to a variable makes of what was told so far.
fn after_store(at: u32, y: u32, so_far: Reason<'_>) -> Reason<'_>
    ensures { spec.seen result ≡ spec.after_store at y (spec.seen so_far.entry) }
{
    match so_far {
        Reason::Known(fact) => {
            let is_about = match fact.term {
                GivenTerm::Written(e) | GivenTerm::Negation(e) => mentions(e, y),
                GivenTerm::Equation(x, value) => x == y || mentions(value, y),
            };
            if is_about {
                Reason::Forgotten(fact, Loss::Stored(at, y))
            } else {
                so_far
            }
        }
        Reason::Unmentioned
        | Reason::Own(_)
        | Reason::NoEquation(_, _)
        | Reason::NoGuard(_, _)
        | Reason::Unlisted(_)
        | Reason::Taken(_, _)
        | Reason::Forgotten(_, _) => so_far,
    }
}

/// What the return of a lock makes of what was told so far, if one is given back.
fn after_return<'p>(
    stable: &NumberSet,
    at: u32,
    returned: Option<u32>,
    so_far: Reason<'p>,
) -> Reason<'p>
    ensures { spec.seen result ≡ spec.after_return stable.now at returned (spec.seen so_far.entry) }
{
    let Some(l) = returned else {
        return so_far;
    };
    match so_far {
        Reason::Known(fact) => {
            if is_term_over(stable, fact.term) {
                so_far
            } else {
                Reason::Forgotten(fact, Loss::Returned(at, l))
            }
        }
        Reason::Unmentioned
        | Reason::Own(_)
        | Reason::NoEquation(_, _)
        | Reason::NoGuard(_, _)
        | Reason::Unlisted(_)
        | Reason::Taken(_, _)
        | Reason::Forgotten(_, _) => so_far,
    }
}

/// Whether each variable of a predicate is in a set.
fn is_term_over(set: &NumberSet, made: GivenTerm<'_>) -> bool
    ensures { result ≡ each_variable (has set.now) (given_term made.entry) }
{
    match made {
        GivenTerm::Written(e) | GivenTerm::Negation(e) => is_over(set, e),
        GivenTerm::Equation(x, value) => set.has(x) && is_over(set, value),
    }
}

/// What a guard, or its negation, makes of what was told so far.
fn after_guard<'p>(
    x: u32,
    stable: &NumberSet,
    at: u32,
    source: HypothesisSource,
    made: GivenTerm<'p>,
    guard: &Expr,
    so_far: Reason<'p>,
) -> Reason<'p>
    requires same_mentions { (y : ℕ) → tree.mentions (given_term made) y ≡ tree.mentions (term guard.now) y }
    requires same_occurrences { tree.occurrences (given_term made) ≡ tree.occurrences (term guard.now) }
    ensures { spec.seen result ≡ spec.after_guard x stable.now at source (given_term made.entry) (spec.seen so_far.entry) }
{
    if mentions(guard, x) {
        match first_outside(guard, stable) {
            Some(y) => {
                let first = if stable.has(x) { y } else { x };
                match so_far {
                    Reason::Known(_) => so_far,
                    Reason::Unmentioned
                    | Reason::Own(_)
                    | Reason::NoEquation(_, _)
                    | Reason::NoGuard(_, _)
                    | Reason::Unlisted(_)
                    | Reason::Taken(_, _)
                    | Reason::Forgotten(_, _) => Reason::NoGuard(at, first),
                }
            }
            None => known(at, source, made),
        }
    } else {
        so_far
    }
}

/// What a state tells, with what is told where it lists nothing of a variable.
fn after_state<'p>(
    x: u32,
    source: HypothesisSource,
    at: u32,
    state: &'p State,
    otherwise: Reason<'p>,
) -> Reason<'p>
    ensures { spec.seen result ≡ spec.after_state x source at (view.state state.now) (spec.seen otherwise.entry) }
{
    match first_about(x, state.preds.as_slice()) {
        Some(e) => known(at, source, GivenTerm::Written(e)),
        None => otherwise,
    }
}

/// What is told behind a state that lists nothing of a variable: it keeps no predicate that was known.
fn behind_state(kind: StateKind, at: u32, so_far: Reason<'_>) -> Reason<'_>
    ensures { spec.seen result ≡ spec.behind_state kind at (spec.seen so_far.entry) }
{
    match so_far {
        Reason::Known(_) => Reason::Unlisted(StateAt { kind, at }),
        Reason::Unmentioned
        | Reason::Own(_)
        | Reason::NoEquation(_, _)
        | Reason::NoGuard(_, _)
        | Reason::Unlisted(_)
        | Reason::Taken(_, _)
        | Reason::Forgotten(_, _) => so_far,
    }
}

/// The first of some predicates that mentions a variable.
fn first_about(x: u32, preds: &[Expr]) -> Option<&Expr>
    ensures { option_map (λ e. term e.now) result ≡ spec.first_about x (map term preds.now) }
{
    for e in preds {
        if mentions(e, x) {
            return Some(e);
        }
    }
    None
}

/// What a lock that is taken makes of what was told so far, if one is.
fn after_taken<'p>(
    p: &'p Program,
    x: u32,
    at: u32,
    taken: Option<u32>,
    so_far: Reason<'p>,
) -> Reason<'p>
    ensures { spec.seen result ≡ spec.after_taken x (plain (view.program p.now)) at taken (spec.seen so_far.entry) }
{
    match taken {
        Some(l) => after_lock(p, x, at, l, so_far),
        None => so_far,
    }
}

/// What a lock that is taken makes of what was told so far.
fn after_lock<'p>(p: &'p Program, x: u32, at: u32, l: u32, so_far: Reason<'p>) -> Reason<'p>
    ensures { spec.seen result ≡ spec.after_lock x (lock_at (plain (view.program p.now)) l) at l (spec.seen so_far.entry) }
{
    match p.locks.as_slice().get(l as usize) {
        Some(lock) => {
            if let Some(e) = &lock.inv
                && mentions(e, x)
            {
                known(at, HypothesisSource::Invariant(l), GivenTerm::Written(e))
            } else if lock.lists(x) && !is_tested_before(x, so_far) {
                Reason::Taken(at, l)
            } else {
                so_far
            }
        }
        None => so_far,
    }
}

/// Whether a guard that mentions a variable was looked at where it wasn't stable.
fn is_tested_before(x: u32, so_far: Reason<'_>) -> bool
    ensures { result ≡ spec.is_tested_before x (spec.seen so_far.entry) }
{
    match so_far {
        Reason::NoGuard(_, y) => y == x,
        Reason::Unmentioned
        | Reason::Own(_)
        | Reason::NoEquation(_, _)
        | Reason::Unlisted(_)
        | Reason::Taken(_, _)
        | Reason::Known(_)
        | Reason::Forgotten(_, _) => false,
    }
}
