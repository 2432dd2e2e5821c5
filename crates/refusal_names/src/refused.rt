//! The line of a refusal, by its rule and its place.

ghost use Rattle.std.specs.Prelude.{◌≡◌, ◌<◌, ◌++◌, ℕ, List, Bool, IfOk, OnOk, Some, length, map};
ghost use Rattle.cov_ast.specs.Plain.{plain};
ghost use Rattle.cov_ast.specs.View as view;
ghost use Rattle.cov_ast.specs.WellFormed.{IsStmInRange, IsWellFormed};
ghost use Rattle.entail_origins.specs.Questions as asked;
ghost use Rattle.point_law.specs.Point.{controls_of};
ghost use Rattle.text_parts.specs.VariableNames as spelled;
ghost use Rattle.statement_paths.specs.VariableSets as variables;
ghost use Rattle.mode_compat.specs.Compatible.{numbered};
ghost use Rattle.mode_state.specs.Sets.{modes_at};
ghost use Rattle.statement_paths.specs.Paths.{way, way_to};
ghost use Rattle.refusal_names.specs.ForbiddenAccess.{shown_access};
ghost use Rattle.refusal_names.specs.GivenNumbers.{shown_number};
ghost use Rattle.refusal_names.specs.LargeTerms.{large_line};
ghost use Rattle.refusal_names.specs.NameLines as lines;
ghost use Rattle.refusal_names.specs.RefusalNames as spec;
ghost use Rattle.refusal_names.specs.SpokenParts.{evaluated_expression};
ghost use Rattle.refusal_names.specs.StableSets as sets;
ghost use Rattle.refusal_names.specs.UnstableVariables.{unstable_line};

use crate::access::add_access;
use crate::added::add_added;
use crate::ends::add_ends;
use crate::given_numbers::add_shown_number;
use crate::given_types::add_given;
use crate::guarantees::add_guarantee;
use crate::large::add_large;
use crate::locked_controls::add_locked;
use crate::predicates::add_predicates;
use crate::reads::add_reads;
use crate::sets::{known_at, pass_to_state};
use crate::types::add_types;
use crate::unasked::add_unasked;
use crate::unstable::add_shown_cause;
use crate::wide::add_width;
use cov_ast::{Detail, NameTable, Program, Refusal, Rule, Stmt, StmtKind};
use cov_expr::{Blob, NoMemory};
use entail_origins::{lock_over, questions};
use mode_state::ModeState;
use statement_paths::{Way, hidden_set, modes_along, stable_set, way_to};
use std::alloc::Global;
use text_parts::variable_names;

/// Adds a line of what a refusal is about, by name, and why a variable in it isn't stable, in lines of their own. Nothing is added where it
/// isn't one of W8, W9, V1, V2, V3, V4, V5, V8, V10, V12, V13, V14, V15 and V16, and where no statement of the thread stands at the place. `bytes` are
/// the text of the program.
pub fn add_names(
    alloc: Global,
    p: &Program,
    bytes: &[u8],
    refusal: &Refusal,
    text: &mut Blob,
) -> Result<(), NoMemory>
    requires { IsWellFormed (view.program p.now) }
    ensures { OnOk result (text.new ≡ text.old ++ spec.refusal_names (view.program p.now) bytes.now refusal.now.rule refusal.now.thread refusal.now.place refusal.now.detail) }
{
    match refusal.thread {
        Some(t) => if (t as usize) < p.threads.len() {
            add_in_thread(alloc, p, bytes, t, refusal, text)
        } else {
            Ok(())
        },
        None => add_of_declarations(alloc, p, bytes, refusal.rule, refusal.detail, text),
    }
}

/// Adds the line of a refusal of declarations, by the names that it shows.
fn add_of_declarations(
    alloc: Global,
    p: &Program,
    bytes: &[u8],
    rule: Rule,
    detail: Detail,
    text: &mut Blob,
) -> Result<(), NoMemory>
    requires { IsWellFormed (view.program p.now) }
    ensures { OnOk result (text.new ≡ text.old ++ spec.line_of_declarations (view.program p.now) bytes.now rule detail) }
{
    match (rule, detail) {
        (Rule::W8, Detail::Two(variable, control)) => {
            let names = variable_names(alloc, p)?;
            match names.find(control) {
                Some(c) => {
                    let lock = lock_over(c, p.locks.as_slice());
                    add_locked(bytes, lock, variable, control, text)
                }
                None => Ok(()),
            }
        }
        (Rule::W9, Detail::Three(assuming, other, variable)) => add_guarantee(
            alloc, p, bytes, assuming, other, variable, text,
        ),
        _ => Ok(()),
    }
}

/// Adds the line of the statement at a place of a thread, if one is there.
fn add_in_thread(
    alloc: Global,
    p: &Program,
    bytes: &[u8],
    t: u32,
    refusal: &Refusal,
    text: &mut Blob,
) -> Result<(), NoMemory>
    requires formed { IsWellFormed (view.program p.now) }
    requires thread { t < length p.now.threads }
    ensures { OnOk result (text.new ≡ text.old ++ spec.line_of_way (view.program p.now) bytes.now t refusal.now.rule refusal.now.detail (way_to (numbered (view.program p.now) t).body refusal.now.place)) }
{
    let Some(found) = way_to(alloc, p.body_of(t), refusal.place)? else {
        return Ok(());
    };
    add_of_way(alloc, p, bytes, t, refusal, &found, text)
}

/// Adds the line of the statement at the end of a way.
fn add_of_way(
    alloc: Global,
    p: &Program,
    bytes: &[u8],
    t: u32,
    refusal: &Refusal,
    found: &Way<'_>,
    text: &mut Blob,
) -> Result<(), NoMemory>
    requires formed { IsWellFormed (view.program p.now) }
    requires thread { t < length p.now.threads }
    requires range { IsStmInRange (length p.now.vars) (length p.now.locks) (view.kind found.now.stmt.now.kind) }
    ensures { OnOk result (text.new ≡ text.old ++ spec.line_of_way (view.program p.now) bytes.now t refusal.now.rule refusal.now.detail (Some (way found.now))) }
{
    let mut modes = modes_along(alloc, p, t, found.steps.as_slice())?;
    let names = variable_names(alloc, p)?;
    add_line(alloc, p, &names, bytes, t, refusal, &mut modes, found, text)?;
    add_unasked(alloc, p, t, refusal.rule, found, text)
}

/// Adds the line of the statement at the end of a way, by the modes in front of it.
fn add_line(
    alloc: Global,
    p: &Program,
    names: &NameTable,
    bytes: &[u8],
    t: u32,
    refusal: &Refusal,
    modes: &mut ModeState,
    found: &Way<'_>,
    text: &mut Blob,
) -> Result<(), NoMemory>
    requires formed { IsWellFormed (view.program p.now) }
    requires thread { t < length p.now.threads }
    requires names { names.now ≡ spelled.variable_names (view.program p.now).vars }
    requires range { IsStmInRange (length p.now.vars) (length p.now.locks) (view.kind found.now.stmt.now.kind) }
    requires modes { modes.old ≡ modes_at (plain (view.program p.now)) t (modes.old).held }
    ensures { let w = way found.now in
        OnOk result (text.new ≡ text.old ++ spec.line_of (view.program p.now) bytes.now t refusal.now.rule refusal.now.detail w.steps (modes.old).held w.stm w.proofs) }
{
    let (kind, detail) = (&found.stmt.kind, refusal.detail);
    match refusal.rule {
        Rule::V1 => add_access_in(alloc, p, names, bytes, t, modes, false, detail, text),
        Rule::V2 => add_access_in(alloc, p, names, bytes, t, modes, true, detail, text),
        Rule::V3 => add_unstable_reads(alloc, p, names, bytes, modes, kind, text),
        Rule::V4 => add_bad_type(alloc, p, names, bytes, modes, kind, text),
        Rule::V5 => add_shown_cause(alloc, names, bytes, p.locks.as_slice(), modes, detail, text),
        Rule::V8 => add_ends(alloc, bytes, p.locks.as_slice(), modes, kind, text),
        Rule::V10 => add_width(kind, text),
        Rule::V12 => {
            pass_to_state(kind, modes);
            let stable = stable_set(alloc, p, modes)?;
            let locks = p.locks.as_slice();
            add_predicates(alloc, names, bytes, locks, modes, &stable, kind, text)
        }
        Rule::V13 => add_bad_number(alloc, p, modes, found.stmt, detail, text),
        Rule::V14 => {
            pass_to_state(kind, modes);
            let known = known_at(alloc, p, modes)?;
            let locks = p.locks.as_slice();
            add_given(
                alloc, names, bytes, locks, modes, &known, kind, detail, text,
            )
        }
        Rule::V15 => add_added(p, names, kind, text),
        Rule::V16 => add_too_large(alloc, p, names, bytes, modes, found, text),
        _ => Ok(()),
    }
}

/// Adds why a thread may not read, or write, the variable that a refusal shows.
fn add_access_in(
    alloc: Global,
    p: &Program,
    names: &NameTable,
    bytes: &[u8],
    t: u32,
    modes: &ModeState,
    writes: bool,
    detail: Detail,
    text: &mut Blob,
) -> Result<(), NoMemory>
    requires formed { IsWellFormed (view.program p.now) }
    requires thread { t < length p.now.threads }
    ensures { OnOk result (let q = view.program p.now in
        text.new ≡ text.old ++ shown_access names.now bytes.now (numbered q t) q.locks (modes.now).held writes detail) }
{
    let thread = &p.threads.as_slice()[t as usize];
    add_access(
        alloc,
        names,
        bytes,
        thread,
        p.locks.as_slice(),
        modes,
        writes,
        detail,
        text,
    )
}

/// Adds which variables that aren't stable a statement reads twice, and why they aren't.
fn add_unstable_reads(
    alloc: Global,
    p: &Program,
    names: &NameTable,
    bytes: &[u8],
    modes: &ModeState,
    kind: &StmtKind,
    text: &mut Blob,
) -> Result<(), NoMemory>
    requires { IsWellFormed (view.program p.now) }
    ensures { (t : ℕ) (held : List Bool) → modes.now ≡ modes_at (plain (view.program p.now)) t held
        → OnOk result (text.new ≡ text.old ++ lines.reads_line names.now (unstable_line names.now bytes.now (view.program p.now).locks (modes.now).held)
        (variables.stable (plain (view.program p.now)) t held) (evaluated_expression (view.kind kind.now))) }
{
    let stable = stable_set(alloc, p, modes)?;
    let locks = p.locks.as_slice();
    add_reads(alloc, names, bytes, locks, modes, &stable, kind, text)
}

/// Adds the first type of a statement that isn't over stable controls, and why it isn't.
fn add_bad_type(
    alloc: Global,
    p: &Program,
    names: &NameTable,
    bytes: &[u8],
    modes: &mut ModeState,
    kind: &StmtKind,
    text: &mut Blob,
) -> Result<(), NoMemory>
    requires { IsWellFormed (view.program p.now) }
    ensures { (t : ℕ) (held : List Bool) → modes.old ≡ modes_at (plain (view.program p.now)) t held
        → OnOk result (let q = plain (view.program p.now) in let there = sets.held_where_stated (view.kind kind.now) held in
        text.new ≡ text.old ++ lines.types_line q names.now
        (unstable_line names.now bytes.now (view.program p.now).locks (sets.held_where_stated (view.kind kind.now) (modes.old).held))
        (variables.stable q t there) (controls_of q) (sets.stable_controls q t there) (view.kind kind.now)) }
{
    pass_to_state(kind, modes);
    let known = known_at(alloc, p, modes)?;
    let locks = p.locks.as_slice();
    add_types(alloc, p, names, bytes, locks, modes, &known, kind, text)
}

/// Adds what is wrong with the number in `by` that a refusal shows.
fn add_bad_number(
    alloc: Global,
    p: &Program,
    modes: &ModeState,
    stmt: &Stmt,
    detail: Detail,
    text: &mut Blob,
) -> Result<(), NoMemory>
    requires formed { IsWellFormed (view.program p.now) }
    requires range { IsStmInRange (length p.now.vars) (length p.now.locks) (view.kind stmt.now.kind) }
    ensures { (t : ℕ) (held : List Bool) → modes.now ≡ modes_at (plain (view.program p.now)) t held
        → OnOk result (let count = length (asked.questions (plain (view.program p.now)) t held (view.kind stmt.now.kind)) in
        text.new ≡ text.old ++ shown_number count (map view.proof stmt.now.proofs) detail) }
{
    let count = entailment_count(alloc, p, modes, &stmt.kind)?;
    add_shown_number(count, stmt.proofs.as_slice(), detail, text)
}

/// How many entailments a statement has.
pub fn entailment_count(
    alloc: Global,
    p: &Program,
    modes: &ModeState,
    kind: &StmtKind,
) -> Result<usize, NoMemory>
    requires formed { IsWellFormed (view.program p.now) }
    requires range { IsStmInRange (length p.now.vars) (length p.now.locks) (view.kind kind.now) }
    ensures { IfOk result (λ count. (t : ℕ) (held : List Bool) → modes.now ≡ modes_at (plain (view.program p.now)) t held
        → count ≡ length (asked.questions (plain (view.program p.now)) t held (view.kind kind.now))) }
{
    let hidden = hidden_set(alloc, p, modes)?;
    let all = questions(alloc, p, &hidden, kind)?;
    Ok(all.len())
}

/// Adds what of a statement is too large, or of the way to it.
fn add_too_large(
    alloc: Global,
    p: &Program,
    names: &NameTable,
    bytes: &[u8],
    modes: &ModeState,
    found: &Way<'_>,
    text: &mut Blob,
) -> Result<(), NoMemory>
    requires { IsWellFormed (view.program p.now) }
    ensures { (t : ℕ) (held : List Bool) → modes.now ≡ modes_at (plain (view.program p.now)) t held
        → OnOk result (let w = way found.now in
        text.new ≡ text.old ++ large_line (view.program p.now).vars names.now bytes.now (variables.hidden (plain (view.program p.now)) t held) w.steps w.stm) }
{
    let hidden = hidden_set(alloc, p, modes)?;
    let (steps, kind) = (found.steps.as_slice(), &found.stmt.kind);
    add_large(p.vars.as_slice(), names, bytes, &hidden, steps, kind, text)
}
