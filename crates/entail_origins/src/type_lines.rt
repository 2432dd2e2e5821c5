//! The lines on the variables whose types make up a goal.

ghost use Rattle.std.specs.Prelude.{◌≡◌, ◌<◌, ◌++◌, All, OnOk, length, map, option_map};
ghost use Rattle.cov_ast.specs.Plain.{plain};
ghost use Rattle.cov_ast.specs.View as view;
ghost use Rattle.cov_ast.specs.WellFormed.{IsWellFormed};
ghost use Rattle.statement_paths.specs.Paths as paths;
ghost use Rattle.typing_points.specs.PointsBehind.{IsStepInRange};
ghost use Rattle.typing_points.specs.Traces.{AreInRange, IsTrace, plain_of};
ghost use Rattle.entail_origins.specs.TypeLines as spec;
ghost use Rattle.entail_origins.specs.TypeOrigins.{locks_over};

use crate::followed_types::{VariableAt, at_point, first_steps, follow};
use crate::goal_variables::variables_of;
use crate::kinds::Question;
use crate::known_types::known_after_steps;
use crate::type_changes::change_along;
use crate::type_classes::{add_class, add_default, add_shared};
use crate::type_origin::{By, Later, TypeChange, TypeOrigin, TypeSource};
use crate::type_steps::{locks_over, origin_along};
use crate::type_words::{add_stored, assignment_words, change_end, change_word, list_word};
use cov_ast::{NameTable, Program, StmtKind};
use cov_expr::{Blob, NoMemory};
use statement_paths::{Step, hidden_after_steps};
use std::alloc::Global;
use text_parts::{add_lock_name, add_number, add_variable_name, position, variable_names};
use typing_points::Trace;

/// How many variables are told of behind those of the goal.
const MOST_BEHIND: usize = 8;

/// Adds a line for each variable whose type makes up the goal of what is asked of a statement: where that type comes from; and at most
/// eight more for the variables behind these types. `steps` are those from the start of the thread to the point of which is asked, and
/// `bytes` are the text of the program.
///
/// For each such variable it takes the time of a check of the statements in front, and time in proportion to the text, to what the steps list, to the lists of the locks,
/// to the class of the variable and to the variables of the program; once, to the names, and for each variable of the program to the classes.
pub fn add_type_lines(
    alloc: Global,
    p: &Program,
    t: u32,
    bytes: &[u8],
    steps: &[Step<'_>],
    question: Question,
    kind: &StmtKind,
    text: &mut Blob,
) -> Result<(), NoMemory>
    requires formed { IsWellFormed (view.program p.now) }
    requires thread { t < length p.now.threads }
    requires range { All (IsStepInRange (length p.now.vars) (length p.now.locks)) (map paths.step steps.now) }
    ensures { OnOk result (text.new ≡ text.old ++ spec.type_lines (plain (view.program p.now)) t bytes.now (map paths.step steps.now) question (view.kind kind.now)) }
{
    let variables = variables_of(alloc, question, kind)?;
    let names = variable_names(alloc, p)?;
    let trace = Trace {
        alloc,
        program: p,
        thread: t,
    };
    add_lines_behind(&trace, &names, bytes, steps, variables.as_slice(), text)
}

/// Adds the lines of some variables, and of those behind their types.
fn add_lines_behind(
    trace: &Trace<'_>,
    names: &NameTable,
    bytes: &[u8],
    steps: &[Step<'_>],
    variables: &[u32],
    text: &mut Blob,
) -> Result<(), NoMemory>
    requires trace { IsTrace trace.now }
    requires range { AreInRange trace.now (map paths.step steps.now) }
    ensures { OnOk result (text.new ≡ text.old ++ spec.lines_behind (plain_of trace.now) trace.now.thread names.now bytes.now (map paths.step steps.now) variables.now) }
{
    let (alloc, p, t) = (trace.alloc, trace.program, trace.thread);
    let most = variables.len() + MOST_BEHIND;
    let mut all = at_point(alloc, steps.len(), variables)?;
    follow(alloc, p, t, most, steps, &mut all)?;
    add_lines(trace, names, bytes, steps, most, all.as_slice(), text)
}

/// Adds the line of each of some variables, at most so many.
fn add_lines(
    trace: &Trace<'_>,
    names: &NameTable,
    bytes: &[u8],
    steps: &[Step<'_>],
    most: usize,
    variables: &[VariableAt],
    text: &mut Blob,
) -> Result<(), NoMemory>
    requires trace { IsTrace trace.now }
    requires range { AreInRange trace.now (map paths.step steps.now) }
    ensures { OnOk result (text.new ≡ text.old ++ spec.lines_of (plain_of trace.now) trace.now.thread names.now bytes.now (map paths.step steps.now) most variables.now) }
{
    let mut left = most;
    for v in variables {
        if left == 0 {
            return text.extend_from_slice(b"  more types behind these are left out\n");
        }
        left -= 1;
        add_line(trace, names, bytes, steps, v, text)?;
    }
    Ok(())
}

/// Adds the line of a variable.
fn add_line(
    trace: &Trace<'_>,
    names: &NameTable,
    bytes: &[u8],
    steps: &[Step<'_>],
    v: &VariableAt,
    text: &mut Blob,
) -> Result<(), NoMemory>
    requires trace { IsTrace trace.now }
    requires range { AreInRange trace.now (map paths.step steps.now) }
    ensures { OnOk result (text.new ≡ text.old ++ spec.type_line (plain_of trace.now) trace.now.thread names.now bytes.now (map paths.step steps.now) v.now) }
{
    let front = first_steps(steps, v.steps);
    text.extend_from_slice(b"  type of ")?;
    add_variable_name(trace.program, v.var, text)?;
    add_point_behind(bytes, steps, v.steps, text)?;
    text.extend_from_slice(b":  ")?;
    add_type_behind(trace, names, bytes, front, v.var, text)?;
    text.extend_from_slice(b"\n")
}

/// Adds where a type is looked at behind so many of the steps.
fn add_point_behind(
    bytes: &[u8],
    steps: &[Step<'_>],
    count: usize,
    text: &mut Blob,
) -> Result<(), NoMemory>
    ensures { OnOk result (text.new ≡ text.old ++ spec.point_behind bytes.now (map paths.step steps.now) count) }
{
    add_point(bytes, steps.get(count), text)
}

/// Adds the line of the step in front of which a type is looked at, if that isn't the point of which is asked.
fn add_point(bytes: &[u8], step: Option<&Step<'_>>, text: &mut Blob) -> Result<(), NoMemory>
    ensures { OnOk result (text.new ≡ text.old ++ spec.point_text bytes.now (option_map (λ s. paths.step s.now) step.entry)) }
{
    match step {
        Some(step) => {
            text.extend_from_slice(b" at line ")?;
            add_number(position(bytes, step.place() as usize).line, text)
        }
        None => Ok(()),
    }
}

/// Adds where the type of a variable behind steps comes from.
fn add_type_behind(
    trace: &Trace<'_>,
    names: &NameTable,
    bytes: &[u8],
    steps: &[Step<'_>],
    z: u32,
    text: &mut Blob,
) -> Result<(), NoMemory>
    requires trace { IsTrace trace.now }
    requires range { AreInRange trace.now (map paths.step steps.now) }
    ensures { OnOk result (text.new ≡ text.old ++ spec.behind_text (plain_of trace.now) trace.now.thread names.now bytes.now (map paths.step steps.now) z) }
{
    let known = known_after_steps(trace.alloc, trace.program, trace.thread, steps)?;
    if known.controls.has(z) {
        text.extend_from_slice(b"1, as that of every control")
    } else if known.stable.has(z) {
        let locks = locks_over(trace.alloc, trace.program, z)?;
        let (p, hidden) = (trace.program, known.hidden.has(z));
        let origin = origin_along(&known.controls, &locks, z, steps);
        add_any_origin(p, names, bytes, steps, hidden, z, origin, text)?;
        let later = change_along(trace, &known.controls, &locks, z, steps)?;
        add_any_later(trace, names, bytes, steps, z, later, text)?;
        add_mend(p, z, origin, later, text)
    } else {
        add_shared(trace.program, names, bytes, z, text)
    }
}

/// Adds where the type of a variable comes from.
fn add_any_origin(
    p: &Program,
    names: &NameTable,
    bytes: &[u8],
    steps: &[Step<'_>],
    hidden: bool,
    z: u32,
    origin: Option<TypeOrigin>,
    text: &mut Blob,
) -> Result<(), NoMemory>
    ensures { OnOk result (text.new ≡ text.old ++ spec.origin_text (plain (view.program p.now)) names.now bytes.now (map paths.step steps.now) hidden z origin) }
{
    match origin {
        Some(origin) => {
            add_source(p, names, bytes, hidden, z, origin.source, text)?;
            add_place(bytes, origin.at, text)?;
            match origin.source {
                TypeSource::Stored => match steps.get(origin.index) {
                    Some(Step::Passed(stmt)) => add_stored(names, &stmt.kind, text),
                    Some(Step::Yes(_, _) | Step::No(_, _) | Step::Head(_, _)) | None => Ok(()),
                },
                TypeSource::Taken(_) | TypeSource::Listed(_) => Ok(()),
                TypeSource::Unlisted(_) => text.extend_from_slice(b", lists it"),
            }
        }
        None => {
            add_class(p, names, z, text)?;
            text.extend_from_slice(b", from the start of the thread")
        }
    }
}

/// Adds what sets the type of a variable.
fn add_source(
    p: &Program,
    names: &NameTable,
    bytes: &[u8],
    hidden: bool,
    z: u32,
    source: TypeSource,
    text: &mut Blob,
) -> Result<(), NoMemory>
    ensures { OnOk result (text.new ≡ text.old ++ spec.source_text (plain (view.program p.now)) names.now bytes.now hidden z source) }
{
    match source {
        TypeSource::Stored => text.extend_from_slice(b"from the assignment"),
        TypeSource::Taken(l) => {
            add_class(p, names, z, text)?;
            text.extend_from_slice(b", from the lock ")?;
            add_lock_name(p, l, text)
        }
        TypeSource::Listed(by) => {
            let listed_text = match by {
                By::Join => "listed by the join of the `if`",
                By::LoopState => "listed by the inv of the `while`",
                By::Noted => "listed by the note",
                By::Retype => "from the retype",
            };
            text.extend_from_slice(listed_text.as_bytes())
        }
        TypeSource::Unlisted(by) => {
            add_default(p, names, bytes, hidden, z, text)?;
            text.extend_from_slice(b", since no ")?;
            text.extend_from_slice(list_word(by).as_bytes())
        }
    }
}

/// Adds the line of a place.
pub fn add_place(bytes: &[u8], at: u32, text: &mut Blob) -> Result<(), NoMemory>
    ensures { OnOk result (text.new ≡ text.old ++ spec.place_text bytes.now at) }
{
    text.extend_from_slice(b", line ")?;
    add_number(position(bytes, at as usize).line, text)
}

/// Adds what changed the type of a variable since, or may have, if something did.
fn add_any_later(
    trace: &Trace<'_>,
    names: &NameTable,
    bytes: &[u8],
    steps: &[Step<'_>],
    z: u32,
    later: Option<Later>,
    text: &mut Blob,
) -> Result<(), NoMemory>
    requires { IsTrace trace.now }
    ensures { OnOk result (text.new ≡ text.old ++ spec.later_text (plain_of trace.now) trace.now.thread names.now bytes.now (map paths.step steps.now) z later) }
{
    match later {
        Some(later) => {
            text.extend_from_slice(b"; then ")?;
            match later.change {
                TypeChange::ControlStored(x) => add_variable_name(trace.program, x, text)?,
                TypeChange::Returned(l) => add_lock_name(trace.program, l, text)?,
            }
            text.extend_from_slice(change_word(later.change).as_bytes())?;
            add_place(bytes, later.at, text)?;
            text.extend_from_slice(change_end(later.is_known, later.change).as_bytes())?;
            let hidden = hidden_after_steps(
                trace.alloc,
                trace.program,
                trace.thread,
                first_steps(steps, later.steps),
            )?;
            add_default(trace.program, names, bytes, hidden.has(z), z, text)
        }
        None => Ok(()),
    }
}

/// Adds what sets another type where a later change is told, if a statement can.
fn add_mend(
    p: &Program,
    z: u32,
    origin: Option<TypeOrigin>,
    later: Option<Later>,
    text: &mut Blob,
) -> Result<(), NoMemory>
    ensures { OnOk result (text.new ≡ text.old ++ spec.mend_text (plain (view.program p.now)) z origin later) }
{
    match later {
        Some(later) => match later.change {
            TypeChange::ControlStored(_) => {
                add_retype(p, z, text)?;
                let is_of_value = match origin {
                    Some(origin) => {
                        match origin.source {
                            TypeSource::Stored => true,
                            TypeSource::Taken(_)
                            | TypeSource::Listed(_)
                            | TypeSource::Unlisted(_) => false,
                        }
                    }
                    None => false,
                };
                add_there(is_of_value, text)
            }
            TypeChange::Returned(_) => Ok(()),
        },
        None => Ok(()),
    }
}

/// Adds the `retype` of a variable.
fn add_retype(p: &Program, z: u32, text: &mut Blob) -> Result<(), NoMemory>
    ensures { OnOk result (text.new ≡ text.old ++ spec.retype_words (plain (view.program p.now)) z) }
{
    text.extend_from_slice(b"; another is set by a store to it in front, or by `retype ")?;
    add_variable_name(p, z, text)
}

/// Adds where it stands, and the assignment, where the type is that of its value.
fn add_there(of_value: bool, text: &mut Blob) -> Result<(), NoMemory>
    ensures { OnOk result (text.new ≡ text.old ++ spec.there_words of_value) }
{
    text.extend_from_slice(b" as ..` there, where that is shown")?;
    text.extend_from_slice(assignment_words(of_value).as_bytes())
}
