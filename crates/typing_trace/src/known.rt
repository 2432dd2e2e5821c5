//! What is known at a point, as lines of text.

ghost use Rattle.std.specs.Prelude.{◌≡◌, ◌≤◌, ◌++◌, Option, OnOk, length, map, option_copied, option_map};
ghost use Rattle.cov_expr.specs.View.{term};
ghost use Rattle.cov_expr.specs.declared.limits.TheConstants.{MOST_VARIABLES};
ghost use Rattle.cov_ast.specs.View as view;
ghost use Rattle.point_law.specs.Point as law;
ghost use Rattle.statement_paths.specs.Paths as paths;
ghost use Rattle.typing_state.specs.KeptPoints.{AtPoint};
ghost use Rattle.typing_points.specs.Traces.{AreInRange, IsTrace, KeepsAny, plain_of};
ghost use Rattle.typing_trace.specs.KnownLines as spec;

use cov_ast::{NameTable, VarDecl};
use cov_expr::{Blob, Expr, NoMemory};
use cov_print::add_expr;
use entail_origins::{is_class, remarks};
use entail_text::add_hypotheses;
use refusal_names::add_held;
use statement_paths::Step;
use typing_points::Trace;
use typing_state::Point;

/// Adds what is known behind steps from the start of the thread. `names` are those of the variables, `bytes` the text of the program.
pub fn add_known_behind(
    trace: &Trace<'_>,
    names: &NameTable,
    bytes: &[u8],
    steps: &[Step<'_>],
    text: &mut Blob,
) -> Result<(), NoMemory>
    requires trace { IsTrace trace.now }
    requires range { AreInRange trace.now (map paths.step steps.now) }
    ensures { OnOk result (text.new ≡ text.old ++ spec.known_behind (plain_of trace.now) trace.now.thread names.now bytes.now (map paths.step steps.now)) }
{
    let point = trace.point_behind(steps)?;
    add_any_known(trace, names, bytes, steps, &point, text)
}

/// Adds what is known at a point that is there.
fn add_any_known(
    trace: &Trace<'_>,
    names: &NameTable,
    bytes: &[u8],
    steps: &[Step<'_>],
    point: &Option<Point>,
    text: &mut Blob,
) -> Result<(), NoMemory>
    requires { IsTrace trace.now }
    ensures { OnOk result ((a : Option law.Point) → KeepsAny (plain_of trace.now) trace.now.thread a point.now
        → text.new ≡ text.old ++ spec.any_known (plain_of trace.now) names.now bytes.now (map paths.step steps.now) a) }
{
    match point {
        Some(point) => add_known(trace, names, bytes, steps, point, text),
        None => text.extend_from_slice(
            b"  nothing is told here: a type on the way has more nodes than V16 lets it have\n",
        ),
    }
}

/// Adds what is known at a point to which steps lead.
fn add_known(
    trace: &Trace<'_>,
    names: &NameTable,
    bytes: &[u8],
    steps: &[Step<'_>],
    point: &Point,
    text: &mut Blob,
) -> Result<(), NoMemory>
    requires { IsTrace trace.now }
    ensures { OnOk result (AtPoint (plain_of trace.now) trace.now.thread point.now (λ a.
        text.new ≡ text.old ++ spec.known_lines (plain_of trace.now) names.now bytes.now (map paths.step steps.now) a)) }
{
    add_held_line(trace, point, text)?;
    add_predicates(trace, names, bytes, steps, point, text)?;
    add_types(trace, names, trace.program.vars.as_slice(), point, text)
}

/// Adds the names of the locks that are held.
fn add_held_line(trace: &Trace<'_>, point: &Point, text: &mut Blob) -> Result<(), NoMemory>
    requires { IsTrace trace.now }
    ensures { OnOk result (AtPoint (plain_of trace.now) trace.now.thread point.now (λ a.
        text.new ≡ text.old ++ spec.held_line (view.program trace.now.program.now).locks a.held)) }
{
    text.extend_from_slice(b"  held:         ")?;
    add_held(
        trace.alloc,
        trace.program.locks.as_slice(),
        point.modes(),
        text,
    )?;
    text.extend_from_slice(b"\n")
}

/// Adds what holds at a point, with where it comes from.
fn add_predicates(
    trace: &Trace<'_>,
    names: &NameTable,
    bytes: &[u8],
    steps: &[Step<'_>],
    point: &Point,
    text: &mut Blob,
) -> Result<(), NoMemory>
    ensures { OnOk result (AtPoint (plain_of trace.now) trace.now.thread point.now (λ a.
        text.new ≡ text.old ++ spec.predicate_lines (plain_of trace.now) names.now bytes.now (map paths.step steps.now) a.preds)) }
{
    let preds = point.preds().as_slice();
    let origins = remarks(trace.alloc, trace.program, bytes, steps, preds, false)?;
    add_hypotheses(names, preds, origins.as_slice(), text)
}

/// Adds the types of variables at a point that aren't their classes.
fn add_types(
    trace: &Trace<'_>,
    names: &NameTable,
    vars: &[VarDecl],
    point: &Point,
    text: &mut Blob,
) -> Result<(), NoMemory>
    requires few { length vars.now ≤ MOST_VARIABLES }
    ensures { OnOk result (AtPoint (plain_of trace.now) trace.now.thread point.now (λ a.
        text.new ≡ text.old ++ spec.type_lines names.now a.types 0 (map view.var vars.now))) }
{
    for (x, var) in vars.iter().enumerate() {
        add_type(names, var, point.type_of(x as u32), text)?;
    }
    Ok(())
}

/// Adds the type of a variable, if it has one that isn't its class.
fn add_type(
    names: &NameTable,
    var: &VarDecl,
    q: Option<&Expr>,
    text: &mut Blob,
) -> Result<(), NoMemory>
    ensures { OnOk result (text.new ≡ text.old ++ spec.type_line names.now (view.var var.now) (option_map term (option_copied q.entry))) }
{
    match q {
        Some(q) if !is_class(&var.class, q) => {
            text.extend_from_slice(b"  type of ")?;
            text.extend_from_slice(var.name.text())?;
            text.extend_from_slice(b":  ")?;
            add_expr(names, false, q, text)?;
            text.extend_from_slice(b"\n")
        }
        _ => Ok(()),
    }
}
