//! What could be noted in front of the last step, where that is a store, for a predicate to be known behind it.

ghost use Rattle.std.specs.Prelude.{◌≡◌, ◌<◌, ◌-◌, ◌++◌, ℕ, IfOk, OnOk, Option, Some, length, map, option_map, slice_get, take};
ghost use Rattle.cov_expr.specs.View.{term};
ghost use Rattle.cov_ast.specs.Plain.{Plain, plain};
ghost use Rattle.cov_ast.specs.View as view;
ghost use Rattle.cov_ast.specs.WellFormed.{IsWellFormed};
ghost use Rattle.point_law.specs.Point as law;
ghost use Rattle.statement_parts.specs.Parts as parts;
ghost use Rattle.statement_paths.specs.Paths as paths;
ghost use Rattle.typing_points.specs.Traces.{AreInRange, IsTrace, KeepsAny, plain_of};
ghost use Rattle.entail_refused.specs.Noted as spec;
ghost use Rattle.entail_refused.specs.Sites as sites;
ghost use Rattle.entail_refused.specs.Sites.{IsSiteInRange};

use crate::site::Site;
use cov_ast::{Program, first_outside};
use cov_expr::{Blob, Expr, NoMemory, mentions, subst};
use cov_print::add_expr;
use entail_origins::Question;
use entail_text::found_for;
use statement_parts::{Store, parts_of};
use statement_paths::{Step, stable_after_steps};
use std::alloc::Global;
use text_parts::{add_line_of, variable_names};
use typing_points::Trace;
use typing_rules::subst_nodes_left;
use typing_state::Point;

/// How many nodes a predicate may have that is looked for in front of a store.
const MOST_NOTED: u32 = 1_000;

/// Of a predicate that is asked, adds what it is in front of the last step, where that is a store to a variable of it of a value that doesn't mention the variable, and that is over stable variables and is shown there.
/// It takes the time of a check of the statements in front, and of the searches of `found_for`.
pub fn add_noted_line(
    alloc: Global,
    p: &Program,
    t: u32,
    bytes: &[u8],
    site: &Site<'_>,
    goal: &Expr,
    text: &mut Blob,
) -> Result<(), NoMemory>
    requires formed { IsWellFormed (view.program p.now) }
    requires thread { t < length p.now.threads }
    requires range { IsSiteInRange (length p.now.vars) (length p.now.locks) (Some (sites.site site.now)) }
    ensures { OnOk result (text.new ≡ text.old ++ spec.noted_line (plain (view.program p.now)) t bytes.now (sites.site site.now) (term goal.now)) }
{
    if is_predicate(site.question) {
        let trace = Trace {
            alloc,
            program: p,
            thread: t,
        };
        let front = front_of(site.steps.as_slice());
        add_by_step(
            &trace,
            bytes,
            front,
            last_of(site.steps.as_slice()),
            goal,
            text,
        )
    } else {
        Ok(())
    }
}

/// Whether what is asked is that a predicate holds.
pub fn is_predicate(question: Question) -> bool
    ensures { result ≡ spec.is_predicate question }
{
    match question {
        Question::Invariant(_) | Question::Predicate(_, _) => true,
        Question::Written
        | Question::Shown(_)
        | Question::Controlled(_)
        | Question::Retyped(_)
        | Question::Freed(_)
        | Question::Guard
        | Question::HeadGuard
        | Question::Printed
        | Question::TypeOf(_, _) => false,
    }
}

/// All but the last of some steps.
fn front_of<'s, 'p>(steps: &'s [Step<'p>]) -> &'s [Step<'p>]
    ensures { map paths.step result.now ≡ take (length (map paths.step steps.now) - 1) (map paths.step steps.now) }
{
    let count = steps.len().saturating_sub(1);
    &steps[..count]
}

/// The last of some steps, if there is one.
fn last_of<'s, 'p>(steps: &'s [Step<'p>]) -> Option<&'s Step<'p>>
    ensures { option_map (λ s. paths.step s.now) result ≡ slice_get (map paths.step steps.now) (length (map paths.step steps.now) - 1) }
{
    steps.get(steps.len().saturating_sub(1))
}

/// Adds the line of a predicate that is asked behind steps and one more, if there is one more.
fn add_by_step(
    trace: &Trace<'_>,
    bytes: &[u8],
    front: &[Step<'_>],
    last: Option<&Step<'_>>,
    goal: &Expr,
    text: &mut Blob,
) -> Result<(), NoMemory>
    requires trace { IsTrace trace.now }
    requires range { AreInRange trace.now (map paths.step front.now) }
    ensures { OnOk result (text.new ≡ text.old
        ++ spec.line_by_step (plain_of trace.now) trace.now.thread bytes.now (map paths.step front.now) (option_map (λ s. paths.step s.now) last.entry) (term goal.now)) }
{
    match last {
        Some(Step::Passed(stmt)) => {
            add_by_store(
                trace,
                bytes,
                front,
                stmt.at,
                parts_of(&stmt.kind).store,
                goal,
                text,
            )
        }
        Some(Step::Yes(_, _) | Step::No(_, _) | Step::Head(_, _)) | None => Ok(()),
    }
}

/// Adds the line where the last step is this store, if it is one, at a place.
fn add_by_store(
    trace: &Trace<'_>,
    bytes: &[u8],
    front: &[Step<'_>],
    at: u32,
    store: Option<Store<'_>>,
    goal: &Expr,
    text: &mut Blob,
) -> Result<(), NoMemory>
    requires trace { IsTrace trace.now }
    requires range { AreInRange trace.now (map paths.step front.now) }
    ensures { OnOk result (text.new ≡ text.old
        ++ spec.line_by_store (plain_of trace.now) trace.now.thread bytes.now (map paths.step front.now) at (option_map parts.store_of store.entry) (term goal.now)) }
{
    match store {
        Some(store) => {
            if mentions(goal, store.variable)
                && !mentions(store.value, store.variable)
                && subst_nodes_left(goal, store.variable, store.value, MOST_NOTED).is_some()
            {
                let before = subst(trace.alloc, goal, store.variable, store.value)?;
                let stable = stable_after_steps(trace.alloc, trace.program, trace.thread, front)?;
                let point = trace.point_behind(front)?;
                if first_outside(&before, &stable).is_none()
                    && is_shown(trace.alloc, &point, &before)?
                {
                    add_line(trace, bytes, at, &before, text)
                } else {
                    Ok(())
                }
            } else {
                Ok(())
            }
        }
        None => Ok(()),
    }
}

/// Whether a certificate is found for a predicate at a point, if that is there.
fn is_shown(alloc: Global, point: &Option<Point>, e: &Expr) -> Result<bool, NoMemory>
    ensures { IfOk result (λ shown. (p : Plain) (t : ℕ) (a : Option law.Point) → KeepsAny p t a point.now → shown ≡ spec.is_shown a (term e.now)) }
{
    match point {
        Some(point) => {
            let found = found_for(alloc, point.preds(), e)?;
            Ok(found.is_shown())
        }
        None => Ok(false),
    }
}

/// Adds the line of a predicate in front of the store at a place.
fn add_line(
    trace: &Trace<'_>,
    bytes: &[u8],
    at: u32,
    before: &Expr,
    text: &mut Blob,
) -> Result<(), NoMemory>
    requires { IsTrace trace.now }
    ensures { OnOk result (text.new ≡ text.old ++ spec.line_of (plain_of trace.now) bytes.now at (term before.now)) }
{
    let names = variable_names(trace.alloc, trace.program)?;
    text.extend_from_slice(b"  to be noted:  `")?;
    add_expr(&names, false, before, text)?;
    text.extend_from_slice(b"` in front of the store in line ")?;
    add_line_of(bytes, at, text)?;
    text.extend_from_slice(b": it can be shown there, and behind the store it is the goal\n")
}
