//! The variables of whose types is told: those of a goal, and behind them those of the values that were assigned.

ghost use Rattle.std.specs.Prelude.{◌≡◌, ◌<◌, IfOk, OnOk, length, map, option_map, take};
ghost use Rattle.cov_ast.specs.Plain.{plain};
ghost use Rattle.cov_ast.specs.View as view;
ghost use Rattle.cov_ast.specs.WellFormed.{IsWellFormed};
ghost use Rattle.cov_expr.specs.View.{term};
ghost use Rattle.statement_paths.specs.Paths as paths;
ghost use Rattle.entail_origins.specs.FollowedTypes as spec;

use crate::known_types::known_after_steps;
use crate::type_origin::{TypeOrigin, TypeSource};
use crate::type_steps::{locks_over, origin_along};
use cov_ast::Program;
use cov_expr::{Expr, List, NoMemory, vars};
use mode_state::Mask;
use statement_parts::parts_of;
use statement_paths::Step;
use std::alloc::Global;

/// A variable, and how many of the steps lead to the point at which its type is looked at.
#[derive(Clone, Copy, PartialEq, Eq)]
pub struct VariableAt {
    pub var: u32,
    pub steps: usize,
}

/// Some variables at the point behind so many steps.
pub fn at_point(
    alloc: Global,
    steps: usize,
    variables: &[u32],
) -> Result<List<VariableAt>, NoMemory>
    ensures { IfOk result (λ made. made ≡ map (spec.at_point steps) variables.now) }
{
    let mut made = List::new(alloc);
    for z in variables {
        made.push(VariableAt { var: *z, steps })?;
    }
    Ok(made)
}

/// The first so many of some steps, or all where there are no more.
pub fn first_steps<'s, 'p>(steps: &'s [Step<'p>], count: usize) -> &'s [Step<'p>]
    ensures { map paths.step result.now ≡ take count (map paths.step steps.now) }
{
    if count < steps.len() {
        &steps[..count]
    } else {
        steps
    }
}

/// Adds, behind some variables, those behind the types of the first `most` of them in turn, and of these as far as they are added by then.
/// There are no more than one above `most` then. `steps` are those from the start of the thread.
///
/// For each that is looked at it takes time in proportion to what the steps list, to the lists of the locks, to the variables of the
/// program, and for each variable of its value to `most`.
pub fn follow(
    alloc: Global,
    p: &Program,
    t: u32,
    most: usize,
    steps: &[Step<'_>],
    all: &mut List<VariableAt>,
) -> Result<(), NoMemory>
    requires formed { IsWellFormed (view.program p.now) }
    requires thread { t < length p.now.threads }
    ensures { OnOk result (all.new ≡ spec.followed (plain (view.program p.now)) t most (map paths.step steps.now) most all.old) }
{
    for n in 0..most {
        match all.as_slice().get(n).copied() {
            Some(v) => add_behind(alloc, p, t, most, first_steps(steps, v.steps), v.var, all)?,
            None => {}
        }
    }
    Ok(())
}

/// Adds those behind the type of a variable behind steps.
fn add_behind(
    alloc: Global,
    p: &Program,
    t: u32,
    most: usize,
    steps: &[Step<'_>],
    z: u32,
    all: &mut List<VariableAt>,
) -> Result<(), NoMemory>
    requires formed { IsWellFormed (view.program p.now) }
    requires thread { t < length p.now.threads }
    ensures { OnOk result (all.new ≡ spec.with_behind (plain (view.program p.now)) t most (map paths.step steps.now) all.old z) }
{
    let known = known_after_steps(alloc, p, t, steps)?;
    let origin_of = if known.controls.has(z) {
        None
    } else if known.stable.has(z) {
        let locks = locks_over(alloc, p, z)?;
        origin_along(&known.controls, &locks, z, steps)
    } else {
        None
    };
    match origin_of {
        Some(origin) => add_origin(alloc, most, &known.controls, steps, origin, all),
        None => Ok(()),
    }
}

/// Adds the variables behind an origin, at the point in front of its step.
fn add_origin(
    alloc: Global,
    most: usize,
    controls: &Mask,
    steps: &[Step<'_>],
    origin: TypeOrigin,
    all: &mut List<VariableAt>,
) -> Result<(), NoMemory>
    ensures { OnOk result (all.new ≡ spec.with_origin most controls.now (map paths.step steps.now) all.old (Some origin)) }
{
    match followed_value(origin.source, steps.get(origin.index)) {
        Some(e) => {
            let variables = vars(alloc, e)?;
            add_variables(most, controls, origin.index, variables.as_slice(), all)
        }
        None => Ok(()),
    }
}

/// The value whose type a source says, that sets a type in a step.
fn followed_value<'p>(source: TypeSource, step: Option<&Step<'p>>) -> Option<&'p Expr>
    ensures { option_map (λ e. term e.now) result ≡ spec.followed_value source (option_map (λ s. paths.step s.now) step.entry) }
{
    match source {
        TypeSource::Stored => {
            match step {
                Some(Step::Passed(stmt)) => parts_of(&stmt.kind).untyped(),
                Some(Step::Yes(_, _) | Step::No(_, _) | Step::Head(_, _)) | None => None,
            }
        }
        TypeSource::Taken(_) | TypeSource::Listed(_) | TypeSource::Unlisted(_) => None,
    }
}

/// Adds the variables of a value, at the point behind so many steps.
fn add_variables(
    most: usize,
    controls: &Mask,
    steps: usize,
    variables: &[u32],
    all: &mut List<VariableAt>,
) -> Result<(), NoMemory>
    ensures { OnOk result (all.new ≡ spec.with_variables most controls.now steps all.old variables.now) }
{
    for z in variables {
        if !(controls.has(*z) || most < all.len() || is_there(all.as_slice(), steps, *z)) {
            all.push(VariableAt { var: *z, steps })?;
        }
    }
    Ok(())
}

/// Whether a variable is there at a point.
fn is_there(all: &[VariableAt], steps: usize, z: u32) -> bool
    ensures { result ≡ spec.is_there all.now steps z }
{
    for v in all {
        if v.var == z && v.steps == steps {
            return true;
        }
    }
    false
}
