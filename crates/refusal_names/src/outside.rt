//! Variables outside of a set: in expressions, in types and in classes.

ghost use Rattle.std.specs.Prelude.{◌≡◌, ◌++◌, OnOk, map, option_map};
ghost use Rattle.cov_ast.specs.Plain.{plain};
ghost use Rattle.cov_ast.specs.View as view;
ghost use Rattle.cov_expr.specs.Trees.{occurrences};
ghost use Rattle.cov_expr.specs.View.{term};
ghost use Rattle.refusal_names.specs.OutsideVariables as spec;
ghost use Rattle.refusal_names.specs.SpokenParts.{type_terms, with_written};

use cov_ast::{Class, NumberSet, Program, Retype, first_outside};
use cov_expr::{Expr, List, NoMemory};
use mode_state::Mask;

/// Adds the occurrences in an expression of variables outside of a set.
pub fn add_outside(e: &Expr, set: &NumberSet, found: &mut List<u32>) -> Result<(), NoMemory>
    ensures { OnOk result (found.new ≡ found.old ++ spec.all_outside set.now (occurrences (term e.now))) }
{
    match e {
        Expr::Const(_) => Ok(()),
        Expr::Var(x) if set.has(*x) => Ok(()),
        Expr::Var(x) => found.push(*x),
        Expr::Not(a) => add_outside(a, set, found),
        Expr::Bin(_, a, b) => {
            add_outside(a, set, found)?;
            add_outside(b, set, found)
        }
    }
}

/// The first of expressions that has a variable outside of a set, with the first such variable.
pub fn first_expr<'p>(exprs: &'p [Expr], set: &NumberSet) -> Option<(&'p Expr, u32)>
    ensures { option_map (λ f. (term f.0.now, f.1)) result ≡ spec.first_with_outside set.now (map term exprs.now) }
{
    for e in exprs {
        if let Some(x) = first_outside(e, set) {
            return Some((e, x));
        }
    }
    None
}

/// The same of the types of a state.
pub fn first_listed<'p>(types: &'p [(u32, Expr)], set: &NumberSet) -> Option<(&'p Expr, u32)>
    ensures { option_map (λ f. (term f.0.now, f.1)) result ≡ spec.first_with_outside set.now (type_terms (map view.typed types.now)) }
{
    for listed in types {
        if let Some(x) = first_outside(&listed.1, set) {
            return Some((&listed.1, x));
        }
    }
    None
}

/// The same of the types that an assignment gives to variables.
fn first_retyped<'p>(retypes: &'p [Retype], set: &NumberSet) -> Option<(&'p Expr, u32)>
    ensures { option_map (λ f. (term f.0.now, f.1)) result ≡ spec.first_with_outside set.now (type_terms (map view.retype retypes.now)) }
{
    for retype in retypes {
        if let Some(x) = first_outside(&retype.class, set) {
            return Some((&retype.class, x));
        }
    }
    None
}

/// The same of the types of an assignment: the one that is written for its value, if one is, and then those that it gives to variables.
pub fn first_written<'p>(
    written: Option<&'p Expr>,
    retypes: &'p [Retype],
    set: &NumberSet,
) -> Option<(&'p Expr, u32)>
    ensures { option_map (λ f. (term f.0.now, f.1)) result ≡ spec.first_with_outside set.now (with_written (option_map (λ e. term e.now) written.entry) (type_terms (map view.retype retypes.now))) }
{
    match written {
        Some(q) => match first_outside(q, set) {
            Some(x) => Some((q, x)),
            None => first_retyped(retypes, set),
        },
        None => first_retyped(retypes, set),
    }
}

/// The first of variables that is neither stable nor a control, and has a control that isn't stable, with the first such control.
pub fn first_unstable_class(
    p: &Program,
    stable: &NumberSet,
    controls: &Mask,
    variables: &[u32],
) -> Option<(u32, u32)>
    ensures { result ≡ spec.first_unstable_class (plain (view.program p.now)) stable.now controls.now variables.now }
{
    for y in variables {
        if !stable.has(*y) && !controls.has(*y) {
            let first_control = match p.vars.as_slice().get(*y as usize) {
                Some(var) => {
                    match &var.class {
                        Class::Low | Class::High => None,
                        Class::When(e) => first_outside(e, stable),
                    }
                }
                None => None,
            };
            if let Some(control) = first_control {
                return Some((*y, control));
            }
        }
    }
    None
}
