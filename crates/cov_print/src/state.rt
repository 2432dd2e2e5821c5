//! States and types as they are spelled.

ghost use Rattle.std.specs.Prelude.{◌≡◌, ◌++◌, ◌&&◌, OnOk, map, codes};
ghost use Rattle.cov_expr.specs.View.{term};
ghost use Rattle.cov_ast.specs.View as view;
ghost use Rattle.cov_print.specs.Spelling as spec;

use crate::expr::{add_expr, add_exprs};
use crate::text::add_name;
use cov_ast::{NameTable, State};
use cov_expr::{Expr, List, NoMemory};

fn add_type(names: &NameTable, t: &(u32, Expr), out: &mut List<u8>) -> Result<(), NoMemory>
    ensures { OnOk result (out.new ≡ out.old ++ spec.typed names.now (view.typed t.now)) }
{
    add_name(names, t.0, out)?;
    out.extend_from_slice(b": ")?;
    add_expr(names, false, &t.1, out)
}

/// Adds types of variables with commas between.
fn add_types(names: &NameTable, types: &[(u32, Expr)], out: &mut List<u8>) -> Result<(), NoMemory>
    ensures { OnOk result (out.new ≡ out.old ++ spec.listed (spec.typed names.now) (map view.typed types.now)) }
{
    match types {
        [] => Ok(()),
        [first, rest @ ..] => {
            add_type(names, first, out)?;
            for t in rest {
                out.extend_from_slice(b", ")?;
                add_type(names, t, out)?;
            }
            Ok(())
        }
    }
}

/// Adds a state that has predicates alone.
fn add_lone_predicates(
    names: &NameTable,
    preds: &[Expr],
    out: &mut List<u8>,
) -> Result<(), NoMemory>
    ensures { OnOk result (out.new ≡ out.old ++ (codes "{ " ++ spec.listed (spec.whole names.now) (map term preds.now) ++ codes " }")) }
{
    out.extend_from_slice(b"{ ")?;
    add_exprs(names, preds, out)?;
    out.extend_from_slice(b" }")
}

/// Adds a state that has types alone.
fn add_lone_types(
    names: &NameTable,
    types: &[(u32, Expr)],
    out: &mut List<u8>,
) -> Result<(), NoMemory>
    ensures { OnOk result (out.new ≡ out.old ++ (codes "{ ; " ++ spec.listed (spec.typed names.now) (map view.typed types.now) ++ codes " }")) }
{
    out.extend_from_slice(b"{ ; ")?;
    add_types(names, types, out)?;
    out.extend_from_slice(b" }")
}

/// Adds a state that has predicates and types.
fn add_both(
    names: &NameTable,
    preds: &[Expr],
    types: &[(u32, Expr)],
    out: &mut List<u8>,
) -> Result<(), NoMemory>
    ensures { OnOk result (out.new ≡ out.old
        ++ (codes "{ " ++ spec.listed (spec.whole names.now) (map term preds.now) ++ codes " ; " ++ spec.listed (spec.typed names.now) (map view.typed types.now) ++ codes " }")) }
{
    out.extend_from_slice(b"{ ")?;
    add_exprs(names, preds, out)?;
    out.extend_from_slice(b" ; ")?;
    add_types(names, types, out)?;
    out.extend_from_slice(b" }")
}

/// Adds a state, of which nothing is left out.
#[tactic(auto, unfolding(crate::specs::Spelling::state_of))]
pub fn add_state(names: &NameTable, j: &State, out: &mut List<u8>) -> Result<(), NoMemory>
    ensures { OnOk result (out.new ≡ out.old ++ spec.state names.now (view.state j.now)) }
{
    match (j.preds.as_slice(), j.types.as_slice()) {
        ([], []) => out.extend_from_slice(b"{}"),
        (preds @ [_, ..], []) => add_lone_predicates(names, preds, out),
        ([], types @ [_, ..]) => add_lone_types(names, types, out),
        (preds @ [_, ..], types @ [_, ..]) => add_both(names, preds, types, out),
    }
}

/// Whether a state has no predicate and no type.
fn is_empty(j: &State) -> bool
    ensures { result ≡ spec.is_nothing (view.state j.now).preds && spec.is_nothing (view.state j.now).types }
{
    match (j.preds.as_slice(), j.types.as_slice()) {
        ([], []) => true,
        ([_, ..], _) | ([], [_, ..]) => false,
    }
}

/// Adds a word and the state behind it, or nothing where the state is empty.
#[tactic(auto, unfolding(crate::specs::Spelling::stated_of))]
pub fn add_stated(
    names: &NameTable,
    word: &[u8],
    j: &State,
    out: &mut List<u8>,
) -> Result<(), NoMemory>
    ensures { OnOk result (out.new ≡ out.old ++ spec.stated names.now word.now (view.state j.now)) }
{
    if is_empty(j) {
        return Ok(());
    }
    out.extend_from_slice(word)?;
    add_state(names, j, out)
}
