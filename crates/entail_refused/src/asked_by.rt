//! Where it is declared what asks for an entailment: the class of a variable, or the invariant of a lock; and where a listed type isn't the class.

ghost use Rattle.std.specs.Prelude.{◌≡◌, ◌++◌, OnOk, option_map, slice_get};
ghost use Rattle.cov_ast.specs.View as view;
ghost use Rattle.cov_ast.specs.WellFormed.{IsWellFormed};
ghost use Rattle.cov_expr.specs.View.{term};
ghost use Rattle.entail_refused.specs.AskedBy as spec;

use cov_ast::{LockDecl, NameTable, Program, VarDecl};
use cov_expr::{Blob, Expr, Name, NoMemory};
use entail_origins::{Question, add_class, is_class};
use std::alloc::Global;
use text_parts::{add_line_of, variable_names};

/// Adds where that stands, if it is a declaration that asks; of a type that is listed for a variable the class, if `asked`, which is asked with the goal, is another. `bytes` are the text of the
/// program.
pub fn add_asked_by(
    alloc: Global,
    p: &Program,
    bytes: &[u8],
    question: Question,
    asked: Option<&Expr>,
    text: &mut Blob,
) -> Result<(), NoMemory>
    requires { IsWellFormed (view.program p.now) }
    ensures { OnOk result (text.new ≡ text.old ++ spec.asked_by bytes.now (view.program p.now) (option_map (λ e. term e.now) asked.entry) question) }
{
    match question {
        Question::Shown(x) | Question::Controlled(x) | Question::Freed(x) => add_class_line(
            p, bytes, x, text,
        ),
        Question::Invariant(l) => match p.locks.as_slice().get(l as usize) {
            Some(lock) => add_invariant_of(bytes, lock, text),
            None => Ok(()),
        },
        Question::Written
        | Question::Retyped(_)
        | Question::Guard
        | Question::HeadGuard
        | Question::Printed
        | Question::Predicate(_, _) => Ok(()),
        Question::TypeOf(_, z) => add_listed_line(alloc, p, bytes, z, asked, text),
    }
}

/// Adds the line of a variable for which this type is listed, if there is one and the type isn't its class.
fn add_listed_line(
    alloc: Global,
    p: &Program,
    bytes: &[u8],
    z: u32,
    asked: Option<&Expr>,
    text: &mut Blob,
) -> Result<(), NoMemory>
    requires { IsWellFormed (view.program p.now) }
    ensures { OnOk result (text.new ≡ text.old ++ spec.listed_line bytes.now (view.program p.now) z (slice_get (view.program p.now).vars z) (option_map (λ e. term e.now) asked.entry)) }
{
    match (p.vars.as_slice().get(z as usize), asked) {
        (Some(var), Some(q)) if !is_class(&var.class, q) => {
            add_listed(alloc, p, bytes, z, var, text)
        }
        _ => Ok(()),
    }
}

/// Adds that the type that is listed for a variable isn't its class.
fn add_listed(
    alloc: Global,
    p: &Program,
    bytes: &[u8],
    z: u32,
    var: &VarDecl,
    text: &mut Blob,
) -> Result<(), NoMemory>
    requires { IsWellFormed (view.program p.now) }
    ensures { OnOk result (text.new ≡ text.old ++ spec.listed_text bytes.now (view.program p.now) z (view.var var.now)) }
{
    let names = variable_names(alloc, p)?;
    text.extend_from_slice(b"  asked by:     the type listed for ")?;
    add_listed_name(p, &names, bytes, z, var, text)
}

/// Adds the name of the variable, and that it isn't its class.
fn add_listed_name(
    p: &Program,
    names: &NameTable,
    bytes: &[u8],
    z: u32,
    var: &VarDecl,
    text: &mut Blob,
) -> Result<(), NoMemory>
    ensures { OnOk result (text.new ≡ text.old ++ spec.listed_name bytes.now names.now (view.program p.now) z (view.var var.now)) }
{
    text.extend_from_slice(var.name.text())?;
    text.extend_from_slice(b", which isn't ")?;
    add_class(p, names, z, text)?;
    add_line_end(bytes, var.at, text)
}

/// Adds the line of a variable, if there is one.
fn add_class_line(p: &Program, bytes: &[u8], x: u32, text: &mut Blob) -> Result<(), NoMemory>
    ensures { OnOk result (text.new ≡ text.old ++ spec.class_line bytes.now (slice_get (view.program p.now).vars x)) }
{
    match p.vars.as_slice().get(x as usize) {
        Some(var) => add_class_of(bytes, var, text),
        None => Ok(()),
    }
}

/// Adds the line of a variable.
fn add_class_of(bytes: &[u8], var: &VarDecl, text: &mut Blob) -> Result<(), NoMemory>
    ensures { OnOk result (text.new ≡ text.old ++ spec.class_of_line bytes.now (view.var var.now)) }
{
    let front = b"  asked by:     the class of ";
    add_declared_line(bytes, front, var.name, var.at, text)
}

/// Adds the line of a lock.
fn add_invariant_of(bytes: &[u8], lock: &LockDecl, text: &mut Blob) -> Result<(), NoMemory>
    ensures { OnOk result (text.new ≡ text.old ++ spec.invariant_of_line bytes.now (view.lock lock.now)) }
{
    let front = b"  asked by:     the invariant of ";
    add_declared_line(bytes, front, lock.name, lock.at, text)
}

/// Adds what is declared, its name and its line.
fn add_declared_line(
    bytes: &[u8],
    front: &[u8],
    name: Name,
    at: u32,
    text: &mut Blob,
) -> Result<(), NoMemory>
    ensures { OnOk result (text.new ≡ text.old ++ spec.declared_line bytes.now front.now name at) }
{
    text.extend_from_slice(front)?;
    text.extend_from_slice(name.text())?;
    add_line_end(bytes, at, text)
}

/// Adds the line of a place.
fn add_line_end(bytes: &[u8], at: u32, text: &mut Blob) -> Result<(), NoMemory>
    ensures { OnOk result (text.new ≡ text.old ++ spec.line_end bytes.now at) }
{
    text.extend_from_slice(b", line ")?;
    add_line_of(bytes, at, text)?;
    text.extend_from_slice(b"\n")
}
