//! The words on a variable whose type is its class, which is spelled.

ghost use Rattle.std.specs.Prelude.{◌≡◌, ◌++◌, OnOk};
ghost use Rattle.cov_ast.specs.Plain.{class_term, plain};
ghost use Rattle.cov_ast.specs.View as view;
ghost use Rattle.cov_expr.specs.Term.{const};
ghost use Rattle.cov_expr.specs.Trees as tree;
ghost use Rattle.cov_expr.specs.View.{term};
ghost use Rattle.cov_print.specs.Spelling.{whole};
ghost use Rattle.entail_origins.specs.LocksOver.{lock_over};
ghost use Rattle.entail_origins.specs.TypeLines as spec;

use crate::locks::lock_over;
use crate::type_lines::add_place;
use cov_ast::{Class, LockDecl, NameTable, Program};
use cov_expr::{Blob, Expr, NoMemory, same};
use cov_print::add_expr;
use text_parts::add_number;

/// Adds the type of a variable that isn't stable.
pub fn add_shared(
    p: &Program,
    names: &NameTable,
    bytes: &[u8],
    z: u32,
    text: &mut Blob,
) -> Result<(), NoMemory>
    ensures { OnOk result (text.new ≡ text.old ++ spec.shared_text (plain (view.program p.now)) names.now bytes.now z) }
{
    add_class(p, names, z, text)?;
    match p.vars.as_slice().get(z as usize) {
        Some(var) => add_shared_end(bytes, var.at, is_always_high(&var.class), text),
        None => add_shared_end(bytes, 0, true, text),
    }
}

/// Adds that a variable isn't stable, of one that is always high behind the line of its declaration.
fn add_shared_end(bytes: &[u8], at: u32, is_high: bool, text: &mut Blob) -> Result<(), NoMemory>
    ensures { OnOk result (text.new ≡ text.old ++ spec.shared_end bytes.now at is_high) }
{
    if is_high {
        add_place(bytes, at, text)?;
    }
    let unstable_words = if is_high {
        "; it isn't stable here"
    } else {
        ", since it isn't stable here: the thread doesn't assume that no other writes it, and holds no lock that it is under"
    };
    text.extend_from_slice(unstable_words.as_bytes())
}

/// Adds what is known of a variable without more. `bytes` are the text of the program.
pub fn add_default(
    p: &Program,
    names: &NameTable,
    bytes: &[u8],
    hidden: bool,
    z: u32,
    text: &mut Blob,
) -> Result<(), NoMemory>
    ensures { OnOk result (text.new ≡ text.old ++ spec.default_text (plain (view.program p.now)) names.now bytes.now hidden z) }
{
    match p.vars.as_slice().get(z as usize) {
        Some(var) => {
            add_known(
                p,
                names,
                bytes,
                z,
                hidden,
                var.at,
                is_always_high(&var.class),
                text,
            )
        }
        None => add_known(p, names, bytes, z, hidden, 0, true, text),
    }
}

/// Adds that of a variable that is declared at a place, by whether it is always high.
fn add_known(
    p: &Program,
    names: &NameTable,
    bytes: &[u8],
    z: u32,
    hidden: bool,
    at: u32,
    is_high: bool,
    text: &mut Blob,
) -> Result<(), NoMemory>
    ensures { OnOk result (text.new ≡ text.old ++ spec.known_text (plain (view.program p.now)) names.now bytes.now z hidden at is_high) }
{
    if is_high {
        add_class(p, names, z, text)?;
        add_place(bytes, at, text)
    } else if hidden {
        add_hider(p, bytes, z, text)
    } else {
        add_class(p, names, z, text)
    }
}

/// Adds that nothing is known of a variable, with what hides it.
fn add_hider(p: &Program, bytes: &[u8], z: u32, text: &mut Blob) -> Result<(), NoMemory>
    ensures { OnOk result (text.new ≡ text.old ++ spec.hider_text bytes.now (lock_over z (view.program p.now).locks)) }
{
    match lock_over(z, p.locks.as_slice()) {
        Some(lock) => add_hider_lock(bytes, lock, text),
        None => add_hider_thread(text),
    }
}

/// Adds that a lock hides a variable.
fn add_hider_lock(bytes: &[u8], lock: &LockDecl, text: &mut Blob) -> Result<(), NoMemory>
    ensures { OnOk result (text.new ≡ text.old ++ spec.hidden_by_lock bytes.now (view.lock lock.now)) }
{
    text.extend_from_slice(b"0 (the lock ")?;
    text.extend_from_slice(lock.name.text())?;
    add_place(bytes, lock.at, text)?;
    text.extend_from_slice(b", hides it: under `nowrite` its class would count)")
}

/// Adds that the thread hides it.
fn add_hider_thread(text: &mut Blob) -> Result<(), NoMemory>
    ensures { OnOk result (text.new ≡ text.old ++ spec.hidden_by_thread) }
{
    text.extend_from_slice(b"0 (the thread hides it: under `nowrite` its class would count)")
}

/// Whether a class is high whatever the memory.
fn is_always_high(class: &Class) -> bool
    ensures { result ≡ spec.is_always_high (class_term (view.class class.now)) }
{
    match class {
        Class::Low => false,
        Class::High => true,
        Class::When(e) => {
            match e {
                Expr::Const(k) => *k == 0,
                Expr::Var(_) | Expr::Not(_) | Expr::Bin(..) => false,
            }
        }
    }
}

/// Adds the class of a variable, as an expression over these names. Past the declarations all is high.
pub fn add_class(p: &Program, names: &NameTable, z: u32, text: &mut Blob) -> Result<(), NoMemory>
    ensures { OnOk result (text.new ≡ text.old ++ spec.class_text (plain (view.program p.now)) names.now z) }
{
    match p.vars.as_slice().get(z as usize) {
        Some(var) => add_spelled(names, &var.class, text),
        None => add_spelled(names, &Class::High, text),
    }
}

/// Whether an expression is a class.
pub fn is_class(class: &Class, q: &Expr) -> bool
    ensures { result ≡ tree.same (term q.now) (class_term (view.class class.now)) }
{
    match class {
        Class::Low => is_number(q, 1),
        Class::High => is_number(q, 0),
        Class::When(e) => same(q, e),
    }
}

/// Whether an expression is a number.
fn is_number(q: &Expr, k: u32) -> bool
    ensures { result ≡ tree.same (term q.now) (const k) }
{
    match q {
        Expr::Const(n) => *n == k,
        Expr::Var(_) | Expr::Not(_) | Expr::Bin(..) => false,
    }
}

/// Adds a class as an expression, with the words for it, and its level where that is one.
fn add_spelled(names: &NameTable, class: &Class, text: &mut Blob) -> Result<(), NoMemory>
    ensures { OnOk result (text.new ≡ text.old ++ spec.spelled_class names.now (class_term (view.class class.now))) }
{
    text.extend_from_slice(b"its class `")?;
    add_term(names, class, text)?;
    text.extend_from_slice(b"`")?;
    text.extend_from_slice(level_part(class).as_bytes())
}

/// The level of a class that is a constant.
fn level_part(class: &Class) -> &'static str
    ensures { result.now ≡ spec.level_part (class_term (view.class class.now)) }
{
    match class {
        Class::Low => " (low)",
        Class::High => " (high)",
        Class::When(e) => {
            match e {
                Expr::Const(k) => { if *k == 0 { " (high)" } else { " (low)" } }
                Expr::Var(_) | Expr::Not(_) | Expr::Bin(..) => "",
            }
        }
    }
}

/// Adds the expression alone.
fn add_term(names: &NameTable, class: &Class, text: &mut Blob) -> Result<(), NoMemory>
    ensures { OnOk result (text.new ≡ text.old ++ whole names.now (class_term (view.class class.now))) }
{
    match class {
        Class::Low => add_number(1, text),
        Class::High => add_number(0, text),
        Class::When(e) => add_expr(names, false, e, text),
    }
}
