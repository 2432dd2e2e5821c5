//! Declarations of variables, locks and threads as they are spelled.

ghost use Rattle.std.specs.Prelude.{◌≡◌, ◌++◌, OnOk, map};
ghost use Rattle.cov_ast.specs.View as view;
ghost use Rattle.cov_print.specs.Spelling as spec;

use crate::expr::{add_expr, add_option};
use crate::stmt::add_block;
use crate::text::add_names;
use cov_ast::{Class, LockDecl, Modes, NameTable, ThreadDecl, VarDecl};
use cov_expr::{List, Name, NoMemory};
use std::alloc::Global;

fn add_class(names: &NameTable, class: &Class, out: &mut List<u8>) -> Result<(), NoMemory>
    ensures { OnOk result (out.new ≡ out.old ++ spec.class names.now (view.class class.now)) }
{
    match class {
        Class::Low => out.extend_from_slice(b"low"),
        Class::High => out.extend_from_slice(b"high"),
        Class::When(e) => {
            out.extend_from_slice(b"low when ")?;
            add_expr(names, false, e, out)
        }
    }
}

/// Adds the word of a declaration and the name behind it.
fn begin_line(word: &[u8], name: &Name, out: &mut List<u8>) -> Result<(), NoMemory>
    ensures { OnOk result (out.new ≡ out.old ++ word.now ++ name.now) }
{
    out.extend_from_slice(word)?;
    out.extend_from_slice(name.text())
}

/// Adds the line of a variable.
pub fn add_var(names: &NameTable, v: &VarDecl, out: &mut List<u8>) -> Result<(), NoMemory>
    ensures { OnOk result (out.new ≡ out.old ++ spec.var_line names.now (view.var v.now)) }
{
    begin_line(b"var ", &v.name, out)?;
    out.extend_from_slice(b": ")?;
    add_class(names, &v.class, out)?;
    out.extend_from_slice(b";\n")
}

/// Adds a word and the names behind it, or nothing where there are none.
fn add_named(
    names: &NameTable,
    word: &[u8],
    ids: &[u32],
    out: &mut List<u8>,
) -> Result<(), NoMemory>
    ensures { OnOk result (out.new ≡ out.old ++ spec.named names.now word.now ids.now) }
{
    match ids {
        [] => Ok(()),
        [_, ..] => {
            out.extend_from_slice(word)?;
            add_names(names, ids, out)
        }
    }
}

/// Adds the line of a lock.
pub fn add_lock(names: &NameTable, l: &LockDecl, out: &mut List<u8>) -> Result<(), NoMemory>
    ensures { OnOk result (out.new ≡ out.old ++ spec.lock_line names.now (view.lock l.now)) }
{
    begin_line(b"lock ", &l.name, out)?;
    add_named(names, b" nowrite ", l.nowrite.as_slice(), out)?;
    add_named(names, b" hide ", l.hide.as_slice(), out)?;
    add_option(names, b" inv ", &l.inv, out)?;
    out.extend_from_slice(b";\n")
}

fn add_modes(names: &NameTable, m: &Modes, out: &mut List<u8>) -> Result<(), NoMemory>
    ensures { OnOk result (out.new ≡ out.old ++ spec.modes names.now (view.modes m.now)) }
{
    add_named(names, b" assume nowrite ", m.assume_nowrite.as_slice(), out)?;
    add_named(names, b" assume hide ", m.assume_hide.as_slice(), out)?;
    add_named(
        names,
        b" guarantee nowrite ",
        m.guarantee_nowrite.as_slice(),
        out,
    )?;
    add_named(names, b" guarantee hide ", m.guarantee_hide.as_slice(), out)
}

/// Adds the lines of a thread.
pub fn add_thread(
    alloc: Global,
    names: &NameTable,
    t: &ThreadDecl,
    out: &mut List<u8>,
) -> Result<(), NoMemory>
    ensures { OnOk result (out.new ≡ out.old ++ spec.thread_lines names.now (view.thread t.now)) }
{
    begin_line(b"thread ", &t.name, out)?;
    add_modes(names, &t.modes, out)?;
    out.extend_from_slice(b" {\n")?;
    add_block(alloc, names, b"  ", t.body.as_slice(), out)?;
    out.extend_from_slice(b"}\n")
}
