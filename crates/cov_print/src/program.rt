//! Programs as they are spelled.

ghost use Rattle.std.specs.Prelude.{◌≡◌, ◌++◌, OnOk, IfOk, map, flat_map};
ghost use Rattle.cov_ast.specs.View as view;
ghost use Rattle.cov_print.specs.Spelling as spec;
ghost use Rattle.cov_print.specs.ReadBack.{SpellsAgain};

use crate::decl::{add_lock, add_thread, add_var};
use cov_ast::{LockDecl, NameTable, Parsed, ThreadDecl, VarDecl};
use cov_expr::{List, NoMemory};
use std::alloc::Global;

fn add_vars(names: &NameTable, vars: &[VarDecl], out: &mut List<u8>) -> Result<(), NoMemory>
    ensures { OnOk result (out.new ≡ out.old ++ flat_map (spec.var_line names.now) (map view.var vars.now)) }
{
    for v in vars {
        add_var(names, v, out)?;
    }
    Ok(())
}

fn add_locks(names: &NameTable, locks: &[LockDecl], out: &mut List<u8>) -> Result<(), NoMemory>
    ensures { OnOk result (out.new ≡ out.old ++ flat_map (spec.lock_line names.now) (map view.lock locks.now)) }
{
    for l in locks {
        add_lock(names, l, out)?;
    }
    Ok(())
}

fn add_threads(
    alloc: Global,
    names: &NameTable,
    threads: &[ThreadDecl],
    out: &mut List<u8>,
) -> Result<(), NoMemory>
    ensures { OnOk result (out.new ≡ out.old ++ flat_map (spec.thread_lines names.now) (map view.thread threads.now)) }
{
    for t in threads {
        add_thread(alloc, names, t, out)?;
    }
    Ok(())
}

/// Adds the line of the version, or nothing for the first one.
fn add_version(version: u8, out: &mut List<u8>) -> Result<(), NoMemory>
    ensures { OnOk result (out.new ≡ out.old ++ spec.version_line version) }
{
    if version == 2 {
        out.extend_from_slice(b"version 2;\n")
    } else {
        Ok(())
    }
}

fn add_program(alloc: Global, p: &Parsed, out: &mut List<u8>) -> Result<(), NoMemory>
    ensures { OnOk result (out.new ≡ out.old ++ spec.spelling (view.parsed p.now)) }
{
    add_version(p.version, out)?;
    add_vars(&p.names, p.vars.as_slice(), out)?;
    add_locks(&p.names, p.locks.as_slice(), out)?;
    add_threads(alloc, &p.names, p.threads.as_slice(), out)
}

/// The canonical spelling of a program: a text of lines that end with a line feed, without comments. One of version 2
/// begins with the line `version 2;`. A number that has no name is spelled `_`, as the hole of a template. It takes memory
/// in proportion to the text, and recurses as deep as blocks, certificates or expressions nest.
pub fn print(alloc: Global, p: &Parsed) -> Result<List<u8>, NoMemory>
    ensures spelled { IfOk result (λ text. text ≡ spec.spelling (view.parsed p.now)) }
    // Where some text of any length spells the program, places aside, what is printed does, unless it is longer than a
    // text may be.
    ensures read_back { IfOk result (λ text. SpellsAgain text (view.parsed p.now)) }
{
    let mut out = List::new(alloc);
    add_program(alloc, p, &mut out)?;
    Ok(out)
}
