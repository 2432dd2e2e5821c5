//! The code of each thread of a program.

ghost use Rattle.std.specs.Prelude.{◌≡◌, ◌++◌, All, OnOk, get_or};
ghost use Rattle.cov_ast.specs.Syntax.{done};
ghost use Rattle.cov_ast.specs.View as view;
ghost use Rattle.code_lines.specs.CodeLines as spec;
ghost use Rattle.code_text.specs.Listing.{IsSpelled};
ghost use Rattle.risc_machine.specs.Faults.{AreGood};

use crate::cursor::at_front;
use crate::rows::{add_position, add_rows};
use crate::walk::Scene;
use cov_ast::{Program, Stmt};
use cov_expr::{Blob, Name, NoMemory};
use risc_machine::{Line, Parts};
use text_parts::add_number;

/// Adds the code of a program beside its source, whose text these bytes are. It takes time in proportion to the text and the code.
pub fn add_code_lines(
    p: &Program,
    parts: &Parts,
    bytes: &[u8],
    text: &mut Blob,
) -> Result<(), NoMemory>
    requires { AreGood parts.now }
    ensures { OnOk result (text.new ≡ text.old ++ spec.code_lines (view.program p.now) parts.now bytes.now) }
{
    for (t, thread) in parts.threads.as_slice().iter().enumerate() {
        add_thread(
            parts,
            bytes,
            body_at(p, t),
            &thread.name,
            thread.lines.as_slice(),
            text,
        )?;
    }
    Ok(())
}

/// The statements of a thread, by its number; none where there is no such thread.
fn body_at(p: &Program, t: usize) -> &[Stmt]
    ensures { view.block result.now ≡ get_or (spec.bodies_of (view.program p.now).threads) t done }
{
    if t < p.threads.len() {
        p.threads.as_slice()[t].body.as_slice()
    } else {
        &[]
    }
}

/// Adds the code of a thread with these statements.
fn add_thread(
    parts: &Parts,
    bytes: &[u8],
    body: &[Stmt],
    name: &Name,
    lines: &[Line],
    text: &mut Blob,
) -> Result<(), NoMemory>
    requires { All (IsSpelled (parts.now).vars (parts.now).locks) lines.now }
    ensures { OnOk result (text.new ≡ text.old ++ spec.thread_lines bytes.now parts.now (view.block body.now) (record { name = name.now; lines = lines.now })) }
{
    add_front(name, lines.len(), text)?;
    let scene = Scene {
        parts,
        bytes,
        total: lines.len(),
    };
    let mut seen = at_front();
    let left = scene.add_block(body, lines, &mut seen, text)?;
    let from = lines.len() - left.len();
    add_rows(parts, from, left, text)?;
    add_end(lines.len(), text)
}

/// Adds which thread it is, and how many lines it has.
fn add_front(name: &Name, total: usize, text: &mut Blob) -> Result<(), NoMemory>
    ensures { OnOk result (text.new ≡ text.old ++ spec.thread_front name.now total) }
{
    text.extend_from_slice(b"thread ")?;
    text.extend_from_slice(name.text())?;
    text.extend_from_slice(b", lines of code: ")?;
    add_number(total, text)?;
    text.extend_from_slice(b"\n")
}

/// Adds the position behind the last line.
fn add_end(total: usize, text: &mut Blob) -> Result<(), NoMemory>
    ensures { OnOk result (text.new ≡ text.old ++ spec.end_line total) }
{
    add_position(total, text)?;
    text.extend_from_slice(b"// the end of the thread\n")
}
