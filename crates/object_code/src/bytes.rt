//! The object of a code, written field by field.

ghost use Rattle.std.specs.Prelude.{◌≡◌, ◌++◌, ◌∷◌, [], ◌<◌, ◌^◌, ◌≤◌, IfOk, OnOk, length, flat_map, All};
ghost use Rattle.cov_expr.specs.Names.{IsName};
ghost use Rattle.cov_expr.specs.Words.{IsWord};
ghost use Rattle.risc_machine.specs.Faults.{AreCounted};
ghost use Rattle.object_code.specs.Object as spec;
ghost use Rattle.code_text.specs.Listing.{HasWords};
ghost use Rattle.object_code.specs.Object.{HasObject};
ghost use Rattle.object_code.specs.Inside.Given.{AreWritten, AreOfWords, IsOfWords};

use crate::opcode::{opcode_number, place};
use cov_expr::{List, Name, NoMemory};
use risc_machine::{Code, Instr, Line, Parts, ThreadCode};
use std::alloc::Global;

/// The object of a code.
pub fn object(alloc: Global, code: &Code) -> Result<List<u8>, NoMemory>
    ensures bytes { IfOk result (λ bytes. bytes ≡ spec.object code.now) }
    ensures whole { OnOk result (HasObject code.now) }
{
    let mut out = List::new(alloc);
    add_parts(code.parts(), &mut out)?;
    Ok(out)
}

fn add_parts(parts: &Parts, out: &mut List<u8>) -> Result<(), NoMemory>
    requires counted { AreCounted parts.now }
    requires weights { All (λ t. AreWritten t.lines) (parts.now).threads }
    ensures bytes { OnOk result (out.new ≡ out.old ++ spec.object parts.now) }
    ensures names { OnOk result (All IsName (parts.now).vars × All IsName (parts.now).locks) }
    ensures words { OnOk result (All IsOfWords (parts.now).threads) }
{
    out.extend_from_slice(b"COVO")?;
    out.push(parts.version)?;
    add_names(parts.vars.as_slice(), out)?;
    add_names(parts.locks.as_slice(), out)?;
    add_threads(parts.threads.as_slice(), out)
}

/// Adds how many names there are, and each of them.
fn add_names(names: &[Name], out: &mut List<u8>) -> Result<(), NoMemory>
    requires { IsWord (length names.now) }
    ensures bytes { OnOk result (out.new ≡ out.old ++ spec.names names.now) }
    ensures names { OnOk result (All IsName names.now) }
{
    add_number(names.len() as u32, out)?;
    for name in names {
        add_name(name, out)?;
    }
    Ok(())
}

fn add_name(name: &Name, out: &mut List<u8>) -> Result<(), NoMemory>
    ensures bytes { OnOk result (out.new ≡ out.old ++ spec.name name.now) }
    ensures name { OnOk result (IsName name.now) }
{
    let text = name.text();
    out.push(text.len() as u8)?;
    out.extend_from_slice(text)
}

/// Adds how many threads there are, and each of them.
fn add_threads(threads: &[ThreadCode], out: &mut List<u8>) -> Result<(), NoMemory>
    requires count { IsWord (length threads.now) }
    requires counts { All (λ t. IsWord (length t.lines)) threads.now }
    requires weights { All (λ t. AreWritten t.lines) threads.now }
    ensures bytes { OnOk result (out.new ≡ out.old ++ spec.threads threads.now) }
    ensures words { OnOk result (All IsOfWords threads.now) }
{
    add_number(threads.len() as u32, out)?;
    for thread in threads {
        add_thread(&thread.name, thread.lines.as_slice(), out)?;
    }
    Ok(())
}

fn add_thread(name: &Name, lines: &[Line], out: &mut List<u8>) -> Result<(), NoMemory>
    requires count { IsWord (length lines.now) }
    requires weights { AreWritten lines.now }
    ensures bytes { OnOk result (out.new ≡ out.old ++ spec.thread (record { name = name.now; lines = lines.now })) }
    ensures words { OnOk result (IsName name.now × AreOfWords lines.now) }
{
    add_name(name, out)?;
    add_number(lines.len() as u32, out)?;
    add_lines(lines, out)
}

fn add_lines(lines: &[Line], out: &mut List<u8>) -> Result<(), NoMemory>
    requires { AreWritten lines.now }
    ensures bytes { OnOk result (out.new ≡ out.old ++ flat_map spec.line lines.now) }
    ensures words { OnOk result (AreOfWords lines.now) }
{
    for line in lines {
        add_line(line, out)?;
    }
    Ok(())
}

fn add_line(line: &Line, out: &mut List<u8>) -> Result<(), NoMemory>
    requires { (line.now).weight ≤ 2 }
    ensures bytes { OnOk result (out.new ≡ out.old ++ spec.line line.now) }
    ensures words { OnOk result (HasWords (line.now).instr) }
{
    out.push(16 * line.weight + opcode_number(line.instr))?;
    add_operands(line.instr, out)
}

fn add_operands(instr: Instr, out: &mut List<u8>) -> Result<(), NoMemory>
    ensures bytes { OnOk result (out.new ≡ out.old ++ spec.operands instr) }
    ensures words { OnOk result (HasWords instr) }
{
    match instr {
        Instr::Load(r, x) | Instr::Store(x, r) => add_register_number(r, x, out),
        Instr::Jump(n) | Instr::Acquire(n) | Instr::Release(n) => add_number(n, out),
        Instr::Jz(r, n) | Instr::MovC(r, n) => add_register_number(r, n, out),
        Instr::Nop => Ok(()),
        Instr::MovR(r, s) => out.extend_from_slice(&[r, s]),
        Instr::Bin(op, r, s) => out.extend_from_slice(&[place(op), r, s]),
        Instr::Out(r) => out.push(r),
    }
}

/// Adds a register, and a number behind it.
fn add_register_number(r: u8, n: u32, out: &mut List<u8>) -> Result<(), NoMemory>
    ensures { OnOk result (out.new ≡ out.old ++ r ∷ spec.four n) }
{
    out.push(r)?;
    add_number(n, out)
}

/// Adds the four bytes of a number, the lowest first.
fn add_number(n: u32, out: &mut List<u8>) -> Result<(), NoMemory>
    ensures { OnOk result (out.new ≡ out.old ++ spec.four n) }
{
    out.extend_from_slice(&n.to_le_bytes())
}
