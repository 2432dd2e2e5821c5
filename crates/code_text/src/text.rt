//! The listing of a code, written row by row.

ghost use Rattle.std.specs.Prelude.{◌≡◌, ◌++◌, ◌∷◌, ◌+◌, ◌<◌, [], IfOk, OnOk, map, flat_map, decimal, codes, length, IsTrue, All};
ghost use Rattle.risc_machine.specs.Faults.{has_registers, has_variable, has_lock};
ghost use Rattle.cov_expr.specs.Names.{IsName};
ghost use Rattle.code_text.specs.Inside.SpelledLines as inside;
ghost use Rattle.code_text.specs.Inside.SpelledLines.{AreOfWords, IsOfWords};
ghost use Rattle.code_text.specs.Listing as spec;
ghost use Rattle.code_text.specs.Listing.{HasWords, IsListed, IsSpelled};

use cov_expr::{List, Name, NoMemory, Op};
use itoa::Buffer;
use risc_machine::{Code, Instr, Line, Parts, ThreadCode};
use std::alloc::Global;

/// The listing of a code.
pub fn list(alloc: Global, code: &Code) -> Result<List<u8>, NoMemory>
    ensures text { IfOk result (λ text. text ≡ spec.listing code.now) }
    ensures listed { OnOk result (IsListed code.now) }
{
    let mut out = List::new(alloc);
    add_parts(code.parts(), &mut out)?;
    Ok(out)
}

fn add_parts(parts: &Parts, out: &mut List<u8>) -> Result<(), NoMemory>
    requires { All (λ t. All (IsSpelled (parts.now).vars (parts.now).locks) t.lines) (parts.now).threads }
    ensures text { OnOk result (out.new ≡ out.old ++ spec.listing parts.now) }
    ensures names { OnOk result (All IsName (parts.now).vars × All IsName (parts.now).locks) }
    ensures words { OnOk result (All IsOfWords (parts.now).threads) }
{
    add_head(parts.version, out)?;
    add_names(b"var ", parts.vars.as_slice(), out)?;
    add_names(b"lock ", parts.locks.as_slice(), out)?;
    add_threads(parts, parts.threads.as_slice(), out)
}

fn add_head(version: u8, out: &mut List<u8>) -> Result<(), NoMemory>
    ensures { OnOk result (out.new ≡ out.old ++ spec.spelled (spec.head version)) }
{
    out.extend_from_slice(b"code ")?;
    add_number(version as u64, out)?;
    out.extend_from_slice(b"\n")
}

/// Adds a row for each name, with a word before it.
fn add_names(word: &[u8], names: &[Name], out: &mut List<u8>) -> Result<(), NoMemory>
    ensures text { OnOk result (out.new ≡ out.old ++ flat_map (λ n. (word.now ++ n) ++ codes "\n") names.now) }
    ensures names { OnOk result (All IsName names.now) }
{
    for name in names {
        out.extend_from_slice(word)?;
        out.extend_from_slice(name.text())?;
        out.extend_from_slice(b"\n")?;
    }
    Ok(())
}

fn add_threads(parts: &Parts, threads: &[ThreadCode], out: &mut List<u8>) -> Result<(), NoMemory>
    requires { All (λ t. All (IsSpelled (parts.now).vars (parts.now).locks) t.lines) threads.now }
    ensures text { OnOk result (out.new ≡ out.old ++ flat_map spec.spelled (flat_map (spec.thread_rows (parts.now).vars (parts.now).locks) threads.now)) }
    ensures words { OnOk result (All IsOfWords threads.now) }
{
    for thread in threads {
        add_thread(parts, &thread.name, thread.lines.as_slice(), out)?;
    }
    Ok(())
}

fn add_thread(
    parts: &Parts,
    name: &Name,
    lines: &[Line],
    out: &mut List<u8>,
) -> Result<(), NoMemory>
    requires { All (IsSpelled (parts.now).vars (parts.now).locks) lines.now }
    ensures text { OnOk result (out.new ≡ out.old ++ flat_map spec.spelled (spec.thread_rows (parts.now).vars (parts.now).locks (record { name = name.now; lines = lines.now }))) }
    ensures words { OnOk result (IsName name.now × AreOfWords lines.now) }
{
    out.extend_from_slice(b"thread ")?;
    out.extend_from_slice(name.text())?;
    out.extend_from_slice(b" ")?;
    add_number(lines.len() as u64, out)?;
    out.extend_from_slice(b"\n")?;
    add_lines(parts, lines, out)
}

fn add_lines(parts: &Parts, lines: &[Line], out: &mut List<u8>) -> Result<(), NoMemory>
    requires { All (IsSpelled (parts.now).vars (parts.now).locks) lines.now }
    ensures text { OnOk result (out.new ≡ out.old ++ flat_map spec.spelled (map (spec.line (parts.now).vars (parts.now).locks) lines.now)) }
    ensures words { OnOk result (AreOfWords lines.now) }
{
    for line in lines {
        add_line(parts, line, out)?;
    }
    Ok(())
}

/// Adds a line of code, as it stands in a listing, by the names of variables and locks of its parts.
pub fn add_line(parts: &Parts, line: &Line, out: &mut List<u8>) -> Result<(), NoMemory>
    requires { IsSpelled (parts.now).vars (parts.now).locks line.now }
    ensures text { OnOk result (out.new ≡ out.old ++ spec.spelled (spec.line (parts.now).vars (parts.now).locks line.now)) }
    ensures words { OnOk result (HasWords (line.now).instr) }
{
    add_number(line.weight as u64, out)?;
    add_instr(
        parts.vars.as_slice(),
        parts.locks.as_slice(),
        line.instr,
        out,
    )?;
    out.extend_from_slice(b"\n")
}

/// Adds an instruction, with a blank before each of its fields.
fn add_instr(
    vars: &[Name],
    locks: &[Name],
    instr: Instr,
    out: &mut List<u8>,
) -> Result<(), NoMemory>
    requires registers { IsTrue (has_registers instr) }
    requires variable { IsTrue (has_variable (length vars.now) instr) }
    requires lock { IsTrue (has_lock (length locks.now) instr) }
    ensures text { OnOk result (out.new ≡ out.old ++ flat_map (λ f. 32 ∷ f) (spec.instr vars.now locks.now instr)) }
    ensures words { OnOk result (HasWords instr) }
{
    out.extend_from_slice(word(instr))?;
    add_operands(vars, locks, instr, out)
}

/// The word of an instruction, with a blank before it.
fn word(instr: Instr) -> &'static [u8]
    ensures { result.now ≡ 32 ∷ inside.word instr }
{
    match instr {
        Instr::Load(_, _) => b" load",
        Instr::Store(_, _) => b" store",
        Instr::Jump(_) => b" jump",
        Instr::Jz(_, _) => b" jz",
        Instr::Nop => b" nop",
        Instr::MovC(_, _) => b" movc",
        Instr::MovR(_, _) => b" movr",
        Instr::Bin(_, _, _) => b" op",
        Instr::Acquire(_) => b" acquire",
        Instr::Release(_) => b" release",
        Instr::Out(_) => b" out",
    }
}

/// Adds what an instruction has behind its word, with a blank before each field.
fn add_operands(
    vars: &[Name],
    locks: &[Name],
    instr: Instr,
    out: &mut List<u8>,
) -> Result<(), NoMemory>
    requires registers { IsTrue (has_registers instr) }
    requires variable { IsTrue (has_variable (length vars.now) instr) }
    requires lock { IsTrue (has_lock (length locks.now) instr) }
    ensures text { OnOk result (out.new ≡ out.old ++ flat_map (λ f. 32 ∷ f) (inside.operands vars.now locks.now instr)) }
    ensures words { OnOk result (HasWords instr) }
{
    match instr {
        Instr::Load(r, x) => add_register_name(r, vars, x, out),
        Instr::Store(x, r) => add_name_register(vars, x, r, out),
        Instr::Jump(n) => add_operand(n, out),
        Instr::Jz(r, n) | Instr::MovC(r, n) => add_register_number(r, n, out),
        Instr::Nop => Ok(()),
        Instr::MovR(r, s) => add_registers(r, s, out),
        Instr::Bin(op, r, s) => add_operation(op, r, s, out),
        Instr::Acquire(l) | Instr::Release(l) => add_name(locks, l, out),
        Instr::Out(r) => add_register(r, out),
    }
}

fn add_register_name(r: u8, names: &[Name], x: u32, out: &mut List<u8>) -> Result<(), NoMemory>
    requires register { r < 8 }
    requires name { x < length names.now }
    ensures { OnOk result (out.new ≡ out.old ++ (32 ∷ spec.register r ++ 32 ∷ spec.name names.now x)) }
{
    add_register(r, out)?;
    add_name(names, x, out)
}

fn add_name_register(names: &[Name], x: u32, r: u8, out: &mut List<u8>) -> Result<(), NoMemory>
    requires name { x < length names.now }
    requires register { r < 8 }
    ensures { OnOk result (out.new ≡ out.old ++ (32 ∷ spec.name names.now x ++ 32 ∷ spec.register r)) }
{
    add_name(names, x, out)?;
    add_register(r, out)
}

fn add_register_number(r: u8, n: u32, out: &mut List<u8>) -> Result<(), NoMemory>
    requires { r < 8 }
    ensures { OnOk result (out.new ≡ out.old ++ (32 ∷ spec.register r ++ 32 ∷ decimal n)) }
{
    add_register(r, out)?;
    add_operand(n, out)
}

fn add_registers(r: u8, s: u8, out: &mut List<u8>) -> Result<(), NoMemory>
    requires first { r < 8 }
    requires second { s < 8 }
    ensures { OnOk result (out.new ≡ out.old ++ (32 ∷ spec.register r ++ 32 ∷ spec.register s)) }
{
    add_register(r, out)?;
    add_register(s, out)
}

/// Adds an operator and its registers.
fn add_operation(op: Op, r: u8, s: u8, out: &mut List<u8>) -> Result<(), NoMemory>
    requires first { r < 8 }
    requires second { s < 8 }
    ensures { OnOk result (out.new ≡ out.old ++ (32 ∷ spec.sign op ++ (32 ∷ spec.register r ++ 32 ∷ spec.register s))) }
{
    out.extend_from_slice(b" ")?;
    out.extend_from_slice(sign(op))?;
    add_registers(r, s, out)
}

/// Adds a number, with a blank before it.
fn add_operand(n: u32, out: &mut List<u8>) -> Result<(), NoMemory>
    ensures { OnOk result (out.new ≡ out.old ++ 32 ∷ decimal n) }
{
    out.extend_from_slice(b" ")?;
    add_number(n as u64, out)
}

fn add_number(n: u64, out: &mut List<u8>) -> Result<(), NoMemory>
    ensures { OnOk result (out.new ≡ out.old ++ decimal n) }
{
    let mut buffer = Buffer::new();
    out.extend_from_slice(buffer.format(n).as_bytes())
}

/// Adds a register, with a blank before it.
fn add_register(r: u8, out: &mut List<u8>) -> Result<(), NoMemory>
    requires { r < 8 }
    ensures { OnOk result (out.new ≡ out.old ++ 32 ∷ spec.register r) }
{
    out.extend_from_slice(&[b' ', b'r', b'0' + r])
}

/// Adds the name of a number, with a blank before it.
fn add_name(names: &[Name], x: u32, out: &mut List<u8>) -> Result<(), NoMemory>
    requires { x < length names.now }
    ensures { OnOk result (out.new ≡ out.old ++ 32 ∷ spec.name names.now x) }
{
    out.extend_from_slice(b" ")?;
    out.extend_from_slice(names[x as usize].text())
}

fn sign(op: Op) -> &'static [u8]
    ensures { result.now ≡ spec.sign op }
{
    match op {
        Op::Add => b"+",
        Op::Sub => b"-",
        Op::Mul => b"*",
        Op::And => b"&",
        Op::Or => b"|",
        Op::Xor => b"^",
        Op::Eq => b"==",
        Op::Ne => b"!=",
        Op::Lt => b"<",
        Op::Le => b"<=",
        Op::Both => b"&&",
        Op::Either => b"||",
    }
}
