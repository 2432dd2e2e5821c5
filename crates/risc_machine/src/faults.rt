//! The first fault of parts.

ghost use Rattle.std.specs.Prelude.{◌≡◌, ◌==◌, ◌++◌, ◌||◌, ◌<◌, [], length, map, None, Some};
ghost use Rattle.std.specs.List.{list_any};
ghost use Rattle.std.specs.Str.{bytes_eq};
ghost use Rattle.cov_expr.specs.Words.{IsWord};
ghost use Rattle.risc_machine.specs.Faults as spec;
ghost use Rattle.risc_machine.specs.Faults.{AreCounted};

use crate::parts::{CodeBad, Instr, Line, Parts, ThreadCode};
use cov_expr::Name;

/// The first fault of parts.
pub fn first_fault(parts: &Parts) -> Option<CodeBad>
    requires { AreCounted parts.now }
    ensures { result ≡ spec.fault_of parts.now }
{
    if !is_version(parts.version) {
        return Some(CodeBad::BadVersion(parts.version));
    }
    if let Some(name) = repeated_name(parts) {
        return Some(CodeBad::SameName(name));
    }
    faulty_line(parts)
}

/// The first fault of parts whose names are distinct.
pub fn first_other_fault(parts: &Parts) -> Option<CodeBad>
    requires counted { AreCounted parts.now }
    requires distinct { spec.repeated [] (spec.names_of parts.now) ≡ None }
    ensures { result ≡ spec.fault_of parts.now }
{
    if is_version(parts.version) {
        faulty_line(parts)
    } else {
        Some(CodeBad::BadVersion(parts.version))
    }
}

fn is_version(version: u8) -> bool
    ensures { result ≡ (version == 1 || version == 2) }
{
    version == 1 || version == 2
}

/// The first name that equals an earlier one.
fn repeated_name(parts: &Parts) -> Option<Name>
    ensures { result ≡ spec.repeated [] (spec.names_of parts.now) }
{
    let (vars, locks) = (parts.vars.as_slice(), parts.locks.as_slice());
    if let Some(name) = repeated_behind(&[], vars) {
        return Some(name);
    }
    if let Some(name) = repeated_behind(vars, locks) {
        return Some(name);
    }
    repeated_thread(vars, locks, parts.threads.as_slice())
}

/// The first of names that is one of others, or of those before it.
fn repeated_behind(others: &[Name], names: &[Name]) -> Option<Name>
    ensures { result ≡ spec.repeated others.now names.now }
{
    for (i, name) in names.iter().enumerate() {
        if has_name(others, name) || has_name(&names[..i], name) {
            return Some(*name);
        }
    }
    None
}

/// The first name of a thread that is one of others, or that of an earlier thread.
fn repeated_thread(vars: &[Name], locks: &[Name], threads: &[ThreadCode]) -> Option<Name>
    ensures { result ≡ spec.repeated (vars.now ++ locks.now) (spec.thread_names threads.now) }
{
    for (t, thread) in threads.iter().enumerate() {
        let name = &thread.name;
        if has_name(vars, name) || has_name(locks, name) || has_thread(&threads[..t], name) {
            return Some(*name);
        }
    }
    None
}

fn has_name(names: &[Name], name: &Name) -> bool
    ensures { result ≡ list_any (bytes_eq name.now) names.now }
{
    for other in names {
        if name == other {
            return true;
        }
    }
    false
}

fn has_thread(threads: &[ThreadCode], name: &Name) -> bool
    ensures { result ≡ list_any (bytes_eq name.now) (spec.thread_names threads.now) }
{
    for thread in threads {
        if *name == thread.name {
            return true;
        }
    }
    false
}

/// The first fault of a line, by thread and by position.
fn faulty_line(parts: &Parts) -> Option<CodeBad>
    requires { AreCounted parts.now }
    ensures { result ≡ spec.first_in (spec.thread_fault parts.now) 0 (parts.now).threads }
{
    for (t, thread) in parts.threads.as_slice().iter().enumerate() {
        if let Some(fault) = thread_fault(parts, t as u32, thread.lines.as_slice()) {
            return Some(fault);
        }
    }
    None
}

fn thread_fault(parts: &Parts, t: u32, lines: &[Line]) -> Option<CodeBad>
    requires { IsWord (length lines.now) }
    ensures { result ≡ spec.first_in (spec.line_fault parts.now t (length lines.now)) 0 lines.now }
{
    for (i, line) in lines.iter().enumerate() {
        if let Some(fault) = line_fault(parts, t, lines.len(), i as u32, line) {
            return Some(fault);
        }
    }
    None
}

fn line_fault(parts: &Parts, t: u32, lines: usize, i: u32, line: &Line) -> Option<CodeBad>
    ensures { result ≡ spec.line_fault parts.now t lines i line.now }
{
    let instr = line.instr;
    if line.weight > 2 {
        return Some(CodeBad::BadWeight(t, i));
    }
    if !has_registers(instr) {
        return Some(CodeBad::BadRegister(t, i));
    }
    if !has_variable(parts.vars.len(), instr) {
        return Some(CodeBad::BadVariable(t, i));
    }
    if !has_lock(parts.locks.len(), instr) {
        return Some(CodeBad::BadLock(t, i));
    }
    if !has_target(lines, instr) {
        return Some(CodeBad::BadTarget(t, i));
    }
    if !has_version(parts.version, instr) {
        return Some(CodeBad::BadOut(t, i));
    }
    None
}

/// Whether each register of an instruction is one.
fn has_registers(instr: Instr) -> bool
    ensures { result ≡ spec.has_registers instr }
{
    match instr {
        Instr::Load(r, _) | Instr::Store(_, r) | Instr::Jz(r, _) => r < 8,
        Instr::MovC(r, _) | Instr::Out(r) => r < 8,
        Instr::MovR(r, s) | Instr::Bin(_, r, s) => r < 8 && s < 8,
        Instr::Jump(_) | Instr::Nop | Instr::Acquire(_) | Instr::Release(_) => true,
    }
}

/// Whether its variable is one of so many.
fn has_variable(vars: usize, instr: Instr) -> bool
    ensures { result ≡ spec.has_variable vars instr }
{
    match instr {
        Instr::Load(_, x) | Instr::Store(x, _) => (x as usize) < vars,
        Instr::Jump(_) | Instr::Jz(_, _) | Instr::Nop => true,
        Instr::MovC(_, _) | Instr::MovR(_, _) | Instr::Bin(_, _, _) => true,
        Instr::Acquire(_) | Instr::Release(_) | Instr::Out(_) => true,
    }
}

/// Whether its lock is one of so many.
fn has_lock(locks: usize, instr: Instr) -> bool
    ensures { result ≡ spec.has_lock locks instr }
{
    match instr {
        Instr::Acquire(l) | Instr::Release(l) => (l as usize) < locks,
        Instr::Jump(_) | Instr::Jz(_, _) | Instr::Nop => true,
        Instr::MovC(_, _) | Instr::MovR(_, _) | Instr::Bin(_, _, _) => true,
        Instr::Load(_, _) | Instr::Store(_, _) | Instr::Out(_) => true,
    }
}

/// Whether its target is one of so many lines, or their end.
fn has_target(lines: usize, instr: Instr) -> bool
    ensures { result ≡ spec.has_target lines instr }
{
    match instr {
        Instr::Jump(i) | Instr::Jz(_, i) => i as usize <= lines,
        Instr::Load(_, _) | Instr::Store(_, _) | Instr::Nop => true,
        Instr::MovC(_, _) | Instr::MovR(_, _) | Instr::Bin(_, _, _) => true,
        Instr::Acquire(_) | Instr::Release(_) | Instr::Out(_) => true,
    }
}

/// Whether it stands in code of this version.
fn has_version(version: u8, instr: Instr) -> bool
    ensures { result ≡ spec.has_version version instr }
{
    match instr {
        Instr::Out(_) => 2 <= version,
        Instr::Load(_, _) | Instr::Store(_, _) => true,
        Instr::Jump(_) | Instr::Jz(_, _) | Instr::Nop => true,
        Instr::MovC(_, _) | Instr::MovR(_, _) | Instr::Bin(_, _, _) => true,
        Instr::Acquire(_) | Instr::Release(_) => true,
    }
}
