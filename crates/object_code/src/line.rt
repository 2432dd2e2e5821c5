//! Lines of an object, read from the front.

ghost use Rattle.std.specs.Prelude.{◌≡◌, ◌≤◌, ◌^◌};
ghost use Rattle.object_code.specs.Inside.Given.{Gives};
ghost use Rattle.object_code.specs.Inside.ObjectReading as spec;
ghost use Rattle.risc_machine.specs.declared.parts.Instr.TheVariants as instr;

use crate::field::{WORDS, byte_within, number_at};
use crate::opcode::{Declared, Head, Opcode, head_of, op_of};
use crate::stop::Stop;
use cov_expr::Op;
use risc_machine::{Instr, Line};

/// The line at the front.
#[tactic(auto, unfolding(crate::specs::Inside::ObjectReading::line_at))]
pub fn line_at(declared: Declared, bytes: &[u8]) -> Result<(Line, &[u8]), Stop>
    ensures { Gives (λ x. (x.0, x.1.now)) result (spec.line_at declared bytes.now) }
{
    let (head, rest) = head_at(declared, bytes)?;
    let (instr, rest) = operands_at(declared, head.opcode, rest)?;
    let weight = head.weight;
    Ok((Line { weight, instr }, rest))
}

#[tactic(auto, unfolding(crate::specs::Inside::ObjectReading::head_at))]
fn head_at(declared: Declared, bytes: &[u8]) -> Result<(Head, &[u8]), Stop>
    ensures { Gives (λ x. (x.0, x.1.now)) result (spec.head_at declared bytes.now) }
{
    match bytes {
        [] => Err(Stop::Left(0)),
        [byte, rest @ ..] => match head_of(declared, *byte) {
            Some(head) => Ok((head, rest)),
            None => Err(Stop::Left(bytes.len())),
        },
    }
}

/// What an instruction of a kind works on, and so the instruction.
#[tactic(auto, unfolding(crate::specs::Inside::ObjectReading::operands_at))]
fn operands_at(declared: Declared, opcode: Opcode, bytes: &[u8]) -> Result<(Instr, &[u8]), Stop>
    ensures { Gives (λ x. (x.0, x.1.now)) result (spec.operands_at declared opcode bytes.now) }
{
    match opcode {
        Opcode::Load => load_at(declared, bytes),
        Opcode::Store => store_at(declared, bytes),
        Opcode::Jump => jump_at(bytes),
        Opcode::Jz => jz_at(bytes),
        Opcode::Nop => Ok((Instr::Nop, bytes)),
        Opcode::MovC => movc_at(bytes),
        Opcode::MovR => movr_at(bytes),
        Opcode::Bin => bin_at(bytes),
        Opcode::Acquire => acquire_at(declared, bytes),
        Opcode::Release => release_at(declared, bytes),
        Opcode::Out => out_at(bytes),
    }
}

fn load_at(declared: Declared, bytes: &[u8]) -> Result<(Instr, &[u8]), Stop>
    ensures { Gives (λ x. (x.0, x.1.now)) result (spec.map_at (λ a. instr.Load a.0 a.1) (spec.register_number_at declared.vars) bytes.now) }
{
    let ((r, x), rest) = register_number_at(declared.vars as u64, bytes)?;
    Ok((Instr::Load(r, x), rest))
}

fn store_at(declared: Declared, bytes: &[u8]) -> Result<(Instr, &[u8]), Stop>
    ensures { Gives (λ x. (x.0, x.1.now)) result (spec.map_at (λ a. instr.Store a.1 a.0) (spec.register_number_at declared.vars) bytes.now) }
{
    let ((r, x), rest) = register_number_at(declared.vars as u64, bytes)?;
    Ok((Instr::Store(x, r), rest))
}

fn jump_at(bytes: &[u8]) -> Result<(Instr, &[u8]), Stop>
    ensures { Gives (λ x. (x.0, x.1.now)) result (spec.map_at instr.Jump (spec.number_at spec.words) bytes.now) }
{
    let (i, rest) = number_at(WORDS, bytes)?;
    Ok((Instr::Jump(i), rest))
}

fn jz_at(bytes: &[u8]) -> Result<(Instr, &[u8]), Stop>
    ensures { Gives (λ x. (x.0, x.1.now)) result (spec.map_at (λ a. instr.Jz a.0 a.1) (spec.register_number_at spec.words) bytes.now) }
{
    let ((r, i), rest) = register_number_at(WORDS, bytes)?;
    Ok((Instr::Jz(r, i), rest))
}

fn movc_at(bytes: &[u8]) -> Result<(Instr, &[u8]), Stop>
    ensures { Gives (λ x. (x.0, x.1.now)) result (spec.map_at (λ a. instr.MovC a.0 a.1) (spec.register_number_at spec.words) bytes.now) }
{
    let ((r, k), rest) = register_number_at(WORDS, bytes)?;
    Ok((Instr::MovC(r, k), rest))
}

fn movr_at(bytes: &[u8]) -> Result<(Instr, &[u8]), Stop>
    ensures { Gives (λ x. (x.0, x.1.now)) result (spec.map_at (λ a. instr.MovR a.0 a.1) spec.registers_at bytes.now) }
{
    let ((r, s), rest) = registers_at(bytes)?;
    Ok((Instr::MovR(r, s), rest))
}

fn bin_at(bytes: &[u8]) -> Result<(Instr, &[u8]), Stop>
    ensures { Gives (λ x. (x.0, x.1.now)) result (spec.then_at spec.operator_at (λ _. spec.registers_at) (λ o a. instr.Bin o a.0 a.1) bytes.now) }
{
    let (op, rest) = operator_at(bytes)?;
    let ((r, s), rest) = registers_at(rest)?;
    Ok((Instr::Bin(op, r, s), rest))
}

fn acquire_at(declared: Declared, bytes: &[u8]) -> Result<(Instr, &[u8]), Stop>
    ensures { Gives (λ x. (x.0, x.1.now)) result (spec.map_at instr.Acquire (spec.number_at declared.locks) bytes.now) }
{
    let (l, rest) = number_at(declared.locks as u64, bytes)?;
    Ok((Instr::Acquire(l), rest))
}

fn release_at(declared: Declared, bytes: &[u8]) -> Result<(Instr, &[u8]), Stop>
    ensures { Gives (λ x. (x.0, x.1.now)) result (spec.map_at instr.Release (spec.number_at declared.locks) bytes.now) }
{
    let (l, rest) = number_at(declared.locks as u64, bytes)?;
    Ok((Instr::Release(l), rest))
}

fn out_at(bytes: &[u8]) -> Result<(Instr, &[u8]), Stop>
    ensures { Gives (λ x. (x.0, x.1.now)) result (spec.map_at instr.Out spec.register_at bytes.now) }
{
    let (r, rest) = register_at(bytes)?;
    Ok((Instr::Out(r), rest))
}

#[tactic(auto, unfolding(crate::specs::Inside::ObjectReading::register_at))]
fn register_at(bytes: &[u8]) -> Result<(u8, &[u8]), Stop>
    ensures { Gives (λ x. (x.0, x.1.now)) result (spec.register_at bytes.now) }
{
    byte_within(0, 7, bytes)
}

#[tactic(auto, unfolding(crate::specs::Inside::ObjectReading::operator_at))]
fn operator_at(bytes: &[u8]) -> Result<(Op, &[u8]), Stop>
    ensures { Gives (λ x. (x.0, x.1.now)) result (spec.operator_at bytes.now) }
{
    match bytes {
        [] => Err(Stop::Left(0)),
        [byte, rest @ ..] => match op_of(*byte) {
            Some(op) => Ok((op, rest)),
            None => Err(Stop::Left(bytes.len())),
        },
    }
}

/// A register, and a number below a bound.
#[tactic(auto, unfolding(crate::specs::Inside::ObjectReading::register_number_at))]
fn register_number_at(below: u64, bytes: &[u8]) -> Result<((u8, u32), &[u8]), Stop>
    requires { below ≤ 2 ^ 32 }
    ensures { Gives (λ x. (x.0, x.1.now)) result (spec.register_number_at below bytes.now) }
{
    let (register, rest) = register_at(bytes)?;
    let (number, rest) = number_at(below, rest)?;
    Ok(((register, number), rest))
}

#[tactic(auto, unfolding(crate::specs::Inside::ObjectReading::registers_at))]
fn registers_at(bytes: &[u8]) -> Result<((u8, u8), &[u8]), Stop>
    ensures { Gives (λ x. (x.0, x.1.now)) result (spec.registers_at bytes.now) }
{
    let (first, rest) = register_at(bytes)?;
    let (second, rest) = register_at(rest)?;
    Ok(((first, second), rest))
}
