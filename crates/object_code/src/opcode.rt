//! Kinds of instructions, by their numbers, and the places of operators.

ghost use Rattle.std.specs.Prelude.{◌≡◌, ◌<◌};
ghost use Rattle.object_code.specs.Inside.ObjectReading as spec;
ghost use Rattle.object_code.specs.Object as object;

use cov_expr::Op;
use risc_machine::Instr;

/// A kind of instruction.
#[derive(Clone, Copy)]
pub enum Opcode {
    Load,
    Store,
    Jump,
    Jz,
    Nop,
    MovC,
    MovR,
    Bin,
    Acquire,
    Release,
    Out,
}

/// The first byte of a line: the weight and the kind.
#[derive(Clone, Copy)]
pub struct Head {
    pub weight: u8,
    pub opcode: Opcode,
}

/// What stands before threads: the version, and how many variables and locks there are.
#[derive(Clone, Copy)]
pub struct Declared {
    pub version: u8,
    pub vars: u32,
    pub locks: u32,
}

/// The weight and the kind for which a byte stands, where a line may begin with it.
#[tactic(auto, unfolding(crate::specs::Inside::ObjectReading::head_of))]
pub fn head_of(declared: Declared, byte: u8) -> Option<Head>
    ensures { result ≡ spec.head_of declared byte }
{
    if byte >= 48 {
        return None;
    }
    match opcode_of(byte % 16) {
        None => None,
        Some(opcode) => {
            if is_allowed(declared, opcode) {
                Some(Head {
                    weight: byte / 16,
                    opcode,
                })
            } else {
                None
            }
        }
    }
}

/// Whether an instruction of a kind can stand in code that declares so much.
fn is_allowed(declared: Declared, opcode: Opcode) -> bool
    ensures { result ≡ spec.is_allowed declared opcode }
{
    match opcode {
        Opcode::Load | Opcode::Store => declared.vars > 0,
        Opcode::Jump | Opcode::Jz | Opcode::Nop => true,
        Opcode::MovC | Opcode::MovR | Opcode::Bin => true,
        Opcode::Acquire | Opcode::Release => declared.locks > 0,
        Opcode::Out => 2 <= declared.version,
    }
}

fn opcode_of(number: u8) -> Option<Opcode>
    ensures { result ≡ spec.opcode_of number }
{
    match number {
        0 => Some(Opcode::Load),
        1 => Some(Opcode::Store),
        2 => Some(Opcode::Jump),
        3 => Some(Opcode::Jz),
        4 => Some(Opcode::Nop),
        5 => Some(Opcode::MovC),
        6 => Some(Opcode::MovR),
        7 => Some(Opcode::Bin),
        8 => Some(Opcode::Acquire),
        9 => Some(Opcode::Release),
        10 => Some(Opcode::Out),
        _ => None,
    }
}

/// The operator with a place.
pub fn op_of(place: u8) -> Option<Op>
    ensures { result ≡ spec.op_of place }
{
    match place {
        0 => Some(Op::Add),
        1 => Some(Op::Sub),
        2 => Some(Op::Mul),
        3 => Some(Op::And),
        4 => Some(Op::Or),
        5 => Some(Op::Xor),
        6 => Some(Op::Eq),
        7 => Some(Op::Ne),
        8 => Some(Op::Lt),
        9 => Some(Op::Le),
        10 => Some(Op::Both),
        11 => Some(Op::Either),
        _ => None,
    }
}

/// The number of the kind of an instruction.
pub fn opcode_number(instr: Instr) -> u8
    ensures number { result ≡ object.opcode instr }
    ensures small { result < 16 }
{
    match instr {
        Instr::Load(_, _) => 0,
        Instr::Store(_, _) => 1,
        Instr::Jump(_) => 2,
        Instr::Jz(_, _) => 3,
        Instr::Nop => 4,
        Instr::MovC(_, _) => 5,
        Instr::MovR(_, _) => 6,
        Instr::Bin(_, _, _) => 7,
        Instr::Acquire(_) => 8,
        Instr::Release(_) => 9,
        Instr::Out(_) => 10,
    }
}

/// The place of an operator among all of them.
pub fn place(op: Op) -> u8
    ensures { result ≡ object.place op }
{
    match op {
        Op::Add => 0,
        Op::Sub => 1,
        Op::Mul => 2,
        Op::And => 3,
        Op::Or => 4,
        Op::Xor => 5,
        Op::Eq => 6,
        Op::Ne => 7,
        Op::Lt => 8,
        Op::Le => 9,
        Op::Both => 10,
        Op::Either => 11,
    }
}
