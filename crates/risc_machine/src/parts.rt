//! The parts of a code: instructions, lines and threads, and what can be wrong with them.

use cov_expr::{List, Name, Op};

/// An instruction. Registers are numbered from 0 to 7, variables and locks in order of declaration, and the positions of a
/// thread from 0.
#[derive(Clone, Copy)]
pub enum Instr {
    /// The register becomes the word of the variable.
    Load(u8, u32),
    /// The variable becomes the register.
    Store(u32, u8),
    /// Goes on at this position.
    Jump(u32),
    /// Goes on at this position where the register is 0, else at the next.
    Jz(u8, u32),
    /// Nothing.
    Nop,
    /// The register becomes this word.
    MovC(u8, u32),
    /// The first register becomes the second.
    MovR(u8, u8),
    /// The first register becomes what the operator gives of both.
    Bin(Op, u8, u8),
    /// Takes a free lock. It stays where anybody holds the lock.
    Acquire(u32),
    /// Frees a lock that the thread holds, else it stays.
    Release(u32),
    /// Puts out the register.
    Out(u8),
}

/// An instruction, and for how many source steps of its thread it stands: 0, 1 or 2.
#[derive(Clone, Copy)]
pub struct Line {
    pub weight: u8,
    pub instr: Instr,
}

/// The code of a thread.
pub struct ThreadCode {
    pub name: Name,
    pub lines: List<Line>,
}

impl Drop for ThreadCode {
    fn drop(self) {
        let ThreadCode { name: _, lines } = self;
        drop(lines);
    }
}

/// The parts of a code. Only code of version 2 puts out words.
pub struct Parts {
    pub version: u8,
    pub vars: List<Name>,
    pub locks: List<Name>,
    pub threads: List<ThreadCode>,
}

impl Drop for Parts {
    fn drop(self) {
        let Parts {
            version: _,
            vars,
            locks,
            threads,
        } = self;
        drop(vars);
        drop(locks);
        drop(threads);
    }
}

/// A fault of parts. Where there are two numbers, these are the thread and the position of a line.
#[derive(Clone, Copy, Debug)]
pub enum CodeBad {
    /// The version is neither 1 nor 2.
    BadVersion(u8),
    /// This name equals an earlier one.
    SameName(Name),
    /// The weight is more than 2.
    BadWeight(u32, u32),
    /// A register is more than 7.
    BadRegister(u32, u32),
    /// The variable isn't declared.
    BadVariable(u32, u32),
    /// The lock isn't declared.
    BadLock(u32, u32),
    /// The target is past the end of the thread. The end itself is allowed.
    BadTarget(u32, u32),
    /// A word is put out in code of version 1.
    BadOut(u32, u32),
}
