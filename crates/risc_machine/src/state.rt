//! The state of the RISC machine, and what each instruction does to it.

ghost use Rattle.std.specs.Prelude.{◌≡◌, ◌+◌, ◌<◌, length, get_or, set, is_some, not, IsTrue, vec_capacity, vec_len, if◌then◌else◌};
ghost use Rattle.flow_model.specs.FirstDifference.{holders_of};
ghost use Rattle.flow_model.specs.Source.{holder, is_held_by};
ghost use Rattle.cov_expr.specs.Term.{is_set};
ghost use Rattle.cov_expr.specs.Words.{IsWord};
ghost use Rattle.risc_machine.specs.Faults.{has_registers, has_variable, has_lock};
ghost use Rattle.risc_machine.specs.Machine as spec;
ghost use Rattle.risc_machine.specs.Inside.{code_state, room_of};

use crate::parts::Instr;
use cov_expr::{List, apply};
use flow_model::{Holder, Stepped};

/// What a machine keeps while it runs: what threads share, and the registers and the position of each.
pub struct State {
    pub memory: List<u32>,
    pub holders: List<Holder>,
    pub said: Vec<u32>,
    pub registers: List<[u32; 8]>,
    pub positions: List<u32>,
}

impl Drop for State {
    fn drop(self) {
        let State {
            memory,
            holders,
            said,
            registers,
            positions,
        } = self;
        drop(memory);
        drop(holders);
        drop(said);
        drop(registers);
        drop(positions);
    }
}

impl State {
    /// Runs an instruction of thread `t`, and says whether it stayed.
    pub fn run(&mut self, instr: Instr, t: u32) -> Stepped
        requires registers { IsTrue (has_registers instr) }
        requires variable { IsTrue (has_variable (length self.old.memory) instr) }
        requires lock { IsTrue (has_lock (length self.old.holders) instr) }
        requires row { t < length self.old.registers }
        requires place { t < length self.old.positions }
        requires next { IsWord (get_or self.old.positions t 0 + 1) }
        requires room { vec_len self.old.said < vec_capacity self.old.said }
        ensures state { code_state self.new ≡ spec.after_instr (code_state self.old) t instr }
        ensures says { result ≡ spec.instr_says (code_state self.old) t instr }
        ensures room { room_of self.new ≡ room_of self.old }
    {
        if stays(self.holders.as_slice(), instr, t) {
            return Stepped::Stayed;
        }
        let next = self.next(instr, t);
        self.act(instr, t);
        self.positions.set(t as usize, next);
        Stepped::Moved
    }

    /// Where a thread goes on behind an instruction that doesn't stay.
    fn next(&self, instr: Instr, t: u32) -> u32
        requires registers { IsTrue (has_registers instr) }
        requires row { t < length (self.now).registers }
        requires place { t < length (self.now).positions }
        requires next { IsWord (get_or (self.now).positions t 0 + 1) }
        ensures { result ≡ spec.next_position (code_state self.now) t instr }
    {
        let here = self.positions.as_slice()[t as usize];
        match instr {
            Instr::Jump(target) => target,
            Instr::Jz(r, target) => {
                if is_zero(self.register(t, r)) {
                    target
                } else {
                    here + 1
                }
            }
            Instr::Load(_, _) | Instr::Store(_, _) | Instr::Nop => here + 1,
            Instr::MovC(_, _) | Instr::MovR(_, _) | Instr::Bin(_, _, _) => here + 1,
            Instr::Acquire(_) | Instr::Release(_) | Instr::Out(_) => here + 1,
        }
    }

    /// Does what an instruction does, but for the position.
    fn act(&mut self, instr: Instr, t: u32)
        requires registers { IsTrue (has_registers instr) }
        requires variable { IsTrue (has_variable (length self.old.memory) instr) }
        requires lock { IsTrue (has_lock (length self.old.holders) instr) }
        requires row { t < length self.old.registers }
        requires room { vec_len self.old.said < vec_capacity self.old.said }
        ensures state { code_state self.new ≡ spec.effect (code_state self.old) t instr }
        ensures room { room_of self.new ≡ room_of self.old }
    {
        match instr {
            Instr::Load(r, x) => {
                let word = self.memory.as_slice()[x as usize];
                self.put(t, r, word);
            }
            Instr::Store(x, r) => {
                let word = self.register(t, r);
                self.memory.set(x as usize, word);
            }
            Instr::Jump(_) | Instr::Jz(_, _) | Instr::Nop => {}
            Instr::MovC(r, word) => self.put(t, r, word),
            Instr::MovR(r, s) => {
                let word = self.register(t, s);
                self.put(t, r, word);
            }
            Instr::Bin(op, r, s) => {
                let word = apply(op, self.register(t, r), self.register(t, s));
                self.put(t, r, word);
            }
            Instr::Acquire(l) => set_holder(&mut self.holders, l, Some(t)),
            Instr::Release(l) => set_holder(&mut self.holders, l, None),
            Instr::Out(r) => {
                let word = self.register(t, r);
                self.said.push_reserved(word);
            }
        }
    }

    /// The word of a register of a thread.
    fn register(&self, t: u32, r: u8) -> u32
        requires row { t < length (self.now).registers }
        requires register { r < 8 }
        ensures { result ≡ spec.register (code_state self.now) t r }
    {
        self.registers.as_slice()[t as usize][r as usize]
    }

    /// Puts a word in a register of a thread.
    fn put(&mut self, t: u32, r: u8, word: u32)
        requires row { t < length self.old.registers }
        requires register { r < 8 }
        ensures state { code_state self.new ≡ spec.with_register (code_state self.old) t r word }
        ensures room { room_of self.new ≡ room_of self.old }
    {
        let mut row = self.registers.as_slice()[t as usize];
        row[r as usize] = word;
        self.registers.set(t as usize, row);
    }
}

fn is_zero(word: u32) -> bool
    ensures { is_set word ≡ not result }
{
    word == 0
}

/// Whether an instruction of a thread stays where it is.
fn stays(holders: &[Holder], instr: Instr, t: u32) -> bool
    requires { IsTrue (has_lock (length holders.now) instr) }
    ensures { result ≡ spec.code_stays t (holders_of holders.now) instr }
{
    match instr {
        Instr::Acquire(l) => is_held(holders, l),
        Instr::Release(l) => !is_held_by(holders, l, t),
        Instr::Load(_, _) | Instr::Store(_, _) | Instr::Out(_) => false,
        Instr::Jump(_) | Instr::Jz(_, _) | Instr::Nop => false,
        Instr::MovC(_, _) | Instr::MovR(_, _) | Instr::Bin(_, _, _) => false,
    }
}

fn is_held(holders: &[Holder], l: u32) -> bool
    requires { l < length holders.now }
    ensures { result ≡ is_some (holder (holders_of holders.now) l) }
{
    holders[l as usize].0.is_some()
}

fn is_held_by(holders: &[Holder], l: u32, t: u32) -> bool
    requires { l < length holders.now }
    ensures { result ≡ is_held_by (holder (holders_of holders.now) l) t }
{
    match holders[l as usize].0 {
        None => false,
        Some(u) => u == t,
    }
}

fn set_holder(holders: &mut List<Holder>, l: u32, holder: Option<u32>)
    requires { l < length holders.old }
    ensures { holders_of holders.new ≡ set (holders_of holders.old) l holder }
{
    holders.set(l as usize, Holder(holder));
}
