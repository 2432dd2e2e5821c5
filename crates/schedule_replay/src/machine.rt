//! What a machine gives to be replayed, and that the source machine and the RISC machine give it.

ghost use Rattle.std.specs.Prelude.{◌≡◌, ◌↔◌, ◌<◌, ℕ, false, length, IsTrue, MatchOption};
ghost use Rattle.flow_model.specs.FirstDifference.{holders_of};
ghost use Rattle.flow_model.specs.Runs.{has_moved};
ghost use Rattle.schedule_replay.specs.Inside as inside;
ghost use Rattle.schedule_replay.specs.Machines.{HasStepped, IsAlikeIn, IsFirstApartIn, IsQuiet, Semantics, Seen, answer_of, declared_by, shared_in};

use flow_model::{Holder, Stepped};
use risc_machine::{Instr, Line, Risc};
use source_machine::{Change, Source};

/// A machine that runs code, one step of a thread after another, over states that can be compared.
pub trait Machine {
    /// What it runs.
    ghost Code: { Type 0 };

    /// Its states.
    ghost State: { Type 0 };

    /// By what it runs.
    ghost semantics: { Semantics Code State };

    /// What contracts see of it.
    ghost seen: { Self → Seen Code State };

    /// One step of a thread, and whether it stayed where it is, or was finished.
    fn step(&mut self, t: u32) -> Stepped
        requires thread { t < (declared_by semantics (seen self.old)).threads }
        requires room { length (shared_in semantics (seen self.old)).outputs < (seen self.old).room }
        ensures stepped { HasStepped semantics (seen self.old) (seen self.new) t }
        ensures says { result ≡ answer_of semantics (seen self.old) t }
        ensures still { has_moved result ≡ false → (seen self.new).state ≡ (seen self.old).state };

    /// Whether the next step of a thread is surely quiet: two machines that agree do so after it, if the thread stands alike in both then.
    fn is_quiet(&self, t: u32) -> bool
        requires { t < (declared_by semantics (seen self.now)).threads }
        ensures { IsTrue result → IsQuiet semantics (seen self.now).code (seen self.now).state t };

    /// Whether a thread stands alike in another machine that runs the same.
    fn is_alike(&self, other: &Self, t: u32) -> bool
        requires code { (seen self.now).code ≡ (seen other.now).code }
        requires thread { t < (declared_by semantics (seen self.now)).threads }
        ensures { IsTrue result ↔ IsAlikeIn semantics (seen self.now).state (seen other.now).state t };

    /// The first thread that doesn't stand alike in another machine that runs the same.
    fn first_apart(&self, other: &Self) -> Option<u32>
        requires { (seen self.now).code ≡ (seen other.now).code }
        ensures { MatchOption result ((t : ℕ) → IsAlikeIn semantics (seen self.now).state (seen other.now).state t)
            (λ t. IsFirstApartIn semantics (seen self.now).state (seen other.now).state (declared_by semantics (seen self.now)).threads t) };

    /// The memory.
    fn memory(&self) -> &[u32]
        ensures memory { result.now ≡ (shared_in semantics (seen self.now)).memory }
        ensures length { length result.now ≡ (declared_by semantics (seen self.now)).vars };

    /// Who holds each lock.
    fn holders(&self) -> &[Holder]
        ensures holders { holders_of result.now ≡ (shared_in semantics (seen self.now)).holders }
        ensures length { length result.now ≡ (declared_by semantics (seen self.now)).locks };

    /// The words that were put out, the first in front.
    fn said(&self) -> &[u32]
        ensures { result.now ≡ (shared_in semantics (seen self.now)).outputs };
}

impl<'p> Machine for Source<'p> {
    ghost use Rattle.cov_ast.specs.declared.decl.Program.{Program};
    ghost use Rattle.flow_model.specs.Source.{Run};
    ghost use Rattle.schedule_replay.specs.Machines.{seen_source, source_semantics};

    ghost Code = { Program };

    ghost State = { Run };

    ghost semantics = { source_semantics };

    ghost seen = { seen_source };

    fn step(&mut self, t: u32) -> Stepped {
        self.step(t)
    }

    fn is_quiet(&self, t: u32) -> bool {
        is_quiet(self.change(t))
    }

    fn is_alike(&self, other: &Source<'p>, t: u32) -> bool {
        self.same_list(other, t)
    }

    fn first_apart(&self, other: &Source<'p>) -> Option<u32> {
        self.same_lists(other)
    }

    fn memory(&self) -> &[u32] {
        self.memory()
    }

    fn holders(&self) -> &[Holder] {
        self.holders()
    }

    fn said(&self) -> &[u32] {
        self.said()
    }
}

impl<'c> Machine for Risc<'c> {
    ghost use Rattle.risc_machine.specs.Machine.{CodeState};
    ghost use Rattle.risc_machine.specs.declared.parts.Parts.{Parts};
    ghost use Rattle.schedule_replay.specs.Machines.{code_semantics, seen_code};

    ghost Code = { Parts };

    ghost State = { CodeState };

    ghost semantics = { code_semantics };

    ghost seen = { seen_code };

    fn step(&mut self, t: u32) -> Stepped {
        self.step(t)
    }

    fn is_quiet(&self, t: u32) -> bool {
        is_quiet_line(self.next_line(t))
    }

    fn is_alike(&self, other: &Risc<'c>, t: u32) -> bool {
        self.pc(t) == other.pc(t)
    }

    fn first_apart(&self, other: &Risc<'c>) -> Option<u32> {
        self.same_positions(other)
    }

    fn memory(&self) -> &[u32] {
        self.memory()
    }

    fn holders(&self) -> &[Holder] {
        self.holders()
    }

    fn said(&self) -> &[u32] {
        self.said()
    }
}

/// Whether a step changes nothing but what remains of its thread.
fn is_quiet(change: Change) -> bool
    ensures { result ≡ inside.is_quiet change }
{
    match change {
        Change::Nothing => true,
        Change::Word(_) | Change::Holder(_) | Change::Outputs => false,
    }
}

/// Whether a line changes nothing but registers and the position of its thread.
fn is_quiet_line(line: Option<Line>) -> bool
    ensures { result ≡ inside.is_quiet_line line }
{
    match line {
        None => true,
        Some(line) => is_quiet_instr(line.instr),
    }
}

fn is_quiet_instr(instr: Instr) -> bool
    ensures { result ≡ inside.is_quiet_instr instr }
{
    match instr {
        Instr::Load(_, _) | Instr::MovC(_, _) | Instr::MovR(_, _) | Instr::Bin(_, _, _) => true,
        Instr::Jump(_) | Instr::Jz(_, _) | Instr::Nop => true,
        Instr::Store(_, _) | Instr::Acquire(_) | Instr::Release(_) | Instr::Out(_) => false,
    }
}
