//! The code of a thread while it is made: its lines, the record of its registers, and its modes.

ghost use Rattle.std.specs.Prelude.{◌≡◌, ◌∷◌, ◌++◌, ◌<◌, ◌^◌, List, [], length, map, slice_set, OnOk};
ghost use Rattle.compiled_code.specs.Compiled as spec;
ghost use Rattle.regalloc.specs.Plan as plan;
ghost use Rattle.risc_compile.specs.Inside.{with_lines};
ghost use Rattle.risc_machine.specs.declared.parts.Instr.{Instr};
ghost use Rattle.risc_machine.specs.declared.parts.Line.{Line};

use cov_expr::{List, NoMemory};
use mode_state::ModeState;
use regalloc::Plan;
use risc_machine::{Instr, Line};
use std::alloc::Global;

/// The code of a thread while it is made: the lines so far, and what is known where they end, which variables registers
/// keep and in which modes the thread is (the register record and the assumption record of Sison and Murray's compiler).
#[derive(Drop)]
pub struct Emitter {
    pub lines: List<Line>,
    pub plan: Plan,
    pub modes: ModeState,
}

impl Emitter {
    /// No lines, at the start of a thread.
    pub fn new(alloc: Global, modes: ModeState) -> Self
        ensures { result ≡ record { lines = []; plan = plan.start; modes = modes } }
    {
        Emitter {
            lines: List::new(alloc),
            plan: Plan::start(),
            modes,
        }
    }

    /// Adds a line, which stands for so many steps of the source.
    pub fn push(&mut self, weight: u8, instr: Instr) -> Result<(), NoMemory>
        ensures { OnOk result (self.new ≡ with_lines self.old (spec.line weight instr ∷ [])) }
    {
        self.lines.push(Line { weight, instr })
    }

    /// The position of the next line.
    pub fn position(&self) -> u32
        requires { length (self.now).lines < 2 ^ 32 }
        ensures { result ≡ length (self.now).lines }
    {
        self.lines.len() as u32
    }

    /// Puts a line in the place of another.
    pub fn patch(&mut self, position: usize, line: Line)
        requires { position < length (self.old).lines }
        ensures { self.new ≡ record self.old { lines = slice_set (self.old).lines position line } }
    {
        self.lines.set(position, line);
    }

    /// Lets the line at a position, if there is one, stand for a step of the source.
    pub fn weigh(&mut self, position: usize)
        ensures length { length (self.new).lines ≡ length (self.old).lines }
        ensures code { (before : List Line) → (instrs : List Instr) → (self.old).lines ≡ before ++ map (spec.line 0) instrs → position ≡ length before
            → self.new ≡ record self.old { lines = before ++ spec.weigh instrs } }
    {
        if position < self.lines.len() {
            let instr = self.lines.as_slice()[position].instr;
            self.lines.set(position, Line { weight: 1, instr });
        }
    }
}
