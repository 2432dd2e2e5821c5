//! The record of which variable each of the eight registers is kept for.

ghost use Rattle.std.specs.Prelude.{◌≡◌, ℕ, ◌<◌, ◌≤◌, length, IfSome, IsSome};
ghost use Rattle.regalloc.specs.PartRegisters.{IsForPart};
ghost use Rattle.regalloc.specs.Plan as spec;
ghost use Rattle.regalloc.specs.Stable.{KeepsStable};

use mode_state::ModeState;
use std::marker::Model;

/// Which variable each of the eight registers is kept for, by its id, or none: after the record of registers by Sison and
/// Murray. A register is kept for one variable at most, and a variable may have several registers. The calls only keep the
/// record: that a register has the word of its variable is up to the code beside which it is kept. No call takes memory.
#[derive(Drop)]
pub struct Plan {
    kept: [Option<u32>; 8],
}

impl Model for Plan {
    ghost use Rattle.std.specs.Prelude.{◌≡◌, ℕ, List, Option, length};

    ghost Value = { List (Option ℕ) };

    ghost view = { λ s. s.kept };

    ghost invariant = { λ s. length s.kept ≡ 8 };
}

impl Plan {
    /// The plan in which no register is kept for a variable: nothing is known of the registers.
    pub fn start() -> Self
        ensures { result ≡ spec.start }
    {
        Plan { kept: [None; 8] }
    }

    /// An equal plan.
    pub fn copy(&self) -> Self
        ensures { result ≡ self.now }
    {
        Plan { kept: self.kept }
    }

    /// The lowest register that is kept for a variable, from 0 to 7; None where there is none.
    pub fn held(&self, x: u32) -> Option<u8>
        ensures { result ≡ spec.held self.now x }
    {
        for r in 0..8 {
            if self.kept[r as usize] == Some(x) {
                return Some(r);
            }
        }
        None
    }

    /// A register is kept for a variable, and for nothing else, from now on: as after a load of the variable into it. Other
    /// registers that are kept for the variable stay so; after a store, `stored` comes first.
    pub fn keep(&mut self, x: u32, r: u8)
        requires { r < 8 }
        ensures { self.new ≡ spec.keep self.old x r }
    {
        self.kept[r as usize] = Some(x);
    }

    /// A register is kept for nothing from now on: as after another word came into it.
    pub fn spoil(&mut self, r: u8)
        requires { r < 8 }
        ensures { self.new ≡ spec.spoil self.old r }
    {
        self.kept[r as usize] = None;
    }

    /// No register is kept for a variable any longer: as after a store to it.
    pub fn stored(&mut self, x: u32)
        ensures { self.new ≡ spec.stored self.old x }
    {
        for r in 0..8 {
            if self.kept[r] == Some(x) {
                self.kept[r] = None;
            }
        }
    }

    /// Gives up what is kept for variables that aren't stable, as others may write them: as after a lock is given back. What is
    /// kept has to be for variables of the program of the modes, since of others they don't tell.
    pub fn restrict(&mut self, m: &ModeState)
        ensures { KeepsStable m.now self.old self.new }
    {
        for r in 0..8 {
            if let Some(x) = self.kept[r] {
                if !m.stable(x) {
                    self.kept[r] = None;
                }
            }
        }
    }

    /// Keeps what both plans keep, register by register: as where two branches meet.
    pub fn meet(&mut self, other: &Plan)
        ensures { self.new ≡ spec.meet self.old other.now }
    {
        for r in 0..8 {
            if other.kept[r] != self.kept[r] {
                self.kept[r] = None;
            }
        }
    }

    /// The register for a part of an expression at a depth, from 0 for the whole: the one of that rank among those of `r0` to
    /// `r6` that are kept for nothing, the lowest first. None where they are too few. (`r7` is for what isn't stable.)
    pub fn part(&self, depth: u32) -> Option<u8>
        ensures part { result ≡ spec.part self.now depth }
        ensures own { IfSome result (IsForPart self.now depth) }
    {
        let mut left = depth;
        for r in 0..7 {
            if self.kept[r as usize].is_none() {
                if left == 0 {
                    return Some(r);
                }
                left -= 1;
            }
        }
        None
    }

    /// Gives up what `r6` is kept for, then `r5` and so on, until `n` of `r0` to `r6` are kept for nothing, so that so many parts
    /// have registers. With `n` past 7 it gives up all that these are kept for.
    pub fn room(&mut self, n: u32)
        ensures room { self.new ≡ spec.room self.old n }
        ensures parts { n ≤ 7 → (depth : ℕ) → depth < n → IsSome (spec.part self.new depth) }
    {
        let mut r = 7;
        while r > 0 && self.free_count() < n {
            r -= 1;
            self.spoil(r);
        }
    }

    /// How many of `r0` to `r6` are kept for nothing.
    fn free_count(&self) -> u32
        ensures { result ≡ length (spec.frees self.now) }
    {
        self.kept[..7].iter().filter(|kept| kept.is_none()).count() as u32
    }
}
