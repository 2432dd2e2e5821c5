//! What the threads of a running program share: memory, holders of locks and outputs.

ghost use Rattle.std.specs.Prelude.{◌≡◌, ◌<◌, is_some, set, length, replicate, IfOk, None};
ghost use Rattle.std.specs.Vec.{vec_capacity};
ghost use Rattle.flow_model.specs.FirstDifference.{holders_of};
ghost use Rattle.flow_model.specs.Source as spec;

use cov_expr::{List, NoMemory};
use flow_model::Holder;
use std::alloc::Global;

/// What the threads of a machine share: the memory, the holder of each lock, and what was put out, with room for more.
pub struct Shared {
    pub memory: List<u32>,
    pub holders: List<Holder>,
    pub said: Vec<u32>,
}

impl Drop for Shared {
    fn drop(self) {
        let Shared {
            memory,
            holders,
            said,
        } = self;
        drop(memory);
        drop(holders);
        drop(said);
    }
}

impl Shared {
    /// Whether anybody holds a lock.
    pub fn is_held(&self, l: u32) -> bool
        requires { l < length self.now.holders }
        ensures { result ≡ is_some (spec.holder (holders_of self.now.holders) l) }
    {
        self.holders.as_slice()[l as usize].0.is_some()
    }

    /// Whether a thread holds a lock.
    pub fn is_held_by(&self, l: u32, t: u32) -> bool
        requires { l < length self.now.holders }
        ensures { result ≡ spec.is_held_by (spec.holder (holders_of self.now.holders) l) t }
    {
        match self.holders.as_slice()[l as usize].0 {
            None => false,
            Some(u) => u == t,
        }
    }

    /// Gives a lock another holder, or none.
    pub fn set_holder(&mut self, l: u32, holder: Option<u32>)
        requires { l < length self.old.holders }
        ensures memory { self.new.memory ≡ self.old.memory }
        ensures holders { holders_of self.new.holders ≡ set (holders_of self.old.holders) l holder }
        ensures said { self.new.said ≡ self.old.said }
    {
        self.holders.set(l as usize, Holder(holder));
    }
}

/// Each of so many locks is free.
pub fn all_free(alloc: Global, count: usize) -> Result<List<Holder>, NoMemory>
    ensures { IfOk result (λ made. holders_of made ≡ replicate count None) }
{
    let mut holders = List::new(alloc);
    for _ in 0..count {
        holders.push(Holder(None))?;
    }
    Ok(holders)
}
