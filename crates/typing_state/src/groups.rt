//! Which variables the types mention, by groups of variables that have them.

ghost use Rattle.std.specs.Prelude.{◌≡◌, ◌<◌, ◌≤◌, ◌/◌, ℕ, [], Some, false, get_or, option_map, replicate, true, IfOk};
ghost use Rattle.cov_expr.specs.View.{term};
ghost use Rattle.cov_expr.specs.declared.limits.TheConstants.{MOST_VARIABLES};
ghost use Rattle.cov_ast.specs.Tables.{has};
ghost use Rattle.typing_state.specs.Groups.{is_free};
ghost use Rattle.typing_state.specs.declared.groups.TheConstants.{GROUPS, GROUP_SIZE};

use crate::types::Type;
use cov_expr::{List, MOST_VARIABLES, NoMemory};
use mode_state::Mask;
use std::alloc::Global;
use std::marker::Model;
use std::rc::Rc;

/// How many variables in turn are a group.
pub const GROUP_SIZE: u32 = 16;

/// How many groups the variables of a program are at most.
const GROUPS: usize = 16;

/// Of each group of variables a set of variables, among which are those that their types mention. Contracts see the list of the
/// sets.
#[derive(Drop)]
pub struct Groups {
    sets: List<Mask>,
}

impl Model for Groups {
    ghost use Rattle.std.specs.Prelude.{◌≡◌, ◌<◌, ℕ, [], Bool, List, get_or, length};
    ghost use Rattle.cov_expr.specs.declared.limits.TheConstants.{MOST_VARIABLES};
    ghost use Rattle.typing_state.specs.declared.groups.TheConstants.{GROUPS};

    ghost Value = { List (List Bool) };

    ghost view = { λ s. s.sets };

    ghost invariant = { λ s. (length s.sets ≡ GROUPS) × ((g : ℕ) → g < GROUPS → length (get_or s.sets g []) ≡ MOST_VARIABLES) };
}

impl Groups {
    /// Groups whose types mention nothing.
    pub fn new(alloc: Global) -> Result<Self, NoMemory>
        ensures { IfOk result (λ made. made ≡ replicate GROUPS (replicate MOST_VARIABLES false)) }
    {
        let mut sets = List::with_capacity(alloc, GROUPS)?;
        for _i in 0..GROUPS {
            sets.push(Mask::new(MOST_VARIABLES as u32))?;
        }
        Ok(Groups { sets })
    }

    /// Equal sets.
    pub fn copy(&self, alloc: Global) -> Result<Self, NoMemory>
        ensures { IfOk result (λ made. made ≡ self.now) }
    {
        let mut sets = List::with_capacity(alloc, GROUPS)?;
        for set in self.sets.as_slice() {
            sets.push(set.copy())?;
        }
        Ok(Groups { sets })
    }

    /// Whether the types of a group may mention a variable.
    fn has(&self, group: usize, x: u32) -> bool
        requires { group < GROUPS }
        ensures { result ≡ has (get_or self.now group []) x }
    {
        self.sets.as_slice()[group].has(x)
    }

    /// The first group from one on whose types may mention a variable, or how many groups there are.
    pub fn next_with(&self, x: u32, from: usize) -> usize
        requires { from < GROUPS }
        ensures within { (from ≤ result) × (result ≤ GROUPS) }
        ensures passed { (g : ℕ) → from ≤ g → g < result → has (get_or self.now g []) x ≡ false }
    {
        for group in from..GROUPS {
            if self.has(group, x) {
                return group;
            }
        }
        GROUPS
    }

    /// Adds to the group of a variable what its type mentions. Variables past those of a program have no group.
    pub fn mark(&mut self, index: usize, q: &Option<Rc<Type, Global>>)
        ensures kept { (g x : ℕ) → has (get_or self.new g []) x ≡ false → has (get_or self.old g []) x ≡ false }
        ensures free { (x : ℕ) → index < MOST_VARIABLES → x < MOST_VARIABLES → has (get_or self.new (index / GROUP_SIZE) []) x ≡ false → is_free x (option_map (λ q. term q.value) q.now) ≡ true }
    {
        match q {
            Some(q) if index < MOST_VARIABLES => self.mark_type(
                index / GROUP_SIZE as usize,
                q.as_ref(),
            ),
            Some(_) | None => {}
        }
    }

    /// Adds to a group what a type mentions.
    fn mark_type(&mut self, group: usize, q: &Type)
        requires { group < GROUPS }
        ensures kept { (g x : ℕ) → has (get_or self.new g []) x ≡ false → has (get_or self.old g []) x ≡ false }
        ensures free { (x : ℕ) → x < MOST_VARIABLES → has (get_or self.new group []) x ≡ false → is_free x (Some (term q.now)) ≡ true }
    {
        if q.is_closed() {
            return;
        }
        let mut marked = self.sets.as_slice()[group].copy();
        q.add_mentioned(&mut marked);
        self.sets.set(group, marked);
    }
}
