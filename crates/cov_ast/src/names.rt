//! The table of the names of a text, each with its number.

ghost use Rattle.std.specs.Prelude.{◌≡◌, ◌<◌, [], length, slice_get, Some, IfSome, IsNone, IfOk, OnOk, OnErr, Contains};
ghost use Rattle.std.specs.List.{IsDistinct};
ghost use Rattle.std.specs.Str.{bytes_eq};
ghost use Rattle.cov_ast.specs.NameTables.{find_name, number_of, with_name};

use cov_expr::{Name, NoMemory};
use indexmap::IndexSet;
use std::alloc::Global;
use std::marker::Model;

/// Distinct names, each with its number in the order in which they were first added. Contracts see the list of names.
///
/// Names are looked up by hashing. The hash has a fixed seed, so somebody who picks names can make look-ups slow;
/// what they answer stays the same.
pub struct NameTable {
    names: IndexSet<Name>,
}

impl Drop for NameTable {
    fn drop(self) {
        let NameTable { names } = self;
        drop(names);
    }
}

impl Model for NameTable {
    ghost use Rattle.std.specs.Prelude.{List, ℕ, length, ◌<◌, ◌^◌};

    ghost Value = { List (List ℕ) };

    ghost view = { λ t. t.names.keys };

    ghost invariant = { λ t. length t.names.keys < 2 ^ 32 };
}

impl NameTable {
    /// An empty table, which takes no memory yet.
    pub fn new(alloc: Global) -> Self
        ensures { result ≡ [] }
    {
        NameTable {
            names: IndexSet::new(alloc),
        }
    }

    /// The number of a name, which is put last where it wasn't there. Where memory runs out the table stays as it was.
    pub fn add(&mut self, name: Name) -> Result<u32, NoMemory>
        requires { length self.old < 4294967295 }
        ensures number { IfOk result (λ id. id ≡ number_of self.old name) }
        ensures ok { OnOk result (self.new ≡ with_name self.old name) }
        ensures err { OnErr result (self.new ≡ self.old) }
    {
        let (id, _) = self.names.insert_full(name)?;
        Ok(id as u32)
    }

    /// How many names there are.
    pub fn len(&self) -> u32
        ensures len { result ≡ length self.now }
        ensures distinct { IsDistinct bytes_eq self.now }
    {
        self.names.len() as u32
    }

    /// The name of a number.
    pub fn name(&self, id: u32) -> Name
        requires { id < length self.now }
        ensures { slice_get self.now id ≡ Some result }
    {
        self.names.as_slice()[id as usize]
    }

    /// The number of a name. `None` comes exactly where the name isn't there.
    #[tactic(auto, using(crate::proofs::NameTables::found_is, crate::proofs::NameTables::none_is))]
    pub fn find(&self, name: Name) -> Option<u32>
        ensures found { IfSome result (λ id. slice_get self.now id ≡ Some name) }
        ensures number { result ≡ find_name self.now name }
        ensures none { IsNone result → Contains self.now name → ⊥ }
    {
        match self.names.get_index_of(&name) {
            Some(id) => Some(id as u32),
            None => None,
        }
    }

    /// An equal table.
    pub fn copy(&self, alloc: Global) -> Result<NameTable, NoMemory>
        ensures { IfOk result (λ made. made ≡ self.now) }
    {
        let mut made = NameTable::new(alloc);
        for number in 0..self.len() {
            let name = self.name(number);
            made.add(name)?;
        }
        Ok(made)
    }
}
