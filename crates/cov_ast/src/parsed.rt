//! What a text spells: a program, its names and where each is used.

ghost use Rattle.std.specs.Prelude.{◌≡◌};

use crate::decl::{LockDecl, ThreadDecl, VarDecl};
use crate::names::NameTable;
use cov_expr::List;

/// A name that is used in a text: its number in the name table, whether it is used as a lock, and its byte offset.
#[derive(Clone, Copy, PartialEq, Eq)]
pub struct NameUse {
    pub name: u32,
    pub lock: bool,
    pub at: u32,
}

/// What a text spells. Each variable and each lock is named by the number of its name in the name table, since which
/// declaration it means, if any, isn't known yet.
pub struct Parsed {
    /// The version of the language, 1 or 2.
    pub version: u8,
    pub names: NameTable,
    /// Every use of a name, in the order of the text.
    pub uses: List<NameUse>,
    pub vars: List<VarDecl>,
    pub locks: List<LockDecl>,
    pub threads: List<ThreadDecl>,
}

impl Drop for Parsed {
    fn drop(self) {
        let Parsed {
            version: _,
            names,
            uses,
            vars,
            locks,
            threads,
        } = self;
        drop(names);
        drop(uses);
        drop(vars);
        drop(locks);
        drop(threads);
    }
}

impl Parsed {
    /// Its version, variables, locks and threads. Names and their uses are dropped.
    pub fn into_parts(self) -> (u8, List<VarDecl>, List<LockDecl>, List<ThreadDecl>)
        ensures { result ≡ (self.version, self.vars, self.locks, self.threads) }
    {
        let Parsed {
            version,
            names,
            uses,
            vars,
            locks,
            threads,
        } = self;
        drop(names);
        drop(uses);
        (version, vars, locks, threads)
    }
}
