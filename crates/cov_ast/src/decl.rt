//! Programs and their declarations: variables, locks and threads.

ghost use Rattle.std.specs.Prelude.{◌≡◌, ◌<◌, length, get_or, IfOk};
ghost use Rattle.cov_ast.specs.Syntax.{Thread};
ghost use Rattle.cov_ast.specs.View.{block, program, lock};
ghost use Rattle.cov_ast.specs.Tables.{table};
ghost use Rattle.cov_ast.specs.Plain.{plain};
ghost use Rattle.cov_ast.specs.Declarations.{name_of, lists};

use crate::sets::NumberSet;
use crate::stmt::Stmt;
use cov_expr::{Expr, List, Name, NoMemory, has_number};
use std::alloc::Global;

/// What an observer may learn of a variable (value-dependent classification, as in COVERN).
pub enum Class {
    /// Its word: two runs are compared on it.
    Low,
    /// Nothing.
    High,
    /// Its word while the expression holds. The variables of the expression are the controls of the variable.
    When(Expr),
}

impl Drop for Class {
    fn drop(self) {
        match self {
            Class::Low | Class::High => {}
            Class::When(e) => drop(e),
        }
    }
}

/// A variable: its name, the byte offset of the name, and its class.
pub struct VarDecl {
    pub name: Name,
    pub at: u32,
    pub class: Class,
}

impl Drop for VarDecl {
    fn drop(self) {
        let VarDecl {
            name: _,
            at: _,
            class,
        } = self;
        drop(class);
    }
}

/// A lock, with what it stands for.
pub struct LockDecl {
    pub name: Name,
    pub at: u32,
    /// Variables that nobody but the holder writes.
    pub nowrite: List<u32>,
    /// Variables that nobody but the holder reads or writes.
    pub hide: List<u32>,
    /// What holds of these variables while the lock is free.
    pub inv: Option<Expr>,
}

impl Drop for LockDecl {
    fn drop(self) {
        let LockDecl {
            name: _,
            at: _,
            nowrite,
            hide,
            inv,
        } = self;
        drop(nowrite);
        drop(hide);
        drop(inv);
    }
}

/// What a thread assumes of the others and guarantees to them, for its whole life (the modes of Mantel, Sands and
/// Sudbrock; `hide`, as in COVERN, is about reading and writing).
pub struct Modes {
    /// Others don't write these.
    pub assume_nowrite: List<u32>,
    /// Others neither read nor write these.
    pub assume_hide: List<u32>,
    /// This thread doesn't write these.
    pub guarantee_nowrite: List<u32>,
    /// This thread neither reads nor writes these.
    pub guarantee_hide: List<u32>,
}

impl Drop for Modes {
    fn drop(self) {
        let Modes {
            assume_nowrite,
            assume_hide,
            guarantee_nowrite,
            guarantee_hide,
        } = self;
        drop(assume_nowrite);
        drop(assume_hide);
        drop(guarantee_nowrite);
        drop(guarantee_hide);
    }
}

/// A thread: its name with the byte offset, its modes, its statements, and the byte offset of its closing brace.
pub struct ThreadDecl {
    pub name: Name,
    pub at: u32,
    pub modes: Modes,
    pub body: List<Stmt>,
    pub end: u32,
}

impl Drop for ThreadDecl {
    fn drop(self) {
        let ThreadDecl {
            name: _,
            at: _,
            modes,
            body,
            end: _,
        } = self;
        drop(modes);
        drop(body);
    }
}

/// A program, in which variables, locks and threads are named by id: how many of their kind are declared before.
pub struct Program {
    /// The version of the language, 1 or 2; in version 1 nothing is put out.
    pub version: u8,
    pub vars: List<VarDecl>,
    pub locks: List<LockDecl>,
    pub threads: List<ThreadDecl>,
}

impl Drop for Program {
    fn drop(self) {
        let Program {
            version: _,
            vars,
            locks,
            threads,
        } = self;
        drop(vars);
        drop(locks);
        drop(threads);
    }
}

impl LockDecl {
    /// The variables that stand in a list of the lock, of those below a bound.
    pub fn listed(&self, alloc: Global, bound: usize) -> Result<NumberSet, NoMemory>
        ensures { IfOk result (λ made. made ≡ table bound (lists (lock self.now))) }
    {
        NumberSet::of_both(alloc, bound, self.nowrite.as_slice(), self.hide.as_slice())
    }

    /// Whether a variable stands in a list of the lock.
    pub fn lists(&self, x: u32) -> bool
        ensures { result ≡ lists (lock self.now) x }
    {
        has_number(self.nowrite.as_slice(), x) || has_number(self.hide.as_slice(), x)
    }
}

impl Program {
    /// The name of a variable.
    #[tactic(auto, using(crate::proofs::ViewLaws::var_name))]
    pub fn var_name(&self, x: u32) -> Name
        requires { x < length self.now.vars }
        ensures { result ≡ name_of (plain (program self.now)) x }
    {
        self.vars.as_slice()[x as usize].name
    }

    /// The statements of a thread.
    pub fn body_of(&self, t: u32) -> &[Stmt]
        requires { t < length self.now.threads }
        ensures { (past_the_end : Thread) → block result.now ≡ (get_or (program self.now).threads t past_the_end).body }
    {
        self.threads.as_slice()[t as usize].body.as_slice()
    }
}
