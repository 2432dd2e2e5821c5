//! The uses of names in parts of a text that stay.

ghost use Rattle.std.specs.Prelude.{◌≡◌, ◌++◌, flat_map, map, OnOk};
ghost use Rattle.cov_expr.specs.View.{term};
ghost use Rattle.cov_ast.specs.Ready.{as_variable, uses_in, uses_in_class, uses_in_lock, uses_in_modes, uses_in_state, uses_in_type};
ghost use Rattle.cov_ast.specs.View as view;
ghost use Rattle.statement_parts.specs.Parts as table;
ghost use Rattle.annotate.specs.AnnotatedText.{parts_around, uses_in_store};
ghost use Rattle.annotate.specs.Inside.Going.{Goes, Makes};
ghost use Rattle.annotate.specs.declared.uses.Way.TheVariants.{Keep};

use crate::uses::{Uses, Way};
use cov_ast::{Class, LockDecl, Modes, Retype, State, VarDecl};
use cov_expr::{Expr, NoMemory};
use statement_parts::{Parts, Store};

impl Uses<'_> {
    /// Uses of variables.
    fn keep_variables(&mut self, xs: &[u32]) -> Result<(), NoMemory>
        ensures { OnOk result (Goes Keep (flat_map as_variable xs.now) self.old self.new) }
    {
        for x in xs {
            self.variable(Way::Keep, *x)?;
        }
        Ok(())
    }

    /// The uses in a type, with that of its variable.
    fn keep_type(&mut self, x: u32, e: &Expr) -> Result<(), NoMemory>
        ensures { OnOk result (Goes Keep (uses_in_type (x, term e.now)) self.old self.new) }
    {
        self.variable(Way::Keep, x)?;
        self.expr(Way::Keep, e)
    }

    /// The uses in types, one after another.
    fn keep_types(&mut self, types: &[(u32, Expr)]) -> Result<(), NoMemory>
        ensures { OnOk result (Goes Keep (flat_map uses_in_type (map view.typed types.now)) self.old self.new) }
    {
        for ty in types {
            self.keep_type(ty.0, &ty.1)?;
        }
        Ok(())
    }

    /// The uses in new types of variables.
    fn keep_retypes(&mut self, retypes: &[Retype]) -> Result<(), NoMemory>
        ensures { OnOk result (Goes Keep (flat_map uses_in_type (map view.retype retypes.now)) self.old self.new) }
    {
        for retype in retypes {
            self.keep_type(retype.var, &retype.class)?;
        }
        Ok(())
    }

    /// The uses in the parts of a statement without blocks, of which it has one, or none.
    #[tactic(auto, using(crate::proofs::GoingLaws::gone_nothing, crate::proofs::GoingLaws::one_use, crate::proofs::StatementUses::stay))]
    pub fn keep_parts(&mut self, parts: &Parts<'_>) -> Result<(), NoMemory>
        ensures { OnOk result (Makes (parts_around (table.parts_of parts.now) table.of_none) self.old self.new) }
    {
        if let Some(store) = &parts.store {
            return self.keep_store(store);
        }
        if parts.taken.is_some() || parts.returned.is_some() {
            return self.keep();
        }
        if let Some(e) = parts.printed {
            return self.expr(Way::Keep, e);
        }
        match parts.state {
            Some(state) => self.keep_state(state),
            None => Ok(()),
        }
    }

    /// The uses in what is stored.
    fn keep_store(&mut self, store: &Store<'_>) -> Result<(), NoMemory>
        ensures { OnOk result (Goes Keep (uses_in_store (table.store_of store.now)) self.old self.new) }
    {
        self.variable(Way::Keep, store.variable)?;
        self.expr(Way::Keep, store.value)?;
        self.option(Way::Keep, store.written)?;
        self.keep_retypes(store.retypes)
    }

    /// The uses in what a join, a loop or a note states.
    pub fn keep_state(&mut self, state: &State) -> Result<(), NoMemory>
        ensures { OnOk result (Goes Keep (uses_in_state (view.state state.now)) self.old self.new) }
    {
        self.exprs(Way::Keep, state.preds.as_slice())?;
        self.keep_types(state.types.as_slice())
    }

    /// The uses in the guard of a loop and in what it states.
    pub fn keep_guard(&mut self, e: &Expr, inv: &State) -> Result<(), NoMemory>
        ensures { OnOk result (Goes Keep (uses_in (term e.now) ++ uses_in_state (view.state inv.now)) self.old self.new) }
    {
        self.expr(Way::Keep, e)?;
        self.keep_state(inv)
    }

    /// The uses in the classes of variables.
    pub fn keep_vars(&mut self, vars: &[VarDecl]) -> Result<(), NoMemory>
        ensures { OnOk result (Goes Keep (flat_map (λ v. uses_in_class v.class) (map view.var vars.now)) self.old self.new) }
    {
        for var in vars {
            self.keep_class(&var.class)?;
        }
        Ok(())
    }

    fn keep_class(&mut self, class: &Class) -> Result<(), NoMemory>
        ensures { OnOk result (Goes Keep (uses_in_class (view.class class.now)) self.old self.new) }
    {
        match class {
            Class::Low => Ok(()),
            Class::High => Ok(()),
            Class::When(e) => self.expr(Way::Keep, e),
        }
    }

    /// The uses in what locks stand for.
    pub fn keep_locks(&mut self, locks: &[LockDecl]) -> Result<(), NoMemory>
        ensures { OnOk result (Goes Keep (flat_map uses_in_lock (map view.lock locks.now)) self.old self.new) }
    {
        for lock in locks {
            self.keep_lock(lock)?;
        }
        Ok(())
    }

    fn keep_lock(&mut self, lock: &LockDecl) -> Result<(), NoMemory>
        ensures { OnOk result (Goes Keep (uses_in_lock (view.lock lock.now)) self.old self.new) }
    {
        self.keep_variables(lock.nowrite.as_slice())?;
        self.keep_variables(lock.hide.as_slice())?;
        self.option(Way::Keep, lock.inv.as_ref())
    }

    /// The uses in the modes of a thread.
    pub fn keep_modes(&mut self, modes: &Modes) -> Result<(), NoMemory>
        ensures { OnOk result (Goes Keep (uses_in_modes (view.modes modes.now)) self.old self.new) }
    {
        self.keep_variables(modes.assume_nowrite.as_slice())?;
        self.keep_variables(modes.assume_hide.as_slice())?;
        self.keep_variables(modes.guarantee_nowrite.as_slice())?;
        self.keep_variables(modes.guarantee_hide.as_slice())
    }
}
