//! What a point is made of, and how each kind of statement changes it.

ghost use Rattle.std.specs.Prelude.{◌≡◌, ◌<◌, length, map, IfOk, OnOk};
ghost use Rattle.cov_expr.specs.View.{term};
ghost use Rattle.cov_expr.specs.Words.{HasVarsBelow};
ghost use Rattle.cov_ast.specs.Plain.{Plain, plain};
ghost use Rattle.cov_ast.specs.View as view;
ghost use Rattle.cov_ast.specs.WellFormed.{IsWellFormed};
ghost use Rattle.point_law.specs.After as after;
ghost use Rattle.typing_state.specs.KeptPoints.{KeepsParts};
ghost use Rattle.typing_state.specs.Inside.Tells.{OfParts};

use crate::forget::{Forgotten, assign_types, forget};
use crate::locks::lock_types;
use crate::predicates::Predicates;
use crate::preds::{add_any, add_value, is_over_stable};
use crate::start::start_types;
use crate::types::{Types, put_types};
use crate::variables::Variables;
use cov_ast::{Program, Retype, State};
use cov_expr::{Expr, List, NoMemory, copy};
use mode_state::ModeState;
use std::alloc::Global;
use std::rc::Rc;

/// What a point keeps. It is large, and a point has it behind a box: so it is changed where it stands, and moved as one address.
pub struct Parts {
    pub modes: ModeState,
    pub variables: Rc<Variables, Global>,
    pub types: Types,
    pub preds: Predicates,
}

impl Drop for Parts {
    fn drop(self) {
        let Parts {
            modes,
            variables,
            types,
            preds,
        } = self;
        drop(modes);
        drop(variables);
        drop(types);
        drop(preds);
    }
}

impl Parts {
    /// What is kept at the start of a thread.
    pub fn start(alloc: Global, p: &Program, t: u32) -> Result<Self, NoMemory>
        requires formed { IsWellFormed (view.program p.now) }
        requires thread { t < length p.now.threads }
        ensures { IfOk result (λ made. KeepsParts (plain (view.program p.now)) t (after.start (plain (view.program p.now)) t) made) }
    {
        let modes = ModeState::start(alloc, p, t)?;
        let variables = Variables::of(alloc, p)?;
        let types = start_types(alloc, p, &modes, &variables)?;
        let variables = Rc::new(alloc, variables)?;
        Ok(Parts {
            modes,
            variables,
            types,
            preds: Predicates::new(alloc),
        })
    }

    /// The same once more.
    pub fn copy(&self, alloc: Global) -> Result<Self, NoMemory>
        ensures { IfOk result (λ made. (p : Plain) → OfParts p self.now (λ t a. KeepsParts p t a made)) }
    {
        Ok(Parts {
            modes: self.modes.copy(alloc)?,
            variables: self.variables.clone()?,
            types: self.types.copy(alloc)?,
            preds: self.preds.copy(alloc)?,
        })
    }

    /// An expression holds besides, if all its variables are stable.
    pub fn add(&mut self, alloc: Global, e: &Expr) -> Result<(), NoMemory>
        ensures { OnOk result ((p : Plain) → HasVarsBelow (term e.now) (length p.vars)
            → OfParts p self.old (λ t a. KeepsParts p t (after.with_guard p t a (term e.now)) self.new)) }
    {
        if is_over_stable(&self.modes, e) {
            self.preds.add(alloc, copy(alloc, e)?)?;
        }
        Ok(())
    }

    /// What a note says.
    pub fn note(&mut self, alloc: Global, s: &State) -> Result<(), NoMemory>
        ensures { OnOk result ((p : Plain) → OfParts p self.old (λ t a. KeepsParts p t (after.noted a (view.state s.now)) self.new)) }
    {
        self.preds.replace(alloc, s.preds.as_slice())?;
        put_types(alloc, &mut self.types, s.types.as_slice())?;
        Ok(())
    }

    /// What a state says at a join or a loop.
    pub fn meet(&mut self, alloc: Global, p: &Program, s: &State) -> Result<(), NoMemory>
        requires formed { IsWellFormed (view.program p.now) }
        ensures { OnOk result (OfParts (plain (view.program p.now)) self.old (λ t a.
            KeepsParts (plain (view.program p.now)) t (after.meet (plain (view.program p.now)) t a (view.state s.now)) self.new)) }
    {
        forget(
            p,
            &self.modes,
            self.variables.as_ref(),
            Forgotten::Every,
            &mut self.types,
        )?;
        self.note(alloc, s)?;
        Ok(())
    }

    /// A lock is taken.
    pub fn lock(&mut self, alloc: Global, p: &Program, l: u32) -> Result<(), NoMemory>
        requires formed { IsWellFormed (view.program p.now) }
        requires lock { l < length p.now.locks }
        ensures { OnOk result (OfParts (plain (view.program p.now)) self.old (λ t a.
            KeepsParts (plain (view.program p.now)) t (after.after_lock (plain (view.program p.now)) t a l) self.new)) }
    {
        self.modes.take(l);
        lock_types(p, &self.modes, self.variables.as_ref(), l, &mut self.types)?;
        add_any(alloc, &mut self.preds, &p.locks.as_slice()[l as usize].inv)?;
        Ok(())
    }

    /// A lock is given back.
    pub fn unlock(&mut self, p: &Program, l: u32) -> Result<(), NoMemory>
        requires formed { IsWellFormed (view.program p.now) }
        requires lock { l < length p.now.locks }
        ensures { OnOk result (OfParts (plain (view.program p.now)) self.old (λ t a.
            KeepsParts (plain (view.program p.now)) t (after.after_unlock (plain (view.program p.now)) t a l) self.new)) }
    {
        self.modes.give(l);
        self.preds.drop_unstable(p, &self.modes);
        forget(
            p,
            &self.modes,
            self.variables.as_ref(),
            Forgotten::Unstable(l),
            &mut self.types,
        )?;
        Ok(())
    }

    /// A variable has the value of an expression, of a type.
    pub fn assign(
        &mut self,
        alloc: Global,
        p: &Program,
        x: u32,
        e: &Expr,
        q: Expr,
        retypes: &List<Retype>,
    ) -> Result<(), NoMemory>
        requires formed { IsWellFormed (view.program p.now) }
        requires variable { x < length p.now.vars }
        ensures { OnOk result (OfParts (plain (view.program p.now)) self.old (λ t a. KeepsParts (plain (view.program p.now)) t
            (after.after_assign (plain (view.program p.now)) t a x (term e.now) (term q) (map view.retype retypes.now)) self.new)) }
    {
        self.preds.drop_mentioning(x);
        add_value(alloc, p, &self.modes, x, e, &mut self.preds)?;
        assign_types(
            alloc,
            p,
            &self.modes,
            self.variables.as_ref(),
            x,
            q,
            retypes.as_slice(),
            &mut self.types,
        )?;
        Ok(())
    }
}
