//! The code of statements and blocks, with the targets of their jumps.

ghost use Rattle.std.specs.Prelude.{◌≡◌, ℕ, ◌+◌, ◌*◌, ◌^◌, ◌<◌, ◌≤◌, [], ◌∷◌, ◌++◌, List, Option, length, IfOk, OnOk};
ghost use Rattle.cov_expr.specs.Term.{Term};
ghost use Rattle.cov_expr.specs.Trees as tree;
ghost use Rattle.cov_expr.specs.View.{term};
ghost use Rattle.cov_ast.specs.Syntax as syntax;
ghost use Rattle.cov_ast.specs.View as view;
ghost use Rattle.cov_ast.specs.WellFormed.{block_size, stm_size};
ghost use Rattle.compiled_code.specs.Compiled.{line};
ghost use Rattle.regalloc.specs.Plan as plan;
ghost use Rattle.risc_compile.specs.Inside.{AddsBlock, AddsGuarded, AddsStm};
ghost use Rattle.risc_machine.specs.declared.parts.Instr.TheVariants.{Store};

use crate::emitter::Emitter;
use crate::expressions::Value;
use cov_ast::{Stmt, StmtKind};
use cov_expr::{Expr, NoMemory};
use regalloc::Plan;
use risc_machine::{Instr, Line};
use std::alloc::Global;
use std::mem::replace;

impl Emitter {
    /// Adds the code of an assignment. A variable that is stable takes the value into a register of its own, which keeps it
    /// from then on.
    fn assign(&mut self, x: u32, e: &Expr) -> Result<(), NoMemory>
        requires { tree.width (term e.now) < 2 ^ 32 }
        ensures length { OnOk result ((length (self.old).lines ≤ length (self.new).lines) × (length (self.new).lines ≤ length (self.old).lines + (3 * tree.nodes (term e.now) + 2))) }
        ensures code { OnOk result ((q : Option Term) → (retypes : List (ℕ × Term)) → AddsStm (syntax.assign x (term e.now) q retypes) self.old self.new) }
    {
        let stable = self.modes.stable(x);
        if stable {
            let value = self.copied(e)?;
            self.store(x, value)?;
            self.plan.keep(x, value.register);
            Ok(())
        } else {
            let value = self.value(e)?;
            self.store(x, value)
        }
    }

    /// Adds a store of a value to a variable, which no register keeps from then on.
    fn store(&mut self, x: u32, value: Value) -> Result<(), NoMemory>
        ensures { OnOk result (self.new ≡ record self.old {
          lines = (self.old).lines ++ line value.weight (Store x value.register) ∷ [];
          plan = plan.stored (self.old).plan x;
        }) }
    {
        self.push(value.weight, Instr::Store(x, value.register))?;
        self.plan.stored(x);
        Ok(())
    }

    /// Adds the code of an output.
    fn output(&mut self, e: &Expr) -> Result<(), NoMemory>
        requires { tree.width (term e.now) < 2 ^ 32 }
        ensures length { OnOk result ((length (self.old).lines ≤ length (self.new).lines) × (length (self.new).lines ≤ length (self.old).lines + (3 * tree.nodes (term e.now) + 2))) }
        ensures code { OnOk result (AddsStm (syntax.output (term e.now)) self.old self.new) }
    {
        let value = self.copied(e)?;
        self.push(value.weight, Instr::Out(value.register))
    }

    /// Adds the release of a lock. What isn't stable without the lock isn't kept any longer.
    fn unlock(&mut self, l: u32) -> Result<(), NoMemory>
        ensures length { OnOk result ((length (self.old).lines ≤ length (self.new).lines) × (length (self.new).lines ≤ length (self.old).lines + 1)) }
        ensures code { OnOk result (AddsStm (syntax.unlock l) self.old self.new) }
    {
        self.push(1, Instr::Release(l))?;
        self.modes.give(l);
        self.plan.restrict(&self.modes);
        Ok(())
    }

    /// Adds the code of a lock.
    fn lock(&mut self, l: u32) -> Result<(), NoMemory>
        ensures length { OnOk result ((length (self.old).lines ≤ length (self.new).lines) × (length (self.new).lines ≤ length (self.old).lines + 1)) }
        ensures code { OnOk result (AddsStm (syntax.lock l) self.old self.new) }
    {
        self.push(1, Instr::Acquire(l))?;
        self.modes.take(l);
        Ok(())
    }

    /// Adds the code of statements.
    #[cycle(statements)]
    pub fn block(&mut self, alloc: Global, body: &[Stmt]) -> Result<(), NoMemory>
        requires { length (self.old).lines + 3 * block_size (view.block body.now) < 2 ^ 32 }
        ensures length { OnOk result ((length (self.old).lines ≤ length (self.new).lines) × (length (self.new).lines ≤ length (self.old).lines + 3 * block_size (view.block body.now))) }
        ensures code { OnOk result (AddsBlock (view.block body.now) self.old self.new) }
    {
        for stmt in body {
            self.statement(alloc, &stmt.kind)?;
        }
        Ok(())
    }

    /// Adds the code of a statement. A note has none.
    #[cycle(statements)]
    fn statement(&mut self, alloc: Global, kind: &StmtKind) -> Result<(), NoMemory>
        requires { length (self.old).lines + 3 * (1 + stm_size (view.kind kind.now)) < 2 ^ 32 }
        ensures length { OnOk result ((length (self.old).lines ≤ length (self.new).lines) × (length (self.new).lines ≤ length (self.old).lines + 3 * (1 + stm_size (view.kind kind.now)))) }
        ensures code { OnOk result (AddsStm (view.kind kind.now) self.old self.new) }
    {
        match kind {
            StmtKind::Skip => self.push(1, Instr::Nop),
            StmtKind::Assign(x, e, _, _) => self.assign(*x, e),
            StmtKind::Lock(l) => self.lock(*l),
            StmtKind::Unlock(l) => self.unlock(*l),
            StmtKind::If(e, yes, no, _) => self.branch(alloc, e, yes.as_slice(), no.as_slice()),
            StmtKind::While(e, _, body) => self.while_loop(alloc, e, body.as_slice()),
            StmtKind::Note(_) => Ok(()),
            StmtKind::Output(e) => self.output(e),
        }
    }

    /// Adds the code of a branch. Both arms begin with what is kept after the guard, and behind it stands what both keep.
    #[cycle(statements)]
    fn branch(&mut self, alloc: Global, e: &Expr, yes: &[Stmt], no: &[Stmt]) -> Result<(), NoMemory>
        requires { length (self.old).lines + 3 * (1 + tree.nodes (term e.now) + block_size (view.block yes.now) + block_size (view.block no.now)) < 2 ^ 32 }
        ensures length { OnOk result ((length (self.old).lines ≤ length (self.new).lines) × (length (self.new).lines ≤ length (self.old).lines + 3 * (1 + tree.nodes (term e.now) + block_size (view.block yes.now) + block_size (view.block no.now)))) }
        ensures code { OnOk result ((join : syntax.State) → AddsStm (syntax.branch (term e.now) (view.block yes.now) (view.block no.now) join) self.old self.new) }
    {
        let value = self.value(e)?;
        let (plan, modes) = (self.plan.copy(), self.modes.copy(alloc)?);
        let jump = self.guarded(alloc, value, yes, 0)?;
        let mut kept = replace(&mut self.plan, plan);
        let held = replace(&mut self.modes, modes);
        self.block(alloc, no)?;
        let end = self.position();
        self.patch(
            jump,
            Line {
                weight: 0,
                instr: Instr::Jump(end),
            },
        );
        kept.meet(&self.plan);
        self.plan = kept;
        self.modes = held;
        Ok(())
    }

    /// Adds the code of a loop. Its head is reached in two ways, so that nothing is kept there; behind it stands what is kept
    /// after the guard.
    #[cycle(statements)]
    fn while_loop(&mut self, alloc: Global, e: &Expr, body: &[Stmt]) -> Result<(), NoMemory>
        requires { length (self.old).lines + 3 * (1 + tree.nodes (term e.now) + block_size (view.block body.now)) < 2 ^ 32 }
        ensures length { OnOk result ((length (self.old).lines ≤ length (self.new).lines) × (length (self.new).lines ≤ length (self.old).lines + 3 * (1 + tree.nodes (term e.now) + block_size (view.block body.now)))) }
        ensures code { OnOk result ((inv : syntax.State) → AddsStm (syntax.loop (term e.now) inv (view.block body.now)) self.old self.new) }
    {
        let head = self.position();
        self.plan = Plan::start();
        let value = self.copied(e)?;
        let (plan, modes) = (self.plan.copy(), self.modes.copy(alloc)?);
        self.guarded(alloc, value, body, head)?;
        self.plan = plan;
        self.modes = modes;
        Ok(())
    }

    /// Adds a jump over a block where a value is 0, the code of the block, and a jump to a position. The position of that jump.
    #[cycle(statements)]
    fn guarded(
        &mut self,
        alloc: Global,
        value: Value,
        body: &[Stmt],
        target: u32,
    ) -> Result<usize, NoMemory>
        requires { length (self.old).lines + (2 + 3 * block_size (view.block body.now)) < 2 ^ 32 }
        ensures length { OnOk result (length (self.new).lines ≤ length (self.old).lines + (2 + 3 * block_size (view.block body.now))) }
        ensures last { IfOk result (λ jump. (length (self.old).lines < jump) × (length (self.new).lines ≡ jump + 1)) }
        ensures code { IfOk result (λ _. AddsGuarded value (view.block body.now) target self.old self.new) }
    {
        let start = self.lines.len();
        self.push(value.weight, Instr::Jz(value.register, 0))?;
        self.block(alloc, body)?;
        let jump = self.lines.len();
        self.push(0, Instr::Jump(target))?;
        let end = self.position();
        self.patch(
            start,
            Line {
                weight: value.weight,
                instr: Instr::Jz(value.register, end),
            },
        );
        Ok(jump)
    }
}
