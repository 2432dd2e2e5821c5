//! The code of expressions: which variables are loaded, and which register has the value.

ghost use Rattle.std.specs.Prelude.{◌≡◌, ◌+◌, ◌*◌, ◌^◌, ◌<◌, ◌≤◌, [], ◌∷◌, None, length, IfOk, OnOk};
ghost use Rattle.cov_expr.specs.Term.{var};
ghost use Rattle.cov_expr.specs.Trees as tree;
ghost use Rattle.cov_expr.specs.View.{term};
ghost use Rattle.compiled_code.specs.Compiled as spec;
ghost use Rattle.regalloc.specs.Plan as plan;
ghost use Rattle.risc_compile.specs.Inside.{WhereStable, after_expression, after_value, fetched, used_value, with_instrs, with_room};

use crate::emitter::Emitter;
use cov_expr::{Expr, NoMemory, Op};
use mode_state::ModeState;
use regalloc::width;
use risc_machine::Instr;

/// The register into which a variable that others may write is loaded.
const UNSTABLE: u8 = 7;

/// The register that has the value of an expression, and for how many steps of the source the instruction stands that uses it.
#[derive(Clone, Copy, PartialEq, Eq)]
pub struct Value {
    pub register: u8,
    pub weight: u8,
}

/// The first variable of an expression that isn't stable, if there is one.
fn unstable(modes: &ModeState, e: &Expr) -> Option<u32>
    ensures { WhereStable modes.now (term e.now) (λ stable. result ≡ spec.unstable_of stable (term e.now)) }
{
    match e {
        Expr::Const(_) => None,
        Expr::Var(x) if modes.stable(*x) => None,
        Expr::Var(x) => Some(*x),
        Expr::Not(a) => unstable(modes, a),
        Expr::Bin(_, a, b) => match unstable(modes, a) {
            Some(x) => Some(x),
            None => unstable(modes, b),
        },
    }
}

impl Emitter {
    /// The register of a part of an expression at a depth.
    fn register(&self, depth: u32) -> u8
        ensures part { result ≡ spec.part_register (self.now).plan depth }
        ensures small { result < 8 }
    {
        self.plan.part(depth).unwrap_or(0)
    }

    /// The instruction that gives a register the word of a variable.
    fn read(&self, register: u8, x: u32) -> Instr
        ensures { WhereStable (self.now).modes (var x) (λ stable. result ≡ spec.var_instr (stable x) (plan.held (self.now).plan x) register x) }
    {
        if !self.modes.stable(x) {
            return Instr::MovR(register, UNSTABLE);
        }
        match self.plan.held(x) {
            Some(kept) => Instr::MovR(register, kept),
            None => Instr::Load(register, x),
        }
    }

    /// Adds the code that gives the register of a depth the value of an expression.
    fn term(&mut self, e: &Expr, depth: u32) -> Result<(), NoMemory>
        requires { depth + tree.width (term e.now) < 2 ^ 32 }
        ensures length { OnOk result ((length (self.old).lines ≤ length (self.new).lines) × (length (self.new).lines ≤ length (self.old).lines + 2 * tree.nodes (term e.now))) }
        ensures code { OnOk result (WhereStable (self.old).modes (term e.now) (λ stable.
            self.new ≡ with_instrs self.old (spec.term_instrs stable (self.old).plan (term e.now) depth))) }
    {
        let register = self.register(depth);
        match e {
            Expr::Const(k) => self.push(0, Instr::MovC(register, *k)),
            Expr::Var(x) => self.push(0, self.read(register, *x)),
            Expr::Not(a) => {
                let zero = self.register(depth + 1);
                self.term(a, depth)?;
                self.push(0, Instr::MovC(zero, 0))?;
                self.push(0, Instr::Bin(Op::Eq, register, zero))
            }
            Expr::Bin(op, a, b) => {
                let second = self.register(depth + 1);
                self.term(a, depth)?;
                self.term(b, depth + 1)?;
                self.push(0, Instr::Bin(*op, register, second))
            }
        }
    }

    /// Loads the stable variables of an expression that no register keeps into registers beside those of its parts, as far as
    /// there are some.
    fn fetch(&mut self, e: &Expr, parts: u32) -> Result<(), NoMemory>
        ensures length { OnOk result ((length (self.old).lines ≤ length (self.new).lines) × (length (self.new).lines ≤ length (self.old).lines + tree.nodes (term e.now))) }
        ensures code { OnOk result (WhereStable (self.old).modes (term e.now) (λ stable. self.new ≡ fetched stable parts (tree.occurrences (term e.now)) self.old)) }
    {
        match e {
            Expr::Const(_) => Ok(()),
            Expr::Var(x) => self.fetch_variable(*x, parts),
            Expr::Not(a) => self.fetch(a, parts),
            Expr::Bin(_, a, b) => {
                self.fetch(a, parts)?;
                self.fetch(b, parts)
            }
        }
    }

    /// Loads a variable, if it is stable and no register keeps it, into a register beside those of the parts, if there is one.
    fn fetch_variable(&mut self, x: u32, parts: u32) -> Result<(), NoMemory>
        ensures length { OnOk result ((length (self.old).lines ≤ length (self.new).lines) × (length (self.new).lines ≤ length (self.old).lines + 1)) }
        ensures code { OnOk result (WhereStable (self.old).modes (var x) (λ stable. self.new ≡ fetched stable parts (x ∷ []) self.old)) }
    {
        if !self.modes.stable(x) || self.plan.held(x).is_some() {
            return Ok(());
        }
        match self.plan.part(parts) {
            Some(register) => {
                self.push(0, Instr::Load(register, x))?;
                self.plan.keep(x, register);
                Ok(())
            }
            None => Ok(()),
        }
    }

    /// Makes room for the parts of an expression, and loads the variable that isn't stable, if there is one.
    fn begin(&mut self, e: &Expr, parts: u32) -> Result<(), NoMemory>
        requires { parts ≡ tree.width (term e.now) }
        ensures length { OnOk result ((length (self.old).lines ≤ length (self.new).lines) × (length (self.new).lines ≤ length (self.old).lines + 1)) }
        ensures code { OnOk result (WhereStable (self.old).modes (term e.now) (λ stable.
            self.new ≡ with_instrs (with_room self.old (term e.now)) (spec.load_unstable (spec.unstable_of stable (term e.now))))) }
    {
        self.plan.room(parts);
        self.plan.spoil(UNSTABLE);
        match unstable(&self.modes, e) {
            Some(x) => self.push(0, Instr::Load(UNSTABLE, x)),
            None => Ok(()),
        }
    }

    /// Adds the code of an expression, of which the first line stands for the evaluation. The register of its value.
    fn computed(&mut self, e: &Expr) -> Result<u8, NoMemory>
        requires { tree.width (term e.now) < 2 ^ 32 }
        ensures length { OnOk result ((length (self.old).lines ≤ length (self.new).lines) × (length (self.new).lines ≤ length (self.old).lines + (3 * tree.nodes (term e.now) + 1))) }
        ensures small { IfOk result (λ r. r < 8) }
        ensures code { IfOk result (λ r. WhereStable (self.old).modes (term e.now) (λ stable.
            (self.new ≡ after_expression stable (term e.now) self.old) × (r ≡ spec.expr_register stable (self.old).plan (term e.now)))) }
    {
        let start = self.lines.len();
        let parts = width(e);
        self.begin(e, parts)?;
        self.fetch(e, parts)?;
        self.term(e, 0)?;
        self.weigh(start);
        Ok(self.register(0))
    }

    /// The register that keeps an expression already, which is a stable variable.
    fn direct(&self, e: &Expr) -> Option<u8>
        ensures { WhereStable (self.now).modes (term e.now) (λ stable. result ≡ spec.direct stable (self.now).plan (term e.now)) }
    {
        match e {
            Expr::Var(x) if self.modes.stable(*x) => self.plan.held(*x),
            Expr::Const(_) | Expr::Var(_) | Expr::Not(_) | Expr::Bin(..) => None,
        }
    }

    /// The value of an expression by code of its own, behind which an instruction uses it.
    pub fn copied(&mut self, e: &Expr) -> Result<Value, NoMemory>
        requires { tree.width (term e.now) < 2 ^ 32 }
        ensures length { OnOk result ((length (self.old).lines ≤ length (self.new).lines) × (length (self.new).lines ≤ length (self.old).lines + (3 * tree.nodes (term e.now) + 1))) }
        ensures small { IfOk result (λ value. value.register < 8) }
        ensures code { IfOk result (λ value. WhereStable (self.old).modes (term e.now) (λ stable.
            (self.new ≡ after_value stable (term e.now) None self.old) × (value ≡ used_value stable (term e.now) None self.old))) }
    {
        Ok(Value {
            register: self.computed(e)?,
            weight: 1,
        })
    }

    /// The value of an expression: where a register keeps it no code is added, and the instruction that uses it stands for the
    /// evaluation too.
    pub fn value(&mut self, e: &Expr) -> Result<Value, NoMemory>
        requires { tree.width (term e.now) < 2 ^ 32 }
        ensures length { OnOk result ((length (self.old).lines ≤ length (self.new).lines) × (length (self.new).lines ≤ length (self.old).lines + (3 * tree.nodes (term e.now) + 1))) }
        ensures code { IfOk result (λ value. WhereStable (self.old).modes (term e.now) (λ stable.
            let direct = spec.direct stable (self.old).plan (term e.now) in
            (self.new ≡ after_value stable (term e.now) direct self.old) × (value ≡ used_value stable (term e.now) direct self.old))) }
    {
        match self.direct(e) {
            Some(register) => Ok(Value {
                register,
                weight: 2,
            }),
            None => self.copied(e),
        }
    }
}
