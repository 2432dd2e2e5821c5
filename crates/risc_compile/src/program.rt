//! The code of a program, thread by thread.

ghost use Rattle.std.specs.Prelude.{◌≡◌, ◌<◌, length, map, IfOk};
ghost use Rattle.std.specs.List.{range_with_len};
ghost use Rattle.cov_ast.specs.Plain.{plain};
ghost use Rattle.cov_ast.specs.View as view;
ghost use Rattle.cov_ast.specs.WellFormed.{IsWellFormed};
ghost use Rattle.compiled_code.specs.Compiled.{compiled, thread_code};
ghost use Rattle.compiled_code.specs.GoodCode.{IsGoodCode};

use crate::emitter::Emitter;
use compiled_code::{compiled_is_code, compiled_is_good};
use cov_ast::{LockDecl, Program, VarDecl};
use cov_expr::{List, Name, NoMemory};
use mode_state::ModeState;
use risc_machine::{Code, Parts, ThreadCode};
use std::alloc::Global;
use typing_law::Verdict;

/// The code of an accepted program: it matches the program step for step, is as secure, and meets the load
/// bound (`compiled_code` has the laws). It takes linear time, and memory for the lines.
pub fn compile(alloc: Global, v: &Verdict<'_>) -> Result<Code, NoMemory>
    ensures code { IfOk result (λ code. code ≡ compiled (view.program (v.now).program.now)) }
    ensures good { IfOk result (λ code. IsGoodCode (view.program (v.now).program.now) code) }
{
    let program = v.program();
    let parts = parts_of(alloc, program)?;
    compiled_is_code();
    compiled_is_good();
    match Code::with_distinct_names(parts) {
        Ok(code) => Ok(code),
        Err(_) => unreachable!(),
    }
}

/// The parts of the code of a well formed program, accepted or not; that they are code says `compiled_is_code` of `compiled_code`.
pub fn parts_of(alloc: Global, program: &Program) -> Result<Parts, NoMemory>
    requires { IsWellFormed (view.program program.now) }
    ensures { IfOk result (λ parts. parts ≡ compiled (view.program program.now)) }
{
    Ok(Parts {
        version: program.version,
        vars: var_names(alloc, program.vars.as_slice())?,
        locks: lock_names(alloc, program.locks.as_slice())?,
        threads: threads(alloc, program)?,
    })
}

/// The names of variables.
fn var_names(alloc: Global, vars: &[VarDecl]) -> Result<List<Name>, NoMemory>
    ensures { IfOk result (λ names. names ≡ map (λ v. v.name) (map view.var vars.now)) }
{
    let mut names = List::new(alloc);
    for var in vars {
        names.push(var.name)?;
    }
    Ok(names)
}

/// The names of locks.
fn lock_names(alloc: Global, locks: &[LockDecl]) -> Result<List<Name>, NoMemory>
    ensures { IfOk result (λ names. names ≡ map (λ l. l.name) (map view.lock locks.now)) }
{
    let mut names = List::new(alloc);
    for lock in locks {
        names.push(lock.name)?;
    }
    Ok(names)
}

/// The code of each thread.
fn threads(alloc: Global, program: &Program) -> Result<List<ThreadCode>, NoMemory>
    requires { IsWellFormed (view.program program.now) }
    ensures { IfOk result (λ made. made ≡ map (thread_code (plain (view.program program.now))) (range_with_len 0 (length (program.now).threads))) }
{
    let mut made = List::new(alloc);
    for t in 0..program.threads.len() {
        made.push(thread(alloc, program, t as u32)?)?;
    }
    Ok(made)
}

/// The code of a thread.
fn thread(alloc: Global, program: &Program, t: u32) -> Result<ThreadCode, NoMemory>
    requires formed { IsWellFormed (view.program program.now) }
    requires thread { t < length (program.now).threads }
    ensures { IfOk result (λ made. made ≡ thread_code (plain (view.program program.now)) t) }
{
    let declared = &program.threads.as_slice()[t as usize];
    let mut emitter = Emitter::new(alloc, ModeState::start(alloc, program, t)?);
    emitter.block(alloc, declared.body.as_slice())?;
    Ok(ThreadCode {
        name: declared.name,
        lines: emitter.lines,
    })
}
