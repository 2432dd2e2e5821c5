//! The guards around the place where something is asked that give no predicate.

ghost use Rattle.std.specs.Prelude.{◌≡◌, ◌<◌, ◌++◌, OnOk, length, option_map};
ghost use Rattle.cov_ast.specs.Plain.{plain};
ghost use Rattle.cov_ast.specs.View as view;
ghost use Rattle.cov_ast.specs.WellFormed.{IsWellFormed};
ghost use Rattle.entail_origins.specs.GivenViews.{given_term};
ghost use Rattle.entail_origins.specs.LocksOver.{lock_over};
ghost use Rattle.entail_refused.specs.Sites as sites;
ghost use Rattle.entail_refused.specs.UnknownGuards as spec;

use crate::site::Site;
use cov_ast::{LockDecl, Program, first_outside};
use cov_expr::{Blob, NoMemory};
use cov_print::add_expr;
use entail_origins::{GivenTerm, lock_over};
use mode_state::ModeState;
use statement_paths::{Step, follow_step, stable_set};
use std::alloc::Global;
use text_parts::{add_line_of, add_variable_name, variable_names};

/// Adds a line for each guard, or negation of one, around the place where something is asked that gives no predicate, with the first variable of it that isn't stable where it is looked at, and why.
/// `bytes` are the text of the program. Nothing is added where it isn't known where something is asked. Each step is looked at once, and for each the variables of the program.
pub fn add_guard_lines(
    alloc: Global,
    p: &Program,
    t: u32,
    bytes: &[u8],
    site: &Option<Site<'_>>,
    text: &mut Blob,
) -> Result<(), NoMemory>
    requires formed { IsWellFormed (view.program p.now) }
    requires thread { t < length p.now.threads }
    ensures { OnOk result (text.new ≡ text.old ++ spec.guard_lines (plain (view.program p.now)) t bytes.now (option_map sites.site site.now)) }
{
    match site {
        Some(site) => {
            let steps = site.steps.as_slice();
            let mut modes = ModeState::start(alloc, p, t)?;
            for step in steps {
                follow_step(step, &mut modes);
                let stable = stable_set(alloc, p, &modes)?;
                match step {
                    Step::Yes(at, guard) => {
                        let made = GivenTerm::Written(guard);
                        add_if_outside(
                            alloc,
                            p,
                            bytes,
                            first_outside(guard, &stable),
                            *at,
                            made,
                            text,
                        )?;
                    }
                    Step::No(at, guard) => {
                        let made = GivenTerm::Negation(guard);
                        add_if_outside(
                            alloc,
                            p,
                            bytes,
                            first_outside(guard, &stable),
                            *at,
                            made,
                            text,
                        )?;
                    }
                    Step::Passed(_) | Step::Head(_, _) => {}
                }
            }
            Ok(())
        }
        None => Ok(()),
    }
}

/// Adds that of what a guard at a place would give, if a variable of it isn't stable there.
fn add_if_outside(
    alloc: Global,
    p: &Program,
    bytes: &[u8],
    outside: Option<u32>,
    at: u32,
    made: GivenTerm<'_>,
    text: &mut Blob,
) -> Result<(), NoMemory>
    requires { IsWellFormed (view.program p.now) }
    ensures { OnOk result (text.new ≡ text.old ++ spec.line_if_outside (plain (view.program p.now)) bytes.now outside at (given_term made.entry)) }
{
    match outside {
        Some(y) => {
            let e = made.made(alloc)?;
            let names = variable_names(alloc, p)?;
            text.extend_from_slice(b"  not known:    ")?;
            add_expr(&names, false, &e, text)?;
            text.extend_from_slice(b"   (guard, line ")?;
            add_line_of(bytes, at, text)?;
            add_cause(p, y, text)
        }
        None => Ok(()),
    }
}

/// Adds the variable that isn't stable, and why it isn't.
fn add_cause(p: &Program, y: u32, text: &mut Blob) -> Result<(), NoMemory>
    ensures { OnOk result (text.new ≡ text.old ++ spec.cause_of (plain (view.program p.now)) y) }
{
    text.extend_from_slice(b": ")?;
    add_variable_name(p, y, text)?;
    text.extend_from_slice(b" isn't stable there")?;
    add_unstable_end(p, y, text)
}

/// Adds why a variable isn't stable.
fn add_unstable_end(p: &Program, y: u32, text: &mut Blob) -> Result<(), NoMemory>
    ensures { OnOk result (text.new ≡ text.old ++ spec.unstable_end (lock_over y (view.program p.now).locks)) }
{
    match lock_over(y, p.locks.as_slice()) {
        Some(lock) => add_lock_end(lock, text),
        None => text.extend_from_slice(
            b": it is under no lock, and the thread assumes nothing of it)\n",
        ),
    }
}

/// Adds that the lock that it is under isn't held.
fn add_lock_end(lock: &LockDecl, text: &mut Blob) -> Result<(), NoMemory>
    ensures { OnOk result (text.new ≡ text.old ++ spec.lock_end (view.lock lock.now)) }
{
    text.extend_from_slice(b": the lock ")?;
    text.extend_from_slice(lock.name.text())?;
    text.extend_from_slice(b" isn't held)\n")
}
