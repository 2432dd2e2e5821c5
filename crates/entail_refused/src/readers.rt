//! Why something is asked of a variable that others may read, where the thread or a lock keeps only others' writes from it.

ghost use Rattle.std.specs.Prelude.{◌≡◌, ◌<◌, ◌++◌, OnOk, Some, length, option_map, slice_get};
ghost use Rattle.cov_ast.specs.View as view;
ghost use Rattle.entail_refused.specs.Readers as spec;
ghost use Rattle.entail_refused.specs.Sites as sites;

use crate::site::Site;
use cov_ast::{Class, LockDecl, Program};
use cov_expr::{Blob, NoMemory, has_number};
use entail_origins::{Question, lock_over};
use policy_class::is_control;
use text_parts::add_variable_name;

/// Adds that others may read the variable of which something is asked where it is low, where the thread assumes that no other writes it, and not that none reads it; or, of one whose
/// class depends on others, the first lock over it lists it so. `is_shown` is whether a certificate is found for what is asked: only then, or where
/// a control is assigned, it is added that `hide` would mend it. Nothing is added where it isn't known where something is asked.
pub fn add_reader_line(
    p: &Program,
    t: u32,
    is_shown: bool,
    site: &Option<Site<'_>>,
    text: &mut Blob,
) -> Result<(), NoMemory>
    requires { t < length p.now.threads }
    ensures { OnOk result (text.new ≡ text.old ++ spec.reader_line (view.program p.now) t is_shown (option_map sites.site site.now)) }
{
    match site {
        Some(site) => add_by_question(p, t, is_shown, site.question, text),
        None => Ok(()),
    }
}

/// Adds that by what is asked.
fn add_by_question(
    p: &Program,
    t: u32,
    is_shown: bool,
    question: Question,
    text: &mut Blob,
) -> Result<(), NoMemory>
    requires { t < length p.now.threads }
    ensures { OnOk result (text.new ≡ text.old ++ spec.line_by_question (view.program p.now) t is_shown question) }
{
    match question {
        Question::Shown(x) => add_unless_control(p, t, is_shown, x, text),
        Question::Controlled(y) => add_unless_control(p, t, true, y, text),
        Question::Written
        | Question::Retyped(_)
        | Question::Invariant(_)
        | Question::Freed(_)
        | Question::Guard
        | Question::HeadGuard
        | Question::Printed
        | Question::Predicate(_, _)
        | Question::TypeOf(_, _) => Ok(()),
    }
}

/// Adds that of a variable, unless it is a control, with whether what would mend it is told.
fn add_unless_control(
    p: &Program,
    t: u32,
    is_mend: bool,
    x: u32,
    text: &mut Blob,
) -> Result<(), NoMemory>
    requires { t < length p.now.threads }
    ensures { OnOk result (text.new ≡ text.old ++ spec.line_unless_control (view.program p.now) t is_mend x) }
{
    if is_control(p, x) {
        Ok(())
    } else if is_kept(p, t, x) {
        add_line(p, is_mend, None, x, text)
    } else if depends(p, x) {
        add_by_lock(p, is_mend, lock_over(x, p.locks.as_slice()), x, text)
    } else {
        Ok(())
    }
}

/// Whether the class of a variable depends on the memory.
fn depends(p: &Program, x: u32) -> bool
    ensures { result ≡ spec.depends (slice_get (view.program p.now).vars x) }
{
    match p.vars.as_slice().get(x as usize) {
        Some(var) => matches!(var.class, Class::When(_)),
        None => false,
    }
}

/// Whether a thread assumes of a variable that no other writes it, and not that none reads it.
fn is_kept(p: &Program, t: u32, x: u32) -> bool
    requires { t < length p.now.threads }
    ensures { result ≡ spec.is_kept (view.program p.now) t x }
{
    let modes = &p.threads.as_slice()[t as usize].modes;
    is_unhidden(
        modes.assume_nowrite.as_slice(),
        modes.assume_hide.as_slice(),
        x,
    )
}

/// Adds that of a variable that a lock keeps from others' writes, and not from their reads.
fn add_by_lock(
    p: &Program,
    is_mend: bool,
    lock: Option<&LockDecl>,
    x: u32,
    text: &mut Blob,
) -> Result<(), NoMemory>
    ensures { OnOk result (text.new ≡ text.old ++ spec.line_by_lock (view.program p.now) is_mend (option_map (λ l. view.lock l.now) lock.entry) x) }
{
    match lock {
        Some(l) => {
            if is_unhidden(l.nowrite.as_slice(), l.hide.as_slice(), x) {
                add_line(p, is_mend, Some(l), x, text)
            } else {
                Ok(())
            }
        }
        None => Ok(()),
    }
}

/// Whether a variable is in the first list, and not in the second.
fn is_unhidden(nowrite: &[u32], hide: &[u32], x: u32) -> bool
    ensures { result ≡ spec.is_unhidden nowrite.now hide.now x }
{
    has_number(nowrite, x) && !has_number(hide, x)
}

/// Adds the line.
fn add_line(
    p: &Program,
    is_mend: bool,
    keeper: Option<&LockDecl>,
    x: u32,
    text: &mut Blob,
) -> Result<(), NoMemory>
    ensures { OnOk result (text.new ≡ text.old ++ spec.line_on (view.program p.now) is_mend (option_map (λ l. view.lock l.now) keeper.entry) x) }
{
    add_front(p, x, text)?;
    add_keeper(keeper, text)?;
    add_listed(p, b" `nowrite ", x, text)?;
    add_listed(p, hide_front(is_mend).as_bytes(), x, text)?;
    text.extend_from_slice(hide_end(is_mend).as_bytes())
}

/// Adds who may read it.
fn add_front(p: &Program, x: u32, text: &mut Blob) -> Result<(), NoMemory>
    ensures { OnOk result (text.new ≡ text.old ++ spec.reader_front (view.program p.now) x) }
{
    text.extend_from_slice(b"  asked since others may read ")?;
    add_variable_name(p, x, text)?;
    text.extend_from_slice(b": ")
}

/// Adds what keeps others from writing it.
fn add_keeper(keeper: Option<&LockDecl>, text: &mut Blob) -> Result<(), NoMemory>
    ensures { OnOk result (text.new ≡ text.old ++ spec.keeper_text (option_map (λ l. view.lock l.now) keeper.entry)) }
{
    match keeper {
        Some(lock) => {
            text.extend_from_slice(b"the lock ")?;
            text.extend_from_slice(lock.name.text())?;
            text.extend_from_slice(b" has")
        }
        None => text.extend_from_slice(b"the thread assumes"),
    }
}

/// What stands in front of the list in which it isn't.
fn hide_front(is_mend: bool) -> &'static str
    ensures { result.now ≡ spec.hide_front is_mend }
{
    if is_mend {
        "; with `hide "
    } else {
        ", and not `hide "
    }
}

/// What stands behind it.
fn hide_end(is_mend: bool) -> &'static str
    ensures { result.now ≡ spec.hide_end is_mend }
{
    if is_mend {
        " in its place it wouldn't be asked\n"
    } else {
        "\n"
    }
}

/// Adds a list, with the variable in it.
fn add_listed(p: &Program, front: &[u8], x: u32, text: &mut Blob) -> Result<(), NoMemory>
    ensures { OnOk result (text.new ≡ text.old ++ spec.listed_as (view.program p.now) front.now x) }
{
    text.extend_from_slice(front)?;
    add_variable_name(p, x, text)?;
    text.extend_from_slice(b"`")
}
