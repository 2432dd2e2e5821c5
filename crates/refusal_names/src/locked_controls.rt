//! The line of W8: the lock that a control is under which a thread doesn't assume beside what it controls.

ghost use Rattle.std.specs.Prelude.{◌≡◌, ◌++◌, OnOk, option_map};
ghost use Rattle.cov_ast.specs.View as view;
ghost use Rattle.refusal_names.specs.LockedControls as spec;

use cov_ast::LockDecl;
use cov_expr::{Blob, Name, NoMemory};
use text_parts::add_line_of;

/// Adds the line, where there is a lock.
pub fn add_locked(
    bytes: &[u8],
    lock: Option<&LockDecl>,
    variable: Name,
    control: Name,
    text: &mut Blob,
) -> Result<(), NoMemory>
    ensures { OnOk result (text.new ≡ text.old ++ spec.locked_line bytes.now (option_map (λ l. view.lock l.now) lock.entry) variable control) }
{
    match lock {
        Some(lock) => {
            add_control(control, text)?;
            text.extend_from_slice(lock.name.text())?;
            text.extend_from_slice(b", line ")?;
            add_line_of(bytes, lock.at, text)?;
            add_mend(variable, control, text)
        }
        None => Ok(()),
    }
}

/// Adds that a control is under a lock.
fn add_control(control: Name, text: &mut Blob) -> Result<(), NoMemory>
    ensures { OnOk result (text.new ≡ text.old ++ spec.control_text control) }
{
    text.extend_from_slice(b"  ")?;
    text.extend_from_slice(control.text())?;
    text.extend_from_slice(b" is under the lock ")
}

/// Adds what is mostly done.
fn add_mend(variable: Name, control: Name, text: &mut Blob) -> Result<(), NoMemory>
    ensures { OnOk result (text.new ≡ text.old ++ spec.mend_text variable control) }
{
    add_what(variable, text)?;
    text.extend_from_slice(b" under that lock too, in the place of the assumption,")?;
    add_class(variable, control, text)
}

/// Adds what is to be put there.
fn add_what(variable: Name, text: &mut Blob) -> Result<(), NoMemory>
    ensures { OnOk result (text.new ≡ text.old ++ spec.what_text variable) }
{
    text.extend_from_slice(b", and can't be assumed: put ")?;
    text.extend_from_slice(variable.text())
}

/// Adds that a variable is to have a class without a control.
fn add_class(variable: Name, control: Name, text: &mut Blob) -> Result<(), NoMemory>
    ensures { OnOk result (text.new ≡ text.old ++ spec.class_text variable control) }
{
    text.extend_from_slice(b" or give ")?;
    text.extend_from_slice(variable.text())?;
    text.extend_from_slice(b" a class without ")?;
    text.extend_from_slice(control.text())?;
    text.extend_from_slice(b"\n")
}
