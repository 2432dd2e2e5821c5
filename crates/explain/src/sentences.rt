//! The sentences of warnings.

ghost use Rattle.std.specs.Prelude.{◌≡◌, ◌++◌, OnOk};
ghost use Rattle.explain.specs.WarningSentences as spec;

use crate::warning::Cause;
use cov_expr::{Blob, NoMemory};
use text_parts::add_number;

/// Adds the sentence of a warning.
pub fn add_cause_sentence(cause: &Cause, text: &mut Blob) -> Result<(), NoMemory>
    ensures { OnOk result (text.new ≡ text.old ++ spec.cause_sentence cause.now) }
{
    text.extend_from_slice(front(cause).as_bytes())?;
    match cause {
        Cause::FalseInvariant(lock) => text.extend_from_slice(lock.text())?,
        Cause::NeverRead(x) | Cause::NeverWritten(x) => text.extend_from_slice(x.text())?,
        Cause::Control(byte) => add_number(*byte as usize, text)?,
        Cause::More(n) => add_number(*n, text)?,
        Cause::NoThread
        | Cause::NeverReached
        | Cause::LoneReturn
        | Cause::Direction
        | Cause::Separator => {}
    }
    text.extend_from_slice(rest(cause).as_bytes())
}

/// What stands in front of the name, or of the number; all of it where there is none.
fn front(cause: &Cause) -> &'static str
    ensures { result.now ≡ spec.front cause.now }
{
    match cause {
        Cause::NoThread => "there is no thread: the verdict says nothing of any run",
        Cause::FalseInvariant(_) => "the invariant of the lock ",
        Cause::NeverRead(_) => "no statement reads the variable ",
        Cause::NeverWritten(_) => "no statement writes the variable ",
        Cause::NeverReached =>
            "no run comes to this statement: the guard before it has the same value in every memory, and what is checked here says nothing of any run",
        Cause::LoneReturn =>
            "here is a carriage return that no line feed follows: an editor may show the end of a line, and the line goes on",
        Cause::Control(_) => "here is the control character ",
        Cause::Direction =>
            "here is a character that turns the direction of text: an editor may show the line in another order",
        Cause::Separator =>
            "here is a separator of lines or of paragraphs: an editor may show the end of a line, and the line goes on",
        Cause::More(_) => "from here on there are ",
    }
}

/// What stands behind the name, or the number.
fn rest(cause: &Cause) -> &'static str
    ensures { result.now ≡ spec.rest cause.now }
{
    match cause {
        Cause::FalseInvariant(_) =>
            " holds in no memory: no start meets it, and the verdict says nothing of any run",
        Cause::NeverRead(_) =>
            ": it is in no value that is assigned, in no guard and in no output (types, invariants, notes and certificates don't count)",
        Cause::NeverWritten(_) => ": none assigns it",
        Cause::Control(_) => ", which an editor may not show",
        Cause::More(_) =>
            " more carriage returns, control characters and characters like these that an editor may show as another text",
        Cause::NoThread
        | Cause::NeverReached
        | Cause::LoneReturn
        | Cause::Direction
        | Cause::Separator => "",
    }
}
