//! The line of V13: what is wrong with a number in `by`.

ghost use Rattle.std.specs.Prelude.{◌≡◌, ◌++◌, OnOk, map};
ghost use Rattle.cov_ast.specs.View as view;
ghost use Rattle.refusal_names.specs.GivenNumbers as spec;

use cov_ast::{Detail, Proof};
use cov_expr::{Blob, NoMemory};
use text_parts::add_number;

/// Adds what is wrong with the number that a refusal shows, of a statement with so many entailments.
pub fn add_shown_number(
    count: usize,
    proofs: &[Proof],
    detail: Detail,
    text: &mut Blob,
) -> Result<(), NoMemory>
    ensures { OnOk result (text.new ≡ text.old ++ spec.shown_number count (map view.proof proofs.now) detail) }
{
    match detail {
        Detail::Number(n) => if 1 <= n && n as usize <= count {
            if 2 <= proofs.iter().filter(|q| q.number == n).count() {
                add_repeated_text(n, text)
            } else {
                Ok(())
            }
        } else {
            add_count(count, text)
        },
        _ => Ok(()),
    }
}

/// Adds how many entailments the statement has.
fn add_count(count: usize, text: &mut Blob) -> Result<(), NoMemory>
    ensures { OnOk result (text.new ≡ text.old ++ spec.count_text count) }
{
    text.extend_from_slice(b"  the statement has ")?;
    if count == 0 {
        text.extend_from_slice(b"no entailments\n")
    } else if count == 1 {
        text.extend_from_slice(b"1 entailment")?;
        add_moved(text)
    } else {
        add_number(count, text)?;
        text.extend_from_slice(b" entailments")?;
        add_moved(text)
    }
}

/// Adds why a number may be that of none.
fn add_moved(text: &mut Blob) -> Result<(), NoMemory>
    ensures { OnOk result (text.new ≡ text.old ++ spec.moved_words) }
{
    text.extend_from_slice(b": where it lists a predicate or a type more or less, numbers move\n")
}

/// Adds that a number is given more than once.
fn add_repeated_text(n: u32, text: &mut Blob) -> Result<(), NoMemory>
    ensures { OnOk result (text.new ≡ text.old ++ spec.repeated_text n) }
{
    text.extend_from_slice(b"  ")?;
    add_number(n as usize, text)?;
    text.extend_from_slice(b" is given more than once\n")
}
