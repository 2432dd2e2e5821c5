//! A law of programs in version 2 of the language.

ghost use Rattle.cov_ast.specs.Syntax.{Parsed};
ghost use Rattle.call_text.specs.Laws.{StaysTheSame};

use cov_print::second_version_is_read;

/// A law: what `migrate` makes of a program does what the program did, from every memory under every schedule, is judged as it
/// was, and is read again.
pub fn migrated_stays()
    ensures { (p : Parsed) → StaysTheSame p }
{
    second_version_is_read();
}
