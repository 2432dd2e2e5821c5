//! The law that the spelling of a program in version 2 spells it there: a function with no body.

ghost use Rattle.cov_ast.specs.Syntax.{Parsed};
ghost use Rattle.cov_print.specs.Spelling.{spelling};
ghost use Rattle.cov_print.specs.ReadBack.{SpellsInSecond, in_second};

/// A law: where some text of any length spells a program, in whichever version of the language and places aside, the canonical
/// spelling of that program in version 2 spells it in version 2, unless it is longer than a text may be.
pub fn second_version_is_read()
    ensures { (p : Parsed) → SpellsInSecond (spelling (in_second p)) p }
{}
