//! What `check` says of files, explained: a library that a program is made of.
//!
//! [`explain`] takes the names of files, the files (a shelf) and the output (a sink), and ends with a status of `call_reports`. Of each
//! file it tells what `check` reports; where that names a place, also the line and the column of the place, its line in
//! the text with a caret, and what is wrong, in one sentence. Where no program goes on with a token, it tells which brace is open there and what could stand there,
//! where a file is refused, what that is about (`refusal_names`, `entail_refused`) and what is warned of in its text, and
//! where it is accepted, what is warned of in it, a line each.
//!
//! Where several files are named, an accepted one is told by its name. The words `--first P..` ask that of a refusal by V9 no other is told behind it.
//!
//! The words `--points P` and `--points P LINE` ask for what is known in the program of P (`typing_trace`), in the place of what a refusal is about and of warnings: in front
//! of each statement, or of those that begin in that line.
//!
//! The words `--code P` ask for the code of P beside its source (`code_lines`), where it is accepted; else for what `--first P` tells.
//!
//! The words `--suggest P` ask for the canonical spelling of P with the certificates that a search finds for what isn't proved of it, also where some of it stays open.
//!
//! The words `--levels P L` ask for what `levels` says of the program P and the levels L. Of the first observer for whom the program is refused it
//! tells what stands for markers, and all that is told of a refusal, of the program as that observer is shown it. Three files can't be
//! named by words of this form.
//!
//! Laws have no body: [`told_as_checked`], what is told of a file has the report that `check` gives of it; [`told_as_levelled`], what is told of a
//! program and levels has the status that `levels` has for them; [`answers_are_of_the_language`],
//! what is looked at for what could stand at a place is what the grammar says, whatever reads by it; [`no_start_meets`], where the invariant of
//! a lock is warned of, no two memories are fit to start from; [`no_run_comes_to`], where a statement is warned of as never
//! reached, its thread comes to it in no run; [`few_are_shown`], how many warnings of a text alone are shown.
//!
//! | `src/` | `specs/` | what it has |
//! |---|---|---|
//! | `call`, `asked`, `files`, `manner` | `FileCalls` | the words of a command line; what is told of each file, and how, and the status |
//! | `explanation` | `Explanations` | what is told of the bytes of a file |
//! | `beside`, `more` | `Tellings` | what is told beside it: what could stand at the place of a token, and what a refusal is about |
//! | `others` | `OtherTellings` | what was asked where a refusal is by V9, and behind one by V9 or V13 what is told of others of its thread and of those behind it, and which of them is to be looked at first |
//! | `unassumed` | `UnassumedVariables` | the line that says what every other thread guarantees, and the thread of a refusal doesn't assume |
//! | `unread` | `UnreadVariables` | the line that says what that thread stores to and no statement reads |
//! | `level_files`, `observers` | `FileCalls`, `LevelTellings` | how a program and levels are read, and what is told of them |
//! | `suggested` | `SuggestedTexts` | what is told of a program for which certificates are searched |
//! | `next`, `fronts`, `places`, `line` | `ExpectedTokens`, `ExpectedLines` | what could stand at a place, in the order of the table of spellings, the line that says so, and that a `;` may be missing in front of it |
//! | `braces` | `OpenBraces` | the line that says which brace is open at the place of a token |
//! | `warnings`, `sentences` | `WarningSentences` | what is warned of in a file, as text |
//! | `warning`, `merged`, `uses`, `unused`, `nowhere`, `unreached`, `hidden` | `Warnings`, `StatementUses`, `Unused`, `HoldsNowhere`, `NeverReached`, `HiddenText` | what is warned of, each at its place: in declarations, statements and bytes |
//! | `rules` | `RuleSentences` | the sentence of each rule |
//! | `faults`, `bytes`, `words` | `FaultSentences`, `ByteSentences`, `TokenSentences` | the sentence of each fault of a text; bytes that begin no token; reserved words |
//! | `laws`, `expected_laws`, `warning_laws` | | the laws |
//!
//! `specs/Inside` has the words of private contracts, which no promise cites.
#![tactic(auto)]

mod asked;
mod beside;
mod braces;
mod bytes;
mod call;
mod expected_laws;
mod explanation;
mod faults;
mod files;
mod fronts;
mod hidden;
mod laws;
mod level_files;
mod line;
mod manner;
mod merged;
mod more;
mod next;
mod nowhere;
mod observers;
mod others;
mod places;
mod rules;
mod sentences;
mod suggested;
mod unassumed;
mod unreached;
mod unread;
mod unused;
mod uses;
mod warning;
mod warning_laws;
mod warnings;
mod words;

pub use call::explain;
pub use expected_laws::answers_are_of_the_language;
pub use laws::{told_as_checked, told_as_levelled};
pub use warning_laws::{few_are_shown, no_run_comes_to, no_start_meets};
