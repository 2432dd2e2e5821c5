//! The call: the words of a command line, and how it ends.

ghost use Rattle.std.specs.Prelude.{◌≡◌, ◌≤◌, [], map, string_bytes};
ghost use Rattle.cov_io.specs.Shelves.{Passes};
ghost use Rattle.explain.specs.FileCalls as spec;
ghost use Rattle.explain.specs.FileCalls.{Answers, AnswersBesides, Explains};
ghost use Rattle.explain.specs.Inside.Told.{IsLeft, outcome_of};

use crate::asked::{asks_for_first, asks_for_levels, asks_for_suggestions, beside_of, files_by};
use crate::files::tell_all;
use crate::level_files::tell_levels;
use crate::manner::Manner;
use crate::suggested::tell_suggested;
use call_reports::Status;
use cov_expr::{Blob, List, NoMemory};
use cov_io::{Shelf, Sink, write_whole};
use std::alloc::Global;

/// Explains what `check` says of files, or what `levels` says of a program and levels, and writes that. `names` are the words of the command line without
/// the program's name; files are read from `shelf` by name, and the text goes to `sink`.
pub fn explain<S: Shelf, K: Sink>(
    alloc: Global,
    names: &[String],
    shelf: &mut S,
    sink: &mut K,
) -> Status
    // The shelf is called once for each file, in order, and for fewer only where memory ran out. What is put is told of the files, in order, by what the words
    // ask for (`--first`: no other refusal behind the first; `--points`: what is known in the program; `--code`: the code of the program);
    // the status is the first of theirs that isn't Done. For `--levels`, a program and levels the shelf is called as by `levels`, what is put is
    // told of what `levels` finds, and the status is that of `levels`. For `--suggest` and a program the shelf is called for that, and what is put is its text with the
    // certificates that are found (`specs/SuggestedTexts.antt`).
    ensures does { Explains (S.shelved shelf.old) (S.shelved shelf.new) (K.sunk sink.old) (K.sunk sink.new) (map string_bytes names.now) result }
    // What a shelf tells stays, and no count falls.
    ensures passes { Passes (S.shelved shelf.old) (S.shelved shelf.new) }
    ensures counts { (K.sunk sink.old).faults ≤ (K.sunk sink.new).faults }
{
    let mut text = List::new(alloc);
    let Ok(status) = answer(alloc, names, shelf, &mut text) else {
        return Status::NoMemory;
    };
    match write_whole(sink, text.as_slice()) {
        Ok(()) => status,
        Err(_) => Status::WriteFault,
    }
}

/// Adds what is told of the words of a command line, and gives its status.
fn answer<S: Shelf>(
    alloc: Global,
    names: &[String],
    shelf: &mut S,
    text: &mut Blob,
) -> Result<Status, NoMemory>
    requires { text.old ≡ [] }
    ensures { Answers (IsLeft (S.shelved shelf.new) (outcome_of text.new result)) (S.shelved shelf.old) (map string_bytes names.now) }
{
    if names.is_empty() {
        text.extend_from_slice(b"usage: covern explain FILE..\n")?;
        return Ok(Status::Usage);
    }
    if asks_for_levels(names) {
        tell_levels(alloc, names[1].as_str(), names[2].as_str(), shelf, text)
    } else {
        answer_besides(alloc, names, shelf, text)
    }
}

/// The same of words that ask for no levels.
fn answer_besides<S: Shelf>(
    alloc: Global,
    names: &[String],
    shelf: &mut S,
    text: &mut Blob,
) -> Result<Status, NoMemory>
    requires { text.old ≡ [] }
    ensures { AnswersBesides (IsLeft (S.shelved shelf.new) (outcome_of text.new result)) (S.shelved shelf.old) (map string_bytes names.now) (spec.asks_for_suggestions (map string_bytes names.now)) }
{
    if asks_for_suggestions(names) {
        tell_suggested(alloc, names[1].as_str(), shelf, text)
    } else {
        let beside = beside_of(names);
        let files = files_by(beside, names);
        let manner = Manner {
            named: 1 < files.len(),
            first: asks_for_first(names),
            beside,
        };
        tell_all(alloc, manner, files, shelf, text)
    }
}
