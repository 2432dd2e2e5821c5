//! The call of `check` alone, with all that it promises.

ghost use Rattle.std.specs.Prelude.{◌≡◌, ◌≤◌, ◌⊎◌, IfSome, IsTrue, map, string_bytes};
ghost use Rattle.call_inputs.specs.Plans.{CarriesOut, IsMet, Performs, RepliesOver};
ghost use Rattle.call_reports.specs.Ends.{Ends};
ghost use Rattle.check_call.specs.Checking as spec;
ghost use Rattle.check_call.specs.Secured.{HoldsSecure};
ghost use Rattle.cov_io.specs.Counters.{Rose};
ghost use Rattle.cov_io.specs.Shelves.{Passes};

use call_judge::accepted_programs_are_secure;
use call_judge::check::check;
use call_reports::{Answer, Status, Stop, end};
use cov_io::{Shelf, Sink};
use std::alloc::Global;

/// Checks the program of a file, and writes the report: for the words `check P`. `words` are the command line without the program's name; the file
/// is read from `shelf` by name, and the report goes to `sink`. Other words are answered as words of no form.
pub fn check_call<S: Shelf, K: Sink>(
    alloc: Global,
    words: &[String],
    shelf: &mut S,
    sink: &mut K,
) -> Status
    // The shelf is called once for the file, and not otherwise; the status, and what is put, are those of a reply that follows the answer.
    ensures does { Performs (S.shelved shelf.old) (S.shelved shelf.new) (K.sunk sink.old) (K.sunk sink.new) (spec.plan_for (map string_bytes words.now)) result }
    // On a sure shelf the reply is the one that the files say.
    ensures exact { IsTrue (S.shelved shelf.old).sure → IfSome (S.shelved shelf.old).told (λ files.
        Ends (RepliesOver files (spec.plan_for (map string_bytes words.now))) (K.sunk sink.old) (K.sunk sink.new) result) }
    // So it is on every shelf that tells its files, if no call of it failed.
    ensures quiet { ¬ Rose (S.shelved shelf.old).faults (S.shelved shelf.new).faults → IfSome (S.shelved shelf.old).told (λ files.
        Ends (RepliesOver files (spec.plan_for (map string_bytes words.now))) (K.sunk sink.old) (K.sunk sink.new) result) }
    // A program that is accepted is secure.
    ensures secure { result ≡ Status.Done → IfSome (S.shelved shelf.old).told (λ files. HoldsSecure files (map string_bytes words.now)) }
    // Where the shelf tells, no call of it and no put failed, and the program is accepted, all is done, or memory ran out.
    ensures complete { ¬ Rose (S.shelved shelf.old).faults (S.shelved shelf.new).faults → ¬ Rose (K.sunk sink.old).faults (K.sunk sink.new).faults
        → IfSome (S.shelved shelf.old).told (λ files. IsMet files (spec.plan_for (map string_bytes words.now)) → (result ≡ Status.Done) ⊎ (result ≡ Status.NoMemory)) }
    ensures read_fault { result ≡ Status.ReadFault → Rose (S.shelved shelf.old).faults (S.shelved shelf.new).faults }
    ensures write_fault { result ≡ Status.WriteFault → Rose (K.sunk sink.old).faults (K.sunk sink.new).faults }
    // What a shelf tells stays, and no count falls.
    ensures passes { Passes (S.shelved shelf.old) (S.shelved shelf.new) }
    ensures counts { (K.sunk sink.old).faults ≤ (K.sunk sink.new).faults }
{
    accepted_programs_are_secure();
    let answer = match answer(alloc, words, shelf) {
        Ok(answer) | Err(Stop::Answer(answer)) => answer,
        Err(Stop::NoMemory) => return Status::NoMemory,
    };
    end(alloc, answer, sink)
}

/// Does what the words ask for.
fn answer<'w, S: Shelf>(
    alloc: Global,
    words: &'w [String],
    shelf: &mut S,
) -> Result<Answer<'w>, Stop<'w>>
    ensures { CarriesOut (S.shelved shelf.old) (S.shelved shelf.new) (spec.plan_for (map string_bytes words.now)) result }
{
    match words {
        [command, name] => of_one(alloc, command.as_str(), name.as_str(), shelf),
        _ => Ok(Answer::Usage),
    }
}

/// Does what a word asks of a file.
fn of_one<'w, S: Shelf>(
    alloc: Global,
    command: &str,
    name: &'w str,
    shelf: &mut S,
) -> Result<Answer<'w>, Stop<'w>>
    ensures { CarriesOut (S.shelved shelf.old) (S.shelved shelf.new) (spec.plan_of (spec.of_one command.now name.now)) result }
{
    if command == "check" {
        check(alloc, name, shelf)
    } else {
        Ok(Answer::Usage)
    }
}
