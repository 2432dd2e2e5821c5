//! The top call, `covern`, and `covern_with` over any judge of threads, with all that they promise.

ghost use Rattle.std.specs.Prelude.{◌≡◌, ◌≢◌, ◌⊎◌, IfSome, IsTrue, map, string_bytes, ◌≤◌};
ghost use Rattle.call_inputs.specs.Plans.{IsMet, Performs, PerformsAsking};
ghost use Rattle.call_reports.specs.Ends.{Ends};
ghost use Rattle.check_call.specs.Secured.{HoldsSecure};
ghost use Rattle.cov_io.specs.Counters.{Rose};
ghost use Rattle.cov_io.specs.Shelves.{Passes};
ghost use Rattle.thread_swap.specs.Judges as judges;
ghost use Rattle.thread_swap.specs.RulesSay.{by_rules};
ghost use Rattle.top_call.specs.AcceptedRuns.{RunsAccepted};
ghost use Rattle.top_call.specs.AnnotatedPrograms.{PutsAnnotated};
ghost use Rattle.top_call.specs.Headline.{PutsCode, PutsObject};
ghost use Rattle.top_call.specs.LevelledPrograms.{HoldsSecureForAll};
ghost use Rattle.top_call.specs.Outcome.{IsSuccess, Outcome, plan_for};
ghost use Rattle.top_call.specs.SwappedPrograms.{HoldsSwapped};

use crate::commands::answer;
use call_code::accepted_programs_have_good_code;
use call_judge::accepted_programs_are_secure;
use call_reports::{Status, Stop, end};
use call_verdicts::{
    annotated_programs_are_secure, shown_programs_are_secure, swapped_programs_are_secure,
};
use cov_io::{Shelf, Sink};
use std::alloc::Global;
use thread_swap::{Judge, Rules};

/// Does what the command line says, and writes the report. `words` are the command line without the program's name; files
/// are read from `shelf` by name, and the report goes to `sink`. Threads are judged by the rules.
pub fn covern<S: Shelf, K: Sink>(
    alloc: Global,
    words: &[String],
    shelf: &mut S,
    sink: &mut K,
) -> Status
    // The shelf is called for the files of the words, in their order, once each, up to the first that isn't read, and not otherwise; the
    // status, and what is put, are those of a reply that follows the answers.
    ensures does { Performs (S.shelved shelf.old) (S.shelved shelf.new) (K.sunk sink.old) (K.sunk sink.new) (plan_for (by_rules 0) (map string_bytes words.now)) result }
    // On a sure shelf the reply is the one that the files say.
    ensures exact { IsTrue (S.shelved shelf.old).sure → IfSome (S.shelved shelf.old).told (λ files.
        Ends (Outcome (by_rules 0) files (map string_bytes words.now)) (K.sunk sink.old) (K.sunk sink.new) result) }
    // So it is on every shelf that tells its files, if no call of it failed.
    ensures quiet { ¬ Rose (S.shelved shelf.old).faults (S.shelved shelf.new).faults → IfSome (S.shelved shelf.old).told (λ files.
        Ends (Outcome (by_rules 0) files (map string_bytes words.now)) (K.sunk sink.old) (K.sunk sink.new) result) }
    // A program that is accepted is secure.
    ensures secure { result ≡ Status.Done → IfSome (S.shelved shelf.old).told (λ files. HoldsSecure files (map string_bytes words.now)) }
    // What is put of the code of a program is the listing of a code that matches it, is secure and meets the load bound.
    ensures code { result ≡ Status.Done → IfSome (S.shelved shelf.old).told (λ files.
        PutsCode files (map string_bytes words.now) (K.sunk sink.old) (K.sunk sink.new)) }
    // Its object is that of such a code too.
    ensures object { result ≡ Status.Done → IfSome (S.shelved shelf.old).told (λ files.
        PutsObject files (map string_bytes words.now) (K.sunk sink.old) (K.sunk sink.new)) }
    // A program on which a line of `swap` accepts is secure.
    ensures swapped { result ≡ Status.Done → IfSome (S.shelved shelf.old).told (λ files. HoldsSwapped (by_rules 0) files (map string_bytes words.now)) }
    // A program that `levels` accepts is secure as the observer at each level is shown it.
    ensures levels { result ≡ Status.Done → IfSome (S.shelved shelf.old).told (λ files. HoldsSecureForAll files (map string_bytes words.now)) }
    // What `annotate` puts spells a text that is accepted and means what the program of the file does, which is secure.
    ensures annotated { result ≡ Status.Done → IfSome (S.shelved shelf.old).told (λ files.
        PutsAnnotated files (map string_bytes words.now) (K.sunk sink.old) (K.sunk sink.new)) }
    // Two runs of a program that is accepted never differ, be they asked for or tried, nor do those of code, and no other command answers so.
    ensures agree { IfSome (S.shelved shelf.old).told (λ files. RunsAccepted files (map string_bytes words.now) → result ≢ Status.Differ) }
    // Where the shelf tells, no call of it and no put failed, and all that the words ask holds, all is done, or memory ran out.
    ensures complete { ¬ Rose (S.shelved shelf.old).faults (S.shelved shelf.new).faults → ¬ Rose (K.sunk sink.old).faults (K.sunk sink.new).faults
        → IfSome (S.shelved shelf.old).told (λ files. IsMet files (plan_for (by_rules 0) (map string_bytes words.now))
        → IsSuccess (map string_bytes words.now) result ⊎ (result ≡ Status.NoMemory)) }
    ensures read_fault { result ≡ Status.ReadFault → Rose (S.shelved shelf.old).faults (S.shelved shelf.new).faults }
    ensures write_fault { result ≡ Status.WriteFault → Rose (K.sunk sink.old).faults (K.sunk sink.new).faults }
    // What a shelf tells stays, and no count falls.
    ensures passes { Passes (S.shelved shelf.old) (S.shelved shelf.new) }
    ensures counts { (K.sunk sink.old).faults ≤ (K.sunk sink.new).faults }
{
    let mut judge = Rules::new();
    covern_with(alloc, words, shelf, sink, &mut judge)
}

/// The same, where `swap` asks a judge of threads: all that [`covern`] promises holds, of `swap` by what the judge says.
pub fn covern_with<S: Shelf, K: Sink, J: Judge>(
    alloc: Global,
    words: &[String],
    shelf: &mut S,
    sink: &mut K,
    judge: &mut J,
) -> Status
    // The shelf is called for the files of the words, in their order, once each, up to the first that isn't read, and not otherwise; the
    // status, and what is put, are those of a reply that follows the answers. The count of the judge rises by what is due of what was taken, which
    // is something for `swap` alone.
    ensures does { PerformsAsking (S.shelved shelf.old) (S.shelved shelf.new) (K.sunk sink.old) (K.sunk sink.new) (J.judging judge.old).judged (J.judging judge.new).judged
        (plan_for (J.judging judge.old) (map string_bytes words.now)) result }
    // On a sure shelf the reply is the one that the files say.
    ensures exact { IsTrue (S.shelved shelf.old).sure → IfSome (S.shelved shelf.old).told (λ files.
        Ends (Outcome (J.judging judge.old) files (map string_bytes words.now)) (K.sunk sink.old) (K.sunk sink.new) result) }
    // So it is on every shelf that tells its files, if no call of it failed.
    ensures quiet { ¬ Rose (S.shelved shelf.old).faults (S.shelved shelf.new).faults → IfSome (S.shelved shelf.old).told (λ files.
        Ends (Outcome (J.judging judge.old) files (map string_bytes words.now)) (K.sunk sink.old) (K.sunk sink.new) result) }
    // A program that is accepted is secure.
    ensures secure { result ≡ Status.Done → IfSome (S.shelved shelf.old).told (λ files. HoldsSecure files (map string_bytes words.now)) }
    // What is put of the code of a program is the listing of a code that matches it, is secure and meets the load bound.
    ensures code { result ≡ Status.Done → IfSome (S.shelved shelf.old).told (λ files.
        PutsCode files (map string_bytes words.now) (K.sunk sink.old) (K.sunk sink.new)) }
    // Its object is that of such a code too.
    ensures object { result ≡ Status.Done → IfSome (S.shelved shelf.old).told (λ files.
        PutsObject files (map string_bytes words.now) (K.sunk sink.old) (K.sunk sink.new)) }
    // A program on which a line of `swap` accepts, by an exact judge, is secure.
    ensures swapped { result ≡ Status.Done → IsTrue (J.judging judge.old).exact → IfSome (S.shelved shelf.old).told (λ files.
        HoldsSwapped (J.judging judge.old) files (map string_bytes words.now)) }
    // A program that `levels` accepts is secure as the observer at each level is shown it.
    ensures levels { result ≡ Status.Done → IfSome (S.shelved shelf.old).told (λ files. HoldsSecureForAll files (map string_bytes words.now)) }
    // What `annotate` puts spells a text that is accepted and means what the program of the file does, which is secure.
    ensures annotated { result ≡ Status.Done → IfSome (S.shelved shelf.old).told (λ files.
        PutsAnnotated files (map string_bytes words.now) (K.sunk sink.old) (K.sunk sink.new)) }
    // Two runs of a program that is accepted never differ, be they asked for or tried, nor do those of code, and no other command answers so.
    ensures agree { IfSome (S.shelved shelf.old).told (λ files. RunsAccepted files (map string_bytes words.now) → result ≢ Status.Differ) }
    // Where the shelf tells, no call of it and no put failed, and all that the words ask holds, all is done, or memory ran out.
    ensures complete { ¬ Rose (S.shelved shelf.old).faults (S.shelved shelf.new).faults → ¬ Rose (K.sunk sink.old).faults (K.sunk sink.new).faults
        → IfSome (S.shelved shelf.old).told (λ files. IsMet files (plan_for (J.judging judge.old) (map string_bytes words.now))
        → IsSuccess (map string_bytes words.now) result ⊎ (result ≡ Status.NoMemory)) }
    ensures read_fault { result ≡ Status.ReadFault → Rose (S.shelved shelf.old).faults (S.shelved shelf.new).faults }
    ensures write_fault { result ≡ Status.WriteFault → Rose (K.sunk sink.old).faults (K.sunk sink.new).faults }
    // What a shelf tells stays, and no count falls.
    ensures passes { Passes (S.shelved shelf.old) (S.shelved shelf.new) }
    ensures counts { (K.sunk sink.old).faults ≤ (K.sunk sink.new).faults }
    // No call changes what a judge says.
    ensures says { judges.Passes (J.judging judge.old) (J.judging judge.new) }
{
    accepted_programs_are_secure();
    accepted_programs_have_good_code();
    swapped_programs_are_secure();
    shown_programs_are_secure();
    annotated_programs_are_secure();
    let answer = match answer(alloc, words, shelf, judge) {
        Ok(answer) | Err(Stop::Answer(answer)) => answer,
        Err(Stop::NoMemory) => return Status::NoMemory,
    };
    end(alloc, answer, sink)
}
