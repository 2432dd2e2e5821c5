//! The command that the words of a command line ask for, carried out.

ghost use Rattle.std.specs.Prelude.{◌≡◌, ◌≤◌, IfSome, map, string_bytes};
ghost use Rattle.call_inputs.specs.Plans.{CarriesOut, CarriesOutAsking};
ghost use Rattle.cert_search.specs.declared.finder.TheConstants.{MOST_DEPTH};
ghost use Rattle.cov_expr.specs.declared.limits.TheConstants.{MOST_TRIALS};
ghost use Rattle.thread_swap.specs.Judges.{Judging, Passes};
ghost use Rattle.top_call.specs.Commands as spec;
ghost use Rattle.top_call.specs.Commands.{plan_of};
ghost use Rattle.top_call.specs.Outcome.{plan_for};

use call_code::big::big;
use call_code::compile::compile;
use call_code::object::object;
use call_code::pair_code::pair_code;
use call_code::run_code::run_code;
use call_code::unobject::unobject;
use call_judge::check::check;
use call_reports::{Answer, Stop};
use call_run::pair::pair;
use call_run::run::run;
use call_run::run_until::run_until;
use call_run::trials::refute;
use call_text::fmt::format;
use call_text::migrate::migrate;
use call_verdicts::annotations::annotate;
use call_verdicts::observers::levels;
use call_verdicts::swap::swap;
use cov_expr::{MOST_EXPRESSION_BYTES, MOST_ROUNDS, MOST_TRIALS};
use cov_io::Shelf;
use itoa::Buffer;
use std::alloc::Global;
use thread_swap::Judge;

/// Does what the words ask for. Only `swap` asks the judge.
pub fn answer<'w, S: Shelf, J: Judge>(
    alloc: Global,
    words: &'w [String],
    shelf: &mut S,
    judge: &mut J,
) -> Result<Answer<'w>, Stop<'w>>
    ensures does { CarriesOutAsking (S.shelved shelf.old) (S.shelved shelf.new) (J.judging judge.old).judged (J.judging judge.new).judged
        (plan_for (J.judging judge.old) (map string_bytes words.now)) result }
    ensures passes { Passes (J.judging judge.old) (J.judging judge.new) }
{
    if is_swap(words) {
        swap(alloc, words[1].as_str(), words[2].as_str(), shelf, judge)
    } else {
        unjudged(alloc, words, shelf)
    }
}

/// Whether the words are those of `swap`, with two files.
fn is_swap(words: &[String]) -> bool
    ensures { result ≡ spec.is_swap (map string_bytes words.now) }
{
    words.len() == 3 && words[0].as_str() == "swap"
}

/// Does what the words ask for, where that asks no judge.
fn unjudged<'w, S: Shelf>(
    alloc: Global,
    words: &'w [String],
    shelf: &mut S,
) -> Result<Answer<'w>, Stop<'w>>
    ensures { (j : Judging) → CarriesOut (S.shelved shelf.old) (S.shelved shelf.new) (plan_of j (spec.unjudged (map string_bytes words.now))) result }
{
    match words {
        [command, name] => of_one(alloc, command.as_str(), name.as_str(), shelf),
        [command, first, second] => of_two(
            alloc,
            command.as_str(),
            first.as_str(),
            second.as_str(),
            shelf,
        ),
        [command, program, start, schedule] => of_three(
            alloc,
            command.as_str(),
            program.as_str(),
            start.as_str(),
            schedule.as_str(),
            shelf,
        ),
        [command, program, start, next, last] => of_four(
            alloc,
            command.as_str(),
            program.as_str(),
            start.as_str(),
            next.as_str(),
            last.as_str(),
            shelf,
        ),
        _ => Ok(Answer::Usage),
    }
}

/// The commands of one file.
fn of_one<'w, S: Shelf>(
    alloc: Global,
    command: &str,
    name: &'w str,
    shelf: &mut S,
) -> Result<Answer<'w>, Stop<'w>>
    ensures { (j : Judging) → CarriesOut (S.shelved shelf.old) (S.shelved shelf.new) (plan_of j (spec.of_one command.now name.now)) result }
{
    if command == "check" {
        check(alloc, name, shelf)
    } else if command == "compile" {
        compile(alloc, name, shelf)
    } else if command == "fmt" {
        format(alloc, name, shelf)
    } else if command == "migrate" {
        migrate(alloc, name, shelf)
    } else if command == "object" {
        object(alloc, name, shelf)
    } else if command == "unobject" {
        unobject(alloc, name, shelf)
    } else {
        Ok(Answer::Usage)
    }
}

/// The commands of two files, or of a number and a file, in this order or the other.
fn of_two<'w, S: Shelf>(
    alloc: Global,
    command: &str,
    first: &'w str,
    second: &'w str,
    shelf: &mut S,
) -> Result<Answer<'w>, Stop<'w>>
    ensures { (j : Judging) → CarriesOut (S.shelved shelf.old) (S.shelved shelf.new) (plan_of j (spec.of_two command.now first.now second.now)) result }
{
    if command == "big" {
        match number_of(first, MOST_ROUNDS) {
            Some(rounds) => big(alloc, rounds, second, shelf),
            None => Ok(Answer::Usage),
        }
    } else if command == "refute" {
        match number_of(second, MOST_TRIALS) {
            Some(trials) => refute(alloc, first, trials, shelf),
            None => Ok(Answer::Usage),
        }
    } else if command == "levels" {
        levels(alloc, first, second, shelf)
    } else if command == "annotate" {
        match depth_of(second) {
            Some(depth) => annotate(alloc, first, depth, shelf),
            None => Ok(Answer::Usage),
        }
    } else {
        Ok(Answer::Usage)
    }
}

/// The depth of a search that a word spells, if it spells one.
fn depth_of(word: &str) -> Option<u32>
    ensures is { result ≡ spec.depth_of word.now }
    ensures within { IfSome result (λ depth. depth ≤ MOST_DEPTH) }
{
    if word == "0" {
        Some(0)
    } else if word == "1" {
        Some(1)
    } else if word == "2" {
        Some(2)
    } else {
        None
    }
}

/// The number from 1 to a most that a word spells, if it spells one.
fn number_of(word: &str, most: u32) -> Option<u32>
    requires { most ≤ MOST_TRIALS }
    ensures is { result ≡ spec.number_of most word.now }
    ensures within { IfSome result (λ n. (1 ≤ n) × (n ≤ most)) }
{
    let number = word.parse::<u32>().ok()?;
    if is_number(word, number, most) {
        Some(number)
    } else {
        None
    }
}

/// Whether a number is from 1 to a most, and a word spells it as numbers are printed.
fn is_number(word: &str, number: u32, most: u32) -> bool
    ensures { result ≡ spec.is_number most word.now number }
{
    let mut buffer = Buffer::new();
    1 <= number && number <= most && word == buffer.format(number)
}

/// The commands of three files.
fn of_three<'w, S: Shelf>(
    alloc: Global,
    command: &str,
    program: &'w str,
    start: &'w str,
    schedule: &'w str,
    shelf: &mut S,
) -> Result<Answer<'w>, Stop<'w>>
    ensures { (j : Judging) → CarriesOut (S.shelved shelf.old) (S.shelved shelf.new)
        (plan_of j (spec.of_three command.now program.now start.now schedule.now)) result }
{
    if command == "run" {
        run(alloc, program, start, schedule, shelf)
    } else if command == "run-code" {
        run_code(alloc, program, start, schedule, shelf)
    } else {
        Ok(Answer::Usage)
    }
}

/// The commands of four words.
fn of_four<'w, S: Shelf>(
    alloc: Global,
    command: &str,
    program: &'w str,
    start: &'w str,
    next: &'w str,
    last: &'w str,
    shelf: &mut S,
) -> Result<Answer<'w>, Stop<'w>>
    ensures { (j : Judging) → CarriesOut (S.shelved shelf.old) (S.shelved shelf.new)
        (plan_of j (spec.of_four command.now program.now start.now next.now last.now)) result }
{
    if command == "run-until" {
        if last.len() <= MOST_EXPRESSION_BYTES {
            run_until(alloc, program, start, next, last, shelf)
        } else {
            Ok(Answer::Usage)
        }
    } else if command == "pair" {
        pair(alloc, program, start, next, last, shelf)
    } else if command == "pair-code" {
        pair_code(alloc, program, start, next, last, shelf)
    } else {
        Ok(Answer::Usage)
    }
}
