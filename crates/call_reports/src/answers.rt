//! What a call can answer, the status of each answer, and its exit status.

ghost use Rattle.std.specs.Prelude.{◌≡◌};
ghost use Rattle.call_reports.specs.AnswerViews.{seen};
ghost use Rattle.call_reports.specs.Replies.{exit_status, status_of};
ghost use Rattle.call_reports.specs.declared.answers.Stop.TheVariants as stops;

use cov_ast::Refusal;
use cov_expr::{Blob, Name, NoMemory};

/// How a call ends.
#[derive(Clone, Copy)]
pub enum Status {
    /// The command did all its work.
    Done,
    /// The program breaks a rule.
    Refused,
    /// The words are none of the forms.
    Usage,
    /// A file isn't in its grammar and limits.
    Malformed,
    /// A file couldn't be read.
    ReadFault,
    /// The report couldn't be written: a proper prefix of it was.
    WriteFault,
    /// Memory ran out, and nothing was written.
    NoMemory,
    /// A file is longer than its limit.
    TooLong,
    /// Two runs don't agree.
    Differ,
    /// Two memories aren't fit to start from.
    BadStarts,
}

impl Status {
    /// The number with which the program exits.
    pub fn exit_status(self) -> u8
        ensures { result ≡ exit_status self }
    {
        match self {
            Status::Done => 0,
            Status::Refused => 1,
            Status::Usage => 2,
            Status::Malformed => 3,
            Status::ReadFault => 4,
            Status::WriteFault => 5,
            Status::NoMemory => 6,
            Status::TooLong => 7,
            Status::Differ => 8,
            Status::BadStarts => 9,
        }
    }
}

/// How much an accepted program has.
#[derive(Clone, Copy)]
pub struct Totals {
    pub threads: u64,
    pub statements: u64,
    pub entailments: u64,
}

/// What is wrong with a text.
#[derive(Clone, Copy)]
pub enum FaultKind {
    Byte,
    Number,
    Name,
    Token,
    Limit,
    Depth,
    /// A name that is no variable.
    Unknown,
}

/// What of a text doesn't fit the program for which it is read: of threads that are to replace its own, or of levels.
#[derive(Clone, Copy)]
pub enum Misfit {
    /// Threads of version 2, where the program is of version 1.
    Version,
    /// A variable or a lock that a text of threads declares.
    Declares,
    /// A thread whose name none of the program has.
    Thread,
    /// A name that is that of no variable, of no lock, or of no level, as which it is used.
    Unknown,
    /// A level that is declared, or a variable that is listed, a second time.
    Same,
    /// A level with the name of a variable that is more than a marker.
    Marker,
}

/// A fault of a file, as reports show it.
#[derive(Clone, Copy)]
pub enum Fault {
    /// Of a text, at the offset of a byte.
    Text(FaultKind, u32),
    /// A start or a schedule has no reading as JSON.
    Json,
    /// A start is no object.
    NotObject,
    /// A start has no word for this variable.
    Missing(Name),
    /// A start has a key that is no variable.
    UnknownKey,
    /// A start has no word, but another value, for this variable.
    NotWord(Name),
    /// A schedule is no list.
    NotList,
    /// A schedule has too many entries.
    TooMany,
    /// This entry of a schedule, counted from 0, is no number of a thread.
    BadEntry(u32),
    /// With the byte at this offset no object goes on, or it is the length of bytes that end too early.
    Object(u32),
    /// An object is one of parts that are no code.
    Code,
    /// Of a text that is read for a program, at the offset of a byte.
    Misfit(Misfit, u32),
}

/// What a call answers, the want of memory and a failed write aside. Names of files are words of the command line.
#[derive(Drop)]
pub enum Answer<'w> {
    Usage,
    ReadFault(&'w str),
    TooLong(&'w str),
    Malformed(&'w str, Fault),
    /// The first rule that is broken, and the name of the thread, for a rule of statements.
    Refused(Refusal, Option<Name>),
    /// The name of the first level whose observer is shown a program that breaks a rule, and the same of that program.
    RefusedFor(Name, Refusal, Option<Name>),
    /// The first rule that is broken where no certificate was found, the name of the thread, and the lines of what is left unproved.
    RefusedOpen(Refusal, Option<Name>, Blob),
    Accepted(Totals),
    /// The canonical spelling of a program, or the listing or the object of a code.
    Spelled(Blob),
    /// The report on a run, of a program or of its code, on two that agree, or on trials of which none sets two runs apart.
    Ran(Blob),
    /// Two memories aren't fit to start from: the name of the first variable or lock that says so.
    BadStarts(Blob),
    /// Two runs don't agree: the first step after which they don't, and what they differ in there.
    Differ(u32, Blob),
    /// The report on a trial whose two runs don't agree.
    Refuted(Blob),
}

/// Why a step of a command gives no value.
#[derive(Drop)]
pub enum Stop<'w> {
    /// This is what the call answers.
    Answer(Answer<'w>),
    /// Memory ran out.
    NoMemory,
}

impl From<NoMemory> for Stop<'_> {
    ghost from_gives = { λ _ stop. stop ≡ stops.NoMemory };

    fn from(_error: NoMemory) -> Self {
        Stop::NoMemory
    }
}

/// The status of an answer.
pub fn status_for(answer: &Answer<'_>) -> Status
    ensures { result ≡ status_of (seen answer.now) }
{
    match answer {
        Answer::Usage => Status::Usage,
        Answer::ReadFault(_) => Status::ReadFault,
        Answer::TooLong(_) => Status::TooLong,
        Answer::Malformed(_, _) => Status::Malformed,
        Answer::Refused(_, _) | Answer::RefusedFor(_, _, _) | Answer::RefusedOpen(_, _, _) => {
            Status::Refused
        }
        Answer::Accepted(_) | Answer::Spelled(_) | Answer::Ran(_) => Status::Done,
        Answer::BadStarts(_) => Status::BadStarts,
        Answer::Differ(_, _) | Answer::Refuted(_) => Status::Differ,
    }
}
