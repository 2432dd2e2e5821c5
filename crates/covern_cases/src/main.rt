//! The cases of the product: texts, and what calls on them are to show.
//!
//! usage: covern_cases FILE..
//!        covern_cases --times PART N FILE
//!
//! The first form plays the cases of each file, and prints how many there are and what differs; the stored run plays all files of
//! `data/`. To add a case, add its lines to a file there:
//!
//! ```text
//! //// a secret is shown
//! var a: low; var s: high; thread t { a := s; }
//! $ check p
//! refused V9 in t at 36 entailment 1
//! [1]
//! ```
//!
//! - `//// NAME` begins a case. The lines behind it are the text of its file `p`.
//! - `> NAME` begins the text of another file.
//! - `$ WORDS` calls the product with these words, on these files in memory. The lines behind it are what the call has to report,
//!   and `[N]` the status, where it isn't 0. A word with blanks stands between apostrophes. In front of the command may stand what the
//!   call meets outside: `fetch=N` and `put=N`, that the fetch or the put of this number fails; `step=N`, that a put takes N bytes;
//!   `room=N`, that the output has room for N bytes; `cut=N`, that there are only N bytes of the file `p`; `statements=N` and
//!   `entailments=N`, that the judge is one in memory, which says so much of each thread, but with `refuses=N` refuses those that are declared at
//!   N. A last line then has its count, as `judged 6`.
//! - `% PART` calls a part of the product by itself on the text of `p`: `tokens`, `parsed`, `declared`, `certificates`,
//!   `entailments`, `expression`, `replaced` or `listing` ([`parts`] says what each shows). `cut=N` may stand in front of it as well.
//! - An empty line behind a call ends what it has to show. What stands between there and the next case is a comment.
//! - `@N TEXT`, in a file or in what a call has to show, stands for TEXT N times, without a line feed at the end. In TEXT `#` is the
//!   number of the turn, from 0, and `~` a line feed.
//!
//! Every other line is part of its file as it stands, line feed included. What has to be shown comes from the rules of the product,
//! worked out by hand, and never from what a call showed.
//!
//! The second form is for measurements: it does a part of the work N times on the program of a file.
#![tactic(auto)]

mod calls;
mod case;
mod certificates;
mod claim;
mod failure;
mod lines;
mod outside;
mod parts;
mod play;
mod replaced;
mod top;

use crate::failure::Failure;
use crate::parts::add_part;
use crate::play::play;
use cov_expr::{Blob, List, MOST_BYTES};
use cov_io::{Fetched, FileShelf, Shelf, ShelfFault, StdSink, write_whole};
use std::env;

fn main(rt: HostRuntime) -> Result<(), Failure> {
    let words: Vec<String> = env::args(&rt)?.skip(1).collect(rt.alloc())?;
    write_shown(&rt, words.as_slice())
}

/// Writes out what words ask for, and how it ended.
fn write_shown(rt: &HostRuntime, words: &[String]) -> Result<(), Failure> {
    let mut shown = List::new(rt.alloc());
    let done = add_asked(rt, words, &mut shown);
    write_whole(&mut StdSink::new(rt), shown.as_slice()).or(Err(Failure::Unwritten))?;
    done
}

/// Adds what words ask for.
fn add_asked(rt: &HostRuntime, words: &[String], shown: &mut Blob) -> Result<(), Failure> {
    match words {
        [form, part, times, name] if form.as_str() == "--times" => {
            let times = times.as_str().parse::<u32>().or(Err(Failure::Usage))?;
            let text = fetch(rt, name.as_str())?;
            add_part(rt.alloc(), part.as_str(), times, text.as_slice(), shown)
        }
        names => play_each(rt, names, shown),
    }
}

/// Plays the cases of each file.
fn play_each(rt: &HostRuntime, names: &[String], shown: &mut Blob) -> Result<(), Failure> {
    let mut differs = false;
    for name in names {
        let bytes = fetch(rt, name.as_str())?;
        differs |= play(rt.alloc(), name.as_str(), bytes.as_slice(), shown)?;
    }
    if differs {
        Err(Failure::Differs)
    } else {
        Ok(())
    }
}

/// The bytes of a file.
fn fetch(rt: &HostRuntime, name: &str) -> Result<Blob, Failure> {
    match FileShelf::new(rt).fetch(rt.alloc(), name, MOST_BYTES) {
        Ok(Fetched::Whole(bytes)) => Ok(bytes),
        Ok(Fetched::TooLong) => Err(Failure::TooLong),
        Err(ShelfFault::Failed) => Err(Failure::Unreadable),
        Err(ShelfFault::NoMemory) => Err(Failure::NoMemory),
    }
}
