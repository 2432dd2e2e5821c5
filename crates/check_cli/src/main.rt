//! The program of a first verdict: the command line, the files of the system and standard output go to [`check_call::check_call`], which is
//! the whole program as a library, and whose status is the exit status.
#![tactic(auto)]

use call_inputs::command_line;
use check_call::check_call;
use cov_io::{FileShelf, StdSink};
use std::process::ExitCode;

fn main(rt: HostRuntime) -> ExitCode {
    let words = match command_line(&rt) {
        Ok(words) => words,
        Err(status) => return ExitCode::from(status),
    };
    let mut shelf = FileShelf::new(&rt);
    let mut sink = StdSink::new(&rt);
    let status = check_call(rt.alloc(), words.as_slice(), &mut shelf, &mut sink);
    ExitCode::from(status.exit_status())
}
