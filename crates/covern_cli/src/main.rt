//! The program: the command line, the files of the system, standard output and a judge by the rules go to [`top_call::covern_with`], which is
//! the whole program as a library, and whose status is the exit status.
#![tactic(auto)]

use call_inputs::command_line;
use cov_io::{FileShelf, StdSink};
use std::process::ExitCode;
use thread_swap::Rules;
use top_call::covern_with;

fn main(rt: HostRuntime) -> ExitCode {
    let words = match command_line(&rt) {
        Ok(words) => words,
        Err(status) => return ExitCode::from(status),
    };
    let mut shelf = FileShelf::new(&rt);
    let mut sink = StdSink::new(&rt);
    let mut judge = Rules::new();
    let status = covern_with(
        rt.alloc(),
        words.as_slice(),
        &mut shelf,
        &mut sink,
        &mut judge,
    );
    ExitCode::from(status.exit_status())
}
