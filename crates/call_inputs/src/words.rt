//! The words of the command line, as the programs take them from the system.

ghost use Rattle.std.specs.Prelude.{◌≡◌, ◌⊎◌, IfErr};
ghost use Rattle.call_reports.specs.Replies.{exit_status};

use call_reports::Status;
use std::env::Env;
use std::{env, io};

/// The exit status where a word of the command line isn't text.
const BAD_WORDS: u8 = 10;

/// The words behind the program's name; or the exit status where there is no memory for them, or a word isn't text.
pub fn command_line<R: Env + AllocGlobal>(rt: &R) -> Result<Vec<String>, u8>
    ensures { IfErr result (λ status. (status ≡ exit_status Status.NoMemory) ⊎ (status ≡ 10)) }
{
    match all_words(rt) {
        Ok(words) => Ok(words),
        Err(error) if error.kind() == io::ErrorKind::OutOfMemory => {
            Err(Status::NoMemory.exit_status())
        }
        Err(_) => Err(BAD_WORDS),
    }
}

fn all_words<R: Env + AllocGlobal>(rt: &R) -> io::Result<Vec<String>> {
    Ok(env::args(rt)?.skip(1).collect(rt.alloc())?)
}
