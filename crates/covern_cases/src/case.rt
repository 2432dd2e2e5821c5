//! Cases as the lines of a file say them.

use crate::failure::Failure;
use crate::lines::{add_line, copy_of};
use cov_expr::{Blob, List, Name, NoMemory};
use std::alloc::Global;

/// Texts under names, and what calls on them have to show.
#[derive(Drop)]
pub struct Case {
    pub name: Blob,
    pub files: Vec<(Name, Blob)>,
    pub calls: Vec<Call>,
}

/// A call, and what it has to show.
#[derive(Drop)]
pub struct Call {
    /// Whether it is a call of the product, and not of a part of it.
    pub is_whole: bool,
    pub words: Blob,
    pub due: Blob,
}

/// What a line belongs to.
#[derive(Clone, Copy)]
enum Owner {
    Comment,
    File,
    Call,
}

/// Adds the cases of a file.
pub fn add_cases(alloc: Global, bytes: &[u8], cases: &mut Vec<Case>) -> Result<(), Failure> {
    let mut owner = Owner::Comment;
    for line in bytes.split_inclusive(|byte| *byte == b'\n') {
        match line.strip_prefix(b"//// ") {
            Some(name) => {
                cases.push(case_named(alloc, name)?)?;
                owner = Owner::File;
            }
            None => {
                if let Some(case) = cases.last_mut() {
                    owner = continue_case(alloc, line, owner, case)?;
                }
            }
        }
    }
    Ok(())
}

/// A case with an empty file `p`.
fn case_named(alloc: Global, name: &[u8]) -> Result<Case, Failure> {
    let mut case = Case {
        name: copy_of(alloc, name.trim_ascii())?,
        files: Vec::new(alloc),
        calls: Vec::new(alloc),
    };
    begin_file(alloc, b"p", &mut case)?;
    Ok(case)
}

/// Adds a line to a case. `owner` is what the line before belongs to, and the answer what this one does.
fn continue_case(
    alloc: Global,
    line: &[u8],
    owner: Owner,
    case: &mut Case,
) -> Result<Owner, Failure> {
    if let Some(words) = line.strip_prefix(b"$") {
        begin_call(alloc, true, words, case)?;
        return Ok(Owner::Call);
    }
    if let Some(words) = line.strip_prefix(b"%") {
        begin_call(alloc, false, words, case)?;
        return Ok(Owner::Call);
    }
    if let Some(name) = line.strip_prefix(b">") {
        begin_file(alloc, name.trim_ascii(), case)?;
        return Ok(Owner::File);
    }
    let is_empty = line.trim_ascii_end().is_empty();
    match owner {
        Owner::Call if is_empty => return Ok(Owner::Comment),
        Owner::Comment => {}
        Owner::File => {
            if let Some((_, text)) = case.files.last_mut() {
                add_line(alloc, line, text)?;
            }
        }
        Owner::Call => {
            if let Some(call) = case.calls.last_mut() {
                add_line(alloc, line, &mut call.due)?;
            }
        }
    }
    Ok(owner)
}

fn begin_call(
    alloc: Global,
    is_whole: bool,
    words: &[u8],
    case: &mut Case,
) -> Result<(), NoMemory> {
    let call = Call {
        is_whole,
        words: copy_of(alloc, words.trim_ascii())?,
        due: List::new(alloc),
    };
    Ok(case.calls.push(call)?)
}

fn begin_file(alloc: Global, name: &[u8], case: &mut Case) -> Result<(), Failure> {
    let Some(name) = Name::new(name) else {
        return Err(Failure::Usage);
    };
    Ok(case.files.push((name, List::new(alloc)))?)
}
