//! Lines of a case, and what a line that is repeated stands for.

use cov_expr::{Blob, List, NoMemory};
use std::alloc::Global;

/// A copy of bytes.
pub fn copy_of(alloc: Global, bytes: &[u8]) -> Result<Blob, NoMemory> {
    let mut copy = List::new(alloc);
    copy.extend_from_slice(bytes)?;
    Ok(copy)
}

/// Adds a line, or what a line `@N TEXT` stands for.
pub fn add_line(alloc: Global, line: &[u8], text: &mut Blob) -> Result<(), NoMemory> {
    match line.strip_prefix(b"@") {
        Some(repeated) => add_repeated(alloc, repeated.trim_ascii_end(), text),
        None => text.extend_from_slice(line),
    }
}

/// Adds what stands behind a number and a blank, so many times.
fn add_repeated(alloc: Global, line: &[u8], text: &mut Blob) -> Result<(), NoMemory> {
    let mut count: u32 = 0;
    for (i, byte) in line.iter().enumerate() {
        if *byte == b' ' {
            return add_times(alloc, count, &line[i + 1..], text);
        }
        let digit = byte.saturating_sub(b'0') as u32;
        count = count.saturating_mul(10).saturating_add(digit);
    }
    Ok(())
}

fn add_times(alloc: Global, count: u32, piece: &[u8], text: &mut Blob) -> Result<(), NoMemory> {
    for turn in 0..count {
        add_turn(alloc, turn, piece, text)?;
    }
    Ok(())
}

/// Adds a piece in which each `#` is the number of the turn, and each `~` a line feed.
fn add_turn(alloc: Global, turn: u32, piece: &[u8], text: &mut Blob) -> Result<(), NoMemory> {
    let number = format!(in alloc; "{turn}")?;
    for byte in piece {
        match *byte {
            b'#' => text.extend_from_slice(number.as_bytes())?,
            b'~' => text.push(b'\n')?,
            other => text.push(other)?,
        }
    }
    Ok(())
}
