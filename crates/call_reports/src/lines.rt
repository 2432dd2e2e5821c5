//! Names, numbers and texts, added to a line.

ghost use Rattle.std.specs.Prelude.{◌≡◌, ◌++◌, OnOk, codes, decimal};
ghost use Rattle.call_reports.specs.Lines as spec;

use cov_expr::{Blob, Name, NoMemory};
use itoa::Buffer;

/// Adds a name behind what stands before it.
pub fn add_name(before: &[u8], name: &Name, line: &mut Blob) -> Result<(), NoMemory>
    ensures { OnOk result (line.new ≡ line.old ++ before.now ++ name.now) }
{
    line.extend_from_slice(before)?;
    line.extend_from_slice(name.text())
}

/// Adds a number in decimal.
pub fn add_number(n: u32, line: &mut Blob) -> Result<(), NoMemory>
    ensures { OnOk result (line.new ≡ line.old ++ decimal n) }
{
    let mut buffer = Buffer::new();
    line.extend_from_slice(buffer.format(n).as_bytes())
}

/// Adds a number behind what stands before it.
pub fn add_number_behind(before: &[u8], n: u32, line: &mut Blob) -> Result<(), NoMemory>
    ensures { OnOk result (line.new ≡ line.old ++ before.now ++ decimal n) }
{
    line.extend_from_slice(before)?;
    add_number(n, line)
}

/// Adds a text between two others.
pub fn add_between(
    before: &[u8],
    text: &[u8],
    behind: &[u8],
    line: &mut Blob,
) -> Result<(), NoMemory>
    ensures { OnOk result (line.new ≡ line.old ++ (before.now ++ text.now ++ behind.now)) }
{
    line.extend_from_slice(before)?;
    line.extend_from_slice(text)?;
    line.extend_from_slice(behind)
}

/// Adds a line with a number.
pub fn add_numbered(kind: &[u8], n: u32, text: &mut Blob) -> Result<(), NoMemory>
    ensures { OnOk result (text.new ≡ text.old ++ spec.number_line kind.now n) }
{
    add_number_behind(kind, n, text)?;
    text.extend_from_slice(b"\n")
}
