//! Names, numbers and blanks at the end of a text.

ghost use Rattle.std.specs.Prelude.{◌≡◌, ◌++◌, OnOk, decimal};
ghost use Rattle.cov_print.specs.Spelling as spec;

use cov_ast::NameTable;
use cov_expr::{List, NoMemory};
use itoa::Buffer;

/// Adds a number in decimal.
pub fn add_number(n: u32, out: &mut List<u8>) -> Result<(), NoMemory>
    ensures { OnOk result (out.new ≡ out.old ++ decimal n) }
{
    let mut buffer = Buffer::new();
    out.extend_from_slice(buffer.format(n).as_bytes())
}

/// Adds the name of a variable or a lock, or `_` for a number that has no name.
pub fn add_name(names: &NameTable, id: u32, out: &mut List<u8>) -> Result<(), NoMemory>
    ensures { OnOk result (out.new ≡ out.old ++ spec.name names.now id) }
{
    if id < names.len() {
        out.extend_from_slice(names.name(id).text())
    } else {
        out.extend_from_slice(b"_")
    }
}

/// Adds names with commas between.
pub fn add_names(names: &NameTable, ids: &[u32], out: &mut List<u8>) -> Result<(), NoMemory>
    ensures { OnOk result (out.new ≡ out.old ++ spec.listed (spec.name names.now) ids.now) }
{
    match ids {
        [] => Ok(()),
        [first, rest @ ..] => {
            add_name(names, *first, out)?;
            for id in rest {
                out.extend_from_slice(b", ")?;
                add_name(names, *id, out)?;
            }
            Ok(())
        }
    }
}
