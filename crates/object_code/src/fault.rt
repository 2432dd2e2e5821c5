//! Why bytes are no object of a code.

ghost use Rattle.std.specs.Prelude.{◌≡◌};
ghost use Rattle.object_code.specs.declared.fault.ObjectFault.TheVariants as faults;

use cov_expr::NoMemory;
use risc_machine::CodeBad;

/// Why bytes are no object of a code.
#[derive(Clone, Copy)]
pub enum ObjectFault {
    /// Behind so many bytes stands the first with which no object goes on, or the bytes end there too early.
    Bad(u32),
    /// The bytes are the object of parts with this fault: a name that equals an earlier one, or a target past the end.
    Code(CodeBad),
    /// Memory ran out.
    NoMemory,
}

impl From<NoMemory> for ObjectFault {
    ghost from_gives = { λ _ fault. fault ≡ faults.NoMemory };

    fn from(_error: NoMemory) -> ObjectFault {
        ObjectFault::NoMemory
    }
}
