//! Numbers of lines of places that come one behind the other, each counted from the one before.

ghost use Rattle.std.specs.Prelude.{◌≡◌};
ghost use Rattle.code_lines.specs.Inside.{IsSeen};
ghost use Rattle.text_parts.specs.Lines as spec;

use text_parts::{halves, position};

/// A place, and the number of its line.
#[derive(Clone, Copy)]
pub struct Seen {
    pub place: u32,
    pub line: usize,
}

/// The front of a text.
pub fn at_front() -> Seen
    ensures { result ≡ record { place = 0; line = 1 } }
{
    Seen { place: 0, line: 1 }
}

/// Another place, and the number of its line. The time is that of the bytes between the two; for a place in front, that of those before it.
pub fn seen_at(bytes: &[u8], seen: Seen, place: u32) -> Seen
    requires { IsSeen bytes.now seen }
    ensures { result ≡ record { place = place; line = spec.line bytes.now place } }
{
    if seen.place <= place {
        let (_, rest) = halves(bytes, seen.place as usize);
        let further = position(rest, (place - seen.place) as usize).line - 1;
        Seen {
            place,
            line: seen.line + further,
        }
    } else {
        Seen {
            place,
            line: position(bytes, place as usize).line,
        }
    }
}
