//! Where a report is put to, piece by piece, and how all of a text is.

ghost use Rattle.std.specs.Prelude.{◌≡◌, ◌≤◌, []};
ghost use Rattle.cov_io.specs.Counters.{last_count};
ghost use Rattle.cov_io.specs.Sinks.{Sunk, Puts, Writes};

/// Where a report is written to.
///
/// A sink may *tell* what was put so far, as one in memory does. It counts how often a put failed, up to
/// 18446744073709551615, where the count stands still.
pub trait Sink {
    /// What was put, and how its calls went.
    ghost sunk: { Self → Sunk };

    /// Puts a front of a piece, and answers how many bytes that is: at least one, unless the piece is empty. Where it
    /// fails nothing was put. It takes no memory.
    fn put(&mut self, piece: &[u8]) -> Result<usize, Failed>
        ensures answer { Puts (sunk self.old) (sunk self.new) piece.now result }
        ensures faults { (sunk self.old).faults ≤ (sunk self.new).faults }
        ensures empty { piece.now ≡ [] → (sunk self.new).faults ≡ (sunk self.old).faults }
        ensures range { (sunk self.old).faults ≤ last_count };
}

/// A put failed. The sink has counted it.
#[derive(Clone, Copy, PartialEq, Eq)]
pub struct Failed;

/// Puts all of a text, piece by piece. Where a put fails, what was put before it is a proper prefix of the text. It
/// takes no memory.
pub fn write_whole<K: Sink>(sink: &mut K, text: &[u8]) -> Result<(), Failed>
    ensures answer { Writes (K.sunk sink.old) (K.sunk sink.new) text.now result }
    ensures faults { (K.sunk sink.old).faults ≤ (K.sunk sink.new).faults }
{
    let mut done = 0;
    while done < text.len() {
        done += sink.put(&text[done..])?;
    }
    Ok(())
}
