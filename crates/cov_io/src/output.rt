//! The call of a system by which bytes are written.

ghost use Rattle.std.specs.Prelude.{◌≡◌, ◌≤◌, ◌<◌, List, ℕ, Option, IfOk, length};
ghost use Rattle.cov_io.specs.Calls.{IsLater, Troubles, after_call, after_write};

use crate::trouble::CallError;

/// The call of a system by which bytes are written.
///
/// An output may *tell* what was written. It counts how often a call was interrupted by a signal and how often one
/// failed for another cause.
pub trait Output {
    /// What was written, where it tells that.
    ghost has: { Self → Option (List ℕ) };

    /// How its calls went.
    ghost troubles: { Self → Troubles };

    /// Writes a front of a piece, and answers how many bytes that is: at least one, unless the piece is empty. Where
    /// it fails nothing is written.
    fn write(&mut self, piece: &[u8]) -> Result<usize, CallError>
        ensures count { IfOk result (λ count. (count ≤ length piece.now) × (0 < length piece.now → 0 < count)) }
        ensures bytes { has self.new ≡ after_write (has self.old) piece.now result }
        ensures counted { troubles self.new ≡ after_call (troubles self.old) result }
        ensures later { IsLater (troubles self.old) (troubles self.new) };
}
