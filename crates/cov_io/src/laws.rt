//! A law of the calls of the system: a function with no body.

ghost use Rattle.std.specs.Prelude.{◌≡◌};
ghost use Rattle.cov_io.specs.declared.counts.TheConstants.{RETRIES};

/// A call of the system that signals interrupt is made a thousand times before that counts as a fault.
pub fn retries_have_their_value()
    ensures { RETRIES ≡ 1000 }
{}
