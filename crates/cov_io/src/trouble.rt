//! How often calls of the system failed, and why.

ghost use Rattle.std.specs.Prelude.{◌≡◌, ◌↔◌};
ghost use Rattle.std.specs.IoError.{error_kind};
ghost use Rattle.cov_io.specs.Calls.{IsLater, after_error, failed as one_failed, no_troubles};

use crate::counts::raised;
use std::io;
use std::io::ErrorKind;
use std::marker::Model;

/// Why a call of the system did nothing.
#[derive(Clone, Copy, PartialEq, Eq)]
pub enum CallError {
    /// A signal interrupted it: it may be made again.
    Interrupted,
    /// Any other cause.
    Other,
}

/// How often calls of the system were interrupted, and how often they failed for another cause.
#[derive(Clone, Copy)]
pub(crate) struct Trouble {
    interrupts: u64,
    errors: u64,
}

impl Model for Trouble {
    ghost use Rattle.std.specs.Prelude.{◌≤◌};
    ghost use Rattle.cov_io.specs.Counters.{last_count};
    ghost use Rattle.cov_io.specs.Calls.{Troubles};

    ghost Value = { Troubles };

    ghost view = { λ t. record { interrupts = t.interrupts; errors = t.errors } };

    ghost invariant = { λ t. (t.interrupts ≤ last_count) × (t.errors ≤ last_count) };

    ghost inverse = { λ t. record { interrupts = t.interrupts; errors = t.errors } };
}

impl Trouble {
    /// Before the first call.
    pub(crate) fn none() -> Trouble
        ensures { result ≡ no_troubles }
    {
        Trouble {
            interrupts: 0,
            errors: 0,
        }
    }

    /// Counts a call that failed, and says why it did.
    pub(crate) fn count(&mut self, error: &io::Error) -> CallError
        ensures kind { (result ≡ CallError.Interrupted) ↔ (error_kind error.now ≡ ErrorKind.Interrupted) }
        ensures counted { self.new ≡ after_error self.old result }
        ensures later { IsLater self.old self.new }
    {
        if error.kind() == ErrorKind::Interrupted {
            self.interrupts = raised(self.interrupts, 1);
            CallError::Interrupted
        } else {
            self.fail();
            CallError::Other
        }
    }

    /// Counts a call that failed for another cause than a signal.
    pub(crate) fn fail(&mut self)
        ensures counted { self.new ≡ one_failed self.old }
        ensures later { IsLater self.old self.new }
    {
        self.errors = raised(self.errors, 1);
    }
}
