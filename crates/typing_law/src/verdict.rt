//! The verdict on an accepted program.

ghost use Rattle.std.specs.Prelude.{◌≡◌, length};
ghost use Rattle.cov_ast.specs.Plain.{plain};
ghost use Rattle.cov_ast.specs.View as view;
ghost use Rattle.cov_ast.specs.WellFormed.{IsWellFormed};
ghost use Rattle.flow_model.specs.Secure.{IsSecure};
ghost use Rattle.typing_law.specs.Accepted.{IsAccepted};
ghost use Rattle.typing_law.specs.Disciplined.{IsDisciplined};
ghost use Rattle.typing_law.specs.Verdicts.{counts};

use crate::count::Count;
use crate::program_laws::{accepted_is_disciplined, accepted_is_secure};
use cov_ast::Program;

/// That a program is accepted, and what follows: it is secure and disciplined. It keeps how much was checked.
#[derive(Drop)]
pub struct Verdict<'p> {
    pub(crate) program: &'p Program,
    pub(crate) count: Count,
    ghost formed: { ∥ IsWellFormed (view.program program.now) ∥₁ },
    ghost accepted: { IsAccepted (view.program program.now) },
    ghost secure: { ∥ IsSecure (plain (view.program program.now)) ∥₁ },
    ghost disciplined: { IsDisciplined (view.program program.now) },
    ghost counted: { count ≡ counts (view.program program.now) },
}

impl<'p> Verdict<'p> {
    /// The verdict on a program of which every obligation holds, and which has so many statements and entailments.
    pub fn new(program: &'p Program, count: Count) -> Self
        requires formed { IsWellFormed (view.program program.now) }
        requires accepted { IsAccepted (view.program program.now) }
        requires counted { count ≡ counts (view.program program.now) }
        ensures { (result.program.now ≡ program.now) × (result.count ≡ count) }
    {
        accepted_is_secure();
        accepted_is_disciplined();
        Verdict { program, count }
    }

    /// The program that is accepted.
    pub fn program(&self) -> &'p Program
        ensures same { result ≡ self.now.program }
        ensures formed { ∥ IsWellFormed (view.program result.now) ∥₁ }
        ensures accepted { IsAccepted (view.program result.now) }
        ensures secure { ∥ IsSecure (plain (view.program result.now)) ∥₁ }
        ensures disciplined { IsDisciplined (view.program result.now) }
    {
        self.program
    }

    /// How many threads the program has.
    pub fn threads(&self) -> u32
        ensures { result ≡ length self.now.program.now.threads }
    {
        self.program.threads.len() as u32
    }

    /// How many statements and entailments the program has.
    pub fn count(&self) -> Count
        ensures { result ≡ counts (view.program self.now.program.now) }
    {
        self.count
    }
}
