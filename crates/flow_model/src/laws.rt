//! Laws: secure threads compose, and what is found first is what sets two memories apart, or makes them unfit to start from.

ghost use Rattle.std.specs.Prelude.{◌≡◌, ◌↔◌, ℕ, ◌<◌, List, length, IsNone};
ghost use Rattle.cov_ast.specs.Plain.{Plain, plain};
ghost use Rattle.cov_ast.specs.Syntax as syntax;
ghost use Rattle.cov_ast.specs.WellFormed.{IsWellFormed};
ghost use Rattle.flow_model.specs.Composable.{AreControlsLow, HasCompatibleModes};
ghost use Rattle.flow_model.specs.Agreement.{AreFitStarts, MemoriesAgree};
ghost use Rattle.flow_model.specs.FirstDifference.{first_bad_start, first_difference};
ghost use Rattle.flow_model.specs.Game.{IsSecureThread};
ghost use Rattle.flow_model.specs.Secure.{IsSecure};
ghost use Rattle.flow_model.specs.Source.{Holders};

/// The games of all threads compose, over every schedule: where each thread of a well formed program is secure alone,
/// controls are low and no thread writes what another has stable (modes are compatible), the program is secure (the
/// compositionality theorem of Mantel, Sands and Sudbrock, with the locks of COVERN). Of a well formed program only words of
/// 32 bits are used.
pub fn threads_compose()
    ensures { (p : syntax.Program) → IsWellFormed p → AreControlsLow (plain p) → ((t : ℕ) → t < length p.threads → IsSecureThread (plain p) t) → HasCompatibleModes (plain p) → IsSecure (plain p) }
{}

/// Memories with holders, of lengths as declared, agree exactly where they have no first difference.
pub fn no_difference_is_agreement()
    ensures { (p : Plain) → (m1 : List ℕ) → (h1 : Holders) → (m2 : List ℕ) → (h2 : Holders) → length m1 ≡ length p.vars → length h1 ≡ length p.locks → length m2 ≡ length p.vars → length h2 ≡ length p.locks → IsNone (first_difference p m1 h1 m2 h2) ↔ MemoriesAgree p m1 h1 m2 h2 }
{}

/// Two memories are fit to start from exactly where nothing makes them unfit.
pub fn no_bad_start_is_fitness()
    ensures { (p : Plain) → (m1 m2 : List ℕ) → IsNone (first_bad_start p m1 m2) ↔ AreFitStarts p m1 m2 }
{}
