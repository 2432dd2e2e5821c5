//! The laws of levels: of their order, and of what observers are shown.

ghost use Rattle.std.specs.Prelude.{◌≡◌, ◌<◌, ℕ, List, Bool, length, IsTrue, ◌↔◌};
ghost use Rattle.cov_ast.specs.Plain.{plain};
ghost use Rattle.cov_ast.specs.Syntax as syntax;
ghost use Rattle.cov_ast.specs.Tables.{has};
ghost use Rattle.cov_ast.specs.WellFormed.{IsWellFormed};
ghost use Rattle.levels.specs.Accepted.{IsAcceptedForAll, IsRefusedFirst, IsSecureForAll};
ghost use Rattle.level_text.specs.Lattice.{AreLevels, Levels};
ghost use Rattle.levels.specs.Order.{IsBelow, seen_by};
ghost use Rattle.levels.specs.Projection.{shown, shown_vars};

use verify::accepted_is_secure;

/// A law: the levels that an observer sees are those at or below the observer's.
pub fn order_is_least()
    ensures { (vars : ℕ) → (l : Levels) → AreLevels vars l → (observer level : ℕ) → observer < length l.names
        → IsTrue (has (seen_by l observer) level) ↔ IsBelow l.below level observer }
{}

/// A law: what an observer is shown of a well formed program is well formed.
pub fn shown_is_well_formed()
    ensures { (seen : List Bool) → (l : Levels) → (p : syntax.Program) → AreLevels (length p.vars) l → IsWellFormed p → IsWellFormed (shown seen l p) }
{}

/// A law: what an observer is shown of a program does the same. It has the program's locks and its threads, without annotations, and its
/// variables with the classes that the observer is shown.
#[tactic(auto, using(crate::proofs::ShownSame::same_but_classes))]
pub fn shown_does_the_same()
    ensures { (seen : List Bool) → (l : Levels) → (p : syntax.Program) → plain (shown seen l p) ≡ record (plain p) { vars = shown_vars seen l 0 p.vars } }
{}

/// A law: the first level for which a program is refused, as it is worked out, is none where the program is accepted for every level, and else
/// the first for which it isn't.
pub fn first_refused_is_first()
    ensures { (l : Levels) → (p : syntax.Program) → IsRefusedFirst l p }
{}

/// A law: what is accepted for every level is secure for every level.
pub fn accepted_are_secure()
    ensures { (l : Levels) → (p : syntax.Program) → AreLevels (length p.vars) l → IsWellFormed p → IsAcceptedForAll l p → IsSecureForAll l p }
{
    shown_is_well_formed();
    accepted_is_secure();
}
