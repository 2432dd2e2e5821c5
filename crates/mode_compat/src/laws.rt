//! What the rules of modes give: what one thread may write is never stable for another.

ghost use Rattle.std.specs.Prelude.{◌≡◌, ℕ, List, Bool, IsTrue};
ghost use Rattle.cov_ast.specs.Syntax as syntax;
ghost use Rattle.cov_ast.specs.Plain.{Plain, plain};
ghost use Rattle.cov_ast.specs.Obligations.{all_hold};
ghost use Rattle.flow_model.specs.Composable.{HasCompatibleModes};
ghost use Rattle.flow_model.specs.Source.{Holders};
ghost use Rattle.mode_compat.specs.Declared.{declaration_obligations};
ghost use Rattle.mode_compat.specs.HeldSets.{AreHeldBy, AreSetsOf};

/// Where the rules of declarations hold and each lock has at most one holder, no variable is writable for one thread and
/// stable for another (the compatibility of modes of Mantel, Sands and Sudbrock, with the locks of COVERN).
pub fn writable_and_stable_are_disjoint()
    ensures { (p : syntax.Program) → IsTrue (all_hold (declaration_obligations p)) → HasCompatibleModes (plain p) }
{}

/// What the tests of a `ModeState` say for the locks that a thread holds is what is stable and writable for it.
pub fn sets_are_holdings()
    ensures { (p : Plain) → (h : Holders) → (t : ℕ) → (held : List Bool) → AreHeldBy h t held → AreSetsOf p h t held }
{}
