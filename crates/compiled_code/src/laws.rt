//! Laws of the code of a program: that it is code, and, where the program is accepted, what its runs are.

ghost use Rattle.cov_ast.specs.Plain.{plain};
ghost use Rattle.cov_ast.specs.Syntax as syntax;
ghost use Rattle.cov_ast.specs.WellFormed.{IsWellFormed};
ghost use Rattle.compiled_code.specs.Compiled.{compiled};
ghost use Rattle.compiled_code.specs.GoodCode.{IsGoodCode};
ghost use Rattle.compiled_code.specs.LoadBound.{MeetsLoadBound};
ghost use Rattle.compiled_code.specs.Matches.{Matches};
ghost use Rattle.compiled_code.specs.Records.{KeepsRecords};
ghost use Rattle.compiled_code.specs.SecureCode.{IsSecureCode};
ghost use Rattle.risc_machine.specs.Faults.{AreGood};
ghost use Rattle.typing_law.specs.Accepted.{IsAccepted};

use mode_compat::{sets_are_holdings, writable_and_stable_are_disjoint};
use typing_law::{accepted_is_secure, true_declarations_are_declared};

/// The code of an accepted program matches it: from every memory, whatever the registers have at the start, each run of the
/// code is the run of the program under the lifted schedule; a thread ends in the code where it ends in the program, and
/// makes a step of the program in time (the coupling of Sison and Murray).
///
/// It rests on what the rules of statements ask of held locks, of what may be written and of what is evaluated, and on the
/// compatibility of modes, and opens no certificate and no type.
pub fn compiled_matches()
    ensures { (p : syntax.Program) → IsWellFormed p → IsAccepted p → Matches p (compiled p) }
{
    sets_are_holdings();
    writable_and_stable_are_disjoint();
}

/// The code of an accepted program is secure: two runs from starts that agree on all that is low agree after each step, and
/// their threads stand at the same lines. It rests on the security of the program, at each schedule and its prefixes.
pub fn compiled_is_secure()
    ensures { (p : syntax.Program) → IsWellFormed p → IsAccepted p → IsSecureCode (plain p) (compiled p) }
{
    sets_are_holdings();
    writable_and_stable_are_disjoint();
    accepted_is_secure();
}

/// The code of an accepted program meets the load bound: where a body is straight, narrow and has few stable variables, each
/// variable is loaded once while it is stable. Of acceptance only the rules of declarations are used.
pub fn loads_are_few()
    ensures { (p : syntax.Program) → IsAccepted p → MeetsLoadBound (plain p) (compiled p) }
{
    true_declarations_are_declared();
}

/// What registers keep for a thread lasts while others run: at each state of a run of the code of an accepted program, a plan
/// whose record is true for a thread stays true under steps of other threads. Each variable that it keeps is stable for the
/// thread, so that no other may write it, and the locks that make it stable stay with the thread.
pub fn records_last()
    ensures { (p : syntax.Program) → IsWellFormed p → IsAccepted p → KeepsRecords (plain p) (compiled p) }
{
    sets_are_holdings();
    writable_and_stable_are_disjoint();
}

/// The code of an accepted program is good.
pub fn compiled_is_good()
    ensures { (p : syntax.Program) → IsWellFormed p → IsAccepted p → IsGoodCode p (compiled p) }
{
    compiled_matches();
    compiled_is_secure();
    loads_are_few();
}

/// The parts that are made of a well formed program, accepted or not, are code: no fault applies to them, and each number is
/// a word.
pub fn compiled_is_code()
    ensures { (p : syntax.Program) → IsWellFormed p → AreGood (compiled p) }
{}
