//! Laws of objects: functions with no body, whose contracts speak of all parts.

ghost use Rattle.std.specs.Prelude.{◌≡◌, List, ℕ, [], ◌++◌, Some};
ghost use Rattle.object_code.specs.Object.{HasObject, object};
ghost use Rattle.object_code.specs.ObjectAnswers.{IsFaultOfObject};
ghost use Rattle.risc_machine.specs.Faults.{fault_of};
ghost use Rattle.risc_machine.specs.declared.parts.CodeBad.{CodeBad};
ghost use Rattle.risc_machine.specs.declared.parts.Parts.{Parts};

/// No object is a proper prefix of another.
pub fn no_object_begins_another()
    ensures { (p q : Parts) → (rest : List ℕ) → HasObject p → HasObject q → object q ≡ object p ++ rest → rest ≡ [] }
{}

/// Parts with one object are the same.
pub fn objects_tell_code()
    ensures { (p q : Parts) → HasObject p → HasObject q → object p ≡ object q → p ≡ q }
{}

/// The fault of parts with an object is a name that equals an earlier one, or a target past the end.
pub fn objects_have_two_faults()
    ensures { (p : Parts) → HasObject p → (fault : CodeBad) → fault_of p ≡ Some fault → IsFaultOfObject fault }
{}
