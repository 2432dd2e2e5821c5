//! The rules of modes one after the other (W6 to W9).

ghost use Rattle.cov_ast.specs.View as view;
ghost use Rattle.cov_ast.specs.Obligations.{Decides};
ghost use Rattle.cov_ast.specs.WellFormed.{IsWellFormed};
ghost use Rattle.mode_compat.specs.Compatible as spec;

use crate::controls::{check_assumed_controls, check_lock_controls};
use crate::locked::check_unlocked;
use crate::pairs::check_guarantees;
use cov_ast::{CheckFault, Program};
use std::alloc::Global;

/// Refuses a program for the first variable under a lock that a thread assumes (W6); or else for the first control that
/// isn't kept with a variable under a lock (W7) or with one that a thread assumes (W8); or else for the first variable
/// that a thread assumes and another doesn't guarantee (W9).
pub fn check_modes(alloc: Global, p: &Program) -> Result<(), CheckFault>
    requires { IsWellFormed (view.program p.now) }
    ensures { Decides (spec.mode_obligations (view.program p.now)) result }
{
    if let Err(fault) = check_unlocked(alloc, p) {
        return Err(fault);
    }
    if let Err(fault) = check_lock_controls(alloc, p) {
        return Err(fault);
    }
    if let Err(fault) = check_assumed_controls(alloc, p) {
        return Err(fault);
    }
    check_guarantees(alloc, p)
}
