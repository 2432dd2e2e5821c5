//! Code: parts without a fault.

ghost use Rattle.std.specs.Prelude.{◌≡◌, [], MatchResult, Some};
ghost use Rattle.risc_machine.specs.Faults.{AreCounted, AreGood, fault_of, names_of, repeated};

use crate::faults::{first_fault, first_other_fault};
use crate::parts::{CodeBad, Parts};
use std::marker::Model;

/// Code: parts without a fault. Contracts see it as its parts.
pub struct Code {
    parts: Parts,
}

impl Drop for Code {
    fn drop(self) {
        let Code { parts } = self;
        drop(parts);
    }
}

impl Model for Code {
    ghost use Rattle.std.specs.Coded.{codes};
    ghost use Rattle.cov_expr.specs.contracts.expr.Op as op;
    ghost use Rattle.risc_machine.specs.contracts.parts.Instr as instr;
    ghost use Rattle.risc_machine.specs.contracts.parts.Line as line;
    ghost use Rattle.risc_machine.specs.contracts.parts.ThreadCode as thread;
    ghost use Rattle.risc_machine.specs.contracts.parts.Parts as parts;
    ghost use Rattle.risc_machine.specs.Faults.{AreGood};
    ghost use Rattle.risc_machine.specs.declared.parts.Parts.{Parts};

    ghost Value = { Parts };

    ghost coded = { Prim.hlevel (codes, op.the_row.coded, instr.the_row.coded) };

    ghost view = { λ c. c.parts };

    ghost invariant = { λ c. AreGood c.parts };
}

/// Parts that are no code, and their first fault.
#[derive(Drop)]
pub struct Rejected {
    pub parts: Parts,
    pub fault: CodeBad,
}

impl Code {
    /// The code of these parts. Parts with a fault come back with the first: the version, or else the first name that equals
    /// an earlier one, or else the first faulty line by thread and by position. It takes no memory, and compares
    /// each two names.
    pub fn new(parts: Parts) -> Result<Code, Rejected>
        requires { AreCounted parts }
        ensures { MatchResult result (λ code. (code ≡ parts) × (fault_of parts ≡ None)) (λ rejected. (rejected.parts ≡ parts) × (fault_of parts ≡ Some rejected.fault)) }
    {
        match first_fault(&parts) {
            None => Ok(Code { parts }),
            Some(fault) => Err(Rejected { parts, fault }),
        }
    }

    /// The code of parts of which the caller knows that no name equals an earlier one. It compares no names, and so takes
    /// linear time; else it is as `new`.
    pub fn with_distinct_names(parts: Parts) -> Result<Code, Rejected>
        requires counted { AreCounted parts }
        requires distinct { repeated [] (names_of parts) ≡ None }
        ensures { MatchResult result (λ code. (code ≡ parts) × (fault_of parts ≡ None)) (λ rejected. (rejected.parts ≡ parts) × (fault_of parts ≡ Some rejected.fault)) }
    {
        match first_other_fault(&parts) {
            None => Ok(Code { parts }),
            Some(fault) => Err(Rejected { parts, fault }),
        }
    }

    /// Its parts.
    pub fn parts(&self) -> &Parts
        ensures parts { result.now ≡ self.now }
        ensures good { AreGood self.now }
    {
        &self.parts
    }
}
