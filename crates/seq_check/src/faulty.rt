//! Faults of steps.
ghost use Rattle.std.specs.Prelude.{◌≡◌, IfOk, option_map};
ghost use Rattle.seq_check.specs.StepFaults.{under};
ghost use Rattle.seq_check.specs.Views.{own_view, faulty_view};

use code_check::CodeFault;
use dap_base::OutOfMemory;
use sequence_trees::{OutwardPath, Part};
use std::alloc::Global;

/// A fault, and the part of a step that has it.
#[derive(Clone, Copy, Debug, PartialEq, Eq)]
pub struct PartFault {
    pub part: Part,
    pub fault: CodeFault,
}

/// A fault of a step, seen from the list of steps that was gone through.
#[derive(Debug, Drop)]
pub struct FaultyStep {
    /// The path to that step.
    pub path: OutwardPath,
    /// The fault of the step itself.
    pub own: PartFault,
}

/// What of a set has a fault.
#[derive(Clone, Copy, Debug, PartialEq, Eq)]
pub enum Holder {
    Debugvars,
    /// The sequence of this number, counted from 0.
    Sequence(usize),
}

/// A fault of a set.
#[derive(Debug, Drop)]
pub struct HeldFault {
    pub holder: Holder,
    /// The fault, seen from the steps of the holder.
    pub faulty: FaultyStep,
}

/// The fault of a step itself, seen from that step.
pub fn at_own_step(alloc: Global, fault: PartFault) -> FaultyStep
    ensures { faulty_view result ≡ own_view fault }
{
    FaultyStep {
        path: OutwardPath::new(alloc),
        own: fault,
    }
}

/// The same fault, seen from the list in which the step has this number.
pub fn from_list(mut faulty: FaultyStep, number: u64) -> Result<FaultyStep, OutOfMemory>
    ensures { IfOk result (λ f. faulty_view f ≡ under number (faulty_view faulty)) }
{
    faulty.path.push(number)?;
    Ok(faulty)
}

/// The fault as one of this part.
pub fn in_part(part: Part, fault: Option<CodeFault>) -> Option<PartFault>
    ensures { result ≡ option_map (λ f. record { part = part; fault = f }) fault }
{
    match fault {
        Some(fault) => Some(PartFault { part, fault }),
        None => None,
    }
}
